// What a line and a frame can be refused for, in the order of the numbers 1 to 5.
ghost use Rattle.std.specs.Prelude.{◌≡◌};
ghost use Rattle.frames.specs.declared.fault.FrameFault.TheVariants.{Line};
ghost use Rattle.frames.specs.Refusals.{fault_number, fault_layer, layer_number, layer_of, meant};

#[derive(Clone, Copy, PartialEq, Eq, Debug)]
pub enum LineFault {
    // the line is empty, has an odd number of characters or more than 64
    WrongSize,
    // a character is no digit
    NoDigit,
}

#[derive(Clone, Copy, PartialEq, Eq, Debug)]
pub enum FrameFault {
    // there is no frame: the line was refused
    Line(LineFault),
    // the kind is unknown, or goes the other way
    UnknownKind,
    // the length is not that of the kind
    WrongLength,
    // the sum of all bytes is no multiple of 256
    WrongCheck,
}

impl From<LineFault> for FrameFault {
    ghost from_gives = { λ e r. r ≡ Line e };

    fn from(fault: LineFault) -> FrameFault {
        FrameFault::Line(fault)
    }
}

// The number by which a refusal is told. No Display or Error: nothing prints a refusal of a frame; its number goes into a reply.
impl From<FrameFault> for u8 {
    ghost from_gives = { λ f n. n ≡ fault_number f };

    fn from(fault: FrameFault) -> u8 {
        match fault {
            FrameFault::Line(LineFault::WrongSize) => 1,
            FrameFault::Line(LineFault::NoDigit) => 2,
            FrameFault::UnknownKind => 3,
            FrameFault::WrongLength => 4,
            FrameFault::WrongCheck => 5,
        }
    }
}

// Where a refusal comes from.
#[derive(Clone, Copy, PartialEq, Eq, Debug)]
pub enum Layer {
    Line = 1,
    Frame = 2,
    Call = 3,
}

impl From<FrameFault> for Layer {
    ghost from_gives = { λ f l. l ≡ fault_layer f };

    fn from(fault: FrameFault) -> Layer {
        match fault {
            FrameFault::Line(_) => Layer::Line,
            FrameFault::UnknownKind | FrameFault::WrongLength | FrameFault::WrongCheck =>
                Layer::Frame,
        }
    }
}

impl From<Layer> for u8 {
    ghost from_gives = { λ l n. n ≡ layer_number l };

    fn from(layer: Layer) -> u8 {
        layer as u8
    }
}

// The numbers stand again: the language has no conversion back from a discriminant.
impl TryFrom<u8> for Layer {
    type Error = FrameFault;

    ghost try_from_gives = { λ b r. r ≡ meant (layer_of b) };

    fn try_from(number: u8) -> Result<Layer, FrameFault> {
        match number {
            1 => Ok(Layer::Line),
            2 => Ok(Layer::Frame),
            3 => Ok(Layer::Call),
            _ => Err(FrameFault::UnknownKind),
        }
    }
}
