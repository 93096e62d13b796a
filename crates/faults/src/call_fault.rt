// What a call can be refused for, in the order of the numbers 6 to 17.
ghost use Rattle.std.specs.Prelude.{◌≡◌};
ghost use Rattle.faults.specs.Numbers.{number_of};

#[derive(Clone, Copy, PartialEq, Eq, Debug)]
pub enum CallFault {
    // an opening has more persons, or longer rows, than are allowed
    TooLarge = 6,
    // an opening's memory is shorter than its kind needs
    ShortMemory = 7,
    // a person of a link, an unlink or a regrade is not below the number of persons
    NoSuchPerson = 8,
    // the two persons of a link or an unlink are one
    SamePerson = 9,
    // the pair to link is linked
    AlreadyLinked = 10,
    // the pair to unlink is not linked
    NotLinked = 11,
    // a person to link has at least as many links as the ceiling
    AtCeiling = 12,
    // a query has a k, an r or a choice outside its limits
    BadQuery = 13,
    // there is no valid tree
    NoTree = 14,
    // scratch or heap places are short
    ShortScratch = 15,
    // the result needs more places than it is lent
    NoRoom = 16,
    // the person is the weakest of no circle for k
    NotWeakest = 17,
}

// The number by which a refusal is told. No Display or Error: one program prints a refusal, in one place, and there it is this number.
impl From<CallFault> for u8 {
    ghost from_gives = { λ fault number. number ≡ number_of fault };

    fn from(fault: CallFault) -> u8 {
        fault as u8
    }
}
