// The bytes of a message in a row of 32 places.
ghost use Rattle.std.specs.Prelude.{◌≡◌, ◌≤◌, length};
ghost use Rattle.std.specs.List.{flat_map};
ghost use Rattle.frames.specs.Lines.{padded};

use grades::places::write_front;

// The parts one behind the other, the places behind them 0. The row is an array by value, so what is written is counted.
pub(crate) fn row(parts: &[&[u8]]) -> [u8; 32]
    requires { length (flat_map (λ part. part.now) parts.now) ≤ 32 }
    ensures { result ≡ padded (flat_map (λ part. part.now) parts.now) }
{
    let mut bytes = [0; 32];
    let mut len = 0;
    for part in parts {
        write_front(part, &mut bytes[len..]);
        len += part.len();
    }
    bytes
}
