// A line of digits read into a frame, and a frame written as its line.
ghost use Rattle.std.specs.Prelude.{◌≡◌};
ghost use Rattle.frames.specs.Lines.{wrong_size, line_fault, granted, frame_after, held, line_of, typed, shown};

use crate::digits::{digit, letter};
use crate::fault::LineFault;
use crate::frame::Frame;

// The characters in front, and how many there are: by value, so that nothing is allocated.
// Not one struct with Frame over a size: `bytes` and `text` would lose their names, for one method less.
#[derive(Clone, Copy, PartialEq, Eq, Debug)]
pub struct Line {
    pub text: [u8; 64],
    pub len: usize,
}

fn wrong_size(n: usize) -> bool
    ensures { result ≡ wrong_size n }
{
    n == 0 || n % 2 == 1 || n > 64
}

// By a rule of the project the reader, which may refuse, fills a frame that is lent; a refused line leaves it as it was.
pub(crate) fn read_line(line: &[u8], frame: &mut Frame) -> Result<(), LineFault>
    ensures answer { result ≡ granted (line_fault line.now) }
    ensures after { frame.new ≡ frame_after frame.old line.now }
{
    if wrong_size(line.len()) {
        return Err(LineFault::WrongSize);
    }
    let (pairs, _) = line.as_chunks::<2>();
    let mut bytes = [0u8; 32];
    // By index: a proof knows nothing of an array whose places a zip lent.
    for (i, [high, low]) in pairs.iter().enumerate() {
        let high = digit(*high as char)?;
        let low = digit(*low as char)?;
        bytes[i] = high * 16 + low;
    }
    *frame = Frame {
        bytes,
        len: pairs.len(),
    };
    Ok(())
}

pub(crate) fn write_line(frame: &Frame) -> Line
    ensures { result ≡ typed (line_of (held frame.now)) }
{
    let bytes = frame.contents();
    let mut text = [0u8; 64];
    // By index: what as_chunks_mut lends is unknown once it is written, and with it the text.
    for (i, b) in bytes.iter().enumerate() {
        text[2 * i] = letter(b / 16);
        text[2 * i + 1] = letter(*b);
    }
    Line {
        text,
        len: 2 * bytes.len(),
    }
}

pub fn characters(line: &Line) -> &[u8]
    ensures { result.now ≡ shown line.now }
{
    &line.text[..line.len.min(64)]
}
