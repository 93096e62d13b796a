// Example lines run, and lines that are refused.
use crate::examples::{EXAMPLES, Example};
use crate::frame::Frame;
use crate::line::{read_line, write_line};
use crate::{characters, read_request};
use grades::{Laurels, Points, Wire};

fn runs(row: &Example) -> bool {
    let line = &row.line[..2 * row.frame.len.min(8)];
    let mut frame = Frame::BLANK;
    read_line(line, &mut frame).is_ok()
        && frame == row.frame
        && characters(&write_line(&frame)) == line
}

#[test]
fn examples_run(rt: HostRuntime) {
    for row in EXAMPLES.iter() {
        assert!(rt; runs(row));
    }
}

// The number of the refusal, if any.
fn refusal<G: Wire>(line: &str) -> Option<u8> {
    read_request::<G>(line.as_bytes()).err().map(u8::from)
}

// What a line is refused for, over points and over laurels.
static ROWS: [(&str, Option<u8>, Option<u8>); 14] = [
    ("", Some(1), Some(1)),
    ("0", Some(1), Some(1)),
    ("G", Some(1), Some(1)),
    ("GG", Some(2), Some(2)),
    ("010002fd", Some(2), Some(2)),
    ("0100 2FD", Some(2), Some(2)),
    ("00", Some(3), Some(3)),
    ("0A", Some(3), Some(3)),
    ("80017F", Some(3), Some(3)),
    ("0100", Some(4), Some(4)),
    ("01000200FD", Some(4), Some(4)),
    ("010002FE", Some(5), Some(5)),
    ("02000100000009F4", None, Some(4)),
    ("0200010300000009F1", Some(4), None),
];

#[test]
fn first_refusals_are_told(rt: HostRuntime) {
    for (line, points, laurels) in ROWS {
        assert_eq!(rt; refusal::<Points>(line), points);
        assert_eq!(rt; refusal::<Laurels>(line), laurels);
    }
}
