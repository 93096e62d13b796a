// Example lines, each with the frame that it stands for.
ghost use Rattle.std.specs.Prelude.{◌≡◌, true};
ghost use Rattle.std.specs.List.{AllByRecursion};
ghost use Rattle.frames.specs.Examples.{Stands};

use crate::frame::Frame;

#[derive(Clone, Copy, PartialEq, Eq, Debug)]
pub struct Example {
    // a number, since a row is of either side
    pub kind: u8,
    pub frame: Frame,
    // As many characters as twice the length: a clause cannot name a table that holds references.
    pub line: [u8; 16],
}

// A session over points: five requests, and what they are answered.
pub static EXAMPLES: [Example; 13] = [
    Example {
        kind: 0x01,
        frame: Frame {
            bytes: *b"\x01\x00\x02\xFD\0\0\0\0\0\0\0\0\0\0\0\0\0\0\0\0\0\0\0\0\0\0\0\0\0\0\0\0",
            len: 4,
        },
        line: *b"010002FD\0\0\0\0\0\0\0\0",
    },
    Example {
        kind: 0x02,
        frame: Frame {
            bytes: *b"\x02\x00\x01\x00\x00\x00\x09\xF4\0\0\0\0\0\0\0\0\0\0\0\0\0\0\0\0\0\0\0\0\0\0\0\0",
            len: 8,
        },
        line: *b"02000100000009F4",
    },
    Example {
        kind: 0x03,
        frame: Frame {
            bytes: *b"\x03\x00\x00\x00\x01\xFC\0\0\0\0\0\0\0\0\0\0\0\0\0\0\0\0\0\0\0\0\0\0\0\0\0\0",
            len: 6,
        },
        line: *b"0300000001FC\0\0\0\0",
    },
    Example {
        kind: 0x05,
        frame: Frame {
            bytes: *b"\x05\x00\x01\x00\x01\x00\xF9\0\0\0\0\0\0\0\0\0\0\0\0\0\0\0\0\0\0\0\0\0\0\0\0\0",
            len: 7,
        },
        line: *b"050001000100F9\0\0",
    },
    Example {
        kind: 0x03,
        frame: Frame {
            bytes: *b"\x03\x00\x01\x00\x00\xFC\0\0\0\0\0\0\0\0\0\0\0\0\0\0\0\0\0\0\0\0\0\0\0\0\0\0",
            len: 6,
        },
        line: *b"0300010000FC\0\0\0\0",
    },
    Example {
        kind: 0x80,
        frame: Frame {
            bytes: *b"\x80\x01\x7F\0\0\0\0\0\0\0\0\0\0\0\0\0\0\0\0\0\0\0\0\0\0\0\0\0\0\0\0\0",
            len: 3,
        },
        line: *b"80017F\0\0\0\0\0\0\0\0\0\0",
    },
    Example {
        kind: 0x80,
        frame: Frame {
            bytes: *b"\x80\x02\x7E\0\0\0\0\0\0\0\0\0\0\0\0\0\0\0\0\0\0\0\0\0\0\0\0\0\0\0\0\0",
            len: 3,
        },
        line: *b"80027E\0\0\0\0\0\0\0\0\0\0",
    },
    Example {
        kind: 0x80,
        frame: Frame {
            bytes: *b"\x80\x03\x7D\0\0\0\0\0\0\0\0\0\0\0\0\0\0\0\0\0\0\0\0\0\0\0\0\0\0\0\0\0",
            len: 3,
        },
        line: *b"80037D\0\0\0\0\0\0\0\0\0\0",
    },
    Example {
        kind: 0x82,
        frame: Frame {
            bytes: *b"\x82\x00\x00\x00\x02\x7C\0\0\0\0\0\0\0\0\0\0\0\0\0\0\0\0\0\0\0\0\0\0\0\0\0\0",
            len: 6,
        },
        line: *b"82000000027C\0\0\0\0",
    },
    Example {
        kind: 0x83,
        frame: Frame {
            bytes: *b"\x83\x00\x00\x7D\0\0\0\0\0\0\0\0\0\0\0\0\0\0\0\0\0\0\0\0\0\0\0\0\0\0\0\0",
            len: 4,
        },
        line: *b"8300007D\0\0\0\0\0\0\0\0",
    },
    Example {
        kind: 0x83,
        frame: Frame {
            bytes: *b"\x83\x00\x01\x7C\0\0\0\0\0\0\0\0\0\0\0\0\0\0\0\0\0\0\0\0\0\0\0\0\0\0\0\0",
            len: 4,
        },
        line: *b"8300017C\0\0\0\0\0\0\0\0",
    },
    Example {
        kind: 0x80,
        frame: Frame {
            bytes: *b"\x80\x05\x7B\0\0\0\0\0\0\0\0\0\0\0\0\0\0\0\0\0\0\0\0\0\0\0\0\0\0\0\0\0",
            len: 3,
        },
        line: *b"80057B\0\0\0\0\0\0\0\0\0\0",
    },
    Example {
        kind: 0xFF,
        frame: Frame {
            bytes: *b"\xFF\x0A\x03\x00\x00\x00\x05\xEF\0\0\0\0\0\0\0\0\0\0\0\0\0\0\0\0\0\0\0\0\0\0\0\0",
            len: 8,
        },
        line: *b"FF0A0300000005EF",
    },
];

// Each line stands for its frame.
pub fn examples_stand()
    ensures { AllByRecursion Stands EXAMPLES }
{}
