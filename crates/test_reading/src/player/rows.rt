//! Inputs of the small language with the texts that they come to, and what stands written after a read or a write that failed.
use bsc_player::PlayEnd;

/// An input that is read so many octets at a time, the reads and the writes that fail, how much the sink takes, and what
/// stands written at which end.
#[derive(Clone, Copy)]
pub struct Case {
    pub input: &'static str,
    pub most: usize,
    pub reads: &'static [u64],
    pub writes: &'static [u64],
    pub room: usize,
    pub text: &'static str,
    pub end: PlayEnd,
}

/// A play in which nothing fails.
const SURE: Case = Case {
    input: "",
    most: 50,
    reads: &[],
    writes: &[],
    room: 99,
    text: "",
    end: PlayEnd::Done,
};

/// Read six octets at a time, its first line comes with the first read, two more with the second, and the last
/// with the third; the fourth read finds the end.
const INPUT: &str = "begin\na\nbb\nccc\n";

/// The same without its last LF: the last line is known to be one only at the end.
const UNENDED: &str = "begin\na\nbb\nccc";

/// The third read gives an accepted line and a refused one.
const REFUSED: &str = "begin\na\nbb\nc\nstop\n";

/// A play of six octets a read, in which nothing fails.
const BY_SIX: Case = Case { most: 6, ..SURE };

pub const CASES: [Case; 21] = [
    Case {
        end: PlayEnd::BadLine { line: 1 },
        ..SURE
    },
    Case {
        input: "begin\na\r\n\nb",
        most: 1,
        text: "a\n\nb\n",
        ..SURE
    },
    Case {
        input: "begin\na\r\n\nb",
        text: "a\n\nb\n",
        ..SURE
    },
    Case {
        input: "begin\na\nstop\nb\n",
        text: "a\n",
        end: PlayEnd::BadLine { line: 3 },
        ..SURE
    },
    Case {
        input: "a\nbegin",
        end: PlayEnd::BadLine { line: 1 },
        ..SURE
    },
    // The text of the whole lines that were read.
    Case {
        input: INPUT,
        reads: &[1],
        text: "",
        end: PlayEnd::ReadFault,
        ..BY_SIX
    },
    Case {
        input: INPUT,
        reads: &[2],
        text: "",
        end: PlayEnd::ReadFault,
        ..BY_SIX
    },
    Case {
        input: INPUT,
        reads: &[3],
        text: "a\nbb\n",
        end: PlayEnd::ReadFault,
        ..BY_SIX
    },
    Case {
        input: INPUT,
        reads: &[4],
        text: "a\nbb\nccc\n",
        end: PlayEnd::ReadFault,
        ..BY_SIX
    },
    Case {
        input: INPUT,
        reads: &[5],
        text: "a\nbb\nccc\n",
        ..BY_SIX
    },
    Case {
        input: UNENDED,
        reads: &[4],
        text: "a\nbb\n",
        end: PlayEnd::ReadFault,
        ..BY_SIX
    },
    Case {
        input: UNENDED,
        text: "a\nbb\nccc\n",
        ..BY_SIX
    },
    // One write for each read whose lines have a text, and nothing after a write that failed.
    Case {
        input: INPUT,
        writes: &[1],
        text: "",
        end: PlayEnd::WriteFault,
        ..BY_SIX
    },
    Case {
        input: INPUT,
        writes: &[2],
        text: "a\nbb\n",
        end: PlayEnd::WriteFault,
        ..BY_SIX
    },
    Case {
        input: INPUT,
        writes: &[3],
        text: "a\nbb\nccc\n",
        ..BY_SIX
    },
    Case {
        input: UNENDED,
        writes: &[2],
        text: "a\nbb\n",
        end: PlayEnd::WriteFault,
        ..BY_SIX
    },
    Case {
        input: INPUT,
        room: 7,
        text: "a\nbb\ncc",
        end: PlayEnd::WriteFault,
        ..BY_SIX
    },
    // What was collected is written before the play ends.
    Case {
        input: REFUSED,
        text: "a\nbb\nc\n",
        end: PlayEnd::BadLine { line: 5 },
        ..BY_SIX
    },
    Case {
        input: REFUSED,
        writes: &[2],
        text: "a\nbb\n",
        end: PlayEnd::WriteFault,
        ..BY_SIX
    },
    Case {
        input: REFUSED,
        reads: &[3],
        text: "a\nbb\n",
        end: PlayEnd::ReadFault,
        ..BY_SIX
    },
    Case {
        input: INPUT,
        reads: &[3],
        writes: &[1],
        text: "",
        end: PlayEnd::WriteFault,
        ..BY_SIX
    },
];
