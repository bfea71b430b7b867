//! Sources over readers.
ghost use Rattle.std.specs.Prelude.{◌≡◌, Ok, Err, IsErr, IfOk};

use crate::stream::{Failed, Source};
use std::io::{self, Read};

/// A source over any reader. It tells what is left where the reader does.
#[derive(Drop)]
pub struct ReaderSource<R> {
    reader: R,
    faults: u64,
}

impl<R: Read> ReaderSource<R> {
    /// A source over this reader, with no faults yet.
    pub fn new(reader: R) -> ReaderSource<R>
        ensures faults { result.faults ≡ 0 }
        ensures reader { result.reader ≡ reader }
    {
        ReaderSource { reader, faults: 0 }
    }
}

/// The answer of a source by its reader's own: a fault exactly where the reader's call failed.
fn told(answer: io::Result<usize>) -> Result<usize, Failed>
    ensures ok { IfOk answer (λ n. result ≡ Ok n) }
    ensures err { IsErr answer → IsErr result }
{
    answer.map_err(|_| Failed)
}

impl<R: Read> Source for ReaderSource<R> {
    ghost faults = { λ s. s.faults };

    ghost left = { λ s. R.remaining s.reader };

    fn read(&mut self, into: &mut [u8]) -> Result<usize, Failed> {
        let answer = told(self.reader.read(into));
        if answer.is_err() {
            self.faults = self.faults.saturating_add(1);
        }
        answer
    }
}
