//! A source that keeps what it read.
ghost use Rattle.std.specs.Prelude.{◌≡◌};

use crate::recorders::recent_input::RecentInput;
use bsc_outside::{Failed, Source};
use std::alloc::Global;
use std::io::{self, Read};

/// A source over any reader, which keeps the newest octets that it gave, and why its last read failed. It tells what is left
/// where the reader does.
#[derive(Drop)]
pub struct KeptSource<R> {
    reader: R,
    faults: u64,
    kept: RecentInput,
    error: Option<io::Error>,
}

impl<R: Read> KeptSource<R> {
    /// A source over this reader, with no faults yet.
    pub fn new(alloc: Global, reader: R) -> KeptSource<R>
        ensures faults { result.faults ≡ 0 }
        ensures reader { result.reader ≡ reader }
    {
        KeptSource {
            reader,
            faults: 0,
            kept: RecentInput::new(alloc),
            error: None,
        }
    }

    /// What is kept.
    pub fn kept(&self) -> &RecentInput {
        &self.kept
    }

    /// Why the last read failed, if one did.
    pub fn error(&self) -> Option<io::Error> {
        self.error
    }
}

impl<R: Read> Source for KeptSource<R> {
    ghost faults = { λ s. s.faults };

    ghost left = { λ s. R.remaining s.reader };

    fn read(&mut self, into: &mut [u8]) -> Result<usize, Failed> {
        match self.reader.read(into) {
            Ok(n) => {
                if let Some(octets) = into.get(..n) {
                    self.kept.keep(octets);
                }
                Ok(n)
            }
            Err(error) => {
                self.faults = self.faults.saturating_add(1);
                self.error = Some(error);
                Err(Failed)
            }
        }
    }
}
