//! Sinks over writers.
ghost use Rattle.std.specs.Prelude.{◌≡◌, ◌<◌, ◌⊎◌, true, None, Ok, IsErr, IfSome};
ghost use Rattle.std.specs.Io.KnownBytes.{Appends};
ghost use Rattle.bsc_outside.specs.Faults.{PutsPrefix};

use crate::stream::{Failed, Sink};
use std::io::{self, Write};

/// A sink over any writer. It tells what it holds where the writer does.
#[derive(Drop)]
pub struct WriterSink<W> {
    writer: W,
    faults: u64,
}

impl<W: Write> WriterSink<W> {
    /// A sink over this writer, with no faults yet.
    pub fn new(writer: W) -> WriterSink<W>
        ensures faults { result.faults ≡ 0 }
        ensures writer { result.writer ≡ writer }
    {
        WriterSink { writer, faults: 0 }
    }
}

/// How many octets a writer took, by its own answer; None where its call failed or took nothing.
fn taken(answer: io::Result<usize>) -> Option<usize>
    ensures some { IfSome result (λ n. (answer ≡ Ok n) × (0 < n)) }
    ensures none { result ≡ None → IsErr answer ⊎ (answer ≡ Ok 0) }
{
    match answer {
        Ok(0) => None,
        Ok(n) => Some(n),
        Err(_) => None,
    }
}

/// Writes all of `from`, and says whether that was done. A writer that takes nothing, although octets are
/// there, is at fault.
fn put_all<W: Write>(writer: &mut W, from: &[u8]) -> bool
    ensures all { result ≡ true → Appends (W.contents writer.old) (W.contents writer.new) from.now }
    ensures some { PutsPrefix (W.contents writer.old) (W.contents writer.new) from.now }
{
    let mut at = 0;
    while at < from.len() {
        let (_, rest) = from.split_at(at);
        match taken(writer.write(rest)) {
            None => return false,
            Some(n) => at += n,
        }
    }
    true
}

impl<W: Write> Sink for WriterSink<W> {
    ghost faults = { λ s. s.faults };

    ghost held = { λ s. W.contents s.writer };

    fn write(&mut self, from: &[u8]) -> Result<(), Failed> {
        if put_all(&mut self.writer, from) {
            Ok(())
        } else {
            self.faults = self.faults.saturating_add(1);
            Err(Failed)
        }
    }
}
