//! A sink that notes its last line.
ghost use Rattle.std.specs.Prelude.{◌≡◌};

use bsc_outside::{Failed, Sink};
use bsc_text::read_number;

/// A sink over another, which notes the number of a refused line that is written as the last line of a run.
#[derive(Drop)]
pub struct NotedSink<K> {
    sink: K,
    line: Option<u64>,
}

impl<K: Sink> NotedSink<K> {
    /// A sink over this one.
    pub fn new(sink: K) -> NotedSink<K>
        ensures { result.sink ≡ sink }
    {
        NotedSink { sink, line: None }
    }

    /// The number of the line that was refused, if one was.
    pub fn line(&self) -> Option<u64> {
        self.line
    }
}

/// The number of the line that a last line says is refused.
fn refused_in(line: &[u8]) -> Option<u64> {
    let rest = line.strip_prefix(b"fault script line ")?;
    read_number(rest.strip_suffix(b"\n")?)
}

impl<K: Sink> Sink for NotedSink<K> {
    ghost faults = { λ s. K.faults s.sink };

    ghost held = { λ s. K.held s.sink };

    fn write(&mut self, from: &[u8]) -> Result<(), Failed> {
        self.line = refused_in(from);
        self.sink.write(from)
    }
}
