//! Refused lines that are kept in memory.
ghost use Rattle.std.specs.Prelude.{◌≡◌, [], ◌∷◌};
ghost use Rattle.bsc_live_lines.specs.Refusals.{refusal_of};

use crate::refusal::{Refusal, Refused};
use crate::refusals::Refusals;
use bsc_octets::Octets;
use bsc_past::{Happened, Past};
use std::alloc::Global;

/// A line that was told.
struct Told<'a>(Refused<'a>);

impl Drop for Told<'_> {
    fn drop(self) {
        let Told(_) = self;
    }
}

impl Happened<Refusal> for Told<'_> {
    ghost happened = { λ t. refusal_of t.0 ∷ [] };
}

/// Keeps the lines that it is told of, while there is memory for them. To contracts it tells all.
#[derive(Drop)]
pub struct MemRefusals {
    alloc: Global,
    kept: Vec<Refusal>,
    told: Past<Refusal>,
}

impl MemRefusals {
    /// No line was told yet.
    pub fn new(alloc: Global) -> MemRefusals
        ensures told { result.told.items ≡ [] }
    {
        MemRefusals {
            alloc,
            kept: Vec::new(alloc),
            told: Past::new(),
        }
    }

    /// The lines that were kept, in order.
    pub fn kept(&self) -> &[Refusal] {
        self.kept.as_slice()
    }
}

impl Refusals for MemRefusals {
    ghost told = { λ r. r.told.items };

    fn tell(&mut self, line: Refused<'_>) {
        self.told.note(&Told(line));
        if let Ok(text) = Vec::from_slice(self.alloc, line.text) {
            let _ = self.kept.push(Refusal {
                number: line.number,
                text: Octets::from_vec(text),
                has_finished: line.has_finished,
            });
        }
    }
}
