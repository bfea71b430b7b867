//! Lines that are refused as a node runs, on standard error.
ghost use Rattle.std.specs.Prelude.{◌≡◌, [], ◌∷◌};
ghost use Rattle.bsc_live_lines.specs.Refusals.{refusal_of};

use crate::refusal_cause::{RefusalCause, why_refused};
use bsc_live_lines::{Refusal, Refusals, Refused};
use bsc_past::{Happened, Past};
use std::alloc::Global;
use std::fmt::{self, Display, Formatter, Write};
use std::io::Eprint;

/// A line that is refused, and why, as it is told.
#[derive(Clone, Copy)]
struct RefusedLine<'a> {
    line: Refused<'a>,
    why: RefusalCause<'a>,
}

impl Display for RefusedLine<'_> {
    ghost use Rattle.bsc_why.specs.Refusals.{refused_text};

    ghost output = { λ l. refused_text l.line.number l.why };

    fn fmt<W: Write>(&self, f: &mut Formatter<W>) -> fmt::Result {
        let number = self.line.number;
        let why = self.why;
        write!(f, "refused line {number}: {why}")
    }
}

impl Happened<Refusal> for RefusedLine<'_> {
    ghost happened = { λ l. refusal_of l.line ∷ [] };
}

/// Tells of refused lines on standard error: a line of each, which says its number and why it is refused.
#[derive(Drop)]
pub struct StderrRefusals<R> {
    rt: R,
    alloc: Global,
    told: Past<Refusal>,
}

impl<R: Eprint> StderrRefusals<R> {
    /// No line was told yet.
    pub fn new(rt: R, alloc: Global) -> StderrRefusals<R>
        ensures told { result.told.items ≡ [] }
    {
        StderrRefusals {
            rt,
            alloc,
            told: Past::new(),
        }
    }
}

impl<R: Eprint> Refusals for StderrRefusals<R> {
    ghost told = { λ r. r.told.items };

    fn tell(&mut self, line: Refused<'_>) {
        let refused = RefusedLine {
            line,
            why: why_refused(self.alloc, line),
        };
        self.told.note(&refused);
        // Where nobody can be told, the node goes on all the same.
        let _ = eprintln!(self.rt; "{refused}");
    }
}
