//! Journals.
ghost use Rattle.std.specs.Prelude.{◌≡◌, ◌≤◌, true, false, None, Err, IsErr, OnOk, OnErr};
ghost use Rattle.std.specs.Io.KnownBytes.{Appends};
ghost use Rattle.bsc_outside.specs.Faults.{HasRisen, PutsPrefix};
ghost use Rattle.bsc_edge.specs.declared.fault.LinkFault.{LinkFault};
ghost use Rattle.bsc_session.specs.Notes.Notes.{NoteHasOctets, line_of};
ghost use Rattle.bsc_session.specs.Notes.Noting.{note_of};

use crate::notes::noted::Noted;
use crate::notes::octets::has_octets;
use crate::notes::writing::line_of;
use bsc_edge::LinkFault;
use bsc_outside::Sink;
use std::alloc::Global;

/// Where a caller of a hub notes what it did, a line each.
pub trait Journal {
    ghost use Rattle.std.specs.Prelude.{Bool, List, ℕ, Option};

    /// How many lines couldn't be put, up to the greatest `u64`.
    ghost faults: { Self → ℕ };

    /// The octets that it holds, where it tells them.
    ghost held: { Self → Option (List ℕ) };

    /// Whether lines are made at all.
    ghost makes_lines: { Bool };

    /// Puts the line of what is noted. One that can't be put is there in part, or not at all. The octets of what is noted are
    /// octets.
    fn note(&mut self, alloc: Global, noted: &Noted<'_>) -> Result<(), LinkFault>
        ensures octets { NoteHasOctets (note_of noted.now) }
        ensures made { IsErr result → makes_lines ≡ true }
        ensures later { faults self.old ≤ faults self.new }
        ensures failed { result ≡ Err LinkFault.Failed → HasRisen (faults self.old) (faults self.new) }
        ensures put { OnOk result (Appends (held self.old) (held self.new) (line_of (note_of noted.now))) }
        ensures part { OnErr result (PutsPrefix (held self.old) (held self.new) (line_of (note_of noted.now))) };
}

/// A journal that drops what is noted. No line is made, no memory is taken, and nothing fails.
#[derive(Clone, Copy)]
pub struct NoJournal;

impl Journal for NoJournal {
    ghost faults = { λ _. 0 };

    ghost held = { λ _. None };

    ghost makes_lines = { false };

    fn note(&mut self, _alloc: Global, noted: &Noted<'_>) -> Result<(), LinkFault> {
        has_octets(noted);
        Ok(())
    }
}

impl<K: Sink> Journal for K {
    ghost faults = { λ j. K.faults j };

    ghost held = { λ j. K.held j };

    ghost makes_lines = { true };

    fn note(&mut self, alloc: Global, noted: &Noted<'_>) -> Result<(), LinkFault> {
        has_octets(noted);
        let Ok(line) = line_of(alloc, noted) else {
            return Err(LinkFault::NoMemory);
        };
        match self.write(line.as_slice()) {
            Ok(()) => Ok(()),
            Err(_) => Err(LinkFault::Failed),
        }
    }
}
