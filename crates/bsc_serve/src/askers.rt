//! Askers in memory.
ghost use Rattle.std.specs.Prelude.{◌≡◌, [], Some};

use crate::asker_notes::AskerNotes;
use crate::stop_asker::StopAsker;
use bsc_hub::{HubStatus, Pass};
use bsc_outside::Sink;

/// Never asks for a stop.
#[derive(Clone, Copy, Debug, Drop)]
pub struct NeverAsks;

impl StopAsker for NeverAsks {
    ghost asked = { λ _. 0 };

    fn asks(&mut self, _pass: &Pass) -> bool {
        false
    }

    fn wants(&mut self, _is_last: bool) -> bool {
        false
    }

    fn show(&mut self, _status: HubStatus) {}

    fn end<K: Sink>(&mut self, _written: &K) {}
}

/// Asks for a stop once it was looked at so often. It tells how it was looked at, what it was shown, which it always wants, and
/// what was written when it was told of an end.
#[derive(Drop)]
pub struct MemAsker {
    /// At which look it asks first, counted from 1.
    from: u64,
    looks: u64,
    ends: u64,
    shows: u64,
    notes: AskerNotes,
}

impl MemAsker {
    /// One that asks from the look with this number on, counted from 1.
    pub fn at_look(from: u64) -> MemAsker
        ensures from { result.from ≡ from }
        ensures looks { result.looks ≡ 0 }
        ensures asked { result.notes.asked ≡ 0 }
        ensures seen { result.notes.looks.items ≡ [] }
        ensures endings { result.notes.endings.items ≡ [] }
        ensures statuses { result.notes.statuses.items ≡ [] }
    {
        MemAsker {
            from,
            looks: 0,
            ends: 0,
            shows: 0,
            notes: AskerNotes::new(),
        }
    }

    /// How often it was looked at.
    pub fn looks(&self) -> u64 {
        self.looks
    }

    /// How often it was shown how the hub is doing.
    pub fn shows(&self) -> u64 {
        self.shows
    }

    /// How often it was told of an end.
    pub fn ends(&self) -> u64 {
        self.ends
    }
}

impl StopAsker for MemAsker {
    ghost asked = { λ a. a.notes.asked };

    ghost looks = { λ a. Some a.notes.looks.items };

    ghost endings = { λ a. Some a.notes.endings.items };

    ghost statuses = { λ a. Some a.notes.statuses.items };

    fn asks(&mut self, pass: &Pass) -> bool {
        self.looks = self.looks.saturating_add(1);
        let answer = self.from <= self.looks;
        self.notes.answered(answer, pass);
        answer
    }

    fn wants(&mut self, _is_last: bool) -> bool {
        true
    }

    fn show(&mut self, status: HubStatus) {
        self.shows = self.shows.saturating_add(1);
        self.notes.shown(status);
    }

    fn end<K: Sink>(&mut self, written: &K) {
        self.ends = self.ends.saturating_add(1);
        self.notes.ended(written);
    }
}
