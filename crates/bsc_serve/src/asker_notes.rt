//! What an asker tells of itself.
ghost use Rattle.std.specs.Prelude.{◌≡◌, ◌≤◌, true, [], ◌∷◌, ◌++◌};
ghost use Rattle.bsc_outside.specs.Faults.{HasRisen};
ghost use Rattle.bsc_turn.specs.Passes.{own_list};
ghost use Rattle.bsc_serve.specs.Asking.{look_at};

use crate::session_look::SessionLook;
use bsc_hub::{HubStatus, Pass};
use bsc_octets::Octets;
use bsc_outside::Sink;
use bsc_past::{Happened, Past};

/// What an asker tells of itself: how often it asked, how it was looked at, what it was shown, and what was written when it was
/// told of an end. It takes no memory but for the count.
#[derive(Drop)]
pub struct AskerNotes {
    pub(crate) asked: u64,
    pub(crate) looks: Past<SessionLook>,
    pub(crate) endings: Past<Option<Octets>>,
    pub(crate) statuses: Past<HubStatus>,
}

/// What was answered at a look with this pass.
struct LookWith<'a> {
    pass: &'a Pass,
    asks: bool,
}

impl Drop for LookWith<'_> {
    fn drop(self) {
        let LookWith { pass: _, asks: _ } = self;
    }
}

impl Happened<SessionLook> for LookWith<'_> {
    ghost happened = { λ l. look_at (own_list l.pass.now) l.asks ∷ [] };
}

/// What is written, where it lies.
struct Written<'a, K>(&'a K);

impl<K> Drop for Written<'_, K> {
    fn drop(self) {
        let Written(_) = self;
    }
}

impl<K: Sink> Happened<Option<Octets>> for Written<'_, K> {
    ghost happened = { λ w. K.held w.0.now ∷ [] };
}

/// What was shown.
#[derive(Drop)]
struct ShownOnce(HubStatus);

impl Happened<HubStatus> for ShownOnce {
    ghost happened = { λ s. s.0 ∷ [] };
}

/// The count of those that asked, behind this answer.
fn counted(asked: u64, answer: bool) -> u64
    ensures asked { answer ≡ true → HasRisen asked result }
    ensures later { asked ≤ result }
{
    if answer {
        asked.saturating_add(1)
    } else {
        asked
    }
}

impl AskerNotes {
    /// It wasn't looked at, and nothing has ended.
    pub fn new() -> AskerNotes
        ensures asked { result.asked ≡ 0 }
        ensures looks { result.looks.items ≡ [] }
        ensures endings { result.endings.items ≡ [] }
        ensures statuses { result.statuses.items ≡ [] }
    {
        AskerNotes {
            asked: 0,
            looks: Past::new(),
            endings: Past::new(),
            statuses: Past::new(),
        }
    }

    /// This was answered at a look with this pass.
    pub fn answered(&mut self, asks: bool, pass: &Pass)
        ensures looks { self.new.looks.items ≡ self.old.looks.items ++ look_at (own_list pass.now) asks ∷ [] }
        ensures asked { asks ≡ true → HasRisen self.old.asked self.new.asked }
        ensures later { self.old.asked ≤ self.new.asked }
        ensures endings { self.new.endings ≡ self.old.endings }
        ensures statuses { self.new.statuses ≡ self.old.statuses }
    {
        self.asked = counted(self.asked, asks);
        self.looks.note(&LookWith { pass, asks });
    }

    /// The hub is doing so.
    pub fn shown(&mut self, status: HubStatus)
        ensures statuses { self.new.statuses.items ≡ self.old.statuses.items ++ status ∷ [] }
        ensures looks { self.new.looks ≡ self.old.looks }
        ensures asked { self.new.asked ≡ self.old.asked }
        ensures endings { self.new.endings ≡ self.old.endings }
    {
        self.statuses.note(&ShownOnce(status));
    }

    /// A hub has ended, and this was written.
    pub fn ended<K: Sink>(&mut self, written: &K)
        ensures endings { self.new.endings.items ≡ self.old.endings.items ++ K.held written.now ∷ [] }
        ensures looks { self.new.looks ≡ self.old.looks }
        ensures asked { self.new.asked ≡ self.old.asked }
        ensures statuses { self.new.statuses ≡ self.old.statuses }
    {
        self.endings.note(&Written(written));
    }
}
