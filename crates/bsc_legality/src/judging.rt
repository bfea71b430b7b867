//! Whether histories are legal, entry by entry.
#![tactic(auto)]

ghost use Rattle.std.specs.Prelude.{◌≡◌, ◌<◌, ◌≤◌, ◌+◌, ◌^◌, ◌↔◌, ◌++◌, ◌∷◌, [], List, IfOk, IsTrue, false};
ghost use Rattle.bsc_history.specs.declared.limits.About.{About as AboutOf};
ghost use Rattle.bsc_history.specs.declared.entry.Entry.{Entry as EntryOf};
ghost use Rattle.bsc_history.specs.Legality.{Legal};
ghost use Rattle.bsc_legality.specs.Standing.{LegalityStands};

use crate::counting::NOTHING;
use crate::legality::Legality;
use bsc_history::{About, Entry};
use bsc_octets::NoMemory;
use std::alloc::Global;

impl Legality {
    /// What stands for no entries of the hub `about`. It takes all the memory that it ever takes: less than
    /// 100 octets for each of the rows that the limits allow, at most 1,024 in a hub.
    pub fn make(alloc: Global, about: &About) -> Result<Legality, NoMemory>
        ensures stands { IfOk result (λ l. LegalityStands l about.now []) }
        ensures none { IfOk result (λ l. l.entries ≡ 0) }
    {
        Ok(Legality {
            about: *about,
            stopped: false,
            entries: 0,
            counts: NOTHING,
            rows: Vec::with_capacity(alloc, about.limits.rows as usize)?,
        })
    }

    /// Whether the history is still legal with this entry behind it; where it is, the state stands for it from
    /// then on. No memory is taken. At most 2^31 entries are judged.
    pub fn entry(&mut self, entry: &Entry) -> bool
        requires some { (about : AboutOf) × (H : List EntryOf) × LegalityStands self.old about H }
        requires few { self.old.entries < 2 ^ 31 }
        ensures legal { (about : AboutOf) (H : List EntryOf) → LegalityStands self.old about H →
            IsTrue result ↔ Legal about (H ++ entry.now ∷ []) }
        ensures stands { (about : AboutOf) (H : List EntryOf) → LegalityStands self.old about H → IsTrue result →
            LegalityStands self.new about (H ++ entry.now ∷ []) }

        // An entry with which the history isn't legal changes nothing.
        ensures unchanged { result ≡ false → self.new ≡ self.old }

        // So the state goes on to stand for some history.
        ensures goes_on { (about : AboutOf) × (H : List EntryOf) × LegalityStands self.new about H }
        ensures count { self.new.entries ≤ self.old.entries + 1 }
    {
        if self.accepts(entry) {
            self.follow(entry);
            true
        } else {
            false
        }
    }
}
