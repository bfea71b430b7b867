//! The lists of a broadcast.
#![tactic(auto)]

ghost use Rattle.std.specs.Prelude.{ℕ, ◌∷◌, ◌++◌, [], List, ◌+◌, IfOk};
ghost use Rattle.bsc_desk.specs.declared.fate.Fate.{Fate};
ghost use Rattle.bsc_desk.specs.Fates.{HasRoom, Tell};

use crate::fate::Fate;
use bsc_history::Look;
use bsc_octets::NoMemory;
use std::alloc::Global;

/// What is told of a broadcast while it goes through the rows. Room for it was reserved before.
#[derive(Drop)]
pub(crate) struct Notes {
    pub(crate) to: Vec<u64>,
    pub(crate) missed: Vec<u64>,
    pub(crate) skipped: Vec<u64>,
    pub(crate) looks: Vec<Look>,
}

impl Notes {
    /// Empty lists with room for so many rows.
    pub(crate) fn make(alloc: Global, rows: usize) -> Result<Notes, NoMemory>
        ensures empty { IfOk result (λ n. Tell n []) }
        ensures room { IfOk result (λ n. HasRoom n rows) }
    {
        Ok(Notes {
            to: Vec::with_capacity(alloc, rows)?,
            missed: Vec::with_capacity(alloc, rows)?,
            skipped: Vec::with_capacity(alloc, rows)?,
            looks: Vec::with_capacity(alloc, rows)?,
        })
    }

    /// Notes what became of the frame at one more row.
    pub(crate) fn note(&mut self, fate: Fate)
        requires room { HasRoom self.old 1 }
        ensures tell { (fates : List Fate) → Tell self.old fates → Tell self.new (fates ++ fate ∷ []) }
        ensures left { (more : ℕ) → HasRoom self.old (more + 1) → HasRoom self.new more }
    {
        match fate {
            Fate::Unmeant => {}
            Fate::TooLong { conn } => self.skipped.push_reserved(conn),
            Fate::Entered(look) => {
                self.to.push_reserved(look.conn);
                self.looks.push_reserved(look);
            }
            Fate::FoundFull(look) => {
                self.missed.push_reserved(look.conn);
                self.looks.push_reserved(look);
            }
        }
    }
}
