//! Laws of the journals of a run: what a session notes, where its entries stand, and what all journals of one hub tell
//! together. The functions do nothing: their contracts are the laws (`src/laws.rt`).
//!
//! Start at `specs/Commands.antt`, which says what the journals of the command `hub` come to; `specs/Runs.antt` says it of any
//! hub that was served, and `specs/Laws.antt` has what it is made of.
#![tactic(auto)]

mod laws;

pub use laws::{
    command_audits, disk_journals_begin_empty, files_in_any_order, journals_are_there,
    journals_audit, legal_has_lines, legal_is_small, lines_fit, notes_are_entries,
    notes_are_placed, places_are_shared, run_audits,
};
