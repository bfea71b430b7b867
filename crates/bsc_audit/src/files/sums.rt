//! What all lines said so far, summed up.
ghost use Rattle.std.specs.Prelude.{◌≡◌, ◌++◌, ◌∷◌, [], List};
ghost use Rattle.bsc_journal.specs.declared.journal_record.JournalRecord.{JournalRecord as SaidOf};
ghost use Rattle.bsc_audit.specs.Merging.{SumsUp};

use bsc_history::About;
use bsc_journal::JournalRecord;

/// What all lines said so far, summed up. Numbers stop at the greatest `u64`.
#[derive(Clone, Copy, Debug, PartialEq, Eq)]
pub(crate) struct Sums {
    /// How many lines say a hub.
    pub(crate) hubs: u64,
    /// The hub of the last of these.
    pub(crate) about: Option<About>,
    /// How many lines are those of entries.
    pub(crate) entries: u64,
}

/// Before the first line.
pub(crate) fn no_sums() -> Sums
    ensures { SumsUp result [] }
{
    Sums {
        hubs: 0,
        about: None,
        entries: 0,
    }
}

/// Sums up what one more line says.
pub(crate) fn sum_up(sums: &mut Sums, told: &JournalRecord)
    ensures { (said : List SaidOf) → SumsUp sums.old said → SumsUp sums.new (said ++ told.now ∷ []) }
{
    match told {
        JournalRecord::Hub(about) => {
            sums.hubs = sums.hubs.saturating_add(1);
            sums.about = Some(*about);
        }
        JournalRecord::Entry { .. } => sums.entries = sums.entries.saturating_add(1),
        JournalRecord::Denial => (),
    }
}
