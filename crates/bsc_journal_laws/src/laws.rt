//! What holds of the journals of a run.
ghost use Rattle.std.specs.Prelude.{◌≡◌, ℕ, List, [], Some};
ghost use Rattle.bsc_journal_laws.specs.Commands.{CommandAudits};
ghost use Rattle.bsc_journal_laws.specs.Laws.{FilesInAnyOrder, JournalsAudit, LegalHasLines, LegalIsSmall, LinesFit, NotesAreEntries, NotesArePlaced, PlacesAreShared};
ghost use Rattle.bsc_journal_laws.specs.Runs.{JournalsAreThere, RunAudits};

use bsc_edge::{Clock, DiskJournal, DiskJournals, JournalFile, Journals, Link};
use bsc_outside::Sink;
use std::fs::Files;
use std::io::Eprint;

/// What a session notes are its own entries, in order, where no line was lost.
pub fn notes_are_entries()
    ensures { NotesAreEntries }
{}

/// Notes of all own entries of a caller, at places that rise, are those entries with their places in the history.
pub fn notes_are_placed()
    ensures { NotesArePlaced }
{}

/// Callers that are apart, and of which each entry has one, have all entries of a history among them, each once and at its
/// place.
pub fn places_are_shared()
    ensures { PlacesAreShared }
{}

/// The line of an entry that has one is no longer than an audit takes: also with the longest frame, 1,024 looks and a reply that
/// names 3 times 1,024 connections.
pub fn lines_fit()
    ensures { LinesFit }
{}

/// Of a legal history of a hub with no more rows than there may be, each entry is small, if its frame is.
pub fn legal_is_small()
    ensures { LegalIsSmall }
{}

/// Each entry of a legal history has a line, if the number of its caller and that of its empties have 1 to 19 digits and its
/// octets are octets.
pub fn legal_has_lines()
    ensures { LegalHasLines }
{}

/// Journals that are whole lines may be read in any order.
pub fn files_in_any_order()
    ensures { FilesInAnyOrder }
{}

/// The journals of all callers of a hub tell its history. Where they have no more octets than an audit takes, and the history is
/// legal, they may be believed, in any order.
pub fn journals_audit()
    ensures { JournalsAudit }
{}

/// Where a hub was served with journals that are begun with nothing in them and tell so, each job that the spawner took has its
/// journal, however serving ended.
pub fn journals_are_there<L: Link, C: Clock, N: Sink, J: Journals<N>>()
    ensures { JournalsAreThere L.talk L.faults L.notices C.readings N.held N.faults J.begins }
{
    bsc_serve::jobs_end_at_last::<L, C, N, J>();
}

/// A hub was served by its first pass, however that ended, with journals of which no line was lost. The octets of all journals,
/// put together in any order, may be believed, if they are no more than an audit takes.
pub fn run_audits<L: Link, C: Clock, N: Sink, J: Journals<N>>()
    ensures { RunAudits L.talk L.faults L.notices C.readings N.held N.faults J.begins }
{
    bsc_session_laws::forwards_are_carried();
    bsc_serve::seen_are_of_jobs::<L, C, N, J>();
    bsc_serve::jobs_are_apart::<L, C, N, J>();
}

/// The journals of a hub that the command `hub` made by settings, and that ended with status 0, are there, and may be believed
/// with its first line, in any order, if no line of a session was lost and they are no more than an audit takes. None of their lines
/// was lost, as far as that is told.
pub fn command_audits<L: Link, C: Clock, N: Sink, J: Journals<N>>()
    ensures { CommandAudits L.talk L.faults L.notices C.readings N.held N.faults J.begins }
{
    run_audits::<L, C, N, J>();
    journals_are_there::<L, C, N, J>();
}

/// A journal in a file that is begun under a prefix tells that it holds nothing yet. So of the program's journals the above holds
/// with no premise on them.
pub fn disk_journals_begin_empty<R: Files + Eprint + Copy>()
    ensures { (prefix : List ℕ) (n : ℕ) (k : _) → ⟦<DiskJournals<R> as Journals<DiskJournal<JournalFile<R>>>>⟧.begins (Some prefix) n k
        → ⟦<DiskJournal<JournalFile<R>> as Sink>⟧.held k ≡ Some [] }
{}
