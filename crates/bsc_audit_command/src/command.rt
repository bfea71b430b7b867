//! The command.
ghost use Rattle.std.specs.Prelude.{◌≡◌, ◌≤◌, ◌⊎◌, ℕ, List, Some, string_bytes, IfOk, IfSome};
ghost use Rattle.bsc_outside.specs.Faults.{HasRisen};
ghost use Rattle.bsc_text.specs.Gave.{OfReads};
ghost use Rattle.bsc_player.specs.Faults.{RisesIf};
ghost use Rattle.bsc_audit.specs.declared.audit_end.AuditEnd.{AuditEnd as AuditEndOf};
ghost use Rattle.bsc_audit.specs.Explaining.{Explains};
ghost use Rattle.bsc_audit_command.specs.Audits.{IsStatus, RunsAudit};
ghost use Rattle.bsc_audit_command.specs.Lines.{Ends, SaysAudit};

use crate::texts::{bad_line, hubs_line, illegal_line, legal_line, missing_line, twice_line};
use bsc_audit::{AuditEnd, Verdict, audit_explained};
use bsc_octets::{NoMemory, Octets};
use bsc_outside::{Sink, Source};
use bsc_player::{end_with, out_of_memory};
use std::alloc::Global;

/// Writes a line, if there was memory for it, and gives its status.
fn end_in<K: Sink>(sink: &mut K, line: Result<String, NoMemory>, status: u8) -> u8
    ensures ends { (o : List ℕ) → IfOk line (λ text. string_bytes text ≡ o) →
        Ends result status (K.held sink.old) (K.held sink.new) o }
    ensures failed { (result ≡ status) ⊎ (result ≡ 7)
        ⊎ ((result ≡ 4) × HasRisen (K.faults sink.old) (K.faults sink.new)) }
    ensures later { K.faults sink.old ≤ K.faults sink.new }
{
    match line {
        Ok(text) => end_with(sink, text.as_bytes(), status),
        Err(NoMemory) => out_of_memory(sink),
    }
}

/// Writes what journals came to, and gives its status.
fn tell<K: Sink>(alloc: Global, sink: &mut K, end: AuditEnd) -> u8
    ensures says { SaysAudit end result (K.held sink.old) (K.held sink.new) }
    ensures read { result ≡ 3 → end ≡ AuditEnd.ReadFault }
    ensures write { RisesIf result 4 (K.faults sink.old) (K.faults sink.new) }
    ensures statuses { IsStatus result }
    ensures later { K.faults sink.old ≤ K.faults sink.new }
{
    match end {
        AuditEnd::Legal { entries } => end_in(sink, legal_line(alloc, entries), 0),
        AuditEnd::BadLine { line } => end_in(sink, bad_line(alloc, line), 2),
        AuditEnd::Hubs { lines } => end_in(sink, hubs_line(alloc, lines), 10),
        AuditEnd::Twice { place } => end_in(sink, twice_line(alloc, place), 10),
        AuditEnd::Missing { place } => end_in(sink, missing_line(alloc, place), 10),
        AuditEnd::Illegal { place } => end_in(sink, illegal_line(alloc, place), 10),
        AuditEnd::ReadFault => end_with(sink, b"fault read\n", 3),
        AuditEnd::NoMemory => out_of_memory(sink),
    }
}

/// Runs the command `audit`: audits the journals that a source gives, and writes what they come to in one line. Why they aren't
/// one legal history is left in `why`, as a line without its end: nothing where they are, where they weren't read or a line is
/// bad, and where there is no memory for it.
///
/// The status is 0 for `legal`, 10 for `hubs`, `twice`, `missing` and `illegal`, 2 for a bad line, 3 for a read that
/// failed, 7 for want of memory, and 4 where the line can't be written.
pub fn run_audit<S: Source, K: Sink>(
    alloc: Global,
    source: &mut S,
    sink: &mut K,
    why: &mut Option<Octets>,
) -> u8
    ensures runs { (o : List ℕ) → S.left source.old ≡ Some o →
        RunsAudit o (S.left source.new) result (K.held sink.old) (K.held sink.new) }

    // The same of what the reads gave and of whatever is left behind it, as no source can tell what is still to come.
    ensures took { OfReads (S.reads source.old) (S.reads source.new) (λ o rest.
        RunsAudit o (Some rest) result (K.held sink.old) (K.held sink.new)) }

    // What is left to be told is so of what the reads gave, and of the answer that was written.
    ensures told { OfReads (S.reads source.old) (S.reads source.new) (λ o rest.
        IfSome why.new (λ text. (end : AuditEndOf) × SaysAudit end result (K.held sink.old) (K.held sink.new) × Explains o end text)) }
    ensures read { RisesIf result 3 (S.faults source.old) (S.faults source.new) }
    ensures write { RisesIf result 4 (K.faults sink.old) (K.faults sink.new) }
    ensures statuses { IsStatus result }
    ensures reads_later { S.faults source.old ≤ S.faults source.new }
    ensures writes_later { K.faults sink.old ≤ K.faults sink.new }
{
    let Verdict { end, why: reason } = audit_explained(alloc, source);
    *why = reason;
    tell(alloc, sink, end)
}
