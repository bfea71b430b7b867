//! The audit.
ghost use Rattle.std.specs.Prelude.{◌≡◌, ◌≤◌, ℕ, List, Some, IfSome};
ghost use Rattle.bsc_outside.specs.Faults.{HasRisen};
ghost use Rattle.bsc_text.specs.Gave.{OfReads};
ghost use Rattle.bsc_journal.specs.Journals.{Audited};
ghost use Rattle.bsc_audit.specs.Explaining.{Explains};
ghost use Rattle.bsc_audit.specs.Verdicts.{Answers, AnswersOf, IsLegalOrNothing};

use crate::audit_end::AuditEnd;
use crate::judging::judge;
use crate::taking::take_in;
use crate::verdict::Verdict;
use bsc_outside::Source;
use std::alloc::Global;

/// What journals come to, as `audit_explained` says, with nothing told beside it.
pub fn audit<S: Source>(alloc: Global, source: &mut S) -> AuditEnd
    ensures tells { (o : List ℕ) → S.left source.old ≡ Some o → AnswersOf result o (S.left source.new) }
    ensures took { OfReads (S.reads source.old) (S.reads source.new) (λ o rest. Answers result o (Some rest)) }
    ensures legal { (o : List ℕ) (entries : ℕ) → S.left source.old ≡ Some o → Audited o entries →
        IsLegalOrNothing entries result }
    ensures fault { result ≡ AuditEnd.ReadFault → HasRisen (S.faults source.old) (S.faults source.new) }
    ensures later { S.faults source.old ≤ S.faults source.new }
{
    audit_explained(alloc, source).end
}

/// Audits journals: what the lines of all callers of a hub come to, put one after another in any order, and why they aren't one
/// legal history, where they aren't.
///
/// It reads the source to its end, or up to the first line that is bad, and keeps what it reads: at most 2^28 octets and
/// one, 16 octets for each entry, and less than 100 kB for the history. No line may have more than 300,000 octets. What is told
/// beside the answer is found in these octets once they were judged, and takes less than 1 MB.
pub fn audit_explained<S: Source>(alloc: Global, source: &mut S) -> Verdict
    // What the answer says of the octets that the source had.
    ensures tells { (o : List ℕ) → S.left source.old ≡ Some o → AnswersOf result.end o (S.left source.new) }

    // The same of what the reads gave and of whatever is left behind it, as no source can tell what is still to come.
    ensures took { OfReads (S.reads source.old) (S.reads source.new) (λ o rest. Answers result.end o (Some rest)) }

    // Journals that may be believed are told to be legal, but for a failed read or want of memory.
    ensures legal { (o : List ℕ) (entries : ℕ) → S.left source.old ≡ Some o → Audited o entries →
        IsLegalOrNothing entries result.end }

    // What is told beside the answer is so of what the reads gave.
    ensures explains { OfReads (S.reads source.old) (S.reads source.new) (λ o rest.
        IfSome result.why (λ why. Explains o result.end why)) }

    // A read failed only where the source says so.
    ensures fault { result.end ≡ AuditEnd.ReadFault → HasRisen (S.faults source.old) (S.faults source.new) }
    ensures later { S.faults source.old ≤ S.faults source.new }
{
    match take_in(alloc, source) {
        Ok(journals) => judge(alloc, journals),
        Err(end) => Verdict { end, why: None },
    }
}
