//! Taking in journals: all that a source has is read and kept, and each line is heard as it comes.
ghost use Rattle.std.specs.Prelude.{◌≡◌, ◌≤◌, ◌<◌, ◌+◌, ◌⊎◌, ℕ, List, [], ◌++◌, length, drop, true, false, Some, IfOk, IfErr, OnOk, Ok, Err};
ghost use Rattle.std.specs.Io.KnownBytes.{Consumes, IsAtEnd};
ghost use Rattle.bsc_text.specs.Gave.{OfReads};
ghost use Rattle.bsc_text.specs.Lines.{has_no_lf};
ghost use Rattle.bsc_outside.specs.Faults.{HasRisen};
ghost use Rattle.bsc_audit.specs.Hearing.{HasHeard, HasHeardAll};
ghost use Rattle.bsc_audit.specs.Taking.{ReadsMore, ReadsOnce, StopsAtEnd, StopsWithin, end_of};
ghost use Rattle.bsc_audit.specs.Verdicts.{AnswersOf};

use crate::audit_end::AuditEnd;
use crate::cutting::room_behind;
use crate::heard::Heard;
use crate::hearing::{hear_last, hear_whole, nothing_heard};
use crate::room::room_for;
use bsc_journal::MOST_IN_ALL;
use bsc_outside::{Failed, Source};
use bsc_player::LineFault;
use bsc_text::CHUNK_LEN;
use std::alloc::Global;

/// Journals that were read to their end, and what their lines came to.
#[derive(Drop)]
pub(crate) struct Journals {
    pub(crate) octets: Vec<u8>,
    pub(crate) heard: Heard,
}

/// Why an audit ends at this line.
fn end_of(fault: LineFault, line: u64) -> AuditEnd
    ensures { result ≡ end_of fault line }
{
    match fault {
        LineFault::Refused => AuditEnd::BadLine { line },
        LineFault::NoMemory => AuditEnd::NoMemory,
    }
}

/// Puts octets behind others.
fn keep(octets: &mut Vec<u8>, more: &[u8]) -> Result<(), AuditEnd>
    ensures kept { OnOk result (octets.new.items ≡ octets.old.items ++ more.now) }
    ensures memory { IfErr result (λ e. e ≡ AuditEnd.NoMemory) }
{
    if room_for(octets, more.len()).is_err() {
        return Err(AuditEnd::NoMemory);
    }
    if octets.extend_from_slice(more).is_err() {
        return Err(AuditEnd::NoMemory);
    }
    Ok(())
}

/// Reads the next octets behind those that were read, and says whether there were any. `chunk` is room for them, of which
/// no more is used than all journals may have, and one octet past them. So no more is ever kept.
fn read_more<S: Source>(
    source: &mut S,
    octets: &mut Vec<u8>,
    chunk: &mut Vec<u8>,
) -> Result<bool, AuditEnd>
    requires room { 0 < length chunk.old.items }
    requires fits { length octets.old.items ≤ MOST_IN_ALL }
    ensures room { 0 < length chunk.new.items }
    ensures within { OnOk result (length octets.new.items ≤ MOST_IN_ALL + 1) }
    ensures more { result ≡ Ok true → ReadsMore (S.left source.old) (S.left source.new) octets.old.items octets.new.items }
    ensures end { result ≡ Ok false → (octets.new.items ≡ octets.old.items) × Consumes (S.left source.old) (S.left source.new) []
        × IsAtEnd (S.left source.new) }
    ensures stopped { IfErr result (λ e. (e ≡ AuditEnd.ReadFault) ⊎ (e ≡ AuditEnd.NoMemory)) }
    ensures fault { result ≡ Err AuditEnd.ReadFault → HasRisen (S.faults source.old) (S.faults source.new) }
    ensures later { S.faults source.old ≤ S.faults source.new }

    // One read was made, and the answer says what it gave: want of memory isn't told of a read that failed.
    ensures once { ReadsOnce (S.reads source.old) (S.reads source.new) result octets.old.items octets.new.items }
{
    chunk.truncate(room_behind(octets.len()));
    let n = match source.read(chunk.as_mut_slice()) {
        Ok(n) => n,
        Err(Failed) => return Err(AuditEnd::ReadFault),
    };
    if n == 0 {
        return Ok(false);
    }
    keep(octets, &chunk[..n])?;
    Ok(true)
}

/// Hears the whole lines of what was read, or says why the audit ends.
fn go_on(heard: &mut Heard, alloc: Global, octets: &[u8]) -> Result<(), AuditEnd>
    requires { HasHeard octets.now heard.old }
    ensures heard { OnOk result (HasHeard octets.now heard.new) }
    ensures rest { OnOk result (has_no_lf (drop heard.new.at octets.now) ≡ true) }
    ensures fits { OnOk result (length octets.now ≤ MOST_IN_ALL) }
    ensures stopped { IfErr result (StopsWithin octets.now) }
{
    match hear_whole(heard, alloc, octets) {
        Ok(()) => Ok(()),
        Err(fault) => Err(end_of(fault, heard.lines + 1)),
    }
}

/// Hears the last line of all that there was, or says why the audit ends.
fn finish(mut heard: Heard, alloc: Global, octets: Vec<u8>) -> Result<Journals, AuditEnd>
    requires heard { HasHeard octets.items heard }
    requires rest { has_no_lf (drop heard.at octets.items) ≡ true }
    ensures taken { IfOk result (λ t. (t.octets.items ≡ octets.items) × HasHeardAll octets.items t.heard) }
    ensures stopped { IfErr result (StopsAtEnd octets.items) }
{
    match hear_last(&mut heard, alloc, octets.as_slice()) {
        Ok(()) => Ok(Journals { octets, heard }),
        Err(fault) => Err(end_of(fault, heard.lines + 1)),
    }
}

/// Reads a source to its end and hears all its lines, up to the first that is bad.
pub(crate) fn take_in<S: Source>(alloc: Global, source: &mut S) -> Result<Journals, AuditEnd>
    ensures heard { IfOk result (λ t. HasHeardAll t.octets.items t.heard) }
    ensures read { IfOk result (λ t. Consumes (S.left source.old) (S.left source.new) t.octets.items × IsAtEnd (S.left source.new)) }
    ensures stopped { IfErr result (λ e. (o : List ℕ) → S.left source.old ≡ Some o → AnswersOf e o (S.left source.new)) }
    ensures fault { result ≡ Err AuditEnd.ReadFault → HasRisen (S.faults source.old) (S.faults source.new) }
    ensures later { S.faults source.old ≤ S.faults source.new }
    ensures took { OfReads (S.reads source.old) (S.reads source.new) (λ o rest.
        IfOk result (λ t. (o ≡ t.octets.items) × (rest ≡ [])) × IfErr result (λ e. AnswersOf e o (Some rest))) }
{
    let Ok(mut chunk) = vec![in alloc; 0; CHUNK_LEN] else {
        return Err(AuditEnd::NoMemory);
    };
    let mut octets = Vec::new(alloc);
    let mut heard = nothing_heard(alloc);
    'reading: loop {
        if let Err(end) = go_on(&mut heard, alloc, octets.as_slice()) {
            return Err(end);
        }
        let more = match read_more(source, &mut octets, &mut chunk) {
            Ok(more) => more,
            Err(end) => return Err(end),
        };
        if !more {
            return finish(heard, alloc, octets);
        }
    }
}
