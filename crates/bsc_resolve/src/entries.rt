//! What is kept of all VMACs, each once.
ghost use Rattle.std.specs.Prelude.{◌≡◌, ◌≤◌, ◌+◌, if◌then◌else◌, List, [], ◌∷◌, ◌++◌, map, filter, position, Some, None, is_ok, OnErr, vec_len};
ghost use Rattle.bsc_octets.specs.Addresses.{same_vmac};
ghost use Rattle.bsc_resolve.specs.Kept.{holds_something, is_for, at_first, ticked, with_question, with_uris, without_question};

use crate::entry::Entry;
use crate::question::Question;
use bsc_octets::{NoMemory, Octets, Vmac};

/// The place of the entry of a VMAC.
pub(crate) fn place_of(entries: &[Entry], v: Vmac) -> Option<usize>
    ensures { result ≡ position (λ e. same_vmac v e.vmac) entries.now }
{
    entries.iter().position(|entry| v == entry.vmac)
}

/// Adds an entry for a VMAC that has none, with its question.
pub(crate) fn add(entries: &mut Vec<Entry>, v: Vmac, question: Question) -> Result<(), NoMemory>
    ensures items { entries.new.items ≡ (if is_ok result
        then entries.old.items ++ record { vmac = v; question = Some question; uris = None } ∷ [] else entries.old.items) }
    ensures len { vec_len entries.new ≤ vec_len entries.old + 1 }
    ensures err { OnErr result (vec_len entries.new ≡ vec_len entries.old) }
{
    let entry = Entry {
        vmac: v,
        question: Some(question),
        uris: None,
    };
    entries.push(entry)?;
    Ok(())
}

/// Notes down a question for a VMAC that has an entry, at its place.
pub(crate) fn ask_at(entries: &mut Vec<Entry>, v: Vmac, place: usize, question: Question)
    requires { position (λ e. same_vmac v e.vmac) entries.old.items ≡ Some place }
    ensures items { entries.new.items ≡ at_first (is_for v) (with_question question) entries.old.items }
    ensures len { vec_len entries.new ≡ vec_len entries.old }
{
    let entry = &mut entries[place];
    entry.question = Some(question);
}

/// Notes down the URIs that answer the question for a VMAC, at its place.
pub(crate) fn learn_at(entries: &mut Vec<Entry>, v: Vmac, place: usize, uris: Octets)
    requires { position (λ e. same_vmac v e.vmac) entries.old.items ≡ Some place }
    ensures items { entries.new.items ≡ at_first (is_for v) (with_uris uris) entries.old.items }
    ensures len { vec_len entries.new ≡ vec_len entries.old }
{
    let entry = &mut entries[place];
    entry.question = None;
    entry.uris = Some(uris);
}

/// Drops the question for a VMAC, at its place.
pub(crate) fn drop_at(entries: &mut Vec<Entry>, v: Vmac, place: usize)
    requires { position (λ e. same_vmac v e.vmac) entries.old.items ≡ Some place }
    ensures items { entries.new.items ≡ at_first (is_for v) without_question entries.old.items }
    ensures len { vec_len entries.new ≡ vec_len entries.old }
{
    let entry = &mut entries[place];
    entry.question = None;
}

/// Lets the entries go that hold nothing.
pub(crate) fn let_go(entries: &mut Vec<Entry>)
    ensures items { entries.new.items ≡ filter holds_something entries.old.items }
    ensures len { vec_len entries.new ≤ vec_len entries.old }
{
    entries.retain(|entry| entry.holds_something());
}

/// Drops each question whose wait has passed.
fn tick_each(entries: &mut [Entry], wait: u32, now: u64)
    ensures { entries.new ≡ map (ticked wait now) entries.old }
{
    for entry in entries.iter_mut() {
        entry.tick(wait, now);
    }
}

/// Drops each question whose wait has passed, and lets the entries go that hold nothing then.
pub(crate) fn tick(entries: &mut Vec<Entry>, wait: u32, now: u64)
    ensures items { entries.new.items ≡ filter holds_something (map (ticked wait now) entries.old.items) }
    ensures len { vec_len entries.new ≤ vec_len entries.old }
{
    tick_each(entries.as_mut_slice(), wait, now);
    let_go(entries);
}
