//! From octets to a list of header options.
ghost use Rattle.std.specs.Prelude.{◌≡◌, ◌≢◌, ◌≤◌, ◌<◌, ◌↔◌, ◌⊎◌, ℕ, List, IfOk, IfSome, IfNone, length};
ghost use Rattle.std.specs.List.{AllByRecursion};
ghost use Rattle.bsc_options.specs.declared.item.OptionItem.{OptionItem};
ghost use Rattle.bsc_options.specs.Spelling.{Fits, AreOptions, spelling_of};
ghost use Rattle.bsc_options.specs.Reading.{BeginsWith, IsCut, IsFirstAtFault};
ghost use Rattle.bsc_options.specs.Walk.{OptionListAnswers, EndsAt, first_fault, item_of, fault_of};

use crate::fault::OptionsFault;
use crate::first::{FirstItem, first_item};
use crate::item::OptionItem;
use crate::marker::SECURE_PATH;
use crate::options::Options;
use bsc_octets::{NoMemory, Octets};
use std::alloc::Global;

/// The type of Proprietary.
const PROPRIETARY: u8 = 31;

/// How many octets the list at the front has, whatever the types and data of its items. `None` comes where
/// octets of it are missing.
pub(crate) fn list_length(o: &[u8]) -> Option<usize>
    ensures found { IfSome result (λ n. EndsAt o.now n) }
    ensures none { IfNone result (IsCut o.now 0) }
{
    let mut rest = o;
    while let Some(first) = first_item(rest) {
        rest = first.rest;
        if !first.follows {
            return Some(o.len() - rest.len());
        }
    }
    None
}

/// What is wrong with an item.
fn fault_of(item: &FirstItem) -> Option<OptionsFault>
    ensures { result ≡ fault_of (item_of item.now) }
{
    match (item.kind, item.content) {
        (0, _) => Some(OptionsFault::BadKind),
        (SECURE_PATH, Some(_)) => Some(OptionsFault::BadShape),
        (PROPRIETARY, None) => Some(OptionsFault::BadShape),
        (PROPRIETARY, Some(data)) if data.len() < 3 => Some(OptionsFault::BadShape),
        _ => None,
    }
}

/// What is wrong with the first item at fault in a whole list.
pub(crate) fn first_fault(list: &[u8]) -> Option<OptionsFault>
    ensures { (items : List OptionItem) → AllByRecursion Fits items → list.now ≡ spelling_of items
        → result ≡ first_fault items }
{
    let mut rest = list;
    while let Some(first) = first_item(rest) {
        if let Some(fault) = fault_of(&first) {
            return Some(fault);
        }
        rest = first.rest;
    }
    None
}

/// The item with data of its own.
fn owned(alloc: Global, first: &FirstItem) -> Result<OptionItem, NoMemory>
    ensures { IfOk result (λ item. item ≡ item_of first.now) }
{
    let content = match first.content {
        None => None,
        Some(data) => Some(Octets::from_vec(Vec::from_slice(alloc, data)?)),
    };
    Ok(OptionItem {
        must: first.must,
        kind: first.kind,
        content,
    })
}

/// The items of a whole list.
fn items_of(alloc: Global, list: &[u8]) -> Result<Options, NoMemory>
    ensures { IfOk result (λ options. (items : List OptionItem) → AllByRecursion Fits items
        → list.now ≡ spelling_of items → options ≡ items) }
{
    let mut options = Options::new(alloc);
    let mut rest = list;
    while let Some(first) = first_item(rest) {
        options.push(owned(alloc, &first)?)?;
        rest = first.rest;
    }
    Ok(options)
}

/// The list from place `at`, and the place after it. What is wrong is found before memory is taken.
fn list_at(alloc: Global, m: &[u8], at: usize) -> Result<(Options, usize), OptionsFault>
    requires { at ≤ length m.now }
    ensures { OptionListAnswers m.now at result }
{
    let o = &m[at..];
    let Some(length) = list_length(o) else {
        return Err(OptionsFault::Cut);
    };
    let list = &o[..length];
    if let Some(fault) = first_fault(list) {
        return Err(fault);
    }
    let options = items_of(alloc, list)?;
    Ok((options, at + length))
}

/// The list of header options that begins at place `at`, and the place after it.
///
/// `Cut` comes where octets of the list are missing: no marker at all, none behind a marker whose bit 7 is
/// set, or fewer octets than a length says. Only markers and lengths are looked at for that, so a list that
/// is cut is `Cut` whatever the types of its items are. Else the first item at fault gives `BadKind` (type 0)
/// or `BadShape` (Secure Path with data, or Proprietary without three octets of it). Reading is linear in the
/// octets of the list, takes memory only where nothing is at fault, and copies the data once.
pub fn read_options(alloc: Global, m: &[u8], at: usize) -> Result<(Options, usize), OptionsFault>
    requires { at ≤ length m.now }
    // What is found is spelled by the octets from that place on, up to the place that is answered.
    ensures found { IfOk result (λ (list, end). AreOptions list × BeginsWith m.now at list end) }
    ensures within { IfOk result (λ (_, end). (at < end) × (end ≤ length m.now)) }

    // No other list is spelled there, and one that is spelled there is found, unless memory runs out.
    ensures only { (list : List OptionItem) (end : ℕ) → AreOptions list → BeginsWith m.now at list end
        → (result ≡ Ok (list, end)) ⊎ (result ≡ Err OptionsFault.NoMemory) }
    ensures memory { result ≡ Err OptionsFault.NoMemory
        → (list : List OptionItem) × (end : ℕ) × AreOptions list × BeginsWith m.now at list end }

    // Octets of the list are missing, or else the first item at fault is named.
    ensures cut { (result ≡ Err OptionsFault.Cut) ↔ IsCut m.now at }
    ensures bad_kind { (result ≡ Err OptionsFault.BadKind) ↔
        ((item : OptionItem) × IsFirstAtFault m.now at item × (item.kind ≡ 0)) }
    ensures bad_shape { (result ≡ Err OptionsFault.BadShape) ↔
        ((item : OptionItem) × IsFirstAtFault m.now at item × (item.kind ≢ 0)) }
{
    list_at(alloc, m, at)
}
