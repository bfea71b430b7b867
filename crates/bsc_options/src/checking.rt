//! Where a list of header options ends, and what is wrong with it, without making it. No memory is taken.
ghost use Rattle.std.specs.Prelude.{◌≡◌, ◌≢◌, ◌≤◌, ◌<◌, ◌↔◌, ℕ, List, IfOk, IfSome, IsNone, length};
ghost use Rattle.bsc_options.specs.declared.item.OptionItem.{OptionItem};
ghost use Rattle.bsc_options.specs.Spelling.{AreOptions};
ghost use Rattle.bsc_options.specs.Reading.{AreItems, BeginsWith, IsCut, IsFirstAtFault};
ghost use Rattle.bsc_options.specs.Walk.{Finds};

use crate::fault::OptionsFault;
use crate::reading::{first_fault, list_length};

/// The place after the list of header options that begins at place `at`, whatever the types and data of its
/// items. `None` comes exactly where octets of the list are missing. Only markers and lengths are looked at,
/// each once.
pub fn options_end(m: &[u8], at: usize) -> Option<usize>
    requires { at ≤ length m.now }
    ensures found { IfSome result (λ end. (items : List OptionItem) × AreItems items × BeginsWith m.now at items end) }
    ensures within { IfSome result (λ end. (at < end) × (end ≤ length m.now)) }
    ensures none { IsNone result ↔ IsCut m.now at }
{
    let length = list_length(&m[at..])?;
    Some(at + length)
}

/// Looks for the end of the list first, and then for an item at fault.
fn look_at(m: &[u8], at: usize) -> Result<usize, OptionsFault>
    requires { at ≤ length m.now }
    ensures { Finds m.now at result }
{
    let o = &m[at..];
    let Some(length) = list_length(o) else {
        return Err(OptionsFault::Cut);
    };
    if let Some(fault) = first_fault(&o[..length]) {
        return Err(fault);
    }
    Ok(at + length)
}

/// Whether `read_options` would find a list of header options at place `at`: the place after it, or the fault
/// that `read_options` would answer. No list is made, so `NoMemory` never comes.
pub fn check_options(m: &[u8], at: usize) -> Result<usize, OptionsFault>
    requires { at ≤ length m.now }
    // A list is spelled there, up to the place that is answered.
    ensures found { IfOk result (λ end. (list : List OptionItem) × AreOptions list × BeginsWith m.now at list end) }
    ensures only { (list : List OptionItem) (end : ℕ) → AreOptions list → BeginsWith m.now at list end
        → result ≡ Ok end }
    ensures within { IfOk result (λ end. (at < end) × (end ≤ length m.now)) }

    // Octets of the list are missing, or else the first item at fault is named.
    ensures cut { (result ≡ Err OptionsFault.Cut) ↔ IsCut m.now at }
    ensures bad_kind { (result ≡ Err OptionsFault.BadKind) ↔
        ((item : OptionItem) × IsFirstAtFault m.now at item × (item.kind ≡ 0)) }
    ensures bad_shape { (result ≡ Err OptionsFault.BadShape) ↔
        ((item : OptionItem) × IsFirstAtFault m.now at item × (item.kind ≢ 0)) }
    ensures memory { result ≢ Err OptionsFault.NoMemory }
{
    look_at(m, at)
}
