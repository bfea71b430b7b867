//! The two lists of header options of a message: where they end, what can be wrong with them, and what they are.
ghost use Rattle.std.specs.Prelude.{◌≡◌, ◌≤◌, ℕ, true, List, IfOk, IfSome, IfNone, length};
ghost use Rattle.bsc_octets.specs.Envelopes.{SpellsEnvelope, HasWholeAddresses};
ghost use Rattle.bsc_options.specs.declared.item.OptionItem.{OptionItem};
ghost use Rattle.bsc_options.specs.Reading.{IsCut};
ghost use Rattle.bsc_frame.specs.Layout.{IsList, announces_dest_options, announces_data_options};
ghost use Rattle.bsc_frame.specs.Walk.{EndsAnswers, FaultAnswers};

use crate::check::Check;
use bsc_octets::{Envelope, NoMemory, control, function};
use bsc_options::{Options, check_options, options_end, read_options};
use std::alloc::Global;

/// Where the lists of a message end.
#[derive(Clone, Copy)]
pub struct Ends {
    /// The place behind the destination options, where the data options begin.
    pub dest: usize,
    /// The place behind the data options, where the payload begins.
    pub data: usize,
}

/// Whether destination options are announced.
#[tactic(auto, using(crate::proofs::Flags::option_flags))]
pub(crate) fn announces_dest_options(flags: u8) -> bool
    ensures { result ≡ announces_dest_options flags }
{
    flags & control::DEST_OPTIONS != 0
}

/// Whether data options are announced.
#[tactic(auto, using(crate::proofs::Flags::option_flags))]
pub(crate) fn announces_data_options(flags: u8) -> bool
    ensures { result ≡ announces_data_options flags }
{
    flags & control::DATA_OPTIONS != 0
}

/// The place behind the list from place `at`, where one is announced, whatever its items are.
fn end_of(m: &[u8], at: usize, announced: bool) -> Option<usize>
    requires { at ≤ length m.now }
    ensures found { IfSome result (λ end. (items : List OptionItem) × IsList announced m.now at items end) }
    ensures within { IfSome result (λ end. end ≤ length m.now) }
    ensures none { IfNone result ((announced ≡ true) × IsCut m.now at) }
{
    if announced {
        options_end(m, at)
    } else {
        Some(at)
    }
}

/// Whether an item of that list has no shape. The list is whole.
fn has_fault(m: &[u8], at: usize, announced: bool) -> bool
    requires within { at ≤ length m.now }
    requires whole { (end : ℕ) × (items : List OptionItem) × IsList announced m.now at items end }
    ensures { FaultAnswers announced m.now at result }
{
    if !announced {
        return false;
    }
    match check_options(m, at) {
        Ok(_) => false,
        Err(_) => true,
    }
}

/// Where the lists of a message end that begins with this envelope, or the first of C7, C7b and C8 that fails.
pub fn read_ends(m: &[u8], head: &Envelope) -> Result<Ends, Check>
    requires spells { SpellsEnvelope head.now m.now }
    requires whole { HasWholeAddresses head.now }
    requires function { head.now.function ≤ 0x0C }
    ensures { EndsAnswers m.now head.now result }
{
    let dest_announced = announces_dest_options(head.flags);
    let data_announced = announces_data_options(head.flags);
    let Some(dest) = end_of(m, head.rest_at, dest_announced) else {
        return Err(Check::C7);
    };
    let Some(data) = end_of(m, dest, data_announced) else {
        return Err(Check::C7);
    };
    if has_fault(m, head.rest_at, dest_announced) {
        return Err(Check::C7b);
    }
    if has_fault(m, dest, data_announced) {
        return Err(Check::C7b);
    }
    if data_announced
        && head.function != function::ENCAPSULATED_NPDU
        && head.function != function::PROPRIETARY_MESSAGE
    {
        return Err(Check::C8);
    }
    Ok(Ends { dest, data })
}

/// The items of the list from place `at`, where one is announced. It is inlined, since most messages have none.
#[inline(always)]
pub(crate) fn read_list(
    alloc: Global,
    m: &[u8],
    at: usize,
    announced: bool,
) -> Result<Options, NoMemory>
    requires { at ≤ length m.now }
    ensures { IfOk result (λ list. (items : List OptionItem) (end : ℕ) → IsList announced m.now at items end
        → list ≡ items) }
{
    if !announced {
        return Ok(Options::new(alloc));
    }
    match read_options(alloc, m, at) {
        Ok((list, _)) => Ok(list),
        Err(_) => Err(NoMemory),
    }
}
