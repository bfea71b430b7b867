//! The line of a denial.
ghost use Rattle.std.specs.Prelude.{◌≡◌, ◌++◌, IfOk};
ghost use Rattle.bsc_lines.specs.Denials.{denial_line};
ghost use Rattle.bsc_lines.specs.declared.denial.Denial.TheVariants.{OfPair};

use crate::denial::Denial;
use crate::texts::{put_hex, put_then, put_words};
use bsc_octets::{NoMemory, Vmac};
use std::alloc::Global;

/// Puts the line of a pair that is denied.
#[tactic(auto, unfolding(crate::specs::Denials::denial_line))]
fn put_pair(
    text: &mut Vec<u8>,
    alloc: Global,
    rule: u32,
    from: Vmac,
    to: Vmac,
) -> Result<(), NoMemory>
    ensures { IfOk result (λ _. text.new.items ≡ text.old.items ++ denial_line (OfPair rule from to)) }
{
    put_words(text, "deny")?;
    put_then(text, u64::from(rule))?;
    put_words(text, " from ")?;
    put_hex(text, alloc, &from.0)?;
    put_words(text, " to ")?;
    put_hex(text, alloc, &to.0)
}

/// Puts the line of a denial, without its end.
#[tactic(auto, unfolding(crate::specs::Denials::denial_line))]
pub fn put_denial(text: &mut Vec<u8>, alloc: Global, denial: Denial) -> Result<(), NoMemory>
    ensures { IfOk result (λ _. text.new.items ≡ text.old.items ++ denial_line denial) }
{
    match denial {
        Denial::OfConnect(vmac) => {
            put_words(text, "deny 0 connect ")?;
            put_hex(text, alloc, &vmac.0)
        }
        Denial::OfPair { rule, from, to } => put_pair(text, alloc, rule, from, to),
    }
}
