//! The numbers of the rules that decide, for each two classes.
ghost use Rattle.std.specs.Prelude.{◌≡◌, ◌≤◌, IfOk, length, map, slice_get};
ghost use Rattle.bsc_policy.specs.Filing.{number_in, row_of, rows_of};

use crate::bounds::RULES;
use crate::looking::number_of;
use crate::rule::Rule;
use bsc_octets::{NoMemory, Octets};
use std::alloc::Global;

/// The number at a place of a row. It is 0 where there is none.
pub(crate) fn number_at(rows: &[Vec<u16>], row: u16, place: u16) -> u16
    ensures { result ≡ number_in (slice_get (map (λ r. r.items) rows.now) row) place }
{
    match rows.get(usize::from(row)) {
        Some(row) => match row.get(usize::from(place)) {
            Some(number) => *number,
            None => 0,
        },
        None => 0,
    }
}

/// The numbers of the first rules that apply from one group to each of these.
fn row_of(alloc: Global, rules: &[Rule], tos: &[Octets], from: &[u8]) -> Result<Vec<u16>, NoMemory>
    requires { length rules.now ≤ RULES }
    ensures { IfOk result (λ row. row.items ≡ row_of rules.now tos.now from.now) }
{
    let mut row = Vec::with_capacity(alloc, tos.len())?;
    for to in tos {
        row.push(number_of(rules, from, to.as_slice()))?;
    }
    Ok(row)
}

/// The numbers of the first rules that apply from each of some groups to each of others.
pub(crate) fn rows_of(
    alloc: Global,
    rules: &[Rule],
    froms: &[Octets],
    tos: &[Octets],
) -> Result<Vec<Vec<u16>>, NoMemory>
    requires { length rules.now ≤ RULES }
    ensures { IfOk result (λ rows. map (λ r. r.items) rows.items ≡ rows_of rules.now froms.now tos.now) }
{
    let mut rows = Vec::with_capacity(alloc, froms.len())?;
    for from in froms {
        rows.push(row_of(alloc, rules, tos, from.as_slice())?)?;
    }
    Ok(rows)
}
