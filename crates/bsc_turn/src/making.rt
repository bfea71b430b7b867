//! A turn begins.
ghost use Rattle.std.specs.Prelude.{◌≡◌, ◌≤◌, ◌^◌, [], IfOk};
ghost use Rattle.bsc_turn.specs.Rule.{first_view};
ghost use Rattle.bsc_turn.specs.Passes.{IsPassOf, first_state, callers_of, view_of};

use crate::pass::Pass;
use crate::steps::lay_out;
use crate::turn::Turn;
use bsc_history::Stands;
use bsc_octets::NoMemory;
use std::alloc::Global;

impl<S: Stands + Drop> Turn<S> {
    /// A turn whose history is empty, and its first pass, of number 0. There may be `callers` passes in all,
    /// 1 to 2^62. Where there is no memory, the state is dropped.
    pub fn make(alloc: Global, state: S, callers: u64) -> Result<(Turn<S>, Pass), NoMemory>
        requires stands { S.stands state [] }
        requires bounds { (1 ≤ callers) × (callers ≤ 2 ^ 62) }
        ensures pass { IfOk result (λ (turn, pass). IsPassOf S.about turn pass) }
        ensures new { IfOk result (λ (_, pass). view_of pass ≡ first_view (S.about state) callers) }
        ensures first { IfOk result (λ (turn, _). first_state turn ≡ state) }
        ensures callers { IfOk result (λ (turn, _). callers_of turn ≡ callers) }
    {
        let (table, seat) = lay_out(alloc, state, callers)?;
        let pass = Pass {
            badge: seat.into_badge(),
            number: 0,
        };
        Ok((Turn { table, callers }, pass))
    }
}
