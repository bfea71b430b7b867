//! A caller enters, and spends its guard.
ghost use Rattle.std.specs.Prelude.{◌≡◌, ◌<◌, ◌^◌, ◌++◌, [], ◌∷◌, length};
ghost use Rattle.bsc_turn.specs.Histories.{StartsWith};
ghost use Rattle.bsc_turn.specs.Effects.{having_seen};
ghost use Rattle.bsc_turn.specs.Passes.{IsForGuard, IsGuardOf, IsPassOf, first_state, after_back, after_commit, guard_view, history, number_of, seen, view_of};

use crate::guard::Guard;
use crate::pass::Pass;
use crate::steps::{acquire, make_entry, put_in, take_out};
use crate::turn::Turn;
use atomic_table::Badge;
use bsc_history::{Makes, Stands};
use std::mem;
use std::sync::Wait;

impl<S: Stands + Drop> Turn<S> {
    /// Waits for the turn, and answers a guard with the state. The state stands for the whole history, which
    /// begins with all that the pass had seen. The pass is out until the guard is spent.
    pub fn enter<'a, R: Wait>(&'a self, rt: &R, pass: &mut Pass) -> Guard<&'a Turn<S>, S>
        requires { IsPassOf S.about self.now pass.old }
        ensures guard { (result.turn.now ≡ self.now) × IsGuardOf S.about self.now result }
        ensures pass { IsForGuard pass.new result × (number_of pass.new ≡ number_of pass.old) }
        ensures stands { S.stands result.state (history result) }
        ensures about { S.about result.state ≡ S.about (first_state self.now) }
        ensures seen { StartsWith (history result) (seen pass.old) }
        ensures same { guard_view result ≡ having_seen (history result) (view_of pass.old) }
    {
        let badge = mem::replace(&mut pass.badge, Badge::blank());
        let mut seat = badge.into_seat::<Option<S>>();
        acquire(rt, &self.table, &mut seat);
        let state = take_out(&self.table, &mut seat);
        Guard {
            turn: self,
            seat,
            state,
        }
    }
}

impl<S: Stands + Drop> Guard<&Turn<S>, S> {
    /// Puts the state back and adds the entry that `E` picks to the history, and answers its place. The pass
    /// has then seen up to and with this entry, and owns it.
    pub fn commit<E: Makes>(self, pass: &mut Pass) -> u64
        requires guard { IsGuardOf S.about self.turn.now self }
        requires pass { IsForGuard pass.old self }
        requires own { E.stamped.entry.caller ≡ number_of pass.old }
        requires stands { S.stands self.state (history self ++ E.stamped ∷ []) }
        requires about { S.about self.state ≡ S.about (first_state self.turn.now) }
        requires room { length (history self) < 2 ^ 63 }
        ensures place { result ≡ length (history self.entry) }
        ensures pass { IsPassOf S.about self.entry.turn.now pass.new }
        ensures knows { view_of pass.new ≡ after_commit E.stamped (guard_view self.entry) }
    {
        let Guard {
            turn,
            mut seat,
            state,
        } = self;
        let place = make_entry::<S, E>(&turn.table, &mut seat);
        put_in(&turn.table, &mut seat, state);
        pass.badge = seat.into_badge();
        place
    }

    /// Puts the state back, which stands for the history as it was entered. Nothing has changed.
    pub fn back(self, pass: &mut Pass)
        requires guard { IsGuardOf S.about self.turn.now self }
        requires pass { IsForGuard pass.old self }
        requires stands { S.stands self.state (history self) }
        requires about { S.about self.state ≡ S.about (first_state self.turn.now) }
        ensures pass { IsPassOf S.about self.entry.turn.now pass.new }
        ensures knows { view_of pass.new ≡ after_back (guard_view self.entry) }
    {
        let Guard {
            turn,
            mut seat,
            state: unchanged,
        } = self;
        put_in(&turn.table, &mut seat, unchanged);
        pass.badge = seat.into_badge();
    }
}
