//! Two passes that commit to one counter.
ghost use Rattle.std.specs.Prelude.{List, ◌≡◌, ◌+◌, ◌<◌, ◌≤◌, ◌^◌, ◌++◌, ◌∷◌, [], length, IfSome, IfNone};
ghost use Rattle.bsc_history.specs.declared.mark.Stamped.{Stamped};
ghost use Rattle.bsc_turn.specs.Counting.{MadeOne, counted};
ghost use Rattle.bsc_turn.specs.Passes.{IsForGuard, IsGuardOf, IsPassOf, after_commit, first_state, guard_view, history, number_of, own_list, view_of};

use crate::crossing::{is_sent, is_shared};
use bsc_history::{About, Limits, Makes, Stands};
use bsc_octets::read_identity;
use bsc_turn::{Guard, NumbersSpent, Pass, Turn, two_callers};
use std::marker::Brand;
use std::sync::Wait;
use std::test::Fail;
use std::thread;
use std::thread::Threads;

/// A state that counts the entries of its history.
#[derive(Drop)]
struct Counter {
    count: u64,
    about: About,
}

impl Stands for Counter {
    ghost use Rattle.std.specs.Prelude.{List, ◌≡◌, length};

    ghost stands = { λ s H. s.count ≡ length H };

    ghost about = { λ s. s.about };
}

impl Counter {
    /// Counts one more entry, whatever history it stood for.
    fn add(&mut self)
        requires { self.old.count < 2 ^ 62 }
        ensures stands { (H : List Stamped) (e : Stamped) →
            self.old.count ≡ length H → self.new.count ≡ length (H ++ e ∷ []) }
        ensures about { self.new.about ≡ self.old.about }
    {
        self.count += 1;
    }
}

fn new_counter() -> Counter
    ensures { result.count ≡ 0 }
{
    let limits = Limits {
        rows: 4,
        outbox: 4,
        calls: 1 << 20,
        callers: 2,
    };
    let hub = read_identity([1; 26].as_slice());
    Counter {
        count: 0,
        about: About { hub, limits },
    }
}

fn commit_count<'a, E: Makes>(
    guard: Guard<&'a Turn<Counter>, Counter>,
    pass: &mut Pass,
    caller: u64,
) -> u64
    requires picked { E.stamped ≡ counted caller }
    requires guard { IsGuardOf (λ s. s.about) guard.turn.now guard }
    requires pass { IsForGuard pass.old guard × (caller ≡ number_of pass.old) }
    requires stands { guard.state.count ≡ length (history guard ++ counted caller ∷ []) }
    requires about { guard.state.about ≡ (first_state guard.turn.now).about }
    requires room { length (history guard) < 2 ^ 63 }
    ensures place { result ≡ length (history guard.entry) }
    ensures pass { IsPassOf (λ s. s.about) guard.entry.turn.now pass.new }
    ensures knows { view_of pass.new ≡ after_commit (counted caller) (guard_view guard.entry) }
{
    guard.commit::<E>(pass)
}

/// Counts one, where there is room, and answers the place of the entry.
fn count_one<R: Wait>(rt: &R, turn: &Turn<Counter>, pass: &mut Pass) -> Option<u64>
    requires { IsPassOf (λ s. s.about) turn.now pass.old }
    ensures pass { IsPassOf (λ s. s.about) turn.now pass.new }
    ensures number { number_of pass.new ≡ number_of pass.old }
    ensures some { IfSome result (λ place. (place < 2 ^ 62) × MadeOne pass.old place pass.new) }
    ensures none { IfNone result (own_list pass.new ≡ own_list pass.old) }
{
    let caller = pass.number();
    let mut guard = turn.enter(rt, pass);
    if guard.state().count >= 1 << 62 {
        guard.back(pass);
        return None;
    }
    guard.state().add();
    Some(commit_count::<Brand>(guard, pass, caller))
}

/// Ends both passes. The answer is the count: no less than the two made.
fn count_of<R: Wait>(rt: &R, turn: &Turn<Counter>, pass: Pass, other: Pass) -> u64
    requires pass { IsPassOf (λ s. s.about) turn.now pass }
    requires other { IsPassOf (λ s. s.about) turn.now other }
    ensures { length (own_list pass) + length (own_list other) ≤ result }
{
    two_callers();
    let mut pass = pass;
    turn.join(&mut pass, other);
    let mut guard = turn.enter(rt, &mut pass);
    let count = guard.state().count;
    guard.back(&mut pass);
    count
}

#[test]
fn two_callers_count(rt: HostRuntime) -> Result<(), Fail> {
    let Ok((turn, mut pass)) = Turn::make(rt.alloc(), new_counter(), 2) else {
        panic!(rt; "no memory");
    };
    let Ok(mut other) = turn.split(&rt, &mut pass) else {
        panic!(rt; "there is a second number");
    };
    assert!(rt; matches!(turn.split(&rt, &mut pass), Err(NumbersSpent { drawn: 2 })));
    assert!(rt; pass.number() == 0 && other.number() == 1);
    assert!(rt; count_one(&rt, &turn, &mut pass) == Some(0));
    assert!(rt; count_one(&rt, &turn, &mut other) == Some(1));
    assert!(rt; count_one(&rt, &turn, &mut pass) == Some(2));
    assert!(rt; count_of(&rt, &turn, pass, other) == 3);
    Ok(())
}

/// Counts so often. Whether each place is above the one before.
fn count_often<R: Wait>(rt: &R, turn: &Turn<Counter>, pass: Pass, times: u32) -> (Pass, bool)
    requires { IsPassOf (λ s. s.about) turn.now pass }
    ensures { IsPassOf (λ s. s.about) turn.now result.0 }
{
    let mut pass = pass;
    let mut last = None;
    let mut rise = true;
    for _ in 0..times {
        let place = count_one(rt, turn, &mut pass);
        rise = rise && place > last;
        last = place;
    }
    (pass, rise)
}

/// Two threads that count so often each: the count, and whether the places of both rise.
fn count_both<R: Threads + Wait + Sync>(
    rt: &R,
    turn: &Turn<Counter>,
    pass: Pass,
    other: Pass,
    times: u32,
) -> (u64, bool)
    requires pass { IsPassOf (λ s. s.about) turn.now pass }
    requires other { IsPassOf (λ s. s.about) turn.now other }
{
    let ((pass, one), (other, two)) = thread::join(
        rt,
        move || -> (Pass, bool)
            requires { IsPassOf (λ s. s.about) turn.now pass }
            ensures { IsPassOf (λ s. s.about) turn.entry.now result.0 }
        { count_often(rt, turn, pass, times) },
        move || -> (Pass, bool)
            requires { IsPassOf (λ s. s.about) turn.now other }
            ensures { IsPassOf (λ s. s.about) turn.entry.now result.0 }
        { count_often(rt, turn, other, times) },
    );
    (count_of(rt, turn, pass, other), one && two)
}

/// No entry of two threads is lost, and the places of each rise.
#[test]
fn two_threads_count(rt: HostRuntime) -> Result<(), Fail> {
    let Ok((turn, mut pass)) = Turn::make(rt.alloc(), new_counter(), 2) else {
        panic!(rt; "no memory");
    };
    let Ok(other) = turn.split(&rt, &mut pass) else {
        panic!(rt; "there is a second number");
    };
    assert!(rt; count_both(&rt, &turn, pass, other, 1_000) == (2_000, true));
    Ok(())
}

/// A turn may be shared among threads where its state may be sent, and a pass may always be sent.
fn cross<S: Stands + Drop + Send>(turn: &Turn<S>, pass: &Pass) {
    is_shared(turn);
    is_sent(turn);
    is_sent(pass);
}
