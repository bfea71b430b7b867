//! Every step on the ring's table: each load, store and exchange of the crate stands here.
//!
//! A slot is taken at a load and given back at a store. Between the two the seat may exchange what lies
//! in it, and no other seat can.
ghost use Rattle.std.specs.Prelude.{ℕ, List, ◌≡◌, ◌≢◌, ◌+◌, ◌%◌, ◌<◌, ◌≤◌, ◌^◌, [], length, IfOk, IfErr, IfSome, IfNone, is_some, true, Some, None};
ghost use Rattle.bsc_history.specs.declared.ending.End.{End};
ghost use Rattle.bsc_history.specs.declared.ending.End.TheVariants.{Left};
ghost use Rattle.bsc_ring.specs.Lists.{Item, StartsWith};
ghost use Rattle.bsc_ring.specs.Rule.{end_in, end_number, first_view, inlet_part, outlet_part};
ghost use Rattle.bsc_ring.specs.Effects.{Agree, InletRests, OutletRests, TakesNext, after_end, after_finish, after_load, after_none};
ghost use Rattle.bsc_ring.specs.Effects.{after_push, after_take, inlet_met, outlet_met};

use crate::plays::{
    Confirm, InletHears, InletNote, IntoEnds, LoadHead, LoadTail, OutletHears, OutletNote, ReadEnd,
    RingSeat, RingTable, StoreEnd, StoreHead, StoreTail,
};
use crate::words::{END_WORD, HEAD_WORD, TAIL_WORD};
use atomic_table::Table;
use bsc_history::{End, MOST_OUTBOX};
use bsc_octets::{NoMemory, Octets};
use std::alloc::Global;

/// A table with nothing in it, an inlet's seat and an outlet's.
pub(crate) fn lay_out(
    alloc: Global,
    capacity: u32,
) -> Result<(RingTable, RingSeat, RingSeat), NoMemory>
    requires { 0 < capacity }
    ensures placed { IfOk result (λ r. (r.1.table_id ≡ r.0.shared.table_id)
        × (r.2.table_id ≡ r.0.shared.table_id)) }
    ensures sized { IfOk result (λ r. (r.0.shared.table_id.words ≡ 3)
        × (r.0.shared.table_id.slots ≡ capacity)) }
    ensures views { IfOk result (λ r. (r.1.me ≡ (inlet_part first_view, []))
        × (r.2.me ≡ (outlet_part first_view, []))) }
{
    let (table, mut seat) = Table::vacant(alloc, &[0, 0, 0], capacity as usize, &())?;
    let other = table.shared.split_seat::<IntoEnds>(&mut seat);
    Ok((table, seat, other))
}

/// What the head word says. One load, of which the seat keeps nothing.
pub(crate) fn load_head(table: &RingTable, seat: &mut RingSeat) -> u64
    requires placed { seat.old.table_id ≡ table.now.shared.table_id }
    requires sized { seat.old.table_id.words ≡ 3 }
    ensures placed { seat.new.table_id ≡ seat.old.table_id }
    ensures same { seat.new.me ≡ seat.old.me }
{
    table.shared.load::<Confirm>(seat, HEAD_WORD)
}

/// Puts a frame into the slot at the tail, unless the ring is full. One load, one exchange, one store.
pub(crate) fn put_in(
    table: &RingTable,
    seat: &mut RingSeat,
    capacity: u64,
    sent: u64,
    slot: u64,
    frame: Octets,
) -> Result<u64, (Octets, u64)>
    requires placed { seat.old.table_id ≡ table.now.shared.table_id }
    requires sized { (seat.old.table_id.words ≡ 3) × (seat.old.table_id.slots ≡ capacity) }
    requires bounds { (2 ≤ capacity) × (capacity ≤ MOST_OUTBOX) }
    requires rests { InletRests seat.old.me × (sent ≡ length seat.old.me.0.pushed) }
    requires at { (slot ≡ sent % capacity) × (slot < capacity) }
    requires in_range { sent < 2 ^ 63 }
    requires open { seat.old.me.0.ended ≡ None }
    ensures placed { seat.new.table_id ≡ seat.old.table_id }
    ensures ok { IfOk result (λ n. (seat.old.me.0.least ≤ n) × (n ≤ sent) × (sent < n + capacity)
        × (seat.new.me ≡ (after_push n frame seat.old.me.0, []))) }
    ensures full { IfErr result (λ e. (e.0 ≡ frame) × (seat.old.me.0.least ≤ e.1) × (e.1 ≤ sent)
        × (sent ≡ e.1 + capacity) × (seat.new.me ≡ (after_load e.1 seat.old.me.0, []))) }
{
    let head = table.shared.load::<LoadHead>(seat, HEAD_WORD);
    if sent - head == capacity {
        return Err((frame, head));
    }
    let slot = slot as usize;
    match table.shared.exchange(seat, slot, Some(frame)) {
        None => {}
        Some(_) => unreachable!(),
    }
    table.shared.store::<StoreTail>(seat, TAIL_WORD, sent + 1);
    Ok(head)
}

/// The End that a number in the end word says.
fn end_of(n: u64) -> Option<End>
    ensures { result ≡ end_in n }
{
    if n == 0 {
        None
    } else if n == 1 {
        Some(End::Left)
    } else if n == 2 {
        Some(End::Replaced)
    } else if n == 3 {
        Some(End::Full)
    } else {
        Some(End::Stopped)
    }
}

/// The number that says an End.
fn number_of(ending: End) -> u64
    ensures { result ≡ end_number (Some ending) }
{
    match ending {
        End::Left => 1,
        End::Replaced => 2,
        End::Full => 3,
        End::Stopped => 4,
    }
}

/// What the end word says. One load.
pub(crate) fn load_end(table: &RingTable, seat: &mut RingSeat) -> Option<End>
    requires placed { seat.old.table_id ≡ table.now.shared.table_id }
    requires sized { seat.old.table_id.words ≡ 3 }
    requires rests { OutletRests seat.old.me }
    ensures placed { seat.new.table_id ≡ seat.old.table_id }
    ensures named { (result ≢ Some Left) × (seat.old.me.0.whole ≡ true → is_some result ≡ true) }
    ensures stays { (e : End) → seat.old.me.0.heard ≡ Some e → result ≡ Some e }
    ensures seen { seat.new.me ≡ (after_end result seat.old.me.0, []) }
{
    let found = table.shared.load::<ReadEnd>(seat, END_WORD);
    end_of(found)
}

/// The item at the head, if there is one. One load, and where it finds an item one exchange and one store.
pub(crate) fn take_next(
    table: &RingTable,
    seat: &mut RingSeat,
    capacity: u64,
    taken: u64,
    slot: u64,
) -> Option<Octets>
    requires placed { seat.old.table_id ≡ table.now.shared.table_id }
    requires sized { (seat.old.table_id.words ≡ 3) × (seat.old.table_id.slots ≡ capacity) }
    requires bounds { (2 ≤ capacity) × (capacity ≤ MOST_OUTBOX) }
    requires rests { OutletRests seat.old.me × (taken ≡ length seat.old.me.0.given) }
    requires at { (slot ≡ taken % capacity) × (slot < capacity) }
    ensures placed { seat.new.table_id ≡ seat.old.table_id }
    ensures none { IfNone result (StartsWith seat.old.me.0.given seat.old.me.0.known
        × (seat.old.me.0.whole ≡ true → seat.old.me.0.given ≡ seat.old.me.0.known)
        × (seat.new.me ≡ (after_none seat.old.me.0, []))) }
    ensures some { IfSome result (λ x. (k : List Item) × (n : ℕ) × (n < 2 ^ 64)
        × TakesNext k n x seat.old.me.0 × (seat.new.me ≡ (after_take k n x seat.old.me.0, []))) }
{
    let tail = table.shared.load::<LoadTail>(seat, TAIL_WORD);
    if tail == taken {
        return None;
    }
    let slot = slot as usize;
    let item = table.shared.exchange(seat, slot, None);
    table.shared.store::<StoreHead>(seat, HEAD_WORD, taken + 1);
    match item {
        Some(frame) => Some(frame),
        None => unreachable!(),
    }
}

/// Sets the end word. One store.
pub(crate) fn store_end(table: &RingTable, seat: &mut RingSeat, ending: End)
    requires placed { seat.old.table_id ≡ table.now.shared.table_id }
    requires sized { seat.old.table_id.words ≡ 3 }
    requires rests { InletRests seat.old.me }
    requires open { (seat.old.me.0.ended ≡ None) × (ending ≢ Left) }
    ensures placed { seat.new.table_id ≡ seat.old.table_id }
    ensures ended { seat.new.me ≡ (after_finish ending seat.old.me.0, []) }
{
    table
        .shared
        .store::<StoreEnd>(seat, END_WORD, number_of(ending));
}

/// Tells each end what the other knows. A note of what the outlet knows goes to the inlet, which then confirms
/// its view by a load; and then one of what the inlet knows to the outlet. No slot is taken or given back, and
/// no load of this is kept in a list.
pub(crate) fn tell_each_other(table: &RingTable, inlet: &mut RingSeat, outlet: &mut RingSeat)
    requires placed { (inlet.old.table_id ≡ table.now.shared.table_id)
        × (outlet.old.table_id ≡ table.now.shared.table_id) }
    requires sized { inlet.old.table_id.words ≡ 3 }
    requires rests { InletRests inlet.old.me × OutletRests outlet.old.me }
    ensures placed { (inlet.new.table_id ≡ inlet.old.table_id)
        × (outlet.new.table_id ≡ outlet.old.table_id) }
    ensures told { (inlet.new.me ≡ (inlet_met inlet.old.me.0 outlet.old.me.0, []))
        × (outlet.new.me ≡ (outlet_met inlet.old.me.0 outlet.old.me.0, [])) }
    ensures agree { Agree inlet.old.me.0 outlet.old.me.0 (inlet_met inlet.old.me.0 outlet.old.me.0)
        (outlet_met inlet.old.me.0 outlet.old.me.0) }
{
    let note = table.shared.split_seat::<OutletNote>(outlet);
    table.shared.join_seat::<InletHears>(inlet, note);
    table.shared.load::<Confirm>(inlet, HEAD_WORD);
    let note = table.shared.split_seat::<InletNote>(inlet);
    table.shared.join_seat::<OutletHears>(outlet, note);
    table.shared.load::<Confirm>(outlet, HEAD_WORD);
}
