//! The state stands for the history with an entry more.
#![tactic(auto)]

ghost use Rattle.std.specs.Prelude.{◌≡◌, ◌==◌, ◌<◌, ◌+◌, ◌^◌, ◌≤◌, ◌++◌, IsTrue, Some, filter, map, nat_lt, not, option_to_list, vec_capacity, vec_len};
ghost use Rattle.std.specs.List.{list_all};
ghost use Rattle.bsc_history.specs.declared.connection.Connection.{Connection};
ghost use Rattle.bsc_history.specs.Ends.{is_leave};
ghost use Rattle.bsc_history.specs.Entries.{connection_of, is_stop};
ghost use Rattle.bsc_legality.specs.Deciding.{accepts};
ghost use Rattle.bsc_legality.specs.Following.{Becomes, NamesOnce, new_row, row_after};
ghost use Rattle.bsc_legality.specs.Rows.{rising};

use crate::changing::{close_by_call, close_by_reply, give, look_at_all};
use crate::counting::{counts_of, plus};
use crate::legality::Legality;
use crate::row::Row;
use bsc_history::{Call, Connection, Entry, Reply};

/// Each row after an entry.
fn follow_each(rows: &mut [Row], entry: &Entry)
    requires rising { IsTrue (rising rows.old) }
    requires few { IsTrue (list_all (λ r. nat_lt r.entered (2 ^ 52)) rows.old) }
    requires once { NamesOnce entry.now.reply }
    ensures { rows.new ≡ map (row_after entry.now) rows.old }
{
    look_at_all(rows, entry.looks.as_slice());
    give(rows, &entry.reply);
    close_by_call(rows, &entry.call);
    close_by_reply(rows, &entry.reply);
}

/// All rows after an entry.
fn follow_all(rows: &mut Vec<Row>, entry: &Entry)
    requires rising { IsTrue (rising rows.old.items) }
    requires few { IsTrue (list_all (λ r. nat_lt r.entered (2 ^ 52)) rows.old.items) }
    requires once { NamesOnce entry.now.reply }
    ensures items { rows.new.items ≡ map (row_after entry.now) rows.old.items }
    ensures len { vec_len rows.new ≡ vec_len rows.old }
    ensures capacity { vec_capacity rows.new ≡ vec_capacity rows.old }
{
    follow_each(rows.as_mut_slice(), entry);
}

/// A connection is out.
fn drop_row(rows: &mut Vec<Row>, conn: u64)
    ensures items { rows.new.items ≡ filter (λ r. not (conn == r.connection.number)) rows.old.items }
    ensures capacity { vec_capacity rows.new ≡ vec_capacity rows.old }
    ensures len { vec_len rows.new ≤ vec_len rows.old }
{
    rows.retain(|row| conn != row.connection.number);
}

/// Who leaves by a call is out.
fn drop_left(rows: &mut Vec<Row>, call: &Call)
    ensures items { rows.new.items ≡ filter (λ r. not (is_leave r.connection.number call.now)) rows.old.items }
    ensures capacity { vec_capacity rows.new ≡ vec_capacity rows.old }
    ensures len { vec_len rows.new ≤ vec_len rows.old }
{
    match call {
        Call::Leave { conn, .. } => drop_row(rows, *conn),
        _ => {}
    }
}

/// Who joins by an entry is last.
fn push_new(rows: &mut Vec<Row>, entry: &Entry)
    requires { (x : Connection) → connection_of entry.now ≡ Some x → vec_len rows.old < vec_capacity rows.old }
    ensures items { rows.new.items ≡ rows.old.items ++ map new_row (option_to_list (connection_of entry.now)) }
    ensures capacity { vec_capacity rows.new ≡ vec_capacity rows.old }
    ensures len { vec_len rows.new ≤ vec_len rows.old + 1 }
{
    match (&entry.call, &entry.reply) {
        (Call::Connect { who }, Reply::Joined { conn, .. }) => {
            let connection = Connection {
                number: *conn,
                caller: entry.caller,
                who: *who,
            };
            rows.push_reserved(Row {
                connection,
                ending: None,
                entered: 0,
                looked: 0,
            });
        }
        _ => {}
    }
}

/// Whether a call stops the hub.
fn is_stop(call: &Call) -> bool
    ensures { result ≡ is_stop call.now }
{
    match call {
        Call::Stop => true,
        _ => false,
    }
}

impl Legality {
    /// The state stands for the history with an entry that is accepted.
    pub(crate) fn follow(&mut self, entry: &Entry)
        requires rising { IsTrue (rising self.old.rows.items) }
        requires accepted { IsTrue (accepts self.old entry.now) }
        requires few { self.old.entries < 2 ^ 31 }
        ensures { Becomes entry.now self.old self.new }
    {
        self.counts = plus(self.counts, counts_of(entry));
        self.entries += 1;
        self.stopped = self.stopped || is_stop(&entry.call);
        follow_all(&mut self.rows, entry);
        drop_left(&mut self.rows, &entry.call);
        push_new(&mut self.rows, entry);
    }
}
