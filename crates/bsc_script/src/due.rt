//! Which outboxes a line filled or ended.
ghost use Rattle.std.specs.Prelude.{◌≡◌, ℕ};
ghost use Rattle.bsc_history.specs.declared.reply.Reply.TheVariants.{Joined as JoinedReply};
ghost use Rattle.bsc_desk.specs.Entries.{one_reply, all_reply};
ghost use Rattle.bsc_script.specs.Touching.{touched, dues};

use bsc_desk::{AllReply, OneReply};
use bsc_history::Conns;

/// The connections whose outboxes may have gained something by a line: a frame, or an End.
#[derive(Drop)]
pub(crate) enum Due {
    /// No outbox has changed.
    Nobody,
    /// That of this connection.
    One(u64),
    /// Those of these, in the order of joining.
    Each(Conns),
}

impl Due {
    /// Those that a unicast changed.
    pub(crate) fn by_one(reply: OneReply) -> Due
        ensures { dues result ≡ touched (one_reply reply) }
    {
        match reply {
            OneReply::Appended(look) | OneReply::Closed(look) => Due::One(look.conn),
            OneReply::Skipped { .. }
            | OneReply::NoHolder
            | OneReply::NotCurrent { .. }
            | OneReply::Stopped => Due::Nobody,
        }
    }

    /// Those that a broadcast changed.
    pub(crate) fn by_all(reply: AllReply) -> Due
        ensures { dues result ≡ touched (all_reply reply) }
    {
        match reply {
            AllReply::Sent { to, .. } => Due::Each(to),
            AllReply::NotCurrent { .. } | AllReply::Stopped => Due::Nobody,
        }
    }

    /// That of the connection that a join took over from.
    pub(crate) fn by_join(replaced: Option<u64>) -> Due
        ensures { (conn : ℕ) → dues result ≡ touched (JoinedReply conn replaced) }
    {
        match replaced {
            Some(conn) => Due::One(conn),
            None => Due::Nobody,
        }
    }
}
