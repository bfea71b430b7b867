//! Who is told that something is new.
ghost use Rattle.std.specs.Prelude.{◌≡◌, map};
ghost use Rattle.bsc_history.specs.declared.reply.Reply.{Reply};
ghost use Rattle.bsc_desk.specs.Entries.{all_reply, one_reply};
ghost use Rattle.bsc_edge.specs.declared.notice.Notice.TheVariants.{Woke};
ghost use Rattle.bsc_edge.specs.Told.{Grows, Stays};
ghost use Rattle.bsc_session.specs.Notices.{notices_by};

use bsc_desk::{AllReply, OneReply};
use bsc_edge::Link;

/// Tells the link of the receiver of a unicast, or of the connection that it ended.
#[tactic(auto, using(bsc_edge::proofs::Common::grows_none, bsc_edge::proofs::Common::stays_same))]
pub fn wake_one<L: Link>(link: &mut L, said: OneReply)
    ensures told { Stays (L.talk link.old) (L.talk link.new) }
    ensures same { L.faults link.new ≡ L.faults link.old }
    ensures woken { Grows (L.notices link.old) (L.notices link.new) (notices_by (one_reply said)) }
{
    match said {
        OneReply::Appended(look) | OneReply::Closed(look) => link.wake(look.conn),
        OneReply::Skipped { .. }
        | OneReply::NoHolder
        | OneReply::NotCurrent { .. }
        | OneReply::Stopped => (),
    }
}

/// Tells the link of these connections.
#[tactic(auto, using(bsc_edge::proofs::Common::grows_none, bsc_edge::proofs::Common::stays_same, bsc_edge::proofs::Common::stays_then))]
fn wake_each<L: Link>(link: &mut L, conns: &[u64])
    ensures told { Stays (L.talk link.old) (L.talk link.new) }
    ensures same { L.faults link.new ≡ L.faults link.old }
    ensures woken { Grows (L.notices link.old) (L.notices link.new) (map Woke conns.now) }
{
    for conn in conns {
        link.wake(*conn);
    }
}

/// Tells the link of the receivers of a broadcast.
#[tactic(auto, using(bsc_edge::proofs::Common::grows_none, bsc_edge::proofs::Common::stays_same))]
pub fn wake_all<L: Link>(link: &mut L, said: &AllReply)
    ensures told { Stays (L.talk link.old) (L.talk link.new) }
    ensures same { L.faults link.new ≡ L.faults link.old }
    ensures woken { Grows (L.notices link.old) (L.notices link.new) (notices_by (all_reply said.now)) }
{
    match said {
        AllReply::Sent { to, .. } => wake_each(link, to.as_slice()),
        AllReply::NotCurrent { .. } | AllReply::Stopped => (),
    }
}

/// Tells the link whose it is, and of the connection that was replaced.
#[tactic(auto, using(bsc_edge::proofs::Common::grows_none, bsc_edge::proofs::Common::stays_same, bsc_edge::proofs::Common::stays_then))]
pub fn announce_join<L: Link>(link: &mut L, conn: u64, replaced: Option<u64>)
    ensures told { Stays (L.talk link.old) (L.talk link.new) }
    ensures same { L.faults link.new ≡ L.faults link.old }
    ensures woken { Grows (L.notices link.old) (L.notices link.new) (notices_by (Reply.Joined conn replaced)) }
{
    link.set_connection(conn);
    if let Some(replaced) = replaced {
        link.wake(replaced);
    }
}
