//! Which condition an entry breaks that isn't lawful.
use bsc_history::{Conns, Reply};

/// Which condition an entry breaks that isn't lawful behind a history: the first, in the order in which they stand here.
#[derive(Debug, Drop)]
pub enum Breach {
    /// The VMAC that asks to join is zero or the broadcast address, which are no one node's.
    Address,
    /// The call is for a connection that its caller didn't join, or that has left.
    NotOwn {
        conn: u64,
    },
    /// The message has no Destination, or it names its sender: a hub forwards none of these.
    NoRoute,
    /// The hub answers so many calls, and had answered as many.
    Calls {
        limit: u64,
    },
    /// The hub is to stop, and had stopped.
    AfterStop,
    /// The call looks at other outboxes than those of these connections.
    Outboxes {
        due: Conns,
    },
    /// So many frames can't be found taken from the outbox of a connection: from `least` to `most` can.
    Taken {
        conn: u64,
        taken: u64,
        least: u64,
        most: u64,
    },
    /// The reply is another than this one.
    Due {
        reply: Reply,
    },
}
