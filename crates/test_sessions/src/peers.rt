//! The hub of a test, the limits of its sessions, and devices by numbers.
ghost use Rattle.std.specs.Prelude.{◌≤◌, IfOk};
ghost use Rattle.bsc_hub.specs.Passing.{IsCaller};

use bsc_accept::Times;
use bsc_history::{Counts, Limits};
use bsc_hub::{Hub, Pass};
use bsc_octets::{NoMemory, read_identity};
use bsc_session::SessionLimits;
use std::alloc::Global;

/// The limits of a session.
pub const LIMITS: SessionLimits = SessionLimits {
    times: Times {
        connect_wait: 10_000,
        disconnect_wait: 10_000,
        heartbeat: 300_000,
    },
};

/// The connect of A, the device at 02:00:00:00:00:0A.
pub const CONNECT_A: &[u8] = &[
    6, 0, 0, 1, 2, 0, 0, 0, 0, 10, 10, 10, 10, 10, 10, 10, 10, 10, 10, 10, 10, 10, 10, 10, 10, 10,
    6, 64, 5, 217,
];

/// That of B, the device at 02:00:00:00:00:0B.
pub const CONNECT_B: &[u8] = &[
    6, 0, 0, 1, 2, 0, 0, 0, 0, 11, 11, 11, 11, 11, 11, 11, 11, 11, 11, 11, 11, 11, 11, 11, 11, 11,
    6, 64, 5, 217,
];

/// The counts of a hub at which nobody connected.
pub const NONE: Counts = Counts {
    joined: 0,
    replaced: 0,
    refused: 0,
    unicasts: 0,
    broadcasts: 0,
    appended: 0,
    dropped: 0,
    full: 0,
    missed: 0,
};

/// A hub at 02:00:00:00:00:FF, which takes messages of 1,600 octets, with eight rows and outboxes of so many frames, for so many
/// callers, and its first pass.
pub fn new_hub(alloc: Global, outbox: u32, callers: u64) -> Result<(Hub, Pass), NoMemory>
    requires outbox { (2 ≤ outbox) × (outbox ≤ 1000) }
    requires callers { (1 ≤ callers) × (callers ≤ 1000) }
    ensures { IfOk result (λ r. IsCaller r.0 r.1) }
{
    let hub = read_identity(&[
        2, 0, 0, 0, 0, 255, 0, 17, 34, 51, 68, 85, 102, 119, 136, 153, 170, 187, 204, 221, 238,
        255, 6, 64, 5, 217,
    ]);
    let limits = Limits {
        rows: 8,
        outbox,
        calls: 1 << 40,
        callers,
    };
    Hub::make(alloc, hub, limits)
}
