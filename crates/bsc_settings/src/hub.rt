//! What is settled before a hub starts, and what that says to the crates that serve it.
ghost use Rattle.std.specs.Prelude.{◌≤◌, ◌*◌};
ghost use Rattle.bsc_history.specs.declared.limits.TheConstants.{MOST_OCTETS};
ghost use Rattle.bsc_settings.specs.Table.{port_row, max_bvlc_row, max_npdu_row, rows_row, outbox_row, connect_wait_row};
ghost use Rattle.bsc_settings.specs.Table.{disconnect_wait_row, heartbeat_row, turns_row, RowTakes, IsNodeAddress};

use crate::bounds::MOST_TURNS;
use bsc_accept::Times;
use bsc_history::{Limits, MOST_CALLERS, MOST_CALLS, MOST_OUTBOX, MOST_ROWS};
use bsc_octets::{DeviceId, Identity, Vmac};

/// The settings of a hub. Each value is one that its key takes.
#[derive(Clone, Copy, Debug, PartialEq, Eq)]
pub struct HubSettings {
    /// The hub's own VMAC, neither zero nor the broadcast address.
    pub vmac: Vmac,
    /// The hub's own Device UUID.
    pub uuid: DeviceId,
    /// The TCP port that it binds: 1 to 65,535.
    pub port: u16,
    /// Its Maximum BVLC Length, in octets: `LEAST_BVLC` of `bsc_octets` to 65,535.
    pub max_bvlc: u16,
    /// Its Maximum NPDU Length, in octets: 1 to 65,535.
    pub max_npdu: u16,
    /// How many connections there may be that haven't left: 1 to `MOST_ROWS`.
    pub rows: u32,
    /// How many frames an outbox holds: 2 to `MOST_OUTBOX`.
    pub outbox: u32,
    /// How long a Connect-Request is waited for, in milliseconds: `LEAST_MS` to `GREATEST_MS`.
    pub connect_wait_ms: u32,
    /// How long the answer to a Disconnect-Request is waited for, in milliseconds: `LEAST_MS` to `GREATEST_MS`.
    pub disconnect_wait_ms: u32,
    /// The time of a heartbeat, in milliseconds: `LEAST_MS` to `GREATEST_MS`.
    pub heartbeat_ms: u32,
    /// How many turns a session makes at most: 1 to `MOST_TURNS`.
    pub turns: u64,
    // The hub has an address that names one node.
    pub ghost address: { IsNodeAddress vmac },
    // Each number is one that its row of the table takes.
    pub ghost port_fits: { RowTakes port_row port },
    pub ghost max_bvlc_fits: { RowTakes max_bvlc_row max_bvlc },
    pub ghost max_npdu_fits: { RowTakes max_npdu_row max_npdu },
    pub ghost rows_fit: { RowTakes rows_row rows },
    pub ghost outbox_fits: { RowTakes outbox_row outbox },
    pub ghost connect_wait_fits: { RowTakes connect_wait_row connect_wait_ms },
    pub ghost disconnect_wait_fits: { RowTakes disconnect_wait_row disconnect_wait_ms },
    pub ghost heartbeat_fits: { RowTakes heartbeat_row heartbeat_ms },
    pub ghost turns_fit: { RowTakes turns_row turns },
    // All outboxes together hold no more octets than they may.
    pub ghost product: { rows * outbox * max_bvlc ≤ MOST_OCTETS },
}

impl HubSettings {
    ghost use Rattle.std.specs.Prelude.{◌≡◌};
    ghost use Rattle.bsc_settings.specs.Parts.{identity_of, limits_of, times_of};

    /// Who the hub is.
    pub fn identity(&self) -> Identity
        ensures { result ≡ identity_of self.now }
    {
        Identity {
            vmac: self.vmac,
            device: self.uuid,
            max_bvlc: self.max_bvlc,
            max_npdu: self.max_npdu,
        }
    }

    /// The limits that the hub is made with: its rows and its outboxes, the most calls and the most callers.
    pub fn limits(&self) -> Limits
        ensures limits { result ≡ limits_of self.now }
        // They are ones that a hub can be made with.
        ensures rows { (1 ≤ result.rows) × (result.rows ≤ MOST_ROWS) }
        ensures outbox { (2 ≤ result.outbox) × (result.outbox ≤ MOST_OUTBOX) }
    {
        Limits {
            rows: self.rows,
            outbox: self.outbox,
            calls: MOST_CALLS,
            callers: MOST_CALLERS,
        }
    }

    /// How long the sessions of the hub wait, in milliseconds.
    pub fn times(&self) -> Times
        ensures { result ≡ times_of self.now }
    {
        Times {
            connect_wait: self.connect_wait_ms,
            disconnect_wait: self.disconnect_wait_ms,
            heartbeat: self.heartbeat_ms,
        }
    }

    /// The TCP port that the hub binds: 1 to 65,535.
    pub fn port(&self) -> u16
        ensures port { result ≡ self.now.port }
        ensures some { 1 ≤ result }
    {
        self.port
    }

    /// How many turns a session makes at most: 1 to `MOST_TURNS`.
    pub fn turns(&self) -> u64
        ensures turns { result ≡ self.now.turns }
        ensures range { (1 ≤ result) × (result ≤ MOST_TURNS) }
    {
        self.turns
    }
}
