//! What the settings of a node say to the crates that run it.
ghost use Rattle.std.specs.Prelude.{◌≡◌};
ghost use Rattle.bsc_settings.specs.Parts.{node_identity_of, node_times_of};

use crate::node::NodeSettings;
use bsc_accept::Times;
use bsc_octets::Identity;

impl NodeSettings {
    /// Who the node is when it starts.
    pub fn identity(&self) -> Identity
        ensures { result ≡ node_identity_of self.now }
    {
        Identity {
            vmac: self.vmac,
            device: self.uuid,
            max_bvlc: self.max_bvlc,
            max_npdu: self.max_npdu,
        }
    }

    /// How long its connections wait, in milliseconds.
    pub fn times(&self) -> Times
        ensures { result ≡ node_times_of self.now }
    {
        Times {
            connect_wait: self.connect_wait_ms,
            disconnect_wait: self.disconnect_wait_ms,
            heartbeat: self.heartbeat_ms,
        }
    }
}
