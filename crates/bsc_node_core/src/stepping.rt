//! How a link goes on.
ghost use Rattle.std.specs.Prelude.{◌≡◌, true};
ghost use Rattle.bsc_node_core.specs.Machines.{is_fit, says_there};
ghost use Rattle.bsc_node_core.specs.Tables.{begun, claimed, kept_of, nothing_kept, with_machine, with_peer};

use crate::link::Link;
use crate::machine::Machine;
use bsc_octets::Identity;

impl Machine {
    /// Whether the link is there.
    pub(crate) fn is_there(&self) -> bool
        ensures { result ≡ says_there self.now }
    {
        match self {
            Machine::Gone => false,
            Machine::Over | Machine::Dialled(_) | Machine::Taken(_) | Machine::Asked(_) => true,
        }
    }
}

impl Link {
    /// A link that never began.
    pub(crate) fn none() -> Link
        ensures { kept_of result ≡ nothing_kept }
    {
        Link {
            machine: Machine::Gone,
            peer: None,
            tries: 0,
        }
    }

    /// Whether it is there, open or under way.
    pub(crate) fn is_there(&self) -> bool
        ensures { result ≡ says_there self.now.machine }
    {
        self.machine.is_there()
    }

    /// The link with this machine.
    pub(crate) fn with_machine(&self, machine: Machine) -> Link
        requires { is_fit machine ≡ true }
        ensures { kept_of result ≡ with_machine machine (kept_of self.now) }
    {
        Link {
            machine,
            peer: self.peer,
            tries: self.tries,
        }
    }

    /// The link, whose peer has named itself.
    pub(crate) fn with_peer(&self, who: Identity) -> Link
        ensures { kept_of result ≡ with_peer who (kept_of self.now) }
    {
        Link {
            machine: self.machine,
            peer: Some(who),
            tries: self.tries,
        }
    }

    /// The link, which begins anew with this machine.
    pub(crate) fn begun(&self, machine: Machine) -> Link
        requires { is_fit machine ≡ true }
        ensures { kept_of result ≡ begun machine (kept_of self.now) }
    {
        Link {
            machine,
            peer: None,
            tries: self.tries.saturating_add(1),
        }
    }

    /// The link of a slot that was claimed now.
    pub(crate) fn claimed(&self) -> Link
        ensures { kept_of result ≡ claimed (kept_of self.now) }
    {
        Link {
            machine: self.machine,
            peer: self.peer,
            tries: 0,
        }
    }
}
