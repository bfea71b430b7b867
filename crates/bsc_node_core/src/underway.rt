//! Which links of a node are there, which are under way, and which are open: what a caller asks before it tells an event.
ghost use Rattle.std.specs.Prelude.{◌≡◌, true};
ghost use Rattle.bsc_node.specs.Logs.{Made, Log};
ghost use Rattle.bsc_node.specs.Links as Links;
ghost use Rattle.bsc_node.specs.Conditions as Conditions;
ghost use Rattle.bsc_node_core.specs.Machines.{says_dialling, says_open};
ghost use Rattle.bsc_node_core.specs.Node.{NodeStands};
ghost use Rattle.bsc_node_core.specs.Tables.{is_name};

use crate::machine::Machine;
use crate::node::Node;
use bsc_node::LinkName;

impl Machine {
    /// Whether the link was dialled, and hasn't opened.
    fn is_dialling(&self) -> bool
        ensures { result ≡ says_dialling self.now }
    {
        match self {
            Machine::Dialled(machine) => machine.phase().is_none(),
            Machine::Gone | Machine::Over | Machine::Taken(_) | Machine::Asked(_) => false,
        }
    }

    /// Whether the link was taken, or has opened.
    fn is_open(&self) -> bool
        ensures { result ≡ says_open self.now }
    {
        match self {
            Machine::Dialled(machine) => machine.phase().is_some(),
            Machine::Taken(_) => true,
            Machine::Gone | Machine::Over | Machine::Asked(_) => false,
        }
    }
}

impl Node {
    /// Whether a link is there, open or under way: then it may be lost.
    pub fn is_there(&self, name: LinkName) -> bool
        ensures { (a : Made) (L : Log) → NodeStands self.now a L → is_name name ≡ true → result ≡ Links.is_there name L }
    {
        self.state.links.is_there(name)
    }

    /// Whether a link is under way: it was dialled and hasn't opened, so that it may open, or the dial fail.
    pub fn is_dialling(&self, name: LinkName) -> bool
        ensures { (a : Made) (L : Log) → NodeStands self.now a L → is_name name ≡ true
            → result ≡ Conditions.is_dialling name L }
    {
        let link = self.state.links.get(name);
        link.machine.is_dialling()
    }

    /// Whether a link is open: it was taken or has opened, so that messages may come over it.
    pub fn is_open(&self, name: LinkName) -> bool
        ensures { (a : Made) (L : Log) → NodeStands self.now a L → is_name name ≡ true → result ≡ Conditions.is_open name L }
    {
        let link = self.state.links.get(name);
        link.machine.is_open()
    }
}
