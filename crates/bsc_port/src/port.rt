//! The port and its calls.
ghost use Rattle.std.specs.Prelude.{◌≡◌, None, [], IfOk, OnErr, option_map};
ghost use Rattle.bsc_accept.specs.Standing.{AcceptingStands};
ghost use Rattle.bsc_port.specs.Standing.{Fits, Handles, Hears, HasPast, IsReady, LeavesBy, LeavesPort, MayHandle};

use crate::action::{PortAction, action_by};
use crate::event::PortEvent;
use crate::output::{Output, output_of};
use bsc_accept::{Accepting, Times};
use bsc_checks::{Place, judge};
use bsc_octets::{Identity, NoMemory, Vmac};
use bsc_policy::Policy;
use std::alloc::Global;

/// The hub's side of one connection. A `J` is what its holder has of the connection once the device has joined.
///
/// A port begins with `start`. `receive` is for each message; after a `Connect` the holder tells `Joined` or `Refused`
/// before anything else. `handle` is for all other events. After a closing neither is called.
#[derive(Drop)]
pub struct Port<J> {
    /// The machine of the accepting peer.
    pub machine: Accepting,

    /// What the holder sets once the device has joined.
    pub joined: Option<J>,
}

impl<J> Port<J> {
    /// The port of a link that was opened now.
    pub fn start(hub: Identity, times: Times, now: u64) -> Port<J>
        ensures stands { AcceptingStands result.machine (record { own = hub; times = times; at = now }) [] }
        ensures ready { IsReady result }
        ensures alone { result.joined ≡ None }
    {
        Port {
            machine: Accepting::start(hub, times, now),
            joined: None,
        }
    }

    /// A message came over the link: it is judged, and the machine is told.
    ///
    /// `max` is the longest message that the hub takes, and `from` the address of the connection, where it has joined. No
    /// memory may be found to judge by; then the port is as it was.
    pub fn receive(
        &mut self,
        alloc: Global,
        now: u64,
        max: u16,
        policy: Option<&Policy>,
        from: Option<Vmac>,
        m: &[u8],
    ) -> Result<PortAction, NoMemory>
        requires ready { IsReady self.old }
        requires some { HasPast self.old }
        ensures heard { IfOk result (λ action.
            Hears self.old.machine self.new.machine (option_map (λ p. p.now) policy.entry) from now max m.now action) }
        ensures fits { IfOk result (λ action. Fits (option_map (λ p. p.now) policy.entry) m.now action) }
        ensures left { IfOk result (λ action. LeavesBy action self.new) }
        ensures same { self.new ≡ record self.old { machine = self.new.machine } }
        ensures err { OnErr result (self.new ≡ self.old) }
    {
        let place = Place::HubPort {
            phase: self.machine.phase(),
        };
        let verdict = judge(alloc, m, &place, max)?;
        let step = self.machine.message(now, &verdict);
        Ok(action_by(policy, from, m, &verdict, step))
    }

    /// Something else happened.
    pub fn handle(&mut self, event: PortEvent) -> Output
        requires may { MayHandle event self.old }
        requires some { HasPast self.old }
        ensures handled { Handles self.old.machine self.new.machine event result }
        ensures left { LeavesPort result self.new }
        ensures same { self.new ≡ record self.old { machine = self.new.machine } }
    {
        match event {
            PortEvent::Joined => output_of(self.machine.joined()),
            PortEvent::Refused(refusal) => output_of(self.machine.refused(&refusal)),
            PortEvent::Ended { now, ending } => output_of(self.machine.ended(now, ending)),
            PortEvent::Tick { now } => output_of(self.machine.tick(now)),
        }
    }
}
