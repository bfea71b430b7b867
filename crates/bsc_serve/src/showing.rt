//! Showing how the hub is doing.
ghost use Rattle.std.specs.Prelude.{◌≡◌, [], None};
ghost use Rattle.bsc_turn.specs.Passes.{newest_number, seen};
ghost use Rattle.bsc_hub.specs.Passing.{IsCaller, Passed};
ghost use Rattle.bsc_serve.specs.Asking.{asking_by};
ghost use Rattle.bsc_serve.specs.Showing.{Shown};

use crate::stop_asker::StopAsker;
use bsc_hub::{Hub, Pass};
use std::sync::Wait;

/// Shows the asker how the hub is doing, if it wants that. The hub is asked only then; no entry is made.
pub(crate) fn show<R: Wait, Q: StopAsker>(
    rt: &R,
    hub: &Hub,
    pass: &mut Pass,
    asker: &mut Q,
    is_last: bool,
)
    requires { IsCaller hub.now pass.old }
    ensures passed { Passed hub.now pass.old [] None pass.new }
    ensures loaded { newest_number pass.new ≡ newest_number pass.old }
    ensures asker { asking_by Q.looks Q.asked Q.endings asker.new ≡ asking_by Q.looks Q.asked Q.endings asker.old }
    ensures shown { Shown (seen pass.new) (Q.statuses asker.old) (Q.statuses asker.new) }
{
    if asker.wants(is_last) {
        let status = hub.status(rt, pass);
        asker.show(status);
    }
}
