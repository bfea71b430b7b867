//! Two callers meet: an example of what their passes say when they are joined.
ghost use Rattle.std.specs.Prelude.{◌≡◌, [], ◌∷◌, None, IfOk, IsFalse};
ghost use Rattle.bsc_octets.specs.Forwarding.{is_broadcast};
ghost use Rattle.bsc_history.specs.declared.looks.Look.{Look};
ghost use Rattle.bsc_history.specs.Marks.{entries};
ghost use Rattle.bsc_turn.specs.declared.pass.Pass.{Pass};
ghost use Rattle.bsc_turn.specs.Effects.{ended_of};
ghost use Rattle.bsc_turn.specs.Passes.{ended_callers, number_of, seen, view_of};
ghost use Rattle.bsc_desk.specs.declared.forwarding.OneReply.TheVariants.{Appended};
ghost use Rattle.bsc_hub.specs.Calls.{one_made};
ghost use Rattle.bsc_hub.specs.Passing.{IsCaller, IsOwnAs, Passed, about_of};
ghost use Rattle.bsc_hub.specs.Unicasts.{IsThereAlone};

use crate::hub::Hub;
use bsc_desk::{OneReply, Prepared};
use bsc_history::{Told, Worn};
use bsc_turn::Pass;
use std::sync::Wait;

/// One caller forwards a unicast of its connection `conn`, and then its pass is joined to another's. Where the
/// unicast was appended, the history that the other pass has then seen says so: by the entry at the place told, the
/// frame joined, under its sender's address, the outbox of the connection that held its Destination, and no other
/// outbox; and it is there since.
pub fn unicast_is_there<R: Wait>(
    hub: &Hub,
    rt: &R,
    sender: Pass,
    conn: u64,
    frame: Prepared,
    pass: &mut Pass,
) -> Result<Told<OneReply>, Worn>
    requires sender { IsCaller hub.now sender }
    requires own { IsOwnAs sender conn frame.sender }
    requires unicast { IsFalse (is_broadcast frame.message) }
    requires pass { IsCaller hub.now pass.old }

    // The sender's pass made the one call, and as that left it the other took it in.
    ensures pass { (sent : Pass) × Passed hub.now sender [] (one_made (number_of sender) conn frame.message result) sent
        × Passed hub.now pass.old (ended_of (view_of sent) ∷ ended_callers sent) None pass.new }
    ensures there { IfOk result (λ t. (look : Look) → t.said ≡ Appended look →
        IsThereAlone (about_of hub.now) (entries (seen pass.new)) t.at look.conn frame) }
{
    let mut sender = sender;
    let told = hub.forward_one(rt, &mut sender, conn, frame);
    hub.join(pass, sender);
    told
}
