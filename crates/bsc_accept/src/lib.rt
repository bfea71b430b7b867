//! The machine of a peer that accepts a connection (Annex AB, "Accepting Peer"), without input or output.
//!
//! Start at `specs/Steps.antt`: which step a machine makes at an event, by all events before it. `specs/Past.antt`
//! looks back over them, and `specs/Waits.antt` has the three waits. `accepting` has the calls, one for each
//! event, and `step` what each of them answers. Whoever holds the machine carries its steps out: it knows no
//! link, no text and no hub, and it takes no memory.
#![tactic(auto)]

mod accepting;
mod closing;
mod event;
mod laws;
mod moving;
mod passing;
mod pending_disconnect;
mod reason;
mod replies;
mod stage;
mod start;
mod step;
mod times;
mod waits;

pub use accepting::Accepting;
pub use closing::Closing;
pub use event::Event;
pub use laws::{messages_are_heard, replies_are_messages, ticks_close};
pub use passing::is_farewell_answer;
pub use pending_disconnect::PendingDisconnect;
pub use reason::Reason;
pub use replies::{disconnect_ack, disconnect_request, head, heartbeat_ack, with_room};
pub use start::Start;
pub use step::Step;
pub use times::Times;
pub use waits::{is_over, twice};
