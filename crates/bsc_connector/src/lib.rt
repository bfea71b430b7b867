//! Which hub a node uses, and when it dials one (Annex AB, "Hub Connector"), without input or output.
//!
//! Start at `specs/Sides.antt`: how the primary hub and the failover stand, by all that a connector was told. What it
//! does then is in `specs/Steps.antt`. `connector` has the calls. Whoever holds the connector dials, and tells it
//! what comes of that: it knows no link and no URI, and it takes no memory.
#![tactic(auto)]

mod connector;
mod event;
mod hub_use;
mod laws;
mod side;
mod side_state;
mod sides;
mod step;
mod waits;

pub use connector::Connector;
pub use event::{ConnectorEvent, HubEvent};
pub use hub_use::HubUse;
pub use laws::{
    a_side_that_is_tried_is_not_dialled, dials_keep_apart, no_failover_beside_the_primary,
    the_primary_is_used, waits_double,
};
pub use side::Side;
pub use step::ConnectorStep;
pub use waits::Waits;
