//! What is said of one hub: the calls, their replies, and the history that they stand in.
//!
//! This is plain data, and the program stores no history: contracts speak of it. `specs/` has the
//! definitions, a file a subject (`Entries`, `Ends`, `Holders`, `Outboxes`, `Replies`, `Counting`,
//! `Legality`, `Marks`); `laws` has what holds of every legal history. `docs/reference/DEFINITIONS.md` says each in
//! plain words. `standing` and `making` have the traits by which a lock speaks of a state and of the entry
//! of a commit.
#![tactic(auto)]

mod call;
mod connection;
mod conns;
mod counts;
mod ending;
mod entry;
mod laws;
mod limits;
mod looks;
mod making;
mod mark;
mod reply;
mod standing;
mod told;

pub use call::Call;
pub use connection::Connection;
pub use conns::Conns;
pub use counts::Counts;
pub use ending::End;
pub use entry::Entry;
pub use laws::{
    a_hub_has_1024_rows, after_end, broadcast_joins, broadcast_to_others_alone, end_stays,
    ends_by_cause, frames_enter_by_forwards, full_closes, full_misses, join_takes_over, naming,
    numbering, numbers_are_new, once, one_holder, one_of_device, one_of_three,
    refusal_changes_none, unicast_joins, unicast_to_holder_alone, until_end, within,
};
pub use limits::{About, Limits, MOST_CALLERS, MOST_CALLS, MOST_OCTETS, MOST_OUTBOX, MOST_ROWS};
pub use looks::{Look, Looks};
pub use making::Makes;
pub use mark::{Mark, Stamped};
pub use reply::{Refusal, Reply};
pub use standing::Stands;
pub use told::{AlreadyStopped, Told, Worn};
