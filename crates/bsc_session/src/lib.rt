//! One connection's session, from its first reading to its Leave.
//!
//! Start at `specs/Standings.antt` and `specs/Talk.antt`, and read `specs/Turns.antt` between them: what a session says
//! of its link. Then `serving`, and down to `turning`, `taking` and `answering`, which are the parts of a turn.
#![tactic(auto)]

mod answering;
mod backlog;
mod bounds;
mod ended;
mod ending;
mod guarding;
mod job;
mod job_parts;
mod job_terms;
mod judging;
mod last;
mod laws;
mod limits;
mod membership;
mod notes;
mod noting;
mod serving;
mod session_context;
mod session_end;
mod session_setup;
mod session_state;
mod stop;
mod stopping;
mod taken;
mod taking;
mod turning;
mod waking;
mod why;
mod working;

pub use bounds::{TAKES, WAIT_MS};
pub use ended::Ended;
pub use job::SessionJob;
pub use job_parts::JobParts;
pub use job_terms::JobTerms;
pub use last::Last;
pub use laws::{
    a_turn_takes_16_frames, causes_are_exact, notices_are_the_sessions, sessions_end_at_fault,
    wakes_whom_it_concerns,
};
pub use limits::SessionLimits;
pub use notes::{Journal, Made, Noted};
pub use serving::{serve_connection, serve_guarded, serve_recorded};
pub use session_end::SessionEnd;
pub use session_setup::SessionSetup;
pub use stop::Stop;
pub use why::Why;
