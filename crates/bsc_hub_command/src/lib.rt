//! The command `hub`: a hub by the settings in a file, served until so many sessions have ended or its stop is asked for, or for
//! ever.
//!
//! Start at `specs/Served.antt`, which says what a served hub writes and with which status it ends. `command` has
//! `run_hub`, which loads the settings; `serving` has `serve`, which makes the hub, begins its own journal and serves it.
//! `asked` has what it is served on, `made` the hub once it is made, `place` where it is put for the caller, and `title` the
//! first line of that journal. `testing` has `test_hub`, which tries the settings and serves nothing; `specs/Tested.antt` says
//! what that writes.
#![tactic(auto)]

mod asked;
mod command;
mod made;
mod place;
mod serving;
mod settled;
mod testing;
mod texts;
mod title;
mod words;

pub use asked::HubAsked;
pub use command::run_hub;
pub use place::HubPlace;
pub use serving::serve;
pub use testing::test_hub;
pub use title::hub_line;
pub use words::HubWords;
