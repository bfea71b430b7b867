//! Plays inputs of lines: one loop for every language of lines.
//!
//! A `Language` (`src/language.rt`) says what each line does to what stands, and whether an input may end
//! there. `play_lines` (`src/playing.rt`) reads a source, hands each line to the language, and writes the text
//! to a sink. What an input comes to is `played_of` in `specs/Playing.antt`, and what stands written after each
//! of the five ends is `PlaysOut` in `specs/Ends.antt`. `end_play` (`src/last_lines.rt`) gives a program its
//! last line and its status, and `specs/Statuses.antt` has the words for them. `specs/Echo.antt` is a small
//! language, which the tests play.
#![tactic(auto)]

mod collecting;
mod language;
mod last_lines;
mod play_end;
mod playing;

pub use language::{Language, LineFault};
pub use last_lines::{end_play, end_with, out_of_memory};
pub use play_end::PlayEnd;
pub use playing::play_lines;
