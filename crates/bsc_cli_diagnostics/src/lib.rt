//! Which of the words of the program is wrong, and what it has to be.
//!
//! Start at `why_words` (`src/words.rt`), which is of words that `read_words` of `bsc_cli` refuses.
#![tactic(auto)]

mod words;

pub use words::why_words;
