//! Words that were read, with what reading them came to.
ghost use Rattle.std.specs.Prelude.{◌≡◌, Some, None, Err, IfOk, map, string_bytes};
ghost use Rattle.std.proofs.Props.{props};
ghost use Rattle.bsc_cli.specs.declared.fault.WordsFault.TheVariants as words_fault;
ghost use Rattle.bsc_cli.specs.Words.{asked_by, seen};

use crate::asked::Asked;
use crate::fault::WordsFault;
use crate::reading::read_words;
use std::alloc::Global;

/// The words of a run, and what they ask for. They are read once: whoever is handed this knows that it is so of the words.
#[derive(Clone, Copy)]
pub struct ReadWords<'a> {
    /// The words, the program's own name not among them.
    pub words: &'a [String],
    /// What they ask for, or why that isn't known.
    pub asked: Result<Asked<'a>, WordsFault>,
    // An answer is what the words ask for.
    pub ghost ok: { IfOk asked (λ a. asked_by (map string_bytes words.now) ≡ Some (seen a)) } by { Prim.hlevel props },
    // Words that are refused ask for nothing.
    pub ghost refused: { asked ≡ Err words_fault.Refused → asked_by (map string_bytes words.now) ≡ None } by { Prim.hlevel props },
}

impl<'a> ReadWords<'a> {
    /// Reads words, by `read_words`.
    pub fn of(alloc: Global, words: &'a [String]) -> ReadWords<'a>
        ensures { result.words.now ≡ words.entry.now }
    {
        ReadWords {
            words,
            asked: read_words(alloc, words),
        }
    }
}
