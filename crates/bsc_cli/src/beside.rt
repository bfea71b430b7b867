//! What the words of a hub say beside what they ask for.
ghost use Rattle.std.specs.Prelude.{◌≡◌, IfOk, map, option_map, string_bytes};
ghost use Rattle.bsc_cli.specs.Words.{status_path_of};

use crate::asked::Way;
use crate::fault::WordsFault;
use crate::reading::{arguments, parse, value_at};
use bsc_octets::NoMemory;
use std::alloc::Global;

/// Where the status of a hub is kept that is served by these words, `--status-file` with a path: None where they don't say it,
/// and of other words.
pub fn status_path<'a>(alloc: Global, words: &'a [String]) -> Result<Option<&'a str>, NoMemory>
    ensures { IfOk result (λ p. option_map (λ s. s.now) p ≡ status_path_of (map string_bytes words.entry.now)) }
{
    match parse(arguments(alloc, Way::Hub)?, words) {
        Ok(matches) => Ok(value_at(&matches, "status-file")),
        Err(WordsFault::Refused) => Ok(None),
        Err(WordsFault::NoMemory) => Err(NoMemory),
    }
}
