//! The line of the hub's counts.
ghost use Rattle.std.specs.Prelude.{◌≡◌, ◌++◌, IfOk};
ghost use Rattle.bsc_script.specs.Running.{counts_text};

use bsc_history::Counts;
use bsc_lines::put_words;
use bsc_octets::{NoMemory, Octets};
use std::alloc::Global;

/// Puts the line `hub counts`, with the decimal number of each count behind its name, and its LF. Memory may run
/// out.
pub fn put_counts(text: &mut Vec<u8>, counts: &Counts) -> Result<(), NoMemory>
    ensures { IfOk result (λ _. text.new.items ≡ text.old.items ++ counts_text counts.now) }
{
    put_words(text, "hub ")?;
    bsc_lines::put_counts(text, counts)?;
    put_words(text, "\n")
}

/// The line `hub counts` of these counts, with its LF, in memory of its own.
pub fn counts_line(alloc: Global, counts: &Counts) -> Result<Octets, NoMemory>
    ensures { IfOk result (λ line. line ≡ counts_text counts.now) }
{
    let mut text = Vec::new(alloc);
    put_counts(&mut text, counts)?;
    Ok(Octets::from_vec(text))
}
