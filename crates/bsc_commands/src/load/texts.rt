//! What the command writes.
ghost use Rattle.std.specs.Prelude.{◌≡◌, ◌++◌, IfOk};
ghost use Rattle.bsc_commands.specs.Load.Lines.{load_text, octets_text};

use bsc_load::LoadEnd;
use bsc_octets::NoMemory;
use bsc_script::counts_line;
use std::alloc::Global;

/// Puts the line of the octets.
fn put_octets(text: &mut Vec<u8>, alloc: Global, octets: u64) -> Result<(), NoMemory>
    ensures { IfOk result (λ _. text.new.items ≡ text.old.items ++ octets_text octets) }
{
    let line = format!(in alloc; "octets {octets}\n")?;
    text.extend_from_slice(line.as_bytes())?;
    Ok(())
}

/// What is written of a workload that came to its end.
pub(crate) fn load_text(alloc: Global, end: &LoadEnd) -> Result<Vec<u8>, NoMemory>
    ensures { IfOk result (λ t. t.items ≡ load_text end.now) }
{
    let mut text = counts_line(alloc, &end.counts)?.into_vec();
    put_octets(&mut text, alloc, end.octets)?;
    Ok(text)
}
