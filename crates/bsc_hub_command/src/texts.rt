//! The lines that the command writes.
ghost use Rattle.std.specs.Prelude.{◌≡◌, ◌++◌, IfOk, string_bytes};
ghost use Rattle.bsc_hub_command.specs.Lines.{end_text, settings_line, unstarted_line};

use bsc_history::Counts;
use bsc_octets::NoMemory;
use bsc_script::put_counts;
use bsc_serve::ServeEnd;
use std::alloc::Global;

/// Puts the line of the links that got no session, where there are such.
fn put_unstarted(text: &mut Vec<u8>, alloc: Global, unstarted: u64) -> Result<(), NoMemory>
    ensures { IfOk result (λ _. text.new.items ≡ text.old.items ++ unstarted_line unstarted) }
{
    if unstarted == 0 {
        return Ok(());
    }
    let line = format!(in alloc; "unstarted {unstarted}\n")?;
    text.extend_from_slice(line.as_bytes())?;
    Ok(())
}

/// What is written of an end that all sessions came to, or that was asked for.
pub(crate) fn done_text(
    alloc: Global,
    unstarted: u64,
    counts: Option<Counts>,
) -> Result<Vec<u8>, NoMemory>
    ensures { IfOk result (λ t. t.items ≡ end_text unstarted counts) }
{
    let mut text = Vec::new(alloc);
    put_unstarted(&mut text, alloc, unstarted)?;
    match counts {
        Some(counts) => put_counts(&mut text, &counts)?,
        None => text.extend_from_slice(b"hub stopped already\n")?,
    }
    Ok(text)
}

/// The last line of settings that are refused.
pub(crate) fn settings_text(alloc: Global, name: &str) -> Result<Vec<u8>, NoMemory>
    ensures { IfOk result (λ t. t.items ≡ settings_line name.now) }
{
    let mut text = Vec::from_slice(alloc, b"fault settings ")?;
    text.extend_from_slice(name.as_bytes())?;
    text.extend_from_slice(b"\n")?;
    Ok(text)
}
