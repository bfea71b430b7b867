//! The lines that the command writes.
ghost use Rattle.std.specs.Prelude.{◌≡◌, IfOk};
ghost use Rattle.bsc_node_command.specs.Lines.{settings_line};

use bsc_octets::NoMemory;
use std::alloc::Global;

/// The last line of settings that are refused.
pub(crate) fn settings_text(alloc: Global, name: &str) -> Result<Vec<u8>, NoMemory>
    ensures { IfOk result (λ t. t.items ≡ settings_line name.now) }
{
    let mut text = Vec::from_slice(alloc, b"fault settings ")?;
    text.extend_from_slice(name.as_bytes())?;
    text.extend_from_slice(b"\n")?;
    Ok(text)
}
