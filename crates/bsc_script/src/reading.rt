//! The lines of a script that a hub can carry out.
ghost use Rattle.std.specs.Prelude.{◌≡◌, Some, None, Err, IfOk};
ghost use Rattle.bsc_script.specs.Lines.{line_of};
ghost use Rattle.bsc_script.specs.Hubs.{IsFit};

use crate::line::{Line, parse_line};
use bsc_player::LineFault;
use std::alloc::Global;

/// What a line says, or that it has no form of a line. A hub line says a hub that may be made. Memory may run out.
pub fn read_line(alloc: Global, line: &[u8]) -> Result<Line, LineFault>
    ensures read { IfOk result (λ l. line_of line.now ≡ Some l) }
    ensures fit { IfOk result IsFit }
    ensures refused { result ≡ Err LineFault.Refused → line_of line.now ≡ None }
{
    parse_line(alloc, line)
}
