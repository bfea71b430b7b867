//! The small language that the tests play.
ghost use Rattle.std.specs.Prelude.{◌≡◌, Bool};
ghost use Rattle.bsc_player.specs.Echo.{echo};

use bsc_player::{Language, LineFault};
use std::alloc::Global;

/// Repeats its lines after a first one, `begin`, and refuses `stop`.
#[derive(Drop)]
pub struct Echo {
    pub begun: bool,
}

impl Language for Echo {
    ghost State = { Bool };

    ghost means = { echo };

    ghost stands_for = { λ it s. it.begun ≡ s };

    fn carry_out(
        &mut self,
        _alloc: Global,
        line: &[u8],
        text: &mut Vec<u8>,
    ) -> Result<(), LineFault> {
        if !self.begun {
            if line != b"begin".as_slice() {
                return Err(LineFault::Refused);
            }
            self.begun = true;
            return Ok(());
        }
        if line == b"stop".as_slice() {
            return Err(LineFault::Refused);
        }
        if text.extend_from_slice(line).is_err() || text.push(b'\n').is_err() {
            return Err(LineFault::NoMemory);
        }
        Ok(())
    }

    fn may_end(&self) -> bool {
        self.begun
    }
}
