//! Scripts, as a language of the player.
ghost use Rattle.std.specs.Prelude.{◌≡◌, ℕ, List, Option, None, IfOk, IfErr};
ghost use Rattle.bsc_player.specs.Languages.{LineStandsAs};
ghost use Rattle.bsc_script.specs.States.{State};
ghost use Rattle.bsc_script.specs.Hubs.{IsFit};
ghost use Rattle.bsc_script.specs.Scripts.{before_hub, line_after, script};
ghost use Rattle.bsc_script.specs.Holding.{HoldsIf, SomeIf, DoesLine};

use crate::line::Line;
use crate::reading::read_line;
use crate::script_hub::ScriptHub;
use bsc_player::{Language, LineFault};
use std::alloc::Global;

/// What stands after some lines of a script: a hub, once the hub line has come.
#[derive(Drop)]
pub struct Script {
    hub: Option<ScriptHub>,
}

impl Script {
    /// A script of which no line has come.
    pub fn new() -> Script
        ensures { HoldsIf result.hub None }
    {
        Script { hub: None }
    }
}

/// Carries out a line, where no hub is made yet: what stands then.
fn begin(alloc: Global, line: Line) -> Result<Option<ScriptHub>, LineFault>
    requires fit { IsFit line }
    ensures begun { (b : List ℕ) → IfOk result (λ hub. LineStandsAs (HoldsIf hub) b b (before_hub line)) }
    ensures refused { IfErr result (λ fault. fault ≡ LineFault.Refused → before_hub line ≡ None) }
{
    match line {
        Line::Nothing => Ok(None),
        Line::Hub(about) => Ok(Some(ScriptHub::make(alloc, about)?)),
        _other => Err(LineFault::Refused),
    }
}

/// Carries out a line, where a hub may not be made yet.
fn carry_out(
    alloc: Global,
    hub: &mut Option<ScriptHub>,
    line: Line,
    text: &mut Vec<u8>,
) -> Result<(), LineFault>
    requires some { SomeIf hub.old }
    requires fit { IsFit line }
    ensures { (s : Option State) → HoldsIf hub.old s →
        DoesLine hub.new result text.old.items text.new.items (line_after s line) }
{
    match hub {
        None => {
            *hub = begin(alloc, line)?;
            Ok(())
        }
        Some(made) => made.run_line(alloc, line, text),
    }
}

impl Language for Script {
    ghost State = { Option State };

    ghost means = { script };

    ghost stands_for = { λ it s. HoldsIf it.hub s };

    fn carry_out(
        &mut self,
        alloc: Global,
        line: &[u8],
        text: &mut Vec<u8>,
    ) -> Result<(), LineFault> {
        let line = read_line(alloc, line)?;
        carry_out(alloc, &mut self.hub, line, text)
    }

    fn may_end(&self) -> bool {
        self.hub.is_some()
    }
}
