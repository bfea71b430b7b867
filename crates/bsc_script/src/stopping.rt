//! Stopping and counting.
ghost use Rattle.std.specs.Prelude.{[], IfOk, OnOk};
ghost use Rattle.bsc_script.specs.States.{State};
ghost use Rattle.bsc_script.specs.Running.{stops, says_counts};
ghost use Rattle.bsc_script.specs.Touching.{dues};
ghost use Rattle.bsc_script.specs.Holding.{ScriptHolds, HoldsSome, CarriesOut};
ghost use Rattle.bsc_script.specs.Between.{AreConnections};

use crate::counting::put_counts;
use crate::due::Due;
use crate::script_hub::ScriptHub;
use bsc_history::Conns;
use bsc_lines::put_words;
use bsc_octets::NoMemory;
use std::alloc::Global;

impl ScriptHub {
    /// The connections that haven't left, in the order of joining.
    fn connections(&self, alloc: Global) -> Result<Vec<u64>, NoMemory>
        ensures { IfOk result (λ conns. AreConnections self.now conns.items) }
    {
        Ok(self.names.keys().copied().collect(alloc)?)
    }

    /// Stops the hub.
    pub(crate) fn stop(&mut self, alloc: Global, text: &mut Vec<u8>) -> Result<Due, NoMemory>
        requires some { HoldsSome self.old }
        ensures { (s : State) → ScriptHolds self.old s → IfOk result (λ due.
            CarriesOut self.new text.old.items text.new.items (dues due) (stops s)) }
    {
        let conns = self.connections(alloc)?;
        match self.core.stop(0) {
            Ok(counts) => {
                put_counts(text, &counts)?;
                Ok(Due::Each(Conns::from_vec(conns)))
            }
            Err(_) => {
                put_words(text, "hub stopped already\n")?;
                Ok(Due::Nobody)
            }
        }
    }

    /// Has the hub tell its counts.
    pub(crate) fn count(&mut self, text: &mut Vec<u8>) -> Result<(), NoMemory>
        requires some { HoldsSome self.old }
        ensures { (s : State) → ScriptHolds self.old s → OnOk result
            (CarriesOut self.new text.old.items text.new.items [] (says_counts s)) }
    {
        match self.core.count(0) {
            Ok(counts) => put_counts(text, &counts),
            Err(_) => put_words(text, "hub worn\n"),
        }
    }
}
