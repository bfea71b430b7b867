//! What makes a decision cost the same with any number of members and rules.
ghost use Rattle.std.specs.Prelude.{◌≤◌, IfOk, length};

use crate::bounds::RULES;
use crate::directory::Directory;
use crate::member::Member;
use crate::names::Names;
use crate::numbers::{number_at, rows_of};
use crate::rule::Rule;
use bsc_octets::{NoMemory, Vmac};
use std::alloc::Global;

/// The classes by the addresses of members, and for each two classes the number of the rule that decides.
#[derive(Drop)]
pub(crate) struct Tables {
    pub(crate) directory: Directory,
    pub(crate) numbers: Vec<Vec<u16>>,
}

impl Tables {
    ghost use Rattle.std.specs.Prelude.{◌≡◌};
    ghost use Rattle.bsc_policy.specs.Tables.{AreTablesOf, number_told};

    /// The tables of these members and rules.
    pub(crate) fn make(
        alloc: Global,
        members: &[Member],
        rules: &[Rule],
    ) -> Result<Tables, NoMemory>
        requires { length rules.now ≤ RULES }
        ensures { IfOk result (AreTablesOf members.now rules.now) }
    {
        let names = Names::make(alloc, rules)?;
        let directory = Directory::make(alloc, members, &names)?;
        let numbers = rows_of(alloc, rules, &names.froms, &names.tos)?;
        Ok(Tables { directory, numbers })
    }

    /// The number of the rule that decides what goes from one address to another.
    pub(crate) fn number(&self, from: Vmac, to: Vmac) -> u16
        ensures { result ≡ number_told self.now from to }
    {
        match self.directory.classes(from) {
            Some(sender) => match self.directory.classes(to) {
                Some(receiver) => number_at(&self.numbers, sender.from, receiver.to),
                None => 0,
            },
            None => 0,
        }
    }
}
