//! Who is in which classes, found by the address.
ghost use Rattle.std.specs.Prelude.{◌≡◌, IfOk, OnOk};
ghost use Rattle.bsc_policy.specs.Filing.{Files, filed_at};

use crate::classes::Classes;
use crate::key::Key;
use crate::member::Member;
use crate::names::Names;
use bsc_octets::{NoMemory, Vmac};
use std::alloc::Global;
use std::collections::HashMap;

/// By a member's address the classes of its group.
#[derive(Drop)]
pub(crate) struct Directory {
    pub(crate) filed: HashMap<Key, Classes>,
}

/// Files classes under an address, unless some are filed there.
fn file(filed: &mut HashMap<Key, Classes>, v: Vmac, classes: Classes) -> Result<(), NoMemory>
    ensures { OnOk result (Files filed.old filed.new v classes) }
{
    let key = Key(v.0);
    if filed.contains_key(&key) {
        return Ok(());
    }
    filed.insert(key, classes)?;
    Ok(())
}

impl Directory {
    ghost use Rattle.bsc_policy.specs.Tables.{TellsClasses};

    /// The directory of these members.
    pub(crate) fn make(
        alloc: Global,
        members: &[Member],
        names: &Names,
    ) -> Result<Directory, NoMemory>
        ensures { IfOk result (TellsClasses members.now names.now) }
    {
        let mut filed = HashMap::with_capacity(alloc, members.len())?;
        for member in members {
            let classes = names.classes(member.group.as_slice());
            file(&mut filed, member.vmac, classes)?;
        }
        Ok(Directory { filed })
    }

    /// The classes of the group of the member that has an address.
    pub(crate) fn classes(&self, v: Vmac) -> Option<Classes>
        ensures { result ≡ filed_at self.now.filed v }
    {
        let key = Key(v.0);
        self.filed.get(&key).copied()
    }
}
