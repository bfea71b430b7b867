//! What a node does at an event.
ghost use Rattle.std.specs.Prelude.{◌≡◌, ◌-◌, ◌∷◌, ◌++◌, [], OnOk, OnErr, length, take};

use bsc_node::Action;
use bsc_octets::NoMemory;
use std::alloc::Global;
use std::marker::Model;

/// What a node does at an event, in order.
#[derive(Debug, Drop)]
pub struct Actions {
    list: Vec<Action>,
}

impl Model for Actions {
    ghost use Rattle.std.specs.Prelude.{List};
    ghost use Rattle.bsc_node.specs.declared.action.Action.{Action};

    ghost Value = { List Action };

    ghost view = { λ a. a.list.items };
}

impl Actions {
    /// No actions. No memory is taken.
    pub fn new(alloc: Global) -> Actions
        ensures { result ≡ [] }
    {
        Actions {
            list: Vec::new(alloc),
        }
    }

    /// One more, at the end.
    pub(crate) fn push(&mut self, action: Action) -> Result<(), NoMemory>
        ensures ok { OnOk result (self.new ≡ self.old ++ action ∷ []) }
        ensures err { OnErr result (self.new ≡ self.old) }
    {
        self.list.push(action)?;
        Ok(())
    }

    /// Takes the newest back.
    pub(crate) fn take_back(&mut self)
        ensures { self.new ≡ take (length self.old - 1) self.old }
    {
        let _ = self.list.pop();
    }

    /// The actions, in place.
    pub fn as_slice(&self) -> &[Action]
        ensures { result.now ≡ self.now }
    {
        self.list.as_slice()
    }

    /// The vector that the actions stand in. No memory is taken.
    pub fn into_vec(self) -> Vec<Action>
        ensures { result.items ≡ self }
    {
        self.list
    }
}
