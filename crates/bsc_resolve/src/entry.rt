//! What is kept of a VMAC.
ghost use Rattle.std.specs.Prelude.{◌≡◌};
ghost use Rattle.bsc_resolve.specs.Resolving.{has_id};
ghost use Rattle.bsc_resolve.specs.Kept.{holds_something, has_passed, ticked};

use crate::question::Question;
use bsc_octets::{Octets, Vmac};

/// What is kept of a VMAC.
#[derive(Debug, Drop)]
pub(crate) struct Entry {
    pub(crate) vmac: Vmac,
    /// The question for it that is under way.
    pub(crate) question: Option<Question>,
    /// The URIs that were learnt of it.
    pub(crate) uris: Option<Octets>,
}

/// Whether the wait of a question has passed.
fn has_passed(wait: u32, now: u64, question: Question) -> bool
    ensures { result ≡ has_passed wait now question }
{
    now >= question.asked && now - question.asked >= u64::from(wait)
}

impl Entry {
    /// Whether a question is under way or URIs are learnt.
    pub(crate) fn holds_something(&self) -> bool
        ensures { result ≡ holds_something self.now }
    {
        self.question.is_some() || self.uris.is_some()
    }

    /// Whether the question that is under way has this Message ID.
    pub(crate) fn has_id(&self, id: u16) -> bool
        ensures { result ≡ has_id id self.now.question }
    {
        match self.question {
            Some(question) => question.id == id,
            None => false,
        }
    }

    /// Drops the question where its wait has passed.
    pub(crate) fn tick(&mut self, wait: u32, now: u64)
        ensures { self.new ≡ ticked wait now self.old }
    {
        if let Some(question) = self.question {
            if has_passed(wait, now, question) {
                self.question = None;
            }
        }
    }
}
