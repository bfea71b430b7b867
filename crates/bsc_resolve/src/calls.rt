//! The calls of address resolution.
ghost use Rattle.std.specs.Prelude.{◌≡◌, ℕ, false, List, [], Some, None, IfOk, IfErr, OnOk, OnErr, option_copied, position};
ghost use Rattle.bsc_octets.specs.Addresses.{same_vmac};
ghost use Rattle.bsc_resolve.specs.declared.call.ResolveCall.{ResolveCall};
ghost use Rattle.bsc_resolve.specs.Resolving.{awaits, learnt};
ghost use Rattle.bsc_resolve.specs.Kept.{awaiting_place};
ghost use Rattle.bsc_resolve.specs.Standing.{ResolveStands, IsAsked, IsAskRefused, AnswersAnswer, AnswersRefusal, StandsOn, IsUnchanged};

use crate::ask_refusal::AskRefusal;
use crate::bounds::ROOM;
use crate::entries::{add, ask_at, drop_at, learn_at, let_go, place_of, tick};
use crate::question::Question;
use crate::resolve::Resolve;
use bsc_octets::{NoMemory, Octets, Vmac};
use std::alloc::Global;

/// For how many VMACs there is room at first.
const FIRST_ROOM: usize = 16;

impl Resolve {
    /// Address resolution that was asked nothing yet. A question waits so long for its answer, in milliseconds.
    pub fn make(alloc: Global, wait: u32) -> Result<Resolve, NoMemory>
        ensures { IfOk result (λ r. ResolveStands r wait []) }
    {
        Ok(Resolve {
            wait,
            entries: Vec::with_capacity(alloc, FIRST_ROOM)?,
        })
    }

    /// Asks for the URIs of a VMAC, by an Address-Resolution with this Message ID.
    pub fn ask(&mut self, now: u64, id: u16, v: Vmac) -> Result<(), AskRefusal>
        ensures asked { OnOk result (IsAsked self.old self.new now id v) }
        ensures refused { IfErr result (λ r. IsAskRefused self.old v r) }
        ensures err { OnErr result (IsUnchanged self.old self.new) }
    {
        let question = Question { id, asked: now };
        match place_of(&self.entries, v) {
            Some(place) => self.ask_again(v, place, question),
            None => self.ask_first(v, question),
        }
    }

    /// Asks anew for a VMAC that is held, at the place of its entry.
    fn ask_again(&mut self, v: Vmac, place: usize, question: Question) -> Result<(), AskRefusal>
        requires { position (λ e. same_vmac v e.vmac) self.old.entries.items ≡ Some place }
        ensures asked { OnOk result (IsAsked self.old self.new question.asked question.id v) }
        ensures refused { IfErr result (λ r. IsAskRefused self.old v r) }
        ensures err { OnErr result (IsUnchanged self.old self.new) }
    {
        match self.entries[place].question {
            Some(under_way) => Err(AskRefusal::Pending { id: under_way.id }),
            None => {
                ask_at(&mut self.entries, v, place, question);
                Ok(())
            }
        }
    }

    /// Asks for a VMAC that isn't held.
    fn ask_first(&mut self, v: Vmac, question: Question) -> Result<(), AskRefusal>
        requires { position (λ e. same_vmac v e.vmac) self.old.entries.items ≡ None }
        ensures asked { OnOk result (IsAsked self.old self.new question.asked question.id v) }
        ensures refused { IfErr result (λ r. IsAskRefused self.old v r) }
        ensures err { OnErr result (IsUnchanged self.old self.new) }
    {
        if self.entries.len() >= ROOM {
            return Err(AskRefusal::Full {
                held: self.entries.len() as u32,
            });
        }
        match add(&mut self.entries, v, question) {
            Ok(()) => Ok(()),
            Err(NoMemory) => Err(AskRefusal::NoMemory),
        }
    }

    /// Whether the question for a VMAC with this Message ID is under way.
    pub fn awaits(&self, id: u16, v: Vmac) -> bool
        ensures { (wait : ℕ) (calls : List ResolveCall) → ResolveStands self.now wait calls → result ≡ awaits wait calls id v }
    {
        self.awaiting(id, v).is_some()
    }

    /// Learns the URIs of a VMAC by the answer to the question with this Message ID. Whether it was under way: nothing
    /// else is learnt.
    pub fn answered(&mut self, id: u16, v: Vmac, uris: Octets) -> bool
        ensures counts { AnswersAnswer self.old self.new id v uris result }
        ensures unchanged { result ≡ false → self.new ≡ self.old }
    {
        match self.awaiting(id, v) {
            Some(place) => {
                learn_at(&mut self.entries, v, place, uris);
                true
            }
            None => false,
        }
    }

    /// Drops the question for a VMAC with this Message ID, whose NAK came. Whether it was under way.
    pub fn refused(&mut self, id: u16, v: Vmac) -> bool
        ensures counts { AnswersRefusal self.old self.new id v result }
        ensures unchanged { result ≡ false → self.new ≡ self.old }
    {
        match self.awaiting(id, v) {
            Some(place) => {
                drop_at(&mut self.entries, v, place);
                let_go(&mut self.entries);
                true
            }
            None => false,
        }
    }

    /// The place of a VMAC, where a question for it with this Message ID is under way.
    fn awaiting(&self, id: u16, v: Vmac) -> Option<usize>
        ensures { result ≡ awaiting_place self.now.entries.items id v }
    {
        match place_of(&self.entries, v) {
            Some(place) => if self.entries[place].has_id(id) {
                Some(place)
            } else {
                None
            },
            None => None,
        }
    }

    /// Drops each question whose wait has passed.
    pub fn tick(&mut self, now: u64)
        ensures { StandsOn self.old self.new (ResolveCall.Tick now) }
    {
        tick(&mut self.entries, self.wait, now);
    }

    /// The URIs learnt of a VMAC.
    pub fn uris(&self, v: Vmac) -> Option<&Octets>
        ensures { (wait : ℕ) (calls : List ResolveCall) → ResolveStands self.now wait calls → option_copied result ≡ learnt calls v }
    {
        match place_of(&self.entries, v) {
            Some(place) => self.entries[place].uris.as_ref(),
            None => None,
        }
    }
}
