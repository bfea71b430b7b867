//! What is asked by what is taken of an inbox, and which lines are refused.
ghost use Rattle.std.specs.Prelude.{◌≡◌, ◌++◌, ◌∷◌, [], true, false, IfOk, IfSome, OnErr, OnOk};
ghost use Rattle.bsc_input.specs.declared.inbox.taken.Taken.TheVariants.{Line as OneLine};
ghost use Rattle.bsc_node_run.specs.Requests.{is_asked};
ghost use Rattle.bsc_live_lines.specs.Heard.{AreAsked, asked_in};
ghost use Rattle.bsc_live_lines.specs.Refusals.{is_good, number_in, refusals, refused_behind};
ghost use Rattle.bsc_live_lines.specs.Requests.{has_finish, requests, said_by};

use crate::heard::Heard;
use crate::refusal::Refused;
use crate::refusals::Refusals;
use crate::saying::{asked_by, is_finish, is_good, said_by};
use bsc_input::Taken;
use bsc_node::NodeEvent;
use bsc_octets::NoMemory;
use bsc_past::Past;
use std::alloc::Global;

/// What was read of what was taken.
#[derive(Drop)]
pub(crate) struct Reading<T: Refusals + Drop> {
    teller: T,
    /// How many lines were read.
    number: u64,
    /// Whether the node was asked to end.
    finished: bool,
    read: Past<Taken>,
    asked: Past<NodeEvent>,
    ghost asks: { asked.items ≡ requests read.items },
    ghost ends: { finished ≡ has_finish asked.items },
    ghost counts: { number ≡ number_in read.items },
    ghost tells: { T.told teller ≡ refusals read.items },
}

impl<T: Refusals + Drop> Reading<T> {
    /// Nothing was read yet.
    pub(crate) fn new(teller: T) -> Reading<T>
        requires { T.told teller ≡ [] }
        ensures read { result.read.items ≡ [] }
        ensures asked { result.asked.items ≡ [] }
        ensures teller { result.teller ≡ teller }
    {
        Reading {
            teller,
            number: 0,
            finished: false,
            read: Past::new(),
            asked: Past::new(),
        }
    }

    /// Who is told of refused lines.
    pub(crate) fn teller(&self) -> &T
        ensures { result.now ≡ self.now.teller }
    {
        &self.teller
    }

    /// Goes on behind what asks for nothing.
    #[tactic(auto, using(crate::proofs::More::none_refused))]
    fn pass(&mut self, taken: &Taken, number: u64)
        requires same { requests (self.old.read.items ++ taken.now ∷ []) ≡ requests self.old.read.items }
        requires good { refused_behind self.old.read.items taken.now ≡ [] }
        requires counted { number ≡ number_in (self.old.read.items ++ taken.now ∷ []) }
        ensures read { self.new.read.items ≡ self.old.read.items ++ taken.now ∷ [] }
        ensures asked { self.new.asked.items ≡ self.old.asked.items }
    {
        self.number = number;
        self.read.add(taken);
    }

    /// Goes on behind what asks for this.
    #[tactic(auto, using(crate::proofs::More::none_refused, crate::proofs::More::finish_more))]
    fn ask(&mut self, taken: &Taken, number: u64, event: &NodeEvent)
        requires more { requests (self.old.read.items ++ taken.now ∷ []) ≡ requests self.old.read.items ++ event.now ∷ [] }
        requires going { self.old.finished ≡ false }
        requires good { refused_behind self.old.read.items taken.now ≡ [] }
        requires counted { number ≡ number_in (self.old.read.items ++ taken.now ∷ []) }
        ensures read { self.new.read.items ≡ self.old.read.items ++ taken.now ∷ [] }
        ensures asked { self.new.asked.items ≡ self.old.asked.items ++ event.now ∷ [] }
    {
        self.number = number;
        self.finished = is_finish(event);
        self.asked.add(event);
        self.read.add(taken);
    }

    /// Goes on behind a line that is refused.
    #[tactic(auto, using(crate::proofs::More::one_refused, crate::proofs::More::refused_asks_nothing))]
    fn refuse(&mut self, taken: &Taken, number: u64, text: &[u8])
        requires line { taken.now ≡ OneLine text.now }
        requires bad { is_good self.old.finished (said_by text.now) ≡ false }
        requires counted { number ≡ number_in (self.old.read.items ++ taken.now ∷ []) }
        ensures read { self.new.read.items ≡ self.old.read.items ++ taken.now ∷ [] }
        ensures asked { self.new.asked.items ≡ self.old.asked.items }
    {
        self.teller.tell(Refused {
            number,
            text,
            has_finished: self.finished,
        });
        self.number = number;
        self.read.add(taken);
    }

    /// Reads a line that was taken.
    #[tactic(auto, using(crate::proofs::More::asks_none, crate::proofs::More::asks_one, crate::proofs::More::number_more, crate::proofs::More::good_asks, crate::proofs::More::good_behind))]
    fn hear_line(&mut self, alloc: Global, taken: &Taken, text: &[u8]) -> Result<Heard, NoMemory>
        requires { taken.now ≡ OneLine text.now }
        ensures read { OnOk result (self.new.read.items ≡ self.old.read.items ++ taken.now ∷ []) }
        ensures unread { OnErr result (self.new ≡ self.old) }
        ensures asked { IfOk result (λ heard. self.new.asked.items ≡ self.old.asked.items ++ asked_in heard) }
        ensures well { IfOk result AreAsked }
    {
        let said = said_by(alloc, text)?;
        let number = self.number.saturating_add(1);
        if !is_good(self.finished, &said) {
            self.refuse(taken, number, text);
            return Ok(Heard::Silent);
        }
        match asked_by(said) {
            Some(event) => {
                self.ask(taken, number, &event);
                Ok(Heard::Asks(event))
            }
            None => {
                self.pass(taken, number);
                Ok(Heard::Silent)
            }
        }
    }

    /// Hears that the input has ended: once that asks the node to end, where nothing did before.
    #[tactic(auto, using(crate::proofs::More::asks_late, crate::proofs::More::asks_one, crate::proofs::More::number_end))]
    fn hear_end(&mut self, taken: &Taken) -> Heard
        requires { taken.now ≡ Taken.End }
        ensures read { self.new.read.items ≡ self.old.read.items ++ taken.now ∷ [] }
        ensures asked { self.new.asked.items ≡ self.old.asked.items ++ asked_in result }
        ensures well { AreAsked result }
    {
        let number = self.number;
        if self.finished {
            self.pass(taken, number);
            return Heard::Quiet;
        }
        self.ask(taken, number, &NodeEvent::Finish);
        Heard::Asks(NodeEvent::Finish)
    }

    /// Hears that nothing was there.
    #[tactic(auto, using(crate::proofs::More::asks_none, crate::proofs::More::number_none))]
    fn hear_nothing(&mut self, taken: &Taken) -> Heard
        requires { taken.now ≡ Taken.Nothing }
        ensures read { self.new.read.items ≡ self.old.read.items ++ taken.now ∷ [] }
        ensures asked { self.new.asked.items ≡ self.old.asked.items ++ asked_in result }
        ensures well { AreAsked result }
    {
        let number = self.number;
        self.pass(taken, number);
        Heard::Quiet
    }

    /// Hears what was taken. Where memory runs out, it wasn't read.
    pub(crate) fn hear(&mut self, alloc: Global, taken: &Taken) -> Result<Heard, NoMemory>
        ensures read { OnOk result (self.new.read.items ≡ self.old.read.items ++ taken.now ∷ []) }
        ensures unread { OnErr result (self.new ≡ self.old) }
        ensures asked { IfOk result (λ heard. self.new.asked.items ≡ self.old.asked.items ++ asked_in heard) }
        ensures well { IfOk result AreAsked }
    {
        match taken {
            Taken::Line(text) => self.hear_line(alloc, taken, text.as_slice()),
            Taken::Nothing => Ok(self.hear_nothing(taken)),
            Taken::End => Ok(self.hear_end(taken)),
        }
    }
}
