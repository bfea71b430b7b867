//! An inbox that may not be there.
ghost use Rattle.std.specs.Prelude.{◌≡◌, [], None, Some};

use crate::inbox::inbox::LineInbox;
use crate::inbox::live_input::LiveInput;
use crate::inbox::taken::Taken;
use bsc_past::Past;

/// An inbox that may not be there: then nothing ever comes.
#[derive(Drop)]
pub struct OptionalInbox<I> {
    inbox: Option<I>,
    taken: Past<Taken>,
}

impl<I> OptionalInbox<I> {
    /// This inbox, of which nothing was taken yet.
    pub fn new(inbox: Option<I>) -> OptionalInbox<I>
        ensures inbox { result.inbox ≡ inbox }
        ensures taken { result.taken.items ≡ [] }
    {
        OptionalInbox {
            inbox,
            taken: Past::new(),
        }
    }
}

impl<I: LineInbox> LineInbox for OptionalInbox<I> {
    ghost use Rattle.std.specs.Prelude.{◌≡◌, [], ◌∷◌, ◌++◌, None, Some, OnSome};
    ghost use Rattle.bsc_input.specs.Inbox.Waiting.{TakenOf};

    ghost taken = { λ i. i.taken.items };

    fn take(&mut self) -> Taken
        ensures told { self.new.taken.items ≡ self.old.taken.items ++ result ∷ [] }

        // What is taken was taken of the inbox, where there is one.
        ensures under { TakenOf I.taken self.old.inbox self.new.inbox result }
    {
        let taken = match &mut self.inbox {
            Some(inbox) => inbox.take(),
            None => Taken::Nothing,
        };
        self.taken.add(&taken);
        taken
    }
}

impl<I: LiveInput> LiveInput for OptionalInbox<I> {
    ghost use Rattle.bsc_input.specs.Inbox.Waiting.{failed_in};

    ghost failed = { λ i. failed_in I.failed i.inbox };

    fn has_failed(&self) -> bool {
        match &self.inbox {
            Some(inbox) => inbox.has_failed(),
            None => false,
        }
    }
}
