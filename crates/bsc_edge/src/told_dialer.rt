//! A dialer that tells its calls and the links that came.
ghost use Rattle.std.specs.Prelude.{◌≡◌, ◌≤◌, true, [], ◌∷◌, Some, Err};
ghost use Rattle.std.specs.List.{list_all};
ghost use Rattle.bsc_edge.specs.declared.fault.LinkFault.{LinkFault};
ghost use Rattle.bsc_edge.specs.Dialling.{dialled, made_in, Takes};
ghost use Rattle.bsc_edge.specs.Told.{Grows};
ghost use Rattle.bsc_outside.specs.Faults.{HasRisen};

use crate::dialer::Dialer;
use crate::dialled::Dialled;
use crate::fault::LinkFault;
use crate::kind::Kind;
use bsc_past::{Happened, Past};
use std::alloc::Global;

/// A call of a dialer with its answer, each where it lies.
struct Dialling<'a, L> {
    uri: &'a [u8],
    kind: Kind,
    answer: &'a Result<L, LinkFault>,
}

impl<L> Drop for Dialling<'_, L> {
    fn drop(self) {
        let Dialling {
            uri: _,
            kind: _,
            answer: _,
        } = self;
    }
}

impl<L> Happened<Dialled> for Dialling<'_, L> {
    ghost happened = { λ d. dialled d.uri.now d.kind d.answer.now ∷ [] };
}

/// What a dialer answered, where it lies.
struct Making<'a, L>(&'a Result<L, LinkFault>);

impl<L> Drop for Making<'_, L> {
    fn drop(self) {
        let Making(_) = self;
    }
}

impl<L> Happened<L> for Making<'_, L> {
    ghost happened = { λ m. made_in m.0.now };
}

/// A dialer over another, whose calls it tells to contracts: what it was asked for, whether a link came, and which. It takes no
/// memory of its own, and does nothing more than the dialer under it.
#[derive(Drop)]
pub struct ToldDialer<D: Dialer<L>, L> {
    dialer: D,
    calls: Past<Dialled>,
    came: Past<L>,
    ghost came_fresh: { list_all D.fresh came.items ≡ true },
}

impl<L, D: Dialer<L>> ToldDialer<D, L> {
    /// A dialer over this one. Nothing was dialled yet.
    pub fn new(dialer: D) -> ToldDialer<D, L>
        ensures dialer { result.dialer ≡ dialer }
        ensures calls { result.calls.items ≡ [] }
        ensures came { result.came.items ≡ [] }
    {
        ToldDialer {
            dialer,
            calls: Past::new(),
            came: Past::new(),
        }
    }
}

impl<L, D: Dialer<L>> Dialer<L> for ToldDialer<D, L> {
    ghost faults = { λ d. D.faults d.dialer };

    ghost calls = { λ d. Some d.calls.items };

    ghost fresh = { D.fresh };

    ghost came = { λ d. Some d.came.items };

    ghost came_fresh = { λ d. d.came_fresh };

    ghost left = { λ d. D.left d.dialer };

    fn dial(&mut self, alloc: Global, uri: &[u8], kind: Kind) -> Result<L, LinkFault>
        // The dialer under it was asked for this URI and this kind, once, and this is what it answered.
        ensures under { Grows (D.calls self.old.dialer) (D.calls self.new.dialer) (dialled uri.now kind result ∷ []) }
        ensures told { Grows (Some self.old.calls.items) (Some self.new.calls.items) (dialled uri.now kind result ∷ []) }
        ensures left { Takes (D.left self.old.dialer) (D.left self.new.dialer) result }
        ensures came { Grows (Some self.old.came.items) (Some self.new.came.items) (made_in result) }
        ensures fresh { list_all D.fresh (made_in result) ≡ true }
        ensures later { D.faults self.old.dialer ≤ D.faults self.new.dialer }
        ensures failed { result ≡ Err LinkFault.Failed → HasRisen (D.faults self.old.dialer) (D.faults self.new.dialer) }
    {
        let answer = self.dialer.dial(alloc, uri, kind);
        self.calls.note(&Dialling {
            uri,
            kind,
            answer: &answer,
        });
        self.came.note(&Making(&answer));
        answer
    }
}
