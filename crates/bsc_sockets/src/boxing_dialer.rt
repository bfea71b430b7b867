//! A dialer of links in memory of their own.
ghost use Rattle.std.specs.Prelude.{◌≡◌, ◌≤◌, ◌&&◌, true, [], ◌∷◌, None, Result, Err};
ghost use Rattle.std.specs.List.{list_all};
ghost use Rattle.std.proofs.Common.{refl};
ghost use Rattle.bsc_edge.specs.declared.fault.LinkFault.{LinkFault};
ghost use Rattle.bsc_edge.specs.Dialling.{dialled, made_in, Takes};
ghost use Rattle.bsc_edge.specs.Told.{Grows, is_untold};
ghost use Rattle.bsc_outside.specs.Faults.{HasRisen};

use crate::boxed_link::BoxedLink;
use bsc_edge::{Dialer, Kind, Link, LinkFault, ToldLink};
use std::alloc::Global;

/// A dialer over another, each of whose links has memory of its own. It tells nothing of its calls: a link for which there is no
/// memory was dialled, and is let go.
#[derive(Debug, Drop)]
pub struct BoxingDialer<D> {
    dialer: D,
}

impl<D> BoxingDialer<D> {
    /// A dialer over this one.
    pub fn new(dialer: D) -> BoxingDialer<D> {
        BoxingDialer { dialer }
    }
}

impl<L: Link + Drop, D: Dialer<L>> Dialer<BoxedLink<ToldLink<L>>> for BoxingDialer<D> {
    ghost faults = { λ d. D.faults d.dialer };

    ghost calls = { λ _. None };

    ghost left = { λ _. None };

    ghost came_fresh = { λ _. refl };

    // Nothing was said on a link that comes.
    ghost fresh = { λ l. is_untold (⟦<ToldLink<L> as Link>⟧.talk l.link.value) && is_untold (⟦<ToldLink<L> as Link>⟧.notices l.link.value) };

    fn dial(
        &mut self,
        alloc: Global,
        uri: &[u8],
        kind: Kind,
    ) -> Result<BoxedLink<ToldLink<L>>, LinkFault>
        // The dialer under it was asked for this URI and this kind, once.
        ensures asked { (answer : Result L LinkFault) × Grows (D.calls self.old.dialer) (D.calls self.new.dialer) (dialled uri.now kind answer ∷ []) }
        ensures told { Grows None None (dialled uri.now kind result ∷ []) }
        ensures left { Takes None None result }
        ensures came { Grows None None (made_in result) }
        ensures fresh { list_all (λ l. is_untold (⟦<ToldLink<L> as Link>⟧.talk l.link.value) && is_untold (⟦<ToldLink<L> as Link>⟧.notices l.link.value))
            (made_in result) ≡ true }
        ensures later { D.faults self.old.dialer ≤ D.faults self.new.dialer }
        ensures failed { result ≡ Err LinkFault.Failed → HasRisen (D.faults self.old.dialer) (D.faults self.new.dialer) }
    {
        BoxedLink::new(alloc, ToldLink::new(self.dialer.dial(alloc, uri, kind)?))
    }
}
