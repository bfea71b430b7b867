//! Links whose handshake is done.
ghost use Rattle.std.specs.Prelude.{◌≡◌, ◌+◌, ◌↔◌, ℕ, length, IfSome, IsTrue};
ghost use Rattle.std.proofs.Props.{props};
ghost use Rattle.tungstenite.specs.Heads.{Heard};

use std::alloc::Global;
use std::collections::VecDeque;

/// Links whose handshake is done, in the order in which it was. Where one waits here, it isn't so that no head was taken.
#[derive(Drop)]
pub(crate) struct Done<L> {
    links: VecDeque<L>,
    ghost asked: { ¬ (length links.items ≡ 0) → ¬ (¬ Heard) } by { Prim.hlevel props },
}

impl<L: Drop> Done<L> {
    /// No links.
    pub(crate) fn new(alloc: Global) -> Done<L>
        ensures { length result.links.items ≡ 0 }
    {
        Done {
            links: VecDeque::new(alloc),
        }
    }

    /// Puts a link behind the others, and says whether there was memory for it. A head was taken.
    pub(crate) fn push(&mut self, link: L) -> bool
        requires { Heard }
        ensures { IsTrue result ↔ (length self.new.links.items ≡ length self.old.links.items + 1) }
    {
        self.links.push_back(link).is_ok()
    }

    /// Takes the first link.
    pub(crate) fn pop(&mut self) -> Option<L>
        ensures { IfSome result (λ _. ¬ (¬ Heard)) }
    {
        self.links.pop_front()
    }

    pub(crate) fn len(&self) -> usize
        ensures { result ≡ length self.now.links.items }
    {
        self.links.len()
    }

    pub(crate) fn is_empty(&self) -> bool {
        self.links.is_empty()
    }
}
