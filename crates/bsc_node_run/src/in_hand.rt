//! What a node has in hand while it is told something.
ghost use Rattle.std.specs.Prelude.{◌≡◌};

use crate::link_set::LinkSet;

/// A node, and what it has in hand while it is told something.
pub(crate) struct InHand<'n, 's, 'k, 'w, 'd, N, K, W, L, D> {
    pub(crate) node: &'n mut N,
    /// Its links.
    pub(crate) set: &'s mut LinkSet<L>,
    /// What takes its lines.
    pub(crate) sink: &'k mut K,
    /// Who draws its random words.
    pub(crate) random: &'w mut W,
    /// What it dials by.
    pub(crate) dialer: &'d mut D,
}

impl<N, K, W, L, D> Drop for InHand<'_, '_, '_, '_, '_, N, K, W, L, D> {
    fn drop(self)
        ensures { (self.exit.0.now ≡ self.entry.node.now) × (self.exit.1.0.now ≡ self.entry.set.now)
            × (self.exit.1.1.0.now ≡ self.entry.sink.now) × (self.exit.1.1.1.0.now ≡ self.entry.random.now)
            × (self.exit.1.1.1.1.0.now ≡ self.entry.dialer.now) }
    {
        let Self {
            node: _,
            set: _,
            sink: _,
            random: _,
            dialer: _,
        } = self;
    }
}
