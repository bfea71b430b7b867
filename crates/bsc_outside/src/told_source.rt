//! A source that tells what it gave.
ghost use Rattle.std.specs.Prelude.{◌≡◌, [], ◌∷◌, Some};

use crate::stream::{Failed, Source};
use bsc_octets::Octets;
use bsc_past::{Happened, Past};

/// What a read gave, where it lies.
#[derive(Drop)]
struct Given<'a>(&'a [u8]);

impl Happened<Octets> for Given<'_> {
    ghost happened = { λ g. g.0.now ∷ [] };
}

/// A source over another, which tells contracts what each read gave, by its answers. It takes no memory of its own, and does
/// nothing more than the source under it.
#[derive(Drop)]
pub struct ToldSource<S> {
    source: S,
    reads: Past<Octets>,
}

impl<S> ToldSource<S> {
    /// A source over this one, which gave nothing yet.
    pub fn new(source: S) -> ToldSource<S>
        ensures source { result.source ≡ source }
        ensures reads { result.reads.items ≡ [] }
    {
        ToldSource {
            source,
            reads: Past::new(),
        }
    }

    /// The source that it stands over.
    pub fn source(&self) -> &S
        ensures { result.now ≡ self.now.source }
    {
        &self.source
    }
}

impl<S: Source> Source for ToldSource<S> {
    ghost faults = { λ s. S.faults s.source };

    ghost left = { λ s. S.left s.source };

    ghost reads = { λ s. Some s.reads.items };

    fn read(&mut self, into: &mut [u8]) -> Result<usize, Failed> {
        let n = self.source.read(into)?;
        self.reads.note(&Given(&into[..n]));
        Ok(n)
    }
}
