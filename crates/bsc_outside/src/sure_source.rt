//! A source in memory.
ghost use Rattle.std.specs.Prelude.{◌≡◌, ◌<◌, Some};

use crate::stream::{Failed, Source};

/// A source over octets in memory. It never fails, and tells what is left.
#[derive(Drop)]
pub struct SureSource<'a> {
    left: &'a [u8],
    most: usize,
    ghost gives: { 0 < most },
}

impl<'a> SureSource<'a> {
    /// A source of these octets. A read gives as many as `into` has room for.
    pub fn new(octets: &'a [u8]) -> SureSource<'a>
        ensures { result.left.now ≡ octets.now }
    {
        SureSource {
            left: octets,
            most: usize::MAX,
        }
    }

    /// A source of these octets, of which a read gives at most `most`.
    pub fn in_pieces(octets: &'a [u8], most: usize) -> SureSource<'a>
        requires { 0 < most }
        ensures { result.left.now ≡ octets.now }
    {
        SureSource { left: octets, most }
    }
}

impl Source for SureSource<'_> {
    ghost faults = { λ _. 0 };

    ghost left = { λ s. Some s.left.now };

    fn read(&mut self, into: &mut [u8]) -> Result<usize, Failed> {
        let n = self.left.len().min(into.len()).min(self.most);
        let (given, left) = self.left.split_at(n);
        let (front, _) = into.split_at_mut(n);
        front.copy_from_slice(given);
        self.left = left;
        Ok(n)
    }
}
