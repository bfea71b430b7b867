//! Files in memory that are read in pieces, of which some reads fail.
ghost use Rattle.std.specs.Prelude.{◌≡◌, ◌≤◌, ◌<◌, ◌+◌, ◌^◌, length, take};
ghost use Rattle.bsc_audit.specs.Pieces.{GivesAt};

use crate::files::bounds::MOST_OFFSET;
use crate::files::pieces::Pieces;
use bsc_octets::Octets;
use bsc_outside::Failed;

/// Files in memory, which tell what they hold. A read whose number is in a list fails, and so does one of a file that isn't there;
/// the first read has the number 1. Any other gives at most `most` octets.
#[derive(Drop)]
pub struct MemPieces<'a> {
    files: Vec<Octets>,
    most: usize,
    failing: &'a [u64],
    made: u64,
    faults: u64,
    ghost gives: { 0 < most },
}

impl<'a> MemPieces<'a> {
    /// These files, of which a read gives at most `most` octets, and the reads with these numbers fail.
    pub fn new(files: Vec<Octets>, most: usize, failing: &'a [u64]) -> MemPieces<'a>
        requires { 0 < most }
        ensures files { result.files.items ≡ files.items }
        ensures most { result.most ≡ most }
        ensures failing { result.failing.now ≡ failing.now }
        ensures made { result.made ≡ 0 }
        ensures faults { result.faults ≡ 0 }
    {
        MemPieces {
            files,
            most,
            failing,
            made: 0,
            faults: 0,
        }
    }
}

/// Puts octets from an offset on, `most` of them at most, into the front of `into`, and says how many.
fn put_from(octets: &[u8], offset: u64, into: &mut [u8], most: usize) -> usize
    requires some { 0 < length into.old }
    requires most { 0 < most }
    requires fits { length octets.now ≤ 2 ^ 63 }
    requires offset { offset ≤ 2 ^ 63 }
    ensures within { (result ≤ length into.new) × (offset + result ≤ 2 ^ 63) }
    ensures given { GivesAt octets.now offset (take result into.new) }
{
    if octets.len() as u64 <= offset {
        return 0;
    }
    let rest = &octets[offset as usize..];
    let n = rest.len().min(into.len()).min(most);
    let (given, _) = rest.split_at(n);
    let (front, _) = into.split_at_mut(n);
    front.copy_from_slice(given);
    n
}

impl Pieces for MemPieces<'_> {
    ghost faults = { λ f. f.faults };

    ghost holds = { λ f fs. fs ≡ f.files.items };

    fn read_at(&mut self, file: usize, offset: u64, into: &mut [u8]) -> Result<usize, Failed> {
        self.made = self.made.saturating_add(1);
        if !self.failing.contains(&self.made) {
            if let Some(octets) = self.files.as_slice().get(file) {
                if octets.len() as u64 <= MOST_OFFSET {
                    return Ok(put_from(octets.as_slice(), offset, into, self.most));
                }
            }
        }
        self.faults = self.faults.saturating_add(1);
        Err(Failed)
    }
}
