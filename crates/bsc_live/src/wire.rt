//! What octets come and leave by.
ghost use Rattle.std.specs.Io.{ReadsAtMost, WritesAtMost};
ghost use Rattle.std.specs.Io.KnownBytes.{Keeps, WriteAppends};

use std::io;

/// What octets come and leave by. It tells contracts which have left.
pub(crate) trait Wire {
    ghost use Rattle.std.specs.Prelude.{List, ℕ, Option};

    /// The octets that have left, where they are told.
    ghost left: { Self → Option (List ℕ) };

    /// Gives octets that have come, at the front of `into`, and says how many. None leave by it.
    fn get(&mut self, into: &mut [u8]) -> io::Result<usize>
        ensures bound { ReadsAtMost result into.new }
        ensures left { Keeps (left self.old) (left self.new) };

    /// Has octets of these leave, from their front on, and says how many did. None did where it fails.
    fn put(&mut self, octets: &[u8]) -> io::Result<usize>
        ensures bound { WritesAtMost result octets.now }
        ensures left { WriteAppends (left self.old) (left self.new) result octets.now };

    /// What is put from now on has a time of its own to leave.
    fn rest(&mut self) -> io::Result<()>
        ensures left { Keeps (left self.old) (left self.new) };
}
