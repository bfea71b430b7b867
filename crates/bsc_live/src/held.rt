//! What is written and hasn't left.
ghost use Rattle.std.specs.Prelude.{◌≡◌, ◌≤◌, ◌<◌, ◌⊎◌, ◌++◌, [], true, false, drop, length, Ok, OnOk, IfOk, IsErr};
ghost use Rattle.std.specs.Io.{ReadsAtMost, WritesAtMost};
ghost use Rattle.std.specs.Io.KnownBytes.{Appends, Keeps, WriteAppends};
ghost use Rattle.bsc_live.specs.Written.{written};

use crate::wire::Wire;
use std::alloc::Global;
use std::io::{self, ErrorKind};

/// So many octets are held at most.
const HELD: usize = 16_384;

/// Room for so many octets is kept once they have left.
const ROOM: usize = 2_048;

/// What is written and hasn't left, in front of a wire. What has left by that and what is held are, in this order, what was written:
/// a write that fails has written nothing.
///
/// Where it holds what is written, that leaves together, in one call of the system: at the next read, once there is more than
/// it holds, and when it is dropped. A fault of the wire shows there then, and from there on it takes and gives nothing more, so that
/// no octet leaves behind one that couldn't.
pub(crate) struct Held<T: Wire + Drop> {
    alloc: Global,
    pub(crate) wire: T,
    /// Whether it holds what is written.
    holds: bool,
    kept: WriteBuffer,
    /// What was held couldn't leave.
    is_broken: bool,
}

/// What was written and is kept.
#[derive(Drop)]
pub(crate) struct WriteBuffer {
    pub(crate) held: Vec<u8>,
    /// How many octets of these have left.
    pub(crate) gone: usize,
    ghost within: { gone ≤ length held.items },
}

/// How many octets a wire took; it is at fault where it took none.
fn taken(answer: io::Result<usize>) -> io::Result<usize>
    ensures some { IfOk result (λ n. (answer ≡ Ok n) × (0 < n)) }
    ensures none { IsErr result → IsErr answer ⊎ (answer ≡ Ok 0) }
{
    match answer {
        Ok(0) => Err(io::Error::from(ErrorKind::WriteZero)),
        Ok(n) => Ok(n),
        Err(error) => Err(error),
    }
}

/// Has octets leave by a wire, from this place on, and moves the place behind those that did: to the end, unless the wire fails.
fn put_from<T: Wire>(wire: &mut T, octets: &[u8], place: &mut usize) -> io::Result<()>
    requires { place.old ≤ length octets.now }
    ensures within { place.new ≤ length octets.now }
    ensures written { Keeps (written (T.left wire.old) octets.now place.old) (written (T.left wire.new) octets.now place.new) }
    ensures all { OnOk result (place.new ≡ length octets.now) }
{
    let mut at = *place;
    while at < octets.len() {
        let (_, rest) = octets.split_at(at);
        match taken(wire.put(rest)) {
            Ok(n) => at += n,
            Err(error) => {
                *place = at;
                return Err(error);
            }
        }
    }
    *place = at;
    Ok(())
}

impl<T: Wire + Drop> Held<T> {
    /// Nothing is held in front of this wire, nor will be.
    pub(crate) fn over(alloc: Global, wire: T) -> Held<T>
        ensures wire { result.wire ≡ wire }
        ensures held { result.kept.held.items ≡ [] }
        ensures gone { result.kept.gone ≡ 0 }
    {
        Held {
            alloc,
            wire,
            holds: false,
            kept: WriteBuffer {
                held: Vec::new(alloc),
                gone: 0,
            },
            is_broken: false,
        }
    }

    /// From now on it holds what is written.
    pub(crate) fn begin(&mut self)
        ensures wire { self.new.wire ≡ self.old.wire }
        ensures held { self.new.kept.held.items ≡ self.old.kept.held.items }
        ensures gone { self.new.kept.gone ≡ self.old.kept.gone }
    {
        self.holds = true;
    }

    /// Lets go of what was kept, of which all has left.
    fn forgets(&mut self)
        ensures wire { self.new.wire ≡ self.old.wire }
        ensures held { self.new.kept.held.items ≡ [] }
        ensures gone { self.new.kept.gone ≡ 0 }
    {
        self.kept.gone = 0;
        if self.kept.held.capacity() <= ROOM {
            self.kept.held.clear();
        } else {
            self.kept.held = Vec::new(self.alloc);
        }
    }

    /// What is held leaves, as far as the wire takes it.
    fn puts_all(&mut self) -> io::Result<()>
        ensures written { Keeps (written (T.left self.old.wire) self.old.kept.held.items self.old.kept.gone)
            (written (T.left self.new.wire) self.new.kept.held.items self.new.kept.gone) }
        ensures all { OnOk result (drop self.new.kept.gone self.new.kept.held.items ≡ []) }
    {
        let mut gone = self.kept.gone;
        let answer = put_from(&mut self.wire, self.kept.held.as_slice(), &mut gone);
        self.kept.gone = gone;
        self.is_broken = answer.is_err();
        answer
    }

    /// What is held leaves, so that nothing is held any more, unless the wire fails.
    fn sends(&mut self) -> io::Result<()>
        ensures written { Keeps (written (T.left self.old.wire) self.old.kept.held.items self.old.kept.gone)
            (written (T.left self.new.wire) self.new.kept.held.items self.new.kept.gone) }
        ensures all { OnOk result (drop self.new.kept.gone self.new.kept.held.items ≡ []) }
    {
        if self.kept.gone >= self.kept.held.len() {
            return Ok(());
        }
        if self.is_broken {
            return Err(io::Error::from(ErrorKind::BrokenPipe));
        }
        self.puts_all()?;
        self.forgets();
        self.wire.rest()
    }

    /// Makes room for so many octets more, where there is too little.
    fn makes_room(&mut self, more: usize) -> io::Result<()>
        ensures { Keeps (written (T.left self.old.wire) self.old.kept.held.items self.old.kept.gone)
            (written (T.left self.new.wire) self.new.kept.held.items self.new.kept.gone) }
    {
        if self.kept.held.len().saturating_add(more) > HELD {
            return self.sends();
        }
        Ok(())
    }

    /// Keeps these octets behind the others. False where there is no memory for it.
    fn keeps(&mut self, octets: &[u8]) -> bool
        ensures kept { result ≡ true → self.new.kept.held.items ≡ self.old.kept.held.items ++ octets.now }
        ensures same { result ≡ false → self.new.kept.held.items ≡ self.old.kept.held.items }
        ensures gone { self.new.kept.gone ≡ self.old.kept.gone }
        ensures wire { self.new.wire ≡ self.old.wire }
    {
        self.kept.held.extend_from_slice(octets).is_ok()
    }

    /// Holds these octets, if it holds what is written and finds room. Else nothing is held any more. Says whether it did.
    fn takes_up(&mut self, octets: &[u8]) -> io::Result<bool>
        ensures took { result ≡ Ok true → Appends (written (T.left self.old.wire) self.old.kept.held.items self.old.kept.gone)
            (written (T.left self.new.wire) self.new.kept.held.items self.new.kept.gone) octets.now }
        ensures left { result ≡ Ok false → Keeps (written (T.left self.old.wire) self.old.kept.held.items self.old.kept.gone)
            (written (T.left self.new.wire) self.new.kept.held.items self.new.kept.gone) × (drop self.new.kept.gone self.new.kept.held.items ≡ []) }
        ensures failed { IsErr result → Keeps (written (T.left self.old.wire) self.old.kept.held.items self.old.kept.gone)
            (written (T.left self.new.wire) self.new.kept.held.items self.new.kept.gone) }
    {
        if !self.holds || octets.len() > HELD {
            self.sends()?;
            return Ok(false);
        }
        self.makes_room(octets.len())?;
        if self.keeps(octets) {
            return Ok(true);
        }
        self.sends()?;
        Ok(false)
    }

    /// Writes octets of these, and says how many.
    pub(crate) fn write(&mut self, octets: &[u8]) -> io::Result<usize>
        ensures bound { WritesAtMost result octets.now }
        ensures written { WriteAppends (written (T.left self.old.wire) self.old.kept.held.items self.old.kept.gone)
            (written (T.left self.new.wire) self.new.kept.held.items self.new.kept.gone) result octets.now }
    {
        if self.is_broken {
            return Err(io::Error::from(ErrorKind::BrokenPipe));
        }
        if self.takes_up(octets)? {
            return Ok(octets.len());
        }
        self.wire.put(octets)
    }

    /// What is written from now on has a time of its own to leave.
    pub(crate) fn flush(&mut self) -> io::Result<()>
        ensures { Keeps (written (T.left self.old.wire) self.old.kept.held.items self.old.kept.gone)
            (written (T.left self.new.wire) self.new.kept.held.items self.new.kept.gone) }
    {
        self.wire.rest()
    }

    /// Reads octets, behind those that are held: these leave first.
    pub(crate) fn read(&mut self, into: &mut [u8]) -> io::Result<usize>
        ensures bound { ReadsAtMost result into.new }
        ensures written { Keeps (written (T.left self.old.wire) self.old.kept.held.items self.old.kept.gone)
            (written (T.left self.new.wire) self.new.kept.held.items self.new.kept.gone) }
        ensures left { OnOk result (drop self.new.kept.gone self.new.kept.held.items ≡ []) }
    {
        self.sends()?;
        self.wire.get(into)
    }
}

impl<T: Wire + Drop> Drop for Held<T> {
    fn drop(mut self) {
        // Where it can't leave, the peer sees the stream's end alone.
        let _ = self.sends();
        let Held {
            alloc: _,
            wire: _,
            holds: _,
            kept: _,
            is_broken: _,
        } = self;
    }
}
