//! Reading an input, and putting its lines into a ring.
ghost use Rattle.std.specs.Prelude.{◌≡◌, ◌≢◌, ◌≤◌, ◌<◌, ◌^◌, ◌++◌, ◌∷◌, [], length, IfOk, Ok, Err, false, OnOk, OnErr, None, Some, List, ℕ};
ghost use Rattle.std.specs.List.{concat};
ghost use Rattle.bsc_outside.specs.Faults.{HasRisen};
ghost use Rattle.bsc_text.specs.Gave.{Gave};
ghost use Rattle.bsc_ring.specs.Ends.{IsNewInlet, ending_of, inlet_mark, pushed};
ghost use Rattle.bsc_input.specs.Lines.{lines_of};
ghost use Rattle.bsc_history.specs.declared.ending.End.TheVariants.{Left};
ghost use Rattle.bsc_input.specs.Feeding.{FedBy, ReadFront};

use crate::cutter::Cutter;
use crate::feed_end::FeedEnd;
use crate::line_feed::LineFeed;
use crate::rouser::Rouser;
use bsc_history::End;
use bsc_octets::{NoMemory, Octets};
use bsc_outside::Source;
use bsc_ring::Inlet;
use std::alloc::Global;
use std::sync::Wait;
use std::thread;
use std::time::{Clock, Duration};

/// So many lines are counted.
const MOST_LINES: u64 = 1 << 62;

/// So many octets are read at once.
const CHUNK: usize = 65_536;

/// How long is waited for room in the ring, in milliseconds, before it is tried again.
const ROOM_MS: u64 = 1;

/// Puts a line into the ring. While that is full, who takes is roused, and it is tried again every millisecond.
fn put_line<R: Clock + Wait, B: Rouser>(rt: &R, rouser: &B, inlet: &mut Inlet, line: Octets)
    requires open { ending_of inlet.old ≡ None }
    requires in_range { length (pushed inlet.old) < 2 ^ 63 }
    ensures mark { inlet_mark inlet.new ≡ inlet_mark inlet.old }
    ensures still { ending_of inlet.new ≡ None }
    ensures adds { pushed inlet.new ≡ pushed inlet.old ++ line ∷ [] }
{
    let mut line = line;
    for _ in rt.forever() {
        match inlet.push(line) {
            Ok(_) => return,
            Err((back, _)) => line = back,
        }
        rouser.rouse();
        thread::sleep(rt, Duration::from_millis(ROOM_MS));
    }
    unreachable!()
}

impl LineFeed {
    /// Nothing was read yet.
    pub fn new(alloc: Global, inlet: Inlet) -> LineFeed
        requires { IsNewInlet inlet }
        ensures read { result.cutter.read.items ≡ [] }
        ensures mark { inlet_mark result.inlet ≡ inlet_mark inlet }
    {
        LineFeed {
            cutter: Cutter::new(alloc),
            inlet,
            count: 0,
        }
    }

    /// Goes on with an octet: a line that it ends is put into the ring.
    fn octet<R: Clock + Wait, B: Rouser>(
        &mut self,
        rt: &R,
        alloc: Global,
        rouser: &B,
        octet: u8,
    ) -> Result<(), FeedEnd>
        ensures read { OnOk result (self.new.cutter.read.items ≡ self.old.cutter.read.items ++ octet ∷ []) }
        ensures unread { OnErr result (self.new.cutter.read.items ≡ self.old.cutter.read.items) }
        ensures goes_on { (result ≢ Err FeedEnd.Failed) × (result ≢ Err FeedEnd.All) }
        ensures mark { inlet_mark self.new.inlet ≡ inlet_mark self.old.inlet }
    {
        if self.count >= MOST_LINES {
            return Err(FeedEnd::TooMany);
        }
        match self.cutter.octet(alloc, octet) {
            Ok(Some(line)) => {
                put_line(rt, rouser, &mut self.inlet, line);
                self.count += 1;
                Ok(())
            }
            Ok(None) => Ok(()),
            Err(NoMemory) => Err(FeedEnd::NoMemory),
        }
    }

    /// Goes on with a chunk, or with some front of it.
    fn chunk<R: Clock + Wait, B: Rouser>(
        &mut self,
        rt: &R,
        alloc: Global,
        rouser: &B,
        chunk: &[u8],
    ) -> Result<(), FeedEnd>
        ensures read { OnOk result (self.new.cutter.read.items ≡ self.old.cutter.read.items ++ chunk.now) }
        ensures front { OnErr result (ReadFront self.old.cutter.read.items self.new.cutter.read.items chunk.now) }
        ensures goes_on { (result ≢ Err FeedEnd.Failed) × (result ≢ Err FeedEnd.All) }
        ensures mark { inlet_mark self.new.inlet ≡ inlet_mark self.old.inlet }
    {
        let mut left = chunk;
        while let [octet, rest @ ..] = left {
            self.octet(rt, alloc, rouser, *octet)?;
            left = rest;
        }
        Ok(())
    }

    /// Reads once, and puts the lines that this ends into the ring. Whether anything came; else the input has ended.
    fn read_once<R: Clock + Wait, S: Source, B: Rouser>(
        &mut self,
        rt: &R,
        alloc: Global,
        source: &mut S,
        rouser: &B,
        room: &mut [u8],
    ) -> Result<bool, FeedEnd>
        requires { 0 < length room.old }
        ensures some { length room.new ≡ length room.old }
        ensures read { IfOk result (λ _. (octets : List ℕ) × Gave (S.reads source.old) (S.reads source.new) (octets ∷ [])
            × (self.new.cutter.read.items ≡ self.old.cutter.read.items ++ octets)) }
        ensures ended { result ≡ Ok false → Gave (S.reads source.old) (S.reads source.new) ([] ∷ []) × (self.new.cutter.read.items ≡ self.old.cutter.read.items) }
        ensures front { OnErr result ((gave : List (List ℕ)) × Gave (S.reads source.old) (S.reads source.new) gave
            × ReadFront self.old.cutter.read.items self.new.cutter.read.items (concat gave)) }
        ensures mark { inlet_mark self.new.inlet ≡ inlet_mark self.old.inlet }
        ensures failed { result ≡ Err FeedEnd.Failed → HasRisen (S.faults source.old) (S.faults source.new) }
        ensures later { S.faults source.old ≤ S.faults source.new }
        ensures goes_on { result ≢ Err FeedEnd.All }
    {
        let Ok(n) = source.read(room) else {
            return Err(FeedEnd::Failed);
        };
        if n == 0 {
            return Ok(false);
        }
        match self.chunk(rt, alloc, rouser, &room[..n]) {
            Ok(()) => {
                rouser.rouse();
                Ok(true)
            }
            Err(end) => Err(end),
        }
    }

    /// Reads until the input ends, or can't be read any further.
    fn read_all<R: Clock + Wait, S: Source, B: Rouser>(
        &mut self,
        rt: &R,
        alloc: Global,
        source: &mut S,
        rouser: &B,
        room: &mut [u8],
    ) -> FeedEnd
        requires { 0 < length room.old }
        ensures all { result ≡ FeedEnd.All → (gave : List (List ℕ)) × Gave (S.reads source.old) (S.reads source.new) gave
            × (self.new.cutter.read.items ≡ self.old.cutter.read.items ++ concat gave) }
        ensures front { (gave : List (List ℕ)) × Gave (S.reads source.old) (S.reads source.new) gave
            × ReadFront self.old.cutter.read.items self.new.cutter.read.items (concat gave) }
        ensures failed { result ≡ FeedEnd.Failed → HasRisen (S.faults source.old) (S.faults source.new) }
        ensures mark { inlet_mark self.new.inlet ≡ inlet_mark self.old.inlet }
    {
        for _ in rt.forever() {
            match self.read_once(rt, alloc, source, rouser, &mut *room) {
                Ok(true) => (),
                Ok(false) => return FeedEnd::All,
                Err(end) => return end,
            }
        }
        unreachable!()
    }

    /// Ends behind all that was read, for which there is no more.

    fn end<R: Clock + Wait, B: Rouser>(self, rt: &R, rouser: &B) -> Inlet
        ensures all { pushed result ≡ lines_of self.cutter.read.items }
        ensures mark { inlet_mark result ≡ inlet_mark self.inlet }
        ensures open { ending_of result ≡ None }
    {
        let LineFeed {
            cutter,
            inlet,
            count: _,
        } = self;
        let mut inlet = inlet;
        if let Some(line) = cutter.end() {
            put_line(rt, rouser, &mut inlet, line);
        }
        inlet
    }
}

/// Ends an inlet, and rouses who takes: that all of the input was read, or not.
fn close<B: Rouser>(rouser: &B, inlet: Inlet, ending: End) -> Inlet
    requires open { ending_of inlet ≡ None }
    requires named { ending ≢ Left }
    ensures items { pushed result ≡ pushed inlet }
    ensures mark { inlet_mark result ≡ inlet_mark inlet }
    ensures ended { ending_of result ≡ Some ending }
{
    let mut inlet = inlet;
    inlet.finish(ending);
    rouser.rouse();
    inlet
}

/// Reads an input until it ends, or can't be read any further, and puts its lines into a ring, in order. Who takes them is roused
/// whenever some were put.
pub fn feed_lines<R: Clock + Wait, S: Source, B: Rouser>(
    rt: &R,
    alloc: Global,
    source: &mut S,
    rouser: &B,
    inlet: Inlet,
) -> (Inlet, FeedEnd)
    requires { IsNewInlet inlet }

    // What was put into the ring are the lines of what the reads gave: all of them, where the input ended, and else the first ones.
    ensures fed { (gave : List (List ℕ)) × Gave (S.reads source.old) (S.reads source.new) gave × FedBy (concat gave) (pushed result.0) result.1 }
    ensures ended { result.1 ≡ FeedEnd.All → ending_of result.0 ≡ Some End.Stopped }
    ensures cut_short { result.1 ≢ FeedEnd.All → ending_of result.0 ≡ Some End.Full }
    ensures failed { result.1 ≡ FeedEnd.Failed → HasRisen (S.faults source.old) (S.faults source.new) }
    ensures mark { inlet_mark result.0 ≡ inlet_mark inlet }
{
    let mut feed = LineFeed::new(alloc, inlet);
    let Ok(mut room) = vec![in alloc; 0; CHUNK] else {
        return (close(rouser, feed.inlet, End::Full), FeedEnd::NoMemory);
    };
    match feed.read_all(rt, alloc, source, rouser, room.as_mut_slice()) {
        FeedEnd::All => {
            let inlet = feed.end(rt, rouser);
            (close(rouser, inlet, End::Stopped), FeedEnd::All)
        }
        end => (close(rouser, feed.inlet, End::Full), end),
    }
}
