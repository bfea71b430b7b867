//! Sockets that are let go in order.
//!
//! A socket that is closed while octets are unread has its system answer with a reset, which takes with it, at the peer, what
//! was written last and isn't read yet. So a socket is first ended for writing. Then what still comes is read and dropped, until
//! the peer's stream ends too, or its time is over (RFC 6455, 7.1.1).
ghost use Rattle.std.specs.Prelude.{◌≡◌, ◌≤◌, ◌+◌, ◌++◌, ◌∷◌, [], IsTrue, None, drop, if◌then◌else◌, length, min, nat_lt, slice_get};
ghost use Rattle.circular_buffer.specs.Buffer.{buffer, keep_last};

use crate::moment::{Moment, wait_of};
use bsc_octets::NoMemory;
use circular_buffer::HeapCircularBuffer;
use mio::net::TcpStream;
use std::alloc::Global;
use std::io::{ErrorKind, Read};
use std::net::Shutdown;
use std::sync::atomic::{AtomicBool, AtomicU64, Ordering};
use std::sync::{Mutex, Wait};
use std::thread;
use std::time::Clock;

/// So many milliseconds a peer has to end its stream.
pub const LINGER_MS: u32 = 1_000;

/// While sockets linger, so many milliseconds are between two looks at them.
pub const LOOK_MS: u32 = 10;

/// So many sockets linger at most. Where one more comes, the one is let go that was put there, or looked at, longest ago.
const PLACES: usize = 256;

/// At one look so many reads are made of a socket, of so many octets each.
const READS: usize = 64;

const READ: usize = 1_024;

/// Reads what has come to a socket and drops it, 65,536 octets at most. Whether the peer's stream has ended or broken off.
fn is_spent(socket: &mut TcpStream) -> bool {
    let mut dropped = [0u8; READ];
    for _ in 0..READS {
        match socket.read(&mut dropped) {
            Ok(0) => return true,
            Ok(_) => {}
            Err(error) => {
                return error.kind() != ErrorKind::WouldBlock
                    && error.kind() != ErrorKind::Interrupted;
            }
        }
    }
    false
}

/// A socket that lingers, and until when.
#[derive(Drop)]
struct Row {
    socket: TcpStream,
    until: Moment,
}

impl Row {
    /// A socket that lingers from now on.
    fn begin(socket: TcpStream, now: Moment) -> Row
        ensures { result.until.micros ≡ min (now.micros + 1000000) 18446744073709551615 }
    {
        Row {
            socket,
            until: now.after(LINGER_MS),
        }
    }

    /// Drops what has come. Whether the socket is to be let go: its peer's stream has ended, or its time is over.
    fn is_over(&mut self, now: Moment) -> bool
        ensures late { self.old.until.micros ≤ now.micros → IsTrue result }
        ensures until { self.new.until ≡ self.old.until }
    {
        is_spent(&mut self.socket) || self.until.left(now) == 0
    }
}

/// The sockets that linger: in front the one that was put there, or looked at, longest ago.
#[derive(Drop)]
struct Table {
    rows: HeapCircularBuffer<Row>,
}

impl Table {
    /// Puts a row behind all others. Where there is no place left, the first makes room, and is given back.
    fn put(&mut self, row: Row) -> Option<Row>
        ensures rows { self.new.rows ≡ buffer (keep_last self.old.rows.capacity (self.old.rows.items ++ row ∷ [])) self.old.rows.capacity }
        ensures oldest { result ≡ (if nat_lt (length self.old.rows.items) self.old.rows.capacity then None else slice_get (self.old.rows.items ++ row ∷ []) 0) }
    {
        self.rows.push_back(row)
    }

    /// Takes the first row.
    fn take(&mut self) -> Option<Row>
        ensures first { result ≡ slice_get self.old.rows.items 0 }
        ensures rows { self.new.rows ≡ buffer (drop 1 self.old.rows.items) self.old.rows.capacity }
    {
        self.rows.pop_front()
    }

    fn len(&self) -> usize
        ensures { result ≡ length self.now.rows.items }
    {
        self.rows.len()
    }
}

/// Where the sockets of a hub or of a node linger once they are let go: 256 at most, each for 1,000 ms at most. Nobody waits for
/// them: who waits for something else looks at them every 10 ms.
#[derive(Drop)]
pub struct Lingering {
    table: Mutex<Table>,
    /// A socket lingers that was put there since the last look, or went on behind it.
    some: AtomicBool,
    /// When the next look is due, in microseconds of the monotonic clock; 0 where none lingered at the last one.
    due: AtomicU64,
}

impl Lingering {
    /// No sockets.
    pub fn new(alloc: Global) -> Result<Lingering, NoMemory> {
        let rows = HeapCircularBuffer::with_capacity(alloc, PLACES)?;
        Ok(Lingering {
            table: Mutex::new(Table { rows }),
            some: AtomicBool::new(false),
            due: AtomicU64::new(0),
        })
    }

    /// Lets a socket linger. What of another one has come that makes room for it is dropped at last.
    fn put<R: Wait>(&self, rt: &R, row: Row) {
        let first = self.table.lock(rt).put(row);
        self.some.store(true, Ordering::SeqCst);
        if let Some(row) = first {
            let mut row = row;
            let _ = is_spent(&mut row.socket);
        }
    }

    /// Ends a socket for writing, and lets it linger. One whose peer's stream has ended is let go at once.
    pub fn take<R: Clock + Wait>(&self, rt: &R, socket: TcpStream) {
        let mut socket = socket;
        let Ok(now) = Moment::now(rt) else {
            return;
        };
        if socket.shutdown(Shutdown::Write).is_err() || is_spent(&mut socket) {
            return;
        }
        self.put(rt, Row::begin(socket, now));
    }

    /// Takes the socket that was put there, or looked at, longest ago.
    fn next<R: Wait>(&self, rt: &R) -> Option<Row> {
        self.table.lock(rt).take()
    }

    fn len<R: Wait>(&self, rt: &R) -> usize {
        self.table.lock(rt).len()
    }

    /// Looks once at each socket that lingers, and lets those go that are over. Whether others go on.
    fn look_at_all<R: Wait>(&self, rt: &R, now: Moment) -> bool {
        let mut lingers = false;
        for _ in 0..self.len(rt) {
            let Some(row) = self.next(rt) else {
                return lingers;
            };
            let mut row = row;
            if !row.is_over(now) {
                self.put(rt, row);
                lingers = true;
            }
        }
        lingers
    }

    /// Looks at the sockets that linger, unless that was done within the last 10 ms. Whether some go on.
    pub fn look<R: Clock + Wait>(&self, rt: &R) -> bool {
        if !self.some.load(Ordering::SeqCst) {
            return false;
        }
        // Where the clock fails, nothing lingers.
        let now = match Moment::now(rt) {
            Ok(now) => now,
            Err(_) => Moment { micros: u64::MAX },
        };
        let due = Moment {
            micros: self.due.load(Ordering::SeqCst),
        };
        if due.left(now) != 0 {
            return true;
        }
        // Who is put there while it looks is found, or leaves this set.
        self.some.store(false, Ordering::SeqCst);
        let lingers = self.look_at_all(rt, now);
        let next = if lingers {
            now.after(LOOK_MS).micros
        } else {
            0
        };
        self.due.store(next, Ordering::SeqCst);
        lingers
    }

    /// Waits until no socket lingers, 1,000 ms at most.
    pub fn outlast<R: Clock + Wait>(&self, rt: &R) {
        for _ in 0..LINGER_MS / LOOK_MS {
            if !self.look(rt) {
                return;
            }
            thread::sleep(rt, wait_of(LOOK_MS as u64 * 1000));
        }
    }
}
