//! The handshakes that are at work, as rows of one table.
ghost use Rattle.std.specs.Prelude.{◌≡◌, ◌⊎◌, ◌<◌, [], None, Option, IfSome, is_some, false, slice_get, vec_len};
ghost use Rattle.std.specs.List.{list_any};
ghost use Rattle.bsc_gate.specs.Oldest.{MayTake};
ghost use Rattle.bsc_gate.specs.Turning.{OnlyLate, turned_by, turned_from, turned_once, turning_by, turning_of};
ghost use Rattle.bsc_gate.specs.declared.turned.Turning.{Turning as TurningType};
ghost use Rattle.bsc_gate.specs.declared.turned.Turning.TheVariants as cause;
ghost use Rattle.tungstenite.specs.Heads.{Heard};

use crate::oldest::{Oldest, older};
use crate::turned::{Turned, Turning};
use bsc_edge::Kind;
use bsc_live::Moment;
use bsc_octets::NoMemory;
use bsc_ws::{Handshake, HandshakeStep, Unmet, begin};
use mio::net::TcpStream;
use mio::{Interest, Registry, Token};
use std::alloc::Global;
use std::io::{Read, Write};

/// Why a stream is turned away whose handshake failed so.
fn turning_of(unmet: Unmet) -> Turning
    ensures { result ≡ turning_of unmet }
{
    match unmet {
        Unmet::NoProtocol => Turning::NoProtocol,
        Unmet::LongHead => Turning::LongHead,
        Unmet::Other => Turning::Failed,
    }
}

/// Why a stream is turned away whose handshake came to this, if it is.
fn turning_by<T: Read + Write + Drop>(step: &HandshakeStep<T>) -> Option<Turning>
    ensures { result ≡ turning_by step.now }
{
    match step {
        HandshakeStep::More(_) | HandshakeStep::Done(_, _) => None,
        HandshakeStep::Refused(unmet) => Some(turning_of(*unmet)),
        HandshakeStep::NoMemory => Some(Turning::NoMemory),
    }
}

/// A handshake, and when it must be done.
#[derive(Drop)]
struct Row {
    handshake: Handshake<TcpStream>,
    until: Moment,
    /// A registry tells of its stream.
    is_registered: bool,
}

/// The handshakes at work, each in its place.
#[derive(Drop)]
pub(crate) struct Handshakes {
    rows: Vec<Option<Row>>,
    /// No handshake's time is over before this.
    due: Moment,
    /// A handshake may be at work.
    may_be_busy: bool,
    turned: Turned,
    ghost idle: { may_be_busy ≡ false → list_any (λ row. is_some row) rows.items ≡ false },
}

/// Whether a handshake stands here.
fn is_taken(row: &Option<Row>) -> bool
    ensures { result ≡ is_some row.now }
{
    row.is_some()
}

/// Whether a handshake is at work.
fn any_taken(rows: &[Option<Row>]) -> bool
    ensures { result ≡ list_any (λ row. is_some row) rows.now }
{
    rows.iter().any(|row| is_taken(row))
}

impl Handshakes {
    /// A table of so many places.
    pub(crate) fn new(alloc: Global, places: usize) -> Result<Handshakes, NoMemory> {
        let mut rows = Vec::new(alloc);
        for _ in 0..places {
            rows.push(None)?;
        }
        Ok(Handshakes {
            rows,
            due: Moment { micros: u64::MAX },
            may_be_busy: true,
            turned: Turned::NONE,
        })
    }

    /// Looks whether a handshake is at work, and keeps that until one begins or goes on.
    pub(crate) fn look(&mut self)
        ensures rows { self.new.rows ≡ self.old.rows }
        ensures turned { self.new.turned ≡ self.old.turned }
    {
        self.may_be_busy = any_taken(self.rows.as_slice());
    }

    /// Whether a handshake may be at work.
    pub(crate) fn may_be_busy(&self) -> bool
        ensures { result ≡ false → list_any (λ row. is_some row) self.now.rows.items ≡ false }
    {
        self.may_be_busy
    }

    /// A stream that has no handshake here is turned away.
    pub(crate) fn turn_away(&mut self, why: Turning)
        ensures turned { self.new.turned ≡ turned_once why self.old.turned }
        ensures rows { self.new.rows ≡ self.old.rows }
    {
        self.turned.add(why);
    }

    /// How many streams were turned away.
    pub(crate) fn turned(&self) -> Turned
        ensures { result ≡ self.now.turned }
    {
        self.turned
    }

    /// A free place, or the place of the oldest handshake, that whose time is over first; none where the table has no places.
    pub(crate) fn place(&self) -> Option<usize>
        ensures within { IfSome result (λ p. p < vec_len self.now.rows) }
        ensures oldest { IfSome result (λ p. MayTake (λ r. r.until.micros) self.now.rows.items p) }
        ensures none { result ≡ None → self.now.rows.items ≡ [] }
    {
        let mut oldest = Oldest {
            place: None,
            until: Moment { micros: u64::MAX },
        };
        for (place, row) in self.rows.iter().enumerate() {
            match row {
                None => return Some(place),
                Some(row) => oldest = older(oldest, place, row.until),
            }
        }
        oldest.place
    }

    /// Begins a handshake at a place. What stood there is dropped.
    pub(crate) fn begin(
        &mut self,
        alloc: Global,
        place: usize,
        socket: TcpStream,
        kind: Kind,
        until: Moment,
    )
        ensures rows { vec_len self.new.rows ≡ vec_len self.old.rows }
        ensures turned { self.new.turned ≡ turned_from (slice_get self.old.rows.items place) self.old.turned }
    {
        self.may_be_busy = true;
        let begun = Row {
            handshake: begin(alloc, socket, kind),
            until,
            is_registered: false,
        };
        if let Some(row) = self.rows.get_mut(place) {
            if row.is_some() {
                self.turned.add(Turning::PushedOut);
            }
            *row = Some(begun);
            if until.micros < self.due.micros {
                self.due = until;
            }
        }
    }

    /// Has a registry tell of the handshake at a place, if one is there, as the token one behind the place. One of which it can't tell
    /// is dropped.
    pub(crate) fn register(&mut self, registry: &Registry, place: usize)
        ensures rows { vec_len self.new.rows ≡ vec_len self.old.rows }
        ensures turned { (self.new.turned ≡ self.old.turned) ⊎ (self.new.turned ≡ turned_once cause.Failed self.old.turned) }
    {
        self.may_be_busy = true;
        let Some(there) = self.rows.get_mut(place) else {
            return;
        };
        let failed = match there {
            Some(row) => {
                row.is_registered = true;
                let both = Interest::READABLE | Interest::WRITABLE;
                registry
                    .register(row.handshake.stream(), Token(place.saturating_add(1)), both)
                    .is_err()
            }
            None => false,
        };
        if failed {
            *there = None;
            self.turned.add(Turning::Failed);
        }
    }

    /// Goes on with the handshake at a place. Gives its socket where it is done, the kind of link that was asked for, and whether a
    /// registry tells of it.
    pub(crate) fn go_on(&mut self, place: usize) -> Option<(TcpStream, Kind, bool)>
        ensures rows { vec_len self.new.rows ≡ vec_len self.old.rows }
        ensures heard { IfSome result (λ _. Heard) }
        // At most one stream is turned away, and none where it is done.
        ensures turned { (why : Option TurningType) × (self.new.turned ≡ turned_by why self.old.turned) × IfSome result (λ _. why ≡ None) }
    {
        self.may_be_busy = true;
        let row = self.rows.get_mut(place)?;
        let Row {
            handshake,
            until,
            is_registered,
        } = row.take()?;
        let step = handshake.go_on();
        self.turned.add_for(turning_by(&step));
        match step {
            HandshakeStep::More(handshake) => {
                *row = Some(Row {
                    handshake,
                    until,
                    is_registered,
                });
                None
            }
            HandshakeStep::Done(socket, kind) => Some((socket, kind, is_registered)),
            HandshakeStep::Refused(_) | HandshakeStep::NoMemory => None,
        }
    }

    /// Drops the handshakes whose time is over. Before it may be over of one, it looks at none.
    pub(crate) fn sweep(&mut self, now: Moment)
        ensures rows { vec_len self.new.rows ≡ vec_len self.old.rows }
        ensures turned { OnlyLate self.old.turned self.new.turned }
    {
        if now.micros < self.due.micros {
            return;
        }
        let late = self.drop_late(now);
        self.turned.add_late(late);
    }

    /// Drops the handshakes whose time is over, and says how many they were.
    fn drop_late(&mut self, now: Moment) -> u64
        ensures rows { vec_len self.new.rows ≡ vec_len self.old.rows }
        ensures turned { self.new.turned ≡ self.old.turned }
    {
        self.may_be_busy = true;
        let mut late = 0u64;
        let mut due = Moment { micros: u64::MAX };
        for place in 0..self.rows.len() {
            if let Some(row) = self.rows.get_mut(place) {
                let until = match row {
                    Some(row) => row.until,
                    None => due,
                };
                if row.is_some() && until.micros <= now.micros {
                    *row = None;
                    late = late.saturating_add(1);
                } else if until.micros < due.micros {
                    due = until;
                }
            }
        }
        self.due = due;
        late
    }
}
