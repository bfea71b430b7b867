//! One wait for many streams.
//!
//! Who has a seat at a `Watch` is hot or cold. An event makes it hot, and so does a read that gave octets; a read that would
//! have blocked makes it cold. While somebody is hot a wait takes no time: more may be there of which no event tells.
ghost use Rattle.std.specs.Prelude.{◌<◌, length, IfSome};
ghost use Rattle.std.specs.Arc.{arc_value};

use crate::lingering::{LOOK_MS, Lingering};
use crate::moment::wait_of;
use crate::seat_waker::SeatWaker;
use bsc_edge::Waiter;
use mio::event::Source;
use mio::{Events, Interest, Poll, Registry, Token};
use std::alloc::Global;
use std::io::{self, ErrorKind};
use std::net::Net;
use std::sync::atomic::{AtomicBool, Ordering};
use std::sync::{Arc, Wait};
use std::thread;
use std::time::Clock;

/// So many events are looked at after one wait. What is left over is there at the next one.
const BATCH: usize = 128;

/// While somebody is hot, the system is asked for events at each eighth wait only.
const WAITS_A_POLL: u32 = 8;

/// A place at a watch.
#[derive(Drop)]
struct Place {
    taken: AtomicBool,
    hot: AtomicBool,
}

/// Where many streams and an acceptor are waited for together, each by a seat of its own.
#[derive(Drop)]
pub struct Watch {
    registry: Registry,
    places: Vec<Place>,
    /// Somebody was made hot since the last look at all places, or was hot then.
    stirs: AtomicBool,
}

/// A place at a watch, until it is dropped. It is hot at first.
pub struct Seat {
    watch: Arc<Watch>,
    place: usize,
    /// What makes it hot from another thread, where it has that. It lives as long as the seat: a waker's descriptor that is closed
    /// right behind its wake would take the event with it.
    waker: Option<SeatWaker>,
    ghost sits: { place < length (arc_value watch).places.items },
}

impl Watch {
    /// Takes a place, if one is free.
    fn take_place(&self) -> Option<usize>
        ensures { IfSome result (λ number. number < length self.now.places.items) }
    {
        for (number, place) in self.places.iter().enumerate() {
            if !place.taken.swap(true, Ordering::SeqCst) {
                return Some(number);
            }
        }
        None
    }

    /// Gives a place back.
    fn free(&self, number: usize) {
        if let Some(place) = self.places.get(number) {
            place.taken.store(false, Ordering::SeqCst);
        }
    }

    fn set_hot(&self, number: usize, hot: bool) {
        if let Some(place) = self.places.get(number) {
            place.hot.store(hot, Ordering::SeqCst);
            if hot {
                self.stirs.store(true, Ordering::SeqCst);
            }
        }
    }

    /// Whether who has this place may have something.
    fn is_hot(&self, number: usize) -> bool {
        match self.places.get(number) {
            Some(place) => place.hot.load(Ordering::SeqCst),
            None => false,
        }
    }

    /// Whether somebody is hot.
    fn has_hot(&self) -> bool {
        if !self.stirs.swap(false, Ordering::SeqCst) {
            return false;
        }
        let hot = self.places.iter().any(|place| place.taken.load(Ordering::SeqCst)
            && place.hot.load(Ordering::SeqCst));
        if hot {
            self.stirs.store(true, Ordering::SeqCst);
        }
        hot
    }
}

impl Seat {
    /// A seat at a place that was free. Fails where all are taken.
    fn at(watch: &Arc<Watch>) -> io::Result<Seat> {
        let Ok(watch) = Arc::try_clone(watch) else {
            return Err(io::Error::from(ErrorKind::OutOfMemory));
        };
        let Some(place) = watch.take_place() else {
            return Err(io::Error::from(ErrorKind::OutOfMemory));
        };
        watch.set_hot(place, true);
        Ok(Seat {
            watch,
            place,
            waker: None,
        })
    }

    /// A seat for whom this source belongs to. Fails where all places are taken.
    pub fn take<S: Source>(watch: &Arc<Watch>, source: &mut S) -> io::Result<Seat> {
        let seat = Seat::at(watch)?;
        seat.watch
            .registry
            .register(source, Token(seat.place), Interest::READABLE)?;
        Ok(seat)
    }

    /// A seat without a source, and what makes it hot from another thread. Fails where all places are taken.
    pub fn with_waker(alloc: Global, watch: &Arc<Watch>) -> io::Result<(Seat, SeatWaker)> {
        let mut seat = Seat::at(watch)?;
        let waker = SeatWaker::at(alloc, &seat.watch.registry, seat.place)?;
        seat.waker = Some(waker.again()?);
        Ok((seat, waker))
    }

    /// What tells whether who sits here may have something. It is good as long as the seat is.
    pub(crate) fn view(&self) -> Option<SeatView> {
        match Arc::try_clone(&self.watch) {
            Ok(watch) => Some(SeatView {
                watch,
                place: self.place,
            }),
            Err(_) => None,
        }
    }

    /// Leaves, and its watch is told no more of this source.
    pub fn leave<S: Source>(self, source: &mut S) {
        let _ = self.watch.registry.deregister(source);
    }

    /// Says whether who sits here may have something.
    pub fn set_hot(&self, hot: bool) {
        self.watch.set_hot(self.place, hot);
    }

    /// Whether who sits here may have something.
    pub fn is_hot(&self) -> bool {
        self.watch.is_hot(self.place)
    }
}

impl Drop for Seat {
    fn drop(self) {
        self.watch.free(self.place);
        let Seat {
            watch: _,
            place: _,
            waker: _,
        } = self;
    }
}

/// Tells whether who has a seat may have something.
#[derive(Drop)]
pub(crate) struct SeatView {
    watch: Arc<Watch>,
    place: usize,
}

impl SeatView {
    /// Whether who sits there may have something.
    pub(crate) fn is_hot(&self) -> bool {
        self.watch.is_hot(self.place)
    }
}

/// Waits for all who have a seat at its watch. Meanwhile it looks at the sockets that linger, where it has some.
#[derive(Drop)]
pub struct Watcher<R> {
    clock: R,
    poll: Poll,
    events: Events,
    watch: Arc<Watch>,
    lingering: Option<Arc<Lingering>>,
    /// How many waits there were, while somebody was hot, since the system was asked for events.
    unasked: u32,
}

impl<R: Clock + Net + Drop> Watcher<R> {
    /// A watcher whose watch has so many places.
    pub fn new(rt: R, alloc: Global, count: usize) -> io::Result<Watcher<R>> {
        let poll = Poll::new(&rt)?;
        let registry = poll.registry().try_clone()?;
        let mut places = Vec::new(alloc);
        for _ in 0..count {
            places.push(Place {
                taken: AtomicBool::new(false),
                hot: AtomicBool::new(false),
            })?;
        }
        let Ok(events) = Events::with_capacity(alloc, BATCH) else {
            return Err(io::Error::from(ErrorKind::OutOfMemory));
        };
        let watch = Arc::new(
            alloc,
            Watch {
                registry,
                places,
                stirs: AtomicBool::new(false),
            },
        )?;
        Ok(Watcher {
            clock: rt,
            poll,
            events,
            watch,
            lingering: None,
            unasked: 0,
        })
    }
}

impl<R> Watcher<R> {
    /// The watch, to be shared.
    pub fn watch(&self) -> io::Result<Arc<Watch>> {
        match Arc::try_clone(&self.watch) {
            Ok(watch) => Ok(watch),
            Err(_) => Err(io::Error::from(ErrorKind::OutOfMemory)),
        }
    }

    /// The same watcher, which looks at the sockets that linger here.
    pub fn looks_at(self, lingering: Arc<Lingering>) -> Watcher<R> {
        let mut watcher = self;
        watcher.lingering = Some(lingering);
        watcher
    }
}

impl<R: Clock + Wait> Watcher<R> {
    /// Looks at the sockets that linger. Whether others go on.
    fn has_lingering(&self) -> bool {
        match &self.lingering {
            Some(lingering) => lingering.look(&self.clock),
            None => false,
        }
    }

    /// Whether this wait is over without a call of the system: somebody is hot, and it was called in one of the last seven waits.
    fn may_go_on(&mut self, has_hot: bool) -> bool {
        self.unasked = if has_hot {
            self.unasked.saturating_add(1)
        } else {
            WAITS_A_POLL
        };
        if self.unasked < WAITS_A_POLL {
            return true;
        }
        self.unasked = 0;
        false
    }

    /// Waits so many milliseconds, and makes those hot for whom something comes. Whether something came.
    fn wait_once(&mut self, wait_ms: u32) -> bool {
        let wait = wait_of(wait_ms as u64 * 1000);
        match self.poll.poll(&mut self.events, Some(wait)) {
            Ok(()) => {
                let mut came = false;
                for event in self.events.iter() {
                    self.watch.set_hot(event.token().0, true);
                    came = true;
                }
                came
            }
            // Turns without a wait would take a processor.
            Err(_) => {
                thread::sleep(&self.clock, wait);
                false
            }
        }
    }
}

impl<R: Clock + Wait> Waiter for Watcher<R> {
    ghost use Rattle.std.specs.Prelude.{None};

    ghost waits = { λ _. None };

    fn wait(&mut self, most_ms: u32) {
        let has_hot = self.watch.has_hot();
        if self.may_go_on(has_hot) {
            return;
        }
        let mut left = if has_hot { 0 } else { most_ms };
        for _ in 0..=most_ms {
            let part = if self.has_lingering() {
                left.min(LOOK_MS)
            } else {
                left
            };
            left = left.saturating_sub(part);
            if self.wait_once(part) || left == 0 {
                return;
            }
        }
    }
}
