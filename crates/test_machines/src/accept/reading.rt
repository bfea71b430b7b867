//! The rules of an accepting peer read a second time: another form than the machine's.
use crate::accept::telling::Told;
use crate::messages::{Came, Does};
use bsc_accept::{Closing, Times};
use bsc_history::{End, Refusal};

/// What a reader of the rules would note down.
#[derive(Clone, Copy)]
pub struct Reading {
    times: Times,
    /// When it started.
    started: u64,
    /// When the last message came.
    heard: u64,
    /// The Message ID of the last Connect-Request before anybody joined.
    request: u16,
    joined: bool,
    /// When its Disconnect-Request went out, and the ID of that.
    bye: Option<(u64, u16)>,
    /// Whether it closed.
    pub over: bool,
}

impl Reading {
    pub fn start(times: Times, now: u64) -> Reading {
        Reading {
            times,
            started: now,
            heard: now,
            request: 0,
            joined: false,
            bye: None,
            over: false,
        }
    }

    fn is_connected(&self) -> bool {
        self.joined && self.bye.is_none()
    }

    /// Whether an answer with this ID is the one that is awaited.
    fn is_awaited(&self, id: u16) -> bool {
        match self.bye {
            Some((_, awaited)) => id == awaited,
            None => false,
        }
    }

    fn closes(&mut self, closing: Closing) -> Does {
        self.over = true;
        Does::Closes(closing)
    }

    fn says_bye(&mut self, now: u64, id: u16) -> Does {
        self.bye = Some((now, id));
        Does::Puts(0x08, id)
    }

    /// What is done at a time when this is told.
    pub fn step(&mut self, now: u64, told: Told) -> Does {
        match told {
            Told::Came(came) => {
                self.heard = now;
                self.message(came)
            }
            Told::Joined => {
                self.joined = true;
                Does::Puts(0x07, self.request)
            }
            Told::NotJoined(refusal) => self.not_joined(refusal),
            Told::Ended(End::Full) => self.closes(Closing::OUTBOX_FULL),
            Told::Ended(_) => self.says_bye(now, 1),
            Told::Finish(id) => self.finish(now, id),
            Told::Tick => self.tick(now),
        }
    }

    fn finish(&mut self, now: u64, id: u16) -> Does {
        if self.is_connected() {
            self.says_bye(now, id)
        } else if self.joined {
            Does::Nothing
        } else {
            self.closes(Closing::NORMAL)
        }
    }

    fn not_joined(&mut self, refusal: Refusal) -> Does {
        self.over = true;
        match refusal {
            Refusal::Duplicate { .. } => Does::PutsAndCloses(0x00, self.request, Closing::NORMAL),
            Refusal::TableFull { .. } => Does::Closes(Closing::TABLE_FULL),
            Refusal::Stopped => Does::Closes(Closing::GOING_AWAY),
        }
    }

    fn message(&mut self, came: Came) -> Does {
        match came {
            Came::Refused(id) => Does::Puts(0x00, id),
            Came::Carried => Does::HandsUp,
            Came::Request(id) if !self.joined => {
                self.request = id;
                Does::Asks
            }
            Came::Heartbeat(id) if self.is_connected() => Does::Puts(0x0B, id),
            Came::Disconnect(id) if self.is_connected() => {
                self.over = true;
                Does::PutsAndCloses(0x09, id, Closing::NORMAL)
            }
            Came::DisconnectAck(id) | Came::Nak(0x08, id) if self.is_awaited(id) => {
                self.closes(Closing::NORMAL)
            }
            _ => Does::Nothing,
        }
    }

    fn tick(&mut self, now: u64) -> Does {
        let (since, wait, closing) = match self.bye {
            Some((since, _)) => (since, self.times.disconnect_wait, Closing::NORMAL),
            None if self.joined => {
                (
                    self.heard,
                    self.times.heartbeat.saturating_mul(2),
                    Closing::IDLE,
                )
            }
            None => (self.started, self.times.connect_wait, Closing::CONNECT_WAIT),
        };
        if now < since.saturating_add(u64::from(wait)) {
            Does::Nothing
        } else {
            self.closes(closing)
        }
    }
}
