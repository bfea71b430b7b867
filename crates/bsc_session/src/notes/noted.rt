//! What is noted.
use bsc_desk::{AllReply, Gone, OneReply};
use bsc_history::{Counts, Refusal};
use bsc_lines::Denial;
use bsc_octets::Identity;

/// What a call of a hub that made an entry asked, and what it was told.
#[derive(Clone, Copy)]
pub enum Made<'a> {
    /// A connect that joined.
    Joined {
        who: Identity,
        conn: u64,
        replaced: Option<u64>,
    },
    /// A connect that was refused.
    Refused {
        who: Identity,
        refusal: Refusal,
    },
    /// A unicast, with the message as it came.
    One {
        conn: u64,
        message: &'a [u8],
        said: OneReply,
    },
    /// A broadcast, with the message as it came.
    All {
        conn: u64,
        message: &'a [u8],
        said: &'a AllReply,
    },
    /// A leave.
    Left {
        conn: u64,
        empties: u64,
        gone: Gone,
    },
    /// The stop.
    Stopped(Counts),
}

/// What is noted: the entry of a caller, with its place in the history, counted from 0; or what a policy denied.
#[derive(Clone, Copy)]
pub enum Noted<'a> {
    Entry {
        at: u64,
        caller: u64,
        made: Made<'a>,
    },
    Denied(Denial),
}
