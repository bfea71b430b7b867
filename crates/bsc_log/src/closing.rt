//! What a closing says of a link.
ghost use Rattle.std.specs.Prelude.{◌≡◌};
ghost use Rattle.bsc_log.specs.Causes.{at_code, by_code, closed, closed_at, left, parted, peer_closed_at, unjoined, unjoined_by_code};

use crate::log_event::{Cause, JoinRefusal, LogEvent};
use crate::stage::Stage;
use bsc_accept::Reason;

/// The first event where the close code is this one, and else the other.
fn at_code(own: u16, code: u16, event: LogEvent, other: LogEvent) -> LogEvent
    ensures { result ≡ at_code own code event other }
{
    if code == own { event } else { other }
}

/// What a closing without a reason says.
fn by_code(code: u16) -> LogEvent
    ensures { result ≡ by_code code }
{
    match code {
        1000 => LogEvent::Ended(Cause::PeerLeft),
        1001 => LogEvent::Ended(Cause::Spent),
        1003 => LogEvent::Ended(Cause::TextMessage),
        1011 => LogEvent::Ended(Cause::JournalFault),
        _ => LogEvent::Ended(Cause::Other),
    }
}

/// What a closing says of a link that has joined.
fn closed(code: u16, reason: Option<Reason>) -> LogEvent
    ensures { result ≡ closed code reason }
{
    let other = LogEvent::Ended(Cause::Other);
    match reason {
        Some(Reason::Nothing) => by_code(code),
        Some(Reason::ConnectWait) => at_code(
            1008,
            code,
            LogEvent::Ended(Cause::ConnectWait),
            other,
        ),
        Some(Reason::Idle) => at_code(1008, code, LogEvent::Ended(Cause::Idle), other),
        Some(Reason::OutboxFull) => at_code(1008, code, LogEvent::Ended(Cause::OutboxFull), other),
        Some(Reason::HubWorn) => at_code(1008, code, LogEvent::Ended(Cause::HubWorn), other),
        Some(Reason::NoMemory) => at_code(1011, code, LogEvent::Ended(Cause::NoMemory), other),
        Some(Reason::TableFull) | Some(Reason::WrongPeer) | Some(Reason::Policy) | None => other,
    }
}

/// What a closing without a reason says of a link that hasn't joined, of which a Connect-Request waits for its answer or not.
fn unjoined_by_code(code: u16, has_asked: bool) -> LogEvent
    ensures { result ≡ unjoined_by_code code has_asked }
{
    if code == 1000 {
        return LogEvent::Refused(JoinRefusal::DuplicateVmac);
    }
    if code == 1001 && has_asked {
        return LogEvent::Refused(JoinRefusal::Stopped);
    }
    by_code(code)
}

/// What a closing says of a link that hasn't joined.
fn unjoined(code: u16, reason: Option<Reason>, has_asked: bool) -> LogEvent
    ensures { result ≡ unjoined code reason has_asked }
{
    let other = LogEvent::Ended(Cause::Other);
    match reason {
        Some(Reason::Nothing) => unjoined_by_code(code, has_asked),
        Some(Reason::TableFull) => at_code(
            1008,
            code,
            LogEvent::Refused(JoinRefusal::TableFull),
            other,
        ),
        Some(Reason::Policy) => at_code(1008, code, LogEvent::Denied, other),
        Some(Reason::HubWorn)
        | Some(Reason::ConnectWait)
        | Some(Reason::Idle)
        | Some(Reason::OutboxFull)
        | Some(Reason::NoMemory)
        | Some(Reason::WrongPeer)
        | None => closed(code, reason),
    }
}

/// The end of a link that the hub asked to leave, where nothing failed.
fn parted(is_taken: bool) -> LogEvent
    ensures { result ≡ parted is_taken }
{
    if is_taken {
        LogEvent::Ended(Cause::Replaced)
    } else {
        LogEvent::Ended(Cause::Disconnected)
    }
}

/// What a closing says of a link that the hub asked to leave.
fn left(code: u16, reason: Option<Reason>, is_taken: bool) -> LogEvent
    ensures { result ≡ left code reason is_taken }
{
    if code == 1001 || code == 1011 {
        closed(code, reason)
    } else {
        parted(is_taken)
    }
}

/// What a closing says of a link that is so far.
pub(crate) fn closed_at(stage: Stage, code: u16, reason: Option<Reason>, is_taken: bool) -> LogEvent
    ensures { result ≡ closed_at stage code reason is_taken }
{
    match stage {
        Stage::Silent => LogEvent::NoSession,
        Stage::Waiting => unjoined(code, reason, false),
        Stage::Asked => unjoined(code, reason, true),
        Stage::Leaving => left(code, reason, is_taken),
        Stage::Introduced | Stage::Joined | Stage::Over => closed(code, reason),
    }
}

/// What it says of a link that is so far that its peer closed it.
pub(crate) fn peer_closed_at(stage: Stage, is_taken: bool) -> LogEvent
    ensures { result ≡ peer_closed_at stage is_taken }
{
    match stage {
        Stage::Leaving => parted(is_taken),
        Stage::Silent
        | Stage::Waiting
        | Stage::Asked
        | Stage::Introduced
        | Stage::Joined
        | Stage::Over => LogEvent::Ended(Cause::PeerClosed),
    }
}
