//! The words for what a line tells.
ghost use Rattle.std.specs.Prelude.{◌≡◌};
ghost use Rattle.bsc_log.specs.Words.{cause_text, code_text, refusal_text, turning_text, word_of};

use crate::log_event::{Cause, JoinRefusal, Limited, LogEvent, Turning};
use crate::nak::Nak;
use bsc_octets::results;

impl LogEvent {
    /// The word for what became of a link.
    pub fn word(self) -> &'static str
        ensures { result.now ≡ word_of self }
    {
        match self {
            LogEvent::Joined => "joined",
            LogEvent::TookOver(_) => "takeover",
            LogEvent::Refused(_) => "refused",
            LogEvent::Denied | LogEvent::LeftOut(Limited::Denials, _) => "denied",
            LogEvent::Ended(_) => "ended",
            LogEvent::NoSession => "unserved",
            LogEvent::Nak(_) | LogEvent::LeftOut(Limited::Naks, _) => "nak",
            LogEvent::Turned(_) | LogEvent::LeftOut(Limited::Turned(_), _) => "turned",
        }
    }
}

impl JoinRefusal {
    /// Why a device was refused.
    pub fn text(self) -> &'static str
        ensures { result.now ≡ refusal_text self }
    {
        match self {
            JoinRefusal::DuplicateVmac => "duplicate vmac",
            JoinRefusal::TableFull => "table full",
            JoinRefusal::Stopped => "stopped",
        }
    }
}

impl Turning {
    /// Why a stream was turned away.
    pub fn text(self) -> &'static str
        ensures { result.now ≡ turning_text self }
    {
        match self {
            Turning::NoProtocol => "no sub-protocol",
            Turning::Late => "too late",
            Turning::LongHead => "head too long",
            Turning::NoDescriptor => "no descriptor",
            Turning::PushedOut => "handshakes full",
            Turning::NoMemory => "no memory",
            Turning::Failed => "no handshake",
        }
    }
}

impl Cause {
    /// Why a link ended.
    pub fn text(self) -> &'static str
        ensures { result.now ≡ cause_text self }
    {
        match self {
            Cause::PeerClosed => "peer closed",
            Cause::PeerLeft => "peer left",
            Cause::TextMessage => "text message",
            Cause::ConnectWait => "connect wait",
            Cause::Idle => "idle",
            Cause::OutboxFull => "outbox full",
            Cause::Replaced => "replaced",
            Cause::Disconnected => "disconnected",
            Cause::HubWorn => "hub worn",
            Cause::JournalFault => "journal fault",
            Cause::LinkFault => "link fault",
            Cause::NoMemory => "no memory",
            Cause::Spent => "spent",
            Cause::Other => "other",
        }
    }
}

impl Nak {
    /// The name of its error code, and which checks of a Connect-Request have it.
    pub fn text(self) -> &'static str
        ensures { result.now ≡ code_text self.code }
    {
        match self.code {
            results::HEADER_ENCODING_ERROR => "HEADER_ENCODING_ERROR of C5, C7b or C8",
            results::HEADER_NOT_UNDERSTOOD => "HEADER_NOT_UNDERSTOOD of C9",
            results::MESSAGE_INCOMPLETE => "MESSAGE_INCOMPLETE of C7 or C10b",
            results::PAYLOAD_EXPECTED => "PAYLOAD_EXPECTED of C10",
            results::UNEXPECTED_DATA => "UNEXPECTED_DATA of C10c",
            results::PARAMETER_OUT_OF_RANGE => "PARAMETER_OUT_OF_RANGE of C11",
            results::NODE_DUPLICATE_VMAC => "NODE_DUPLICATE_VMAC",
            _ => "other",
        }
    }
}
