//! The server's handshake.
ghost use Rattle.std.specs.Prelude.{◌≡◌, IfOk};
ghost use Rattle.bsc_ws.specs.Handshakes.{IfDone, IfMore, IsFailedFor, IsUnmetBy, kind_of};
ghost use Rattle.bsc_ws.specs.Limits.{HasOurLimits};
ghost use Rattle.tungstenite.specs.Heads.{Heard};
ghost use Rattle.tungstenite.specs.Socket.{IsFresh};
ghost use Rattle.websocket.specs.declared.protocol.config.Role.TheVariants as Role;

use crate::bounds::limits;
use crate::handshake::{Handshake, HandshakeStep, Unmet};
use crate::head::Head;
use crate::kinds::OfKind;
use crate::protocol::Takes;
use crate::rounds::{Mid, Rounds};
use crate::stream_link::StreamLink;
use bsc_edge::{Kind, LinkFault, Patience};
use std::alloc::Global;
use std::io::{ErrorKind, Read, Write};
use std::marker::PhantomData;
use tungstenite::handshake::HandshakeError;
use tungstenite::handshake::server::start;
use tungstenite::{Error, MaskKeys, Role, WebSocket};

/// The greatest head that a server takes, in octets.
const GREATEST_HEAD: usize = 16_384;

/// The handshake of a server that takes links of this kind, of which nothing is done.
pub fn begin<T: Read + Write + Drop>(alloc: Global, stream: T, kind: Kind) -> Handshake<T>
    ensures { kind_of result.rounds ≡ kind }
{
    match kind {
        Kind::Hub => Handshake {
            rounds: Rounds::Hub(first(alloc, stream)),
        },
        Kind::Direct => Handshake {
            rounds: Rounds::Direct(first(alloc, stream)),
        },
    }
}

/// The handshake of a server that takes links of the kind `P`.
fn first<T: Read + Write + Drop, P: OfKind + Drop>(alloc: Global, stream: T) -> Mid<T, P> {
    start(
        alloc,
        Head::new(stream, GREATEST_HEAD),
        Takes {
            alloc,
            of: PhantomData,
        },
        Some(limits()),
    )
}

/// Why a handshake failed by this error; none where there was no memory. No read fails as invalid but that of a head that is too long.
fn unmet_by(error: Error) -> Option<Unmet>
    ensures { IsUnmetBy error result }
{
    match error {
        Error::OutOfMemory => None,
        Error::Refused(_) => Some(Unmet::NoProtocol),
        Error::Io(cause) => {
            if cause.kind() == ErrorKind::InvalidData {
                Some(Unmet::LongHead)
            } else {
                Some(Unmet::Other)
            }
        }
        _ => Some(Unmet::Other),
    }
}

/// Goes on with a handshake: its stream where it is done, and else what is left to do.
fn next<T: Read + Write + Drop, P: OfKind + Drop>(
    rounds: Mid<T, P>,
) -> Result<Result<T, Mid<T, P>>, Option<Unmet>>
    // Where it is done, a head was taken that asks for an upgrade with a valid key (RFC 6455, section 4.2.1).
    ensures { IfOk result (λ r. IfOk r (λ _. Heard)) }
{
    match rounds.handshake() {
        // No octet is lost: a head with octets behind it is refused.
        Ok(socket) => Ok(Ok(socket.into_inner().into_inner())),
        Err(HandshakeError::Interrupted(rounds)) => Ok(Err(rounds)),
        Err(HandshakeError::Failure(error)) => Err(unmet_by(error)),
    }
}

/// What a handshake comes to that failed for this, or for want of memory.
fn failed<T: Read + Write + Drop>(why: Option<Unmet>) -> HandshakeStep<T>
    ensures more { IfMore result (λ _. ⊥) }
    ensures done { IfDone result (λ _. ⊥) }
    ensures failed { IsFailedFor why result }
{
    match why {
        None => HandshakeStep::NoMemory,
        Some(unmet) => HandshakeStep::Refused(unmet),
    }
}

impl<T: Read + Write + Drop> Handshake<T> {
    /// The stream.
    pub fn stream(&mut self) -> &mut T {
        match &mut self.rounds {
            Rounds::Hub(rounds) => rounds.get_mut().stream(),
            Rounds::Direct(rounds) => rounds.get_mut().stream(),
        }
    }

    /// Goes on until it is done or the stream would block.
    pub fn go_on(self) -> HandshakeStep<T>
        // It takes links of the kind that it was begun for, however often it goes on.
        ensures more { IfMore result (λ h. kind_of h.rounds ≡ kind_of self.rounds) }
        ensures kind { IfDone result (λ kind. kind ≡ kind_of self.rounds) }
        // A link was asked for: a head was taken that asks for an upgrade with a valid key.
        ensures heard { IfDone result (λ _. Heard) }
    {
        let Handshake { rounds } = self;
        match rounds {
            Rounds::Hub(rounds) => match next(rounds) {
                Ok(Ok(stream)) => HandshakeStep::Done(stream, Kind::Hub),
                Ok(Err(rounds)) => HandshakeStep::More(Handshake {
                    rounds: Rounds::Hub(rounds),
                }),
                Err(fault) => failed(fault),
            },
            Rounds::Direct(rounds) => match next(rounds) {
                Ok(Ok(stream)) => HandshakeStep::Done(stream, Kind::Direct),
                Ok(Err(rounds)) => HandshakeStep::More(Handshake {
                    rounds: Rounds::Direct(rounds),
                }),
                Err(fault) => failed(fault),
            },
        }
    }
}

/// The server's link of this kind over a stream whose handshake is done. It draws no keys. Nothing but a handshake that is done
/// shows that a head was taken.
pub fn settle<T: Read + Write + Drop, W: Patience + Drop, K: MaskKeys + Drop>(
    alloc: Global,
    stream: T,
    wait: W,
    keys: K,
    kind: Kind,
) -> StreamLink<T, W, K>
    requires { Heard }
    ensures fresh { IsFresh result.socket stream Role.Server }
    ensures limits { HasOurLimits result.socket.conn.config.max_message_size result.socket.conn.config.max_frame_size
        result.socket.conn.config.accept_unmasked_frames }
    ensures wait { result.wait ≡ wait }
    ensures kind { result.kind ≡ kind }
    ensures faults { result.faults ≡ 0 }
    ensures quiets { result.quiets ≡ 0 }
{
    let socket = WebSocket::from_raw_socket(alloc, stream, keys, Role::Server, Some(limits()));
    StreamLink::over(socket, wait, kind)
}

/// The link of the peer that speaks first on this stream, whose reads wait. It takes the sub-protocol of its kind alone,
/// and a head of 16,384 octets at most. Fails where the stream would block once.
pub fn accept<T: Read + Write + Drop, W: Patience + Drop, K: MaskKeys + Drop>(
    alloc: Global,
    stream: T,
    wait: W,
    keys: K,
    kind: Kind,
) -> Result<StreamLink<T, W, K>, LinkFault>
    // A link was asked for: a head was taken that asks for an upgrade with a valid key.
    ensures heard { IfOk result (λ _. Heard) }
    ensures kind { IfOk result (λ l. l.kind ≡ kind) }
    ensures fresh { IfOk result (λ l. IsFresh l.socket l.socket.stream Role.Server) }
    ensures limits { IfOk result (λ l. HasOurLimits l.socket.conn.config.max_message_size l.socket.conn.config.max_frame_size
        l.socket.conn.config.accept_unmasked_frames) }
    ensures wait { IfOk result (λ l. l.wait ≡ wait) }
    ensures faults { IfOk result (λ l. l.faults ≡ 0) }
    ensures quiets { IfOk result (λ l. l.quiets ≡ 0) }
{
    match begin(alloc, stream, kind).go_on() {
        HandshakeStep::Done(stream, kind) => Ok(settle(alloc, stream, wait, keys, kind)),
        HandshakeStep::NoMemory => Err(LinkFault::NoMemory),
        HandshakeStep::More(_) => Err(LinkFault::Failed),
        HandshakeStep::Refused(_) => Err(LinkFault::Failed),
    }
}
