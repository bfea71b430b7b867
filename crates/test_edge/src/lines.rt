//! The text of a line.
use bsc_log::{Cause, JoinRefusal, Limited, Line, LogEvent, Nak, Turning, stamp_of};
use bsc_octets::{NoMemory, read_identity};
use std::alloc::Global;
use std::process::Abort;
use std::test::*;
use std::time::Duration;

/// Instants in milliseconds of 1970, as Python's `datetime` has them.
const STAMPS: [(u64, &str); 9] = [
    (0, "1970-01-01T00:00:00.000Z"),
    (946_684_799_999, "1999-12-31T23:59:59.999Z"),
    (951_825_600_000, "2000-02-29T12:00:00.000Z"),
    (1_709_251_199_001, "2024-02-29T23:59:59.001Z"),
    (1_795_928_601_123, "2026-11-29T05:03:21.123Z"),
    (2_147_483_648_500, "2038-01-19T03:14:08.500Z"),
    (4_107_542_400_010, "2100-03-01T00:00:00.010Z"),
    (253_402_300_799_999, "9999-12-31T23:59:59.999Z"),
    // Past the calendar's last day, that day is told.
    (u64::MAX, "9999-12-31T14:25:51.615Z"),
];

#[test]
fn stamps_are_those_of_the_calendar(rt: HostRuntime) {
    for (millis, wanted) in STAMPS {
        let stamp = stamp_of(Duration::from_millis(millis));
        assert!(rt; stamp.as_str() == wanted, "{millis}");
    }
}

/// Who asked to join: the octets of an identity.
const WHO: [u8; 26] = [
    2, 0, 0xAB, 0xCD, 0xEF, 9, 0x01, 0x23, 0x45, 0x67, 0x89, 0xAB, 0xCD, 0xEF, 0x01, 0x23, 0x45,
    0x67, 0x89, 0xAB, 0xCD, 0xEF, 6, 64, 5, 217,
];

/// What a line tells, the number of its connection, whether its link has asked to join, its word, and what stands behind that.
type Row<'a> = (LogEvent, Option<u64>, bool, &'a str, &'a str);

const LINES: [Row<'static>; 15] = [
    (
        LogEvent::Joined,
        Some(12),
        true,
        "joined",
        "link 3 connection 12 vmac 0200ABCDEF09 device 01234567-89ab-cdef-0123-456789abcdef received 1 sent 20 cause -",
    ),
    (
        LogEvent::TookOver(7),
        Some(12),
        true,
        "takeover",
        "link 3 connection 12 vmac 0200ABCDEF09 device 01234567-89ab-cdef-0123-456789abcdef received 1 sent 20 cause took over connection 7",
    ),
    (
        LogEvent::Refused(JoinRefusal::DuplicateVmac),
        None,
        true,
        "refused",
        "link 3 connection - vmac 0200ABCDEF09 device 01234567-89ab-cdef-0123-456789abcdef received 1 sent 20 cause duplicate vmac",
    ),
    (
        LogEvent::Refused(JoinRefusal::TableFull),
        None,
        true,
        "refused",
        "link 3 connection - vmac 0200ABCDEF09 device 01234567-89ab-cdef-0123-456789abcdef received 1 sent 20 cause table full",
    ),
    (
        LogEvent::Denied,
        None,
        true,
        "denied",
        "link 3 connection - vmac 0200ABCDEF09 device 01234567-89ab-cdef-0123-456789abcdef received 1 sent 20 cause policy",
    ),
    (
        LogEvent::Ended(Cause::PeerLeft),
        Some(18_446_744_073_709_551_615),
        true,
        "ended",
        "link 3 connection 18446744073709551615 vmac 0200ABCDEF09 device 01234567-89ab-cdef-0123-456789abcdef received 1 sent 20 cause peer left",
    ),
    (
        LogEvent::Ended(Cause::ConnectWait),
        None,
        false,
        "ended",
        "link 3 connection - vmac - device - received 1 sent 20 cause connect wait",
    ),
    (
        LogEvent::NoSession,
        None,
        false,
        "unserved",
        "link 3 connection - vmac - device - received 1 sent 20 cause no session",
    ),
    (
        LogEvent::Nak(Nak {
            marker: 0x42,
            class: 7,
            code: 146,
        }),
        None,
        false,
        "nak",
        "link 3 connection - vmac - device - received 1 sent 20 cause class 7 code 146 marker 66 HEADER_NOT_UNDERSTOOD of C9",
    ),
    (
        LogEvent::Nak(Nak {
            marker: 0,
            class: 65_535,
            code: 65_535,
        }),
        None,
        true,
        "nak",
        "link 3 connection - vmac 0200ABCDEF09 device 01234567-89ab-cdef-0123-456789abcdef received 1 sent 20 cause class 65535 code 65535 marker 0 other",
    ),
    (
        LogEvent::LeftOut(Limited::Naks, 37),
        None,
        true,
        "nak",
        "link 3 connection - vmac 0200ABCDEF09 device 01234567-89ab-cdef-0123-456789abcdef received 1 sent 20 cause left out 37",
    ),
    (
        LogEvent::LeftOut(Limited::Denials, 1),
        None,
        false,
        "denied",
        "link 3 connection - vmac - device - received 1 sent 20 cause left out 1",
    ),
    (
        LogEvent::Turned(Turning::NoProtocol),
        None,
        false,
        "turned",
        "link - connection - vmac - device - received 1 sent 20 cause no sub-protocol",
    ),
    (
        LogEvent::Turned(Turning::NoDescriptor),
        None,
        false,
        "turned",
        "link - connection - vmac - device - received 1 sent 20 cause no descriptor",
    ),
    (
        LogEvent::LeftOut(Limited::Turned(Turning::PushedOut), 247),
        None,
        false,
        "turned",
        "link - connection - vmac - device - received 1 sent 20 cause handshakes full, left out 247",
    ),
];

/// The word of the first of these whose line has another form, if there is one.
fn formed_otherwise<'a>(alloc: Global, rows: &[Row<'a>]) -> Result<Option<&'a str>, NoMemory> {
    for row in rows.iter() {
        let line = Line {
            stamp: stamp_of(Duration::from_millis(1_795_928_601_123)),
            event: row.0,
            link: if row.3 == "turned" { None } else { Some(3) },
            conn: row.1,
            who: if row.2 {
                Some(read_identity(&WHO))
            } else {
                None
            },
            received: 1,
            sent: 20,
        };
        let (word, rest) = (row.3, row.4);
        let wanted = format!(in alloc; "2026-11-29T05:03:21.123Z hub {word} {rest}")?;
        let mut text = Vec::new(alloc);
        line.put(&mut text)?;
        if text.as_slice() != wanted.as_bytes() {
            return Ok(Some(word));
        }
    }
    Ok(None)
}

#[test]
fn lines_have_one_form(rt: HostRuntime) -> Result<(), NoMemory> {
    match formed_otherwise(rt.alloc(), &LINES)? {
        Some(word) => panic!(rt; "{word}"),
        None => Ok(()),
    }
}
