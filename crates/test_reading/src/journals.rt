//! A journal of every kind of call and of reply, as `examples/everycall.journal` has it: its lines are read and written again,
//! and its octets come in pieces.
use bsc_audit::{AuditEnd, FilesEnd, MemPieces, audit, audit_files};
use bsc_journal::{JournalRecord, entry_line, read_said};
use bsc_octets::{NoMemory, Octets};
use bsc_outside::MemSource;
use std::alloc::Global;
use std::test::*;

/// Each kind of call and of reply, from seven callers, and a line of what was denied.
const EVERY_CALL: &str = concat!(
    "hub 0200000000FF 00112233445566778899AABBCCDDEEFF 0640 05D9 3 2 4503599627370496\n",
    "18 0 stop counts joined=4 replaced=1 refused=3 unicasts=5 broadcasts=2 appended=2 dropped=5 full=1 m",
    "issed=1\n",
    "0 1 connect 02000000000AAAAAAAAAAAAAAAAAAAAAAAAAAAAAAAAA064005D9 joined 1\n",
    "2 1 forward 1 0104000102000000000B0100 looks 2:0 sent 2\n",
    "3 1 forward 1 01040002FFFFFFFFFFFF0100 looks 2:0 sentall to=2 missed=- skipped=-\n",
    "5 1 forward 1 01040003FFFFFFFFFFFF010000000000000000000000000000000000000000000000000000000000000000",
    "000000000000000000000000000000000000000000000000 looks 2:0 sentall to=- missed=2 skipped=3\n",
    "6 1 forward 1 0104000402000000000C010000000000000000000000000000000000000000000000000000000000000000",
    "000000000000000000000000000000000000000000000000 looks - long 3\n",
    "7 1 forward 1 0104000502000000000D0100 looks - noholder\n",
    "11 1 forward 1 0104000602000000000B0100 looks 2:0 full 2\n",
    "15 1 leave 1 0 3 gone replaced 0\n",
    "1 2 connect 02000000000BBBBBBBBBBBBBBBBBBBBBBBBBBBBBBBBB064005D9 joined 2\n",
    "12 2 forward 2 0104000102000000000A0100 looks - notcurrent full\n",
    "13 2 leave 2 2 1 gone full 2\n",
    "4 3 connect 02000000000CCCCCCCCCCCCCCCCCCCCCCCCCCCCCCCCC00400001 joined 3\n",
    "16 3 leave 3 0 0 gone left 0\n",
    "deny 3 rule 0\n",
    "8 4 connect 02000000000ADDDDDDDDDDDDDDDDDDDDDDDDDDDDDDDD064005D9 duplicate 1\n",
    "9 4 connect 0200000000FFDDDDDDDDDDDDDDDDDDDDDDDDDDDDDDDD064005D9 duplicate hub\n",
    "10 4 connect 02000000000DDDDDDDDDDDDDDDDDDDDDDDDDDDDDDDDD064005D9 tablefull 3\n",
    "14 5 connect 02000000000AAAAAAAAAAAAAAAAAAAAAAAAAAAAAAAAA064005D9 joined 4 replacing 1\n",
    "19 5 forward 4 0104000102000000000B0100 looks - stopped\n",
    "21 5 leave 4 0 0 gone stopped 0\n",
    "17 6 count counts joined=4 replaced=1 refused=3 unicasts=5 broadcasts=2 appended=2 dropped=5 full=1 ",
    "missed=1\n",
    "20 6 connect 02000000000DDDDDDDDDDDDDDDDDDDDDDDDDDDDDDDDD064005D9 stopped\n",
    "22 6 count counts joined=4 replaced=1 refused=4 unicasts=6 broadcasts=2 appended=2 dropped=6 full=1 ",
    "missed=1\n",
);

#[test]
fn lines_are_read_back(rt: HostRuntime) -> Result<(), NoMemory> {
    for line in EVERY_CALL.lines() {
        let octets = line.as_bytes();
        match read_said(rt.alloc(), octets)? {
            Some(JournalRecord::Hub(_)) => assert!(rt; line.starts_with("hub")),
            Some(JournalRecord::Denial) => assert!(rt; line.starts_with("deny")),
            Some(JournalRecord::Entry { place, entry }) => {
                let written = entry_line(rt.alloc(), place, &entry)?;
                assert!(rt; written.as_slice() == octets, "{line}");
            }
            None => assert!(rt; false, "{line}"),
        }
    }
    Ok(())
}

#[test]
fn octets_come_in_pieces(rt: HostRuntime) {
    for most in [1, 7, 100] {
        let mut source = MemSource::in_pieces(EVERY_CALL.as_bytes(), most, &[]);
        assert!(rt;
            audit(rt.alloc(), &mut source) == AuditEnd::Legal { entries: 23 },
            "by {most}"
        );
    }
    // The second read would find the end.
    for failing in [[1_u64], [2]] {
        let mut source = MemSource::new(EVERY_CALL.as_bytes(), &failing);
        assert!(rt; audit(rt.alloc(), &mut source) == AuditEnd::ReadFault);
    }
}

/// The lines of one caller of that journal, whose number has one digit. The hub line, and what was denied, are caller 0's. The last
/// line has no end.
fn lines_by(alloc: Global, caller: &str) -> Result<Octets, NoMemory> {
    let mut octets = Vec::new(alloc);
    for line in EVERY_CALL.lines() {
        let own = match line.split_once(' ') {
            Some((first, rest)) => {
                if first == "hub" || first == "deny" {
                    caller == "0"
                } else {
                    rest.starts_with(caller)
                }
            }
            None => false,
        };
        if own {
            if !octets.is_empty() {
                octets.extend_from_slice(b"\n")?;
            }
            octets.extend_from_slice(line.as_bytes())?;
        }
    }
    Ok(Octets::from_vec(octets))
}

/// A file for each of the seven callers.
fn seven_files(alloc: Global) -> Result<Vec<Octets>, NoMemory> {
    let mut files = Vec::new(alloc);
    for caller in ["0", "1", "2", "3", "4", "5", "6"] {
        files.push(lines_by(alloc, caller)?)?;
    }
    Ok(files)
}

#[test]
fn files_are_merged(rt: HostRuntime) -> Result<(), NoMemory> {
    let whole = FilesEnd::Legal {
        entries: 23,
        files: 7,
    };
    for most in [1, 7, 5000] {
        let mut files = MemPieces::new(seven_files(rt.alloc())?, most, &[]);
        assert!(rt;
            audit_files(rt.alloc(), &mut files, 7) == whole,
            "by {most}"
        );
    }
    // Without the last file a place is missing, and without the first there is no hub line.
    let mut files = MemPieces::new(seven_files(rt.alloc())?, 5000, &[]);
    assert!(rt; audit_files(rt.alloc(), &mut files, 6) == FilesEnd::Missing { place: 17 });
    let mut files = MemPieces::new(Vec::new(rt.alloc()), 5000, &[]);
    assert!(rt; audit_files(rt.alloc(), &mut files, 0) == FilesEnd::Hubs { lines: 0 });
    // A file that isn't there can't be read, nor can the first where that read fails.
    let mut files = MemPieces::new(seven_files(rt.alloc())?, 5000, &[]);
    assert!(rt; audit_files(rt.alloc(), &mut files, 8) == FilesEnd::ReadFault { file: 7 });
    let failing = [1_u64];
    let mut files = MemPieces::new(seven_files(rt.alloc())?, 5000, &failing);
    assert!(rt; audit_files(rt.alloc(), &mut files, 7) == FilesEnd::ReadFault { file: 0 });
    Ok(())
}
