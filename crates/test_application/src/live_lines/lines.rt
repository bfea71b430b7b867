//! What lines ask, which are refused, and what a call without memory leaves.
use bsc_application::Application;
use bsc_input::{Cutter, MemInbox, Taken};
use bsc_live_lines::{LiveLines, MemRefusals};
use bsc_node::NodeEvent;
use bsc_octets::{NoMemory, Octets};
use std::alloc::Global;
use std::test::Fail;

fn line(alloc: Global, text: &str) -> Result<Taken, NoMemory> {
    Ok(Taken::Line(Octets::from_vec(Vec::from_slice(alloc, text.as_bytes())?)))
}

/// What comes: good lines, some that are refused, a pause, and the end of the input twice.
fn coming(alloc: Global) -> Result<Vec<Taken>, NoMemory> {
    let mut taken = Vec::new(alloc);
    for text in [
        "resolve 02000000000B",
        "# a comment",
        "at 500",
        "nonsense",
        "",
    ] {
        taken.push(line(alloc, text)?)?;
    }
    taken.push(Taken::Nothing)?;
    for text in ["solicit 02000000000B", "finish", "direct 02000000000B"] {
        taken.push(line(alloc, text)?)?;
    }
    taken.push(Taken::End)?;
    taken.push(Taken::End)?;
    Ok(taken)
}

#[test]
fn asks_and_refuses(rt: HostRuntime) -> Result<(), Fail> {
    let alloc = rt.alloc();
    let mut lines = LiveLines::new(MemInbox::new(coming(alloc)?), MemRefusals::new(alloc));
    assert!(rt; matches!(lines.next(alloc)?, Some(NodeEvent::Resolve(_))));
    assert!(rt; lines.next(alloc)?.is_none());
    assert!(rt; matches!(lines.next(alloc)?, Some(NodeEvent::Solicit(_))));
    assert!(rt; matches!(lines.next(alloc)?, Some(NodeEvent::Finish)));
    assert!(rt; lines.next(alloc)?.is_none());
    assert!(rt; lines.next(alloc)?.is_none());
    let refused = lines.teller().kept();
    assert!(rt; refused.len() == 3);
    assert!(rt; refused[0].number == 3 && !refused[0].has_finished);
    assert!(rt; refused[1].number == 4 && refused[1].text.as_slice() == b"nonsense".as_slice());
    assert!(rt; refused[2].number == 8 && refused[2].has_finished);
    Ok(())
}

#[test]
fn ends_once(rt: HostRuntime) -> Result<(), Fail> {
    let alloc = rt.alloc();
    let mut taken = Vec::new(alloc);
    taken.push(Taken::End)?;
    taken.push(Taken::End)?;
    let mut lines = LiveLines::new(MemInbox::new(taken), MemRefusals::new(alloc));
    assert!(rt; matches!(lines.next(alloc)?, Some(NodeEvent::Finish)));
    assert!(rt; lines.next(alloc)?.is_none());
    assert!(rt; lines.next(alloc)?.is_none());
    Ok(())
}

#[test]
fn cuts_lines(rt: HostRuntime) -> Result<(), Fail> {
    let alloc = rt.alloc();
    let mut cutter = Cutter::new(alloc);
    assert!(rt; cutter.octet(alloc, b'a')?.is_none());
    assert!(rt; cutter.octet(alloc, b'\r')?.is_none());
    let line = cutter.octet(alloc, b'\n')?;
    assert!(rt; line.is_some());
    if let Some(line) = line {
        assert!(rt; line.as_slice() == b"a".as_slice());
    }
    assert!(rt; cutter.octet(alloc, b'b')?.is_none());
    let last = cutter.end();
    assert!(rt; last.is_some());
    if let Some(last) = last {
        assert!(rt; last.as_slice() == b"b".as_slice());
    }
    Ok(())
}
