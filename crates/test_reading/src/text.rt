//! A fault in mid-line.
use bsc_octets::NoMemory;
use bsc_outside::MemSource;
use bsc_text::{Feed, NextLine};
use std::process::Abort;
use std::test::*;

#[test]
fn goes_on_after_a_fault(rt: HostRuntime) -> Result<(), NoMemory> {
    let mut feed = Feed::make(rt.alloc())?;
    let mut source = MemSource::in_pieces(b"open A\n", 4, &[2]);
    assert!(rt; feed.fill(&mut source).is_ok());
    let NextLine::More = feed.next_line(Vec::new(rt.alloc())) else {
        assert!(rt; false);
        return Ok(());
    };
    match feed.fill(&mut source) {
        Ok(()) => assert!(rt; false),
        Err(_) => {
            assert!(rt; feed.fill(&mut source).is_ok());
            match feed.next_line(Vec::new(rt.alloc())) {
                NextLine::Line(line) => assert!(rt; line.as_slice() == b"open A".as_slice()),
                _ => assert!(rt; false),
            }
        }
    }
    Ok(())
}
