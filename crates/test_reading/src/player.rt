//! Inputs of the small language with the texts that they come to.
mod echo;
mod rows;

use crate::player::echo::Echo;
use crate::player::rows::CASES;
use bsc_octets::NoMemory;
use bsc_outside::{MemSink, MemSource};
use bsc_player::play_lines;
use std::process::Abort;
use std::test::*;

#[test]
fn plays(rt: HostRuntime) -> Result<(), NoMemory> {
    for case in &CASES {
        let mut sink = MemSink::make(rt.alloc(), case.room, case.writes)?;
        let mut source = MemSource::in_pieces(case.input.as_bytes(), case.most.max(1), case.reads);
        let mut language = Echo { begun: false };
        let end = play_lines(rt.alloc(), &mut language, &mut source, &mut sink);
        let what = (case.input, case.reads, case.writes);
        assert!(rt;
            end == case.end && sink.held() == case.text.as_bytes(),
            "{what:?}"
        );
    }
    Ok(())
}
