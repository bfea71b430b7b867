//! What is kept of a long input, and what is said of a line in it.
use bsc_octets::NoMemory;
use bsc_outside::Source;
use bsc_why::{Format, KeptSource, Seen, why_line};
use std::process::Abort;
use std::test::*;

/// The newest part is kept, from the beginning of a line on.
#[test]
fn the_newest_part_is_kept(rt: HostRuntime) -> Result<(), NoMemory> {
    let alloc = rt.alloc();
    let mut input = Vec::new(alloc);
    for _ in 0..200_000 {
        input.extend_from_slice(b"open A\n")?;
    }
    let mut source = KeptSource::new(alloc, input.as_slice());
    let mut into = [0; 4096];
    let mut given = source.read(&mut into).unwrap_or(0);
    assert!(rt; given == 4096 && source.kept().is_whole() && !source.kept().has_ended());
    for _ in 0..400 {
        given = given.saturating_add(source.read(&mut into).unwrap_or(0));
    }
    assert_eq!(rt; given, 1_400_000);
    assert!(rt; !source.kept().is_whole() && source.kept().has_ended());
    assert!(rt; source.error().is_none());
    let text = source.kept().text(alloc)?;
    assert!(rt; text.len() > 524_288 - 7 && text.len() < 1_100_000);
    assert!(rt; text.as_slice().starts_with(b"open A\n") && text.as_slice().ends_with(b"open A\n"));
    Ok(())
}

/// The last part of a long input, with whether the input ended behind it, and what is said of its refused line.
const TAILS: [(&str, bool, &str); 4] = [
    (
        "hub connected 1600\nhub joined 1600\nhub connected 16",
        false,
        "\"joined\" is no phase: request, accept, connected and disconnecting are",
    ),
    (
        "hub connected 1600\nhub joi",
        true,
        "a word is missing: its form is `PLACE PHASE MAX OCTETS`",
    ),
    (
        "hub connected 1600\nhub joi",
        false,
        "it has the form of a line, but may not stand behind the lines before it",
    ),
    (
        "",
        true,
        "it has the form of a line, but may not stand behind the lines before it",
    ),
];

#[test]
fn looks_for_the_line_in_what_is_left(rt: HostRuntime) -> Result<(), NoMemory> {
    for (text, has_ended, wanted) in &TAILS {
        let seen = Seen {
            text: text.as_bytes(),
            is_whole: false,
            has_ended: *has_ended,
        };
        let why = why_line(rt.alloc(), Format::Question, seen, 90_000);
        let said = format!(in rt.alloc(); "{why}")?;
        assert!(rt; said.as_str() == *wanted, "{text}: {said}");
    }
    Ok(())
}
