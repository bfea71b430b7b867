//! The texts of errors.
use bsc_frame::{Check, FrameFault};
use bsc_octets::{EnvelopeFault, NoMemory};
use bsc_options::OptionsFault;
use std::test::*;

#[test]
fn texts(rt: HostRuntime) -> Result<(), Fail> {
    let text = format!(in rt.alloc();
        "{}; {}; {}; {}; {}; {}; {}; {}; {}",
        EnvelopeFault::Short,
        EnvelopeFault::Cut,
        NoMemory,
        OptionsFault::Cut,
        OptionsFault::BadKind,
        OptionsFault::BadShape,
        OptionsFault::NoMemory,
        FrameFault::Fails(Check::C10b),
        FrameFault::NoMemory
    )?;
    assert_eq!(rt;
        text.as_str(),
        "fewer than four octets; an announced address is cut; out of memory; a list of header options is cut; \
         a header option has type 0; a header option has data that its type does not have; out of memory; \
         the message fails C10b; out of memory"
    );
    Ok(())
}
