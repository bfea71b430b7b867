//! The errors say what they are.
use bsc_history::{AlreadyStopped, Worn};
use std::test::Fail;

#[test]
fn errors_say_how_far_the_hub_came(rt: HostRuntime) -> Result<(), Fail> {
    let mut text = String::new(rt.alloc());
    write!(text, "{}; {}", Worn { calls: 3 }, AlreadyStopped { at: 2 })?;
    assert_eq!(rt;
        text.as_str(),
        "the hub has made 3 calls, as many as it may; the hub has been stopped already, by entry 2"
    );
    Ok(())
}
