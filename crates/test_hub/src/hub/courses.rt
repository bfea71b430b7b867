//! Courses of four threads on one hub. Two take over from each other at one address until the hub is stopped, and two send to it
//! meanwhile: the frames that came at each connection are, octet by octet, the unicasts that were told as appended there, in the
//! order of the places of their entries, and the hub has made as many calls as all of them together. In a storm the two that take
//! over leave again at once: no frame comes twice, whoever took it. And four that connect and leave again and again, each at its
//! own address, are all counted.
use super::threads::{Note, RECEIVERS, Task, What, run_new};
use std::test::Fail;

/// Whether the frames that came are the unicasts that were told as appended, and no other, of notes in the order of
/// their connections and places.
fn are_as_sent(notes: &[Note]) -> bool {
    let mut all_sent = notes.iter().filter(|note| note.what == What::Sent);
    for came in notes.iter().filter(|note| note.what == What::Came) {
        match all_sent.next() {
            Some(sent) => if came.conn != sent.conn
                || came.from != sent.from
                || came.id != sent.id
            {
                return false;
            },
            None => return false,
        }
    }
    all_sent.next().is_none()
}

#[test]
fn all_that_was_appended_comes(rt: HostRuntime) -> Result<(), Fail> {
    let stay = Task::Stay {
        last: RECEIVERS,
        rounds: u32::MAX,
        waits: true,
    };
    let send = |from: u8| Task::Send {
        from,
        count: 500,
        insists: true,
    };
    let (hub, done) = run_new(&rt, rt.alloc(), (stay, stay), (send(1), send(2)), true)?;
    let mut pass = done.pass;
    let mut notes = done.notes;
    let Ok(counts) = hub.counts(&rt, &mut pass) else {
        panic!(rt; "the hub is worn");
    };
    assert_eq!(rt; counts.at, done.calls);
    assert!(rt; counts.said.replaced > 0 && counts.said.appended == 1_000);
    assert_eq!(rt; notes.len(), 2_000);
    notes.sort_unstable_by_key(|note| (note.conn, note.at));
    assert!(rt; are_as_sent(notes.as_slice()));
    Ok(())
}

/// Two that take over from each other stay only as long as frames are there. No frame comes twice, whichever outlet gave it.
#[test]
fn no_frame_of_a_storm_comes_twice(rt: HostRuntime) -> Result<(), Fail> {
    let stay = |last: u8, rounds: u32| Task::Stay {
        last,
        rounds,
        waits: false,
    };
    let send = Task::Send {
        from: 1,
        count: 1_000,
        insists: false,
    };
    let both = (stay(RECEIVERS, 500), stay(RECEIVERS, 500));
    let (hub, done) = run_new(&rt, rt.alloc(), both, (send, stay(2, 0)), false)?;
    let mut pass = done.pass;
    let mut notes = done.notes;
    let Ok(counts) = hub.stop(&rt, &mut pass) else {
        panic!(rt; "the hub has stopped");
    };
    assert!(rt; counts.said.joined == 1_001 && counts.said.refused == 0);
    assert!(rt; counts.said.unicasts == 1_000 && counts.said.broadcasts == 0);
    notes.sort_unstable_by_key(|note| note.id);
    let mut last = None;
    for note in notes.iter().filter(|note| note.what == What::Came) {
        assert!(rt; note.from == 1 && last != Some(note.id));
        last = Some(note.id);
    }
    Ok(())
}

/// Each connect of four threads at their own addresses is counted, and no call is lost.
#[test]
fn four_connect_and_leave(rt: HostRuntime) -> Result<(), Fail> {
    let stay = |last: u8| Task::Stay {
        last,
        rounds: 250,
        waits: false,
    };
    let (hub, done) = run_new(
        &rt,
        rt.alloc(),
        (stay(1), stay(2)),
        (stay(3), stay(4)),
        false,
    )?;
    let mut pass = done.pass;
    let Ok(counts) = hub.stop(&rt, &mut pass) else {
        panic!(rt; "the hub has stopped");
    };
    assert!(rt; counts.at == 2_000 && done.calls == 2_000);
    assert!(rt;
        counts.said.joined == 1_000 && counts.said.refused == 0 && counts.said.replaced == 0
    );
    Ok(())
}
