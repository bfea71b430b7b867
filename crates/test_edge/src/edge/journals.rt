//! Journals, in memory and in files.
use bsc_edge::{DiskJournals, Journals, LinkFault, MemJournals};
use bsc_outside::{Failed, Sink};
use std::fs;
use std::process::{self, Abort};
use std::test::*;

/// The second journal isn't begun. Of each journal the second write fails.
#[test]
fn in_memory(rt: HostRuntime) -> Result<(), Fail> {
    let alloc = rt.alloc();
    let mut journals = MemJournals::new(100, &[2], &[2]);
    let Ok(mut journal) = journals.begin(alloc, Some("hub"), 3) else {
        panic!(rt; "it is begun");
    };
    assert_eq!(rt; journal.write(b"one\n"), Ok(()));
    assert_eq!(rt; journal.write(b"two\n"), Err(Failed));
    assert_eq!(rt; journal.write(b"three\n"), Ok(()));
    assert!(rt; journal.sink.held() == b"one\nthree\n".as_slice());
    assert!(rt; matches!(journals.begin(alloc, None, 4), Err(LinkFault::Failed)));
    assert!(rt; journals.begin(alloc, None, 5).is_ok());
    Ok(())
}

/// A folder of this process, which is empty.
fn folder_of(rt: HostRuntime, name: &str) -> Result<String, Fail> {
    let id = process::id(rt.process());
    let folder = format!(in rt.alloc(); "/tmp/bsc_journals_{name}_{id}")?;
    if fs::exists(&rt, folder.as_str())? {
        fs::remove_dir_all(&rt, folder.as_str())?;
    }
    fs::create_dir(&rt, folder.as_str())?;
    Ok(folder)
}

/// The journal of number 3 is the file of that number, made anew at its first line; that of number 0 is made at once. Neither is
/// written over, and without a prefix no file is made. They stand in a folder of this process.
#[test]
fn in_files(rt: HostRuntime) -> Result<(), Fail> {
    let alloc = rt.alloc();
    let folder = folder_of(rt, "in_files")?;
    let prefix = format!(in alloc; "{folder}/hub")?;
    let own = format!(in alloc; "{folder}/hub.0")?;
    let path = format!(in alloc; "{folder}/hub.3")?;
    let mut journals = DiskJournals::new(rt);
    assert!(rt; journals.begin(alloc, Some(prefix.as_str()), 0).is_ok());
    assert!(rt; fs::exists(&rt, own.as_str())?);
    let Ok(mut journal) = journals.begin(alloc, Some(prefix.as_str()), 3) else {
        panic!(rt; "it is begun");
    };
    assert!(rt; !fs::exists(&rt, path.as_str())?);
    assert_eq!(rt; journal.write(b"one\n"), Ok(()));
    assert_eq!(rt; journal.write(b"two\n"), Ok(()));
    assert!(rt; !journal.has_failed());
    for number in [0, 3] {
        let answer = journals.begin(alloc, Some(prefix.as_str()), number);
        assert!(rt; matches!(answer, Err(LinkFault::Failed)));
    }
    let Ok(mut dropping) = journals.begin(alloc, None, 4) else {
        panic!(rt; "it is begun");
    };
    assert_eq!(rt; dropping.write(b"three\n"), Ok(()));
    assert!(rt; !fs::exists(&rt, ".4")?);
    let held = fs::read(&rt, path.as_str())?;
    assert!(rt; held.as_slice() == b"one\ntwo\n".as_slice());
    fs::remove_file(&rt, own.as_str())?;
    fs::remove_file(&rt, path.as_str())?;
    // There is no other file in it.
    fs::remove_dir(&rt, folder.as_str())?;
    Ok(())
}

/// Whether the file at this path has these octets.
fn has(rt: HostRuntime, path: &str, octets: &[u8]) -> Result<bool, Fail> {
    let held = fs::read(&rt, path)?;
    Ok(held.as_slice() == octets)
}

/// No file of these journals is to have more than 8 octets. The third line and the fifth go into other files, and one of 12 octets has
/// a file of its own. Together they are the lines.
#[test]
fn limited(rt: HostRuntime) -> Result<(), Fail> {
    let alloc = rt.alloc();
    let folder = folder_of(rt, "limited")?;
    let prefix = format!(in alloc; "{folder}/hub")?;
    let own = format!(in alloc; "{folder}/hub.0")?;
    let own_newer = format!(in alloc; "{folder}/hub.0.1")?;
    let path = format!(in alloc; "{folder}/hub.7")?;
    let newer = format!(in alloc; "{folder}/hub.7.1")?;
    let long = format!(in alloc; "{folder}/hub.7.2")?;
    let last = format!(in alloc; "{folder}/hub.7.3")?;
    let mut journals = DiskJournals::new(rt);
    journals.set_limit(8);
    let (Ok(mut first), Ok(mut journal)) = (
        journals.begin(alloc, Some(prefix.as_str()), 0),
        journals.begin(alloc, Some(prefix.as_str()), 7),
    ) else {
        panic!(rt; "they are begun");
    };
    assert_eq!(rt; first.write(b"hub line\n"), Ok(()));
    assert_eq!(rt; first.write(b"stop\n"), Ok(()));
    assert!(rt; has(rt, own.as_str(), b"hub line\n")?);
    assert!(rt; has(rt, own_newer.as_str(), b"stop\n")?);
    assert_eq!(rt; journal.write(b"one\n"), Ok(()));
    assert_eq!(rt; journal.write(b"two\n"), Ok(()));
    assert!(rt; !fs::exists(&rt, newer.as_str())?);
    assert_eq!(rt; journal.write(b"3\n"), Ok(()));
    assert_eq!(rt; journal.write(b"four and five\n"), Ok(()));
    assert_eq!(rt; journal.write(b"six\n"), Ok(()));
    assert!(rt; has(rt, path.as_str(), b"one\ntwo\n")?);
    assert!(rt; has(rt, newer.as_str(), b"3\n")?);
    assert!(rt; has(rt, long.as_str(), b"four and five\n")?);
    assert!(rt; has(rt, last.as_str(), b"six\n")?);
    assert!(rt; !journal.has_failed());
    assert!(rt; !journals.count_lost());
    fs::remove_dir_all(&rt, folder.as_str())?;
    Ok(())
}

/// A line that is lost is counted once, whichever journal it was of, and one that is put isn't. A file that is there already isn't
/// written over where a journal would go on in it: then that line is lost.
#[test]
fn lost_lines(rt: HostRuntime) -> Result<(), Fail> {
    let alloc = rt.alloc();
    let folder = folder_of(rt, "lost_lines")?;
    let prefix = format!(in alloc; "{folder}/hub")?;
    let path = format!(in alloc; "{folder}/hub.1")?;
    let newer = format!(in alloc; "{folder}/hub.2.1")?;
    let mut journals = DiskJournals::new(rt);
    assert!(rt; !journals.count_lost());
    journals.set_limit(4);
    let (Ok(mut first), Ok(mut second)) = (
        journals.begin(alloc, Some(prefix.as_str()), 1),
        journals.begin(alloc, Some(prefix.as_str()), 2),
    ) else {
        panic!(rt; "they are begun");
    };
    assert!(rt; !journals.count_lost());
    fs::write(&rt, path.as_str(), "there\n")?;
    assert_eq!(rt; first.write(b"one\n"), Err(Failed));
    assert!(rt; journals.count_lost());
    assert!(rt; !journals.count_lost());
    assert_eq!(rt; second.write(b"two\n"), Ok(()));
    assert!(rt; !journals.count_lost());
    fs::write(&rt, newer.as_str(), "there\n")?;
    assert_eq!(rt; second.write(b"three\n"), Err(Failed));
    assert!(rt; journals.count_lost());
    assert!(rt; has(rt, newer.as_str(), b"there\n")?);
    fs::remove_dir_all(&rt, folder.as_str())?;
    Ok(())
}

/// Where its file can't be made, a journal of a session is begun and loses its lines, until the file can be. A file that came since
/// it was begun isn't written over. The journal of number 0 isn't begun.
#[test]
fn without_a_file(rt: HostRuntime) -> Result<(), Fail> {
    let alloc = rt.alloc();
    let folder = folder_of(rt, "without_a_file")?;
    let inner = format!(in alloc; "{folder}/inner")?;
    let prefix = format!(in alloc; "{inner}/hub")?;
    let path = format!(in alloc; "{inner}/hub.1")?;
    let other = format!(in alloc; "{inner}/hub.2")?;
    let mut journals = DiskJournals::new(rt);
    let own = journals.begin(alloc, Some(prefix.as_str()), 0);
    assert!(rt; matches!(own, Err(LinkFault::Failed)));
    let (Ok(mut first), Ok(mut second)) = (
        journals.begin(alloc, Some(prefix.as_str()), 1),
        journals.begin(alloc, Some(prefix.as_str()), 2),
    ) else {
        panic!(rt; "they are begun");
    };
    assert_eq!(rt; first.write(b"one\n"), Err(Failed));
    assert!(rt; first.has_failed());
    fs::create_dir(&rt, inner.as_str())?;
    assert_eq!(rt; first.write(b"two\n"), Ok(()));
    fs::write(&rt, other.as_str(), "there\n")?;
    assert_eq!(rt; second.write(b"one\n"), Err(Failed));
    let held = fs::read(&rt, path.as_str())?;
    assert!(rt; held.as_slice() == b"two\n".as_slice());
    let there = fs::read(&rt, other.as_str())?;
    assert!(rt; there.as_slice() == b"there\n".as_slice());
    fs::remove_dir_all(&rt, folder.as_str())?;
    Ok(())
}
