//! The files of a file system, which note why they can't be read.
ghost use Rattle.std.specs.Prelude.{◌≡◌, ⊤};

use bsc_edge::{FileFault, Files};
use bsc_octets::Octets;
use std::alloc::Global;
use std::cell::Cell;
use std::fs::{self, File};
use std::io::{self, ErrorKind, Read};
use std::rc::Rc;

/// Why the last file couldn't be read, for all that tell of it.
pub type DiskNote = Rc<Cell<Option<io::Error>>>;

/// The files of a file system. Of one that can't be read it is noted why.
#[derive(Drop)]
pub struct NotedDisk<R> {
    rt: R,
    faults: u64,
    note: DiskNote,
}

impl<R: fs::Files> NotedDisk<R> {
    pub fn new(rt: R, note: DiskNote) -> NotedDisk<R>
        ensures { result.faults ≡ 0 }
    {
        NotedDisk {
            rt,
            faults: 0,
            note,
        }
    }
}

/// The octets of a whole file.
fn read_whole<R: fs::Files>(rt: &R, alloc: Global, path: &str) -> io::Result<Vec<u8>> {
    let mut octets = Vec::new(alloc);
    let mut file = File::open(rt, path)?;
    file.read_to_end(&mut octets)?;
    Ok(octets)
}

impl<R: fs::Files> Files for NotedDisk<R> {
    ghost faults = { λ d. d.faults };

    ghost holds = { λ _ _ _. ⊤ };

    fn load(&mut self, alloc: Global, path: &str) -> Result<Octets, FileFault> {
        match read_whole(&self.rt, alloc, path) {
            Ok(octets) => Ok(Octets::from_vec(octets)),
            Err(error) => {
                if error.kind() == ErrorKind::OutOfMemory {
                    return Err(FileFault::NoMemory);
                }
                self.note.set(Some(error));
                self.faults = self.faults.saturating_add(1);
                Err(FileFault::Failed)
            }
        }
    }
}
