//! Real files.
ghost use Rattle.std.specs.Prelude.{◌≡◌, [], ◌∷◌, Some, ⊤};
ghost use Rattle.bsc_edge.specs.Asked.{loaded_by};

use crate::fault::FileFault;
use crate::files::Files;
use crate::loaded::Loaded;
use bsc_octets::Octets;
use bsc_past::{Happened, Past};
use std::alloc::Global;
use std::fs::{self, File};
use std::io::{self, ErrorKind, Read};

/// A load with its answer, each where it lies.
#[derive(Drop)]
struct Loading<'a> {
    path: &'a str,
    answer: &'a Result<Octets, FileFault>,
}

impl Happened<Loaded> for Loading<'_> {
    ghost happened = { λ l. loaded_by l.path.now l.answer.now ∷ [] };
}

/// The files of a file system. They tell which of them were read, and what that gave.
#[derive(Drop)]
pub struct Disk<R> {
    rt: R,
    faults: u64,
    loads: Past<Loaded>,
}

impl<R: fs::Files> Disk<R> {
    pub fn new(rt: R) -> Disk<R>
        ensures faults { result.faults ≡ 0 }
        ensures loads { result.loads.items ≡ [] }
    {
        Disk {
            rt,
            faults: 0,
            loads: Past::new(),
        }
    }
}

/// The octets of a whole file.
fn read_whole<R: fs::Files>(rt: &R, alloc: Global, path: &str) -> io::Result<Vec<u8>> {
    let mut octets = Vec::new(alloc);
    let mut file = File::open(rt, path)?;
    file.read_to_end(&mut octets)?;
    Ok(octets)
}

impl<R: fs::Files> Files for Disk<R> {
    ghost faults = { λ d. d.faults };

    ghost holds = { λ _ _ _. ⊤ };

    ghost loads = { λ d. Some d.loads.items };

    fn load(&mut self, alloc: Global, path: &str) -> Result<Octets, FileFault> {
        let answer = match read_whole(&self.rt, alloc, path) {
            Ok(octets) => Ok(Octets::from_vec(octets)),
            Err(error) => {
                if error.kind() == ErrorKind::OutOfMemory {
                    Err(FileFault::NoMemory)
                } else {
                    self.faults = self.faults.saturating_add(1);
                    Err(FileFault::Failed)
                }
            }
        };
        self.loads.note(&Loading {
            path,
            answer: &answer,
        });
        answer
    }
}
