//! Files in memory, of which some loads fail.
ghost use Rattle.std.specs.Prelude.{◌≡◌, ◌≤◌, true, Err, IfOk, IfSome};
ghost use Rattle.std.specs.List.{Contains};
ghost use Rattle.bsc_edge.specs.declared.fault.FileFault.{FileFault};
ghost use Rattle.bsc_edge.specs.declared.mem_file.MemFile.{MemFile};
ghost use Rattle.bsc_outside.specs.Faults.{HasRisen};
ghost use Rattle.bsc_outside.specs.Calls.{is_next_failing};

use crate::calls::Calls;
use crate::fault::FileFault;
use crate::files::Files;
use crate::mem_file::MemFile;
use bsc_octets::Octets;
use std::alloc::Global;

/// These files. A load whose number is in a list fails, and so does one of a path that isn't there.
#[derive(Debug, Drop)]
pub struct MemFiles<'a> {
    files: Vec<MemFile>,
    calls: Calls<'a>,
}

impl<'a> MemFiles<'a> {
    pub fn new(files: Vec<MemFile>, failing: &'a [u64]) -> MemFiles<'a>
        ensures files { result.files.items ≡ files.items }
        ensures failing { result.calls.failing.now ≡ failing.now }
        ensures made { result.calls.made ≡ 0 }
    {
        MemFiles {
            files,
            calls: Calls::of(failing),
        }
    }
}

/// The octets of the file at a path.
fn found<'a>(files: &'a [MemFile], path: &[u8]) -> Option<&'a Octets>
    ensures { IfSome result (λ o. Contains files.now (record { path = path.now; octets = o.now })) }
{
    for file in files {
        if file.path.as_slice() == path {
            return Some(&file.octets);
        }
    }
    None
}

impl Files for MemFiles<'_> {
    ghost faults = { λ f. f.calls.faults };

    ghost holds = { λ f path o. Contains f.files.items (record { path = path; octets = o }) };

    fn load(&mut self, alloc: Global, path: &str) -> Result<Octets, FileFault> {
        if self.calls.fails() {
            return Err(FileFault::Failed);
        }
        match found(self.files.as_slice(), path.as_bytes()) {
            Some(octets) => octets.copy(alloc).map_err(|_| FileFault::NoMemory),
            None => {
                self.calls.fault();
                Err(FileFault::Failed)
            }
        }
    }
}
