//! Files that tell what was read of them.
ghost use Rattle.std.specs.Prelude.{◌≡◌, [], ◌∷◌, Some};
ghost use Rattle.bsc_edge.specs.Asked.{loaded_by};

use bsc_edge::{FileFault, Files, Loaded};
use bsc_octets::Octets;
use bsc_past::{Happened, Past};
use std::alloc::Global;

/// A load with its answer, each where it lies.
#[derive(Drop)]
struct Loading<'a> {
    path: &'a str,
    answer: &'a Result<Octets, FileFault>,
}

impl Happened<Loaded> for Loading<'_> {
    ghost happened = { λ l. loaded_by l.path.now l.answer.now ∷ [] };
}

/// Files over others, which tell contracts which of them were read, and what that gave. They take no memory of their own, and do
/// nothing more than the files under them.
#[derive(Drop)]
pub struct ToldFiles<F> {
    files: F,
    loads: Past<Loaded>,
}

impl<F> ToldFiles<F> {
    /// Files over these, of which none was read yet.
    pub fn new(files: F) -> ToldFiles<F>
        ensures files { result.files ≡ files }
        ensures loads { result.loads.items ≡ [] }
    {
        ToldFiles {
            files,
            loads: Past::new(),
        }
    }

    /// The files that they stand over.
    pub fn files(&self) -> &F
        ensures { result.now ≡ self.now.files }
    {
        &self.files
    }
}

impl<F: Files> Files for ToldFiles<F> {
    ghost faults = { λ f. F.faults f.files };

    ghost holds = { λ f path o. F.holds f.files path o };

    ghost loads = { λ f. Some f.loads.items };

    fn load(&mut self, alloc: Global, path: &str) -> Result<Octets, FileFault> {
        let answer = self.files.load(alloc, path);
        self.loads.note(&Loading {
            path,
            answer: &answer,
        });
        answer
    }
}
