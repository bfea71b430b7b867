//! Files that keep what they gave last.
ghost use Rattle.std.specs.Prelude.{◌≡◌, None};

use bsc_edge::{FileFault, Files};
use bsc_octets::Octets;
use std::alloc::Global;

/// Files over others, which keep the text that they gave last, where there was memory, and count the texts that they gave.
#[derive(Drop)]
pub struct KeptFiles<F> {
    files: F,
    given: u64,
    text: Option<Octets>,
}

impl<F: Files> KeptFiles<F> {
    /// Files over these, which gave nothing yet.
    pub fn new(files: F) -> KeptFiles<F>
        ensures files { result.files ≡ files }
        ensures given { result.given ≡ 0 }
        ensures text { result.text ≡ None }
    {
        KeptFiles {
            files,
            given: 0,
            text: None,
        }
    }

    /// How many texts were given.
    pub fn given(&self) -> u64 {
        self.given
    }

    /// The text that was given last, where it was kept.
    pub fn text(&self) -> Option<&[u8]> {
        match &self.text {
            Some(text) => Some(text.as_slice()),
            None => None,
        }
    }
}

impl<F: Files> Files for KeptFiles<F> {
    ghost faults = { λ k. F.faults k.files };

    ghost holds = { λ k path o. F.holds k.files path o };

    fn load(&mut self, alloc: Global, path: &str) -> Result<Octets, FileFault> {
        let text = self.files.load(alloc, path)?;
        self.given = self.given.saturating_add(1);
        self.text = text.copy(alloc).ok();
        Ok(text)
    }
}
