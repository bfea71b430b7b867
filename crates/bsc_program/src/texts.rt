//! The words that the program is called with.
use bsc_octets::NoMemory;
use std::alloc::{Alloc, Global};
use std::env::{self, Env};
use std::io::ErrorKind;

/// The words behind the program's name.
#[derive(Drop)]
pub(crate) struct Texts {
    pub words: Vec<String>,
    /// Whether each of them is UTF-8. A word that isn't names no command: then there are no words here, which are refused too.
    pub are_all: bool,
}

/// The words behind the program's name, as the machine has them.
pub(crate) fn texts_of<H: Alloc<A = Global> + Env>(
    rt: &H,
    alloc: Global,
) -> Result<Texts, NoMemory> {
    let mut words = Vec::new(alloc);
    match env::args(rt) {
        Ok(args) => {
            for word in args.skip(1) {
                words.push(word)?;
            }
            Ok(Texts {
                words,
                are_all: true,
            })
        }
        Err(error) => {
            if error.kind() == ErrorKind::OutOfMemory {
                return Err(NoMemory);
            }
            Ok(Texts {
                words,
                are_all: false,
            })
        }
    }
}
