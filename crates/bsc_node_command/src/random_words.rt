//! Random words of the system.
ghost use Rattle.std.specs.Prelude.{◌≡◌, [], ◌∷◌, ◌++◌};

use bsc_node_run::Words;
use bsc_outside::Failed;
use bsc_past::Past;
use std::random::RandomSource;

/// Random words of a source of random octets: of each eight octets a word, the least significant first. It tells what each
/// call gave, a word or none.
#[derive(Drop)]
pub struct RandomWords<R: RandomSource + Drop> {
    source: R,
    faults: u64,
    drawn: Past<Option<u64>>,
}

impl<R: RandomSource + Drop> RandomWords<R> {
    pub fn new(source: R) -> RandomWords<R>
        ensures source { result.source ≡ source }
        ensures faults { result.faults ≡ 0 }
        ensures drawn { result.drawn.items ≡ [] }
    {
        RandomWords {
            source,
            faults: 0,
            drawn: Past::new(),
        }
    }
}

impl<R: RandomSource + Drop> Words for RandomWords<R> {
    // What a call gave is the newest of what is told.
    ghost gives = { λ before word after. after.drawn.items ≡ before.drawn.items ++ word ∷ [] };

    ghost faults = { λ w. w.faults };

    fn next(&mut self) -> Result<u64, Failed> {
        let mut octets = [0_u8; 8];
        match self.source.fill_bytes(&mut octets) {
            Ok(()) => {
                let word = u64::from_le_bytes(octets);
                self.drawn.add(&Some(word));
                Ok(word)
            }
            Err(_) => {
                self.faults = self.faults.saturating_add(1);
                self.drawn.add(&None);
                Err(Failed)
            }
        }
    }
}
