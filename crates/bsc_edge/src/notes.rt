//! What objects in memory note of what they hold, while there is memory for it.
ghost use Rattle.std.specs.Prelude.{◌≡◌, [], ◌∷◌, None, IsErr, IfOk};
ghost use Rattle.bsc_edge.specs.Told.{Grows};
ghost use Rattle.bsc_edge.specs.Notes.{noted};

use bsc_octets::NoMemory;

/// Notes one more. Where there is no memory for it, nothing is noted from then on.
pub(crate) fn note<A: Drop>(notes: &mut Option<Vec<A>>, one: Result<A, NoMemory>)
    ensures grows { IfOk one (λ a. Grows (noted notes.old) (noted notes.new) (a ∷ [])) }
    ensures ends { IsErr one → noted notes.new ≡ None }
{
    let Ok(one) = one else {
        *notes = None;
        return;
    };
    *notes = match notes.take() {
        Some(mut kept) => match kept.push(one) {
            Ok(()) => Some(kept),
            Err(_) => None,
        },
        None => None,
    };
}
