//! Laws of the definition, each carried by a function that does nothing.
ghost use Rattle.std.specs.Prelude.{◌≡◌, ◌≤◌, ℕ, false, List, [], ◌∷◌, ◌++◌, Some, None};
ghost use Rattle.bsc_octets.specs.declared.vmac.Vmac.{Vmac};
ghost use Rattle.bsc_resolve.specs.declared.ask_refusal.AskRefusal.TheVariants.{Full};
ghost use Rattle.bsc_resolve.specs.declared.call.ResolveCall.{ResolveCall};
ghost use Rattle.bsc_resolve.specs.declared.resolve.Resolve.{Resolve};
ghost use Rattle.bsc_resolve.specs.Resolving.{uris_for, learnt, is_held, held, ask_refusal};
ghost use Rattle.bsc_resolve.specs.Standing.{ResolveStands};

use crate::bounds::ROOM;

/// At most `ROOM` VMACs are held.
pub fn at_most_room_are_held()
    ensures { (r : Resolve) (wait : ℕ) (calls : List ResolveCall) → ResolveStands r wait calls → held wait calls ≤ ROOM }
{}

/// That is 256: where so many are held a question for another one is refused, and where one less is held it is asked.
pub fn a_node_holds_256_vmacs()
    ensures refused { (wait : ℕ) (calls : List ResolveCall) (v : Vmac) → is_held wait calls v ≡ false → held wait calls ≡ 256 → ask_refusal wait calls v ≡ Some (Full 256) }
    ensures asked { (wait : ℕ) (calls : List ResolveCall) (v : Vmac) → is_held wait calls v ≡ false → held wait calls ≡ 255 → ask_refusal wait calls v ≡ None }
{}

/// What is learnt of a VMAC stays until another answer for it comes: through a new question, its NAK, and time.
pub fn what_is_learnt_stays()
    ensures { (calls : List ResolveCall) (call : ResolveCall) (v : Vmac) → uris_for v call ≡ None → learnt (calls ++ call ∷ []) v ≡ learnt calls v }
{}
