//! Which slot the next item has.
#![tactic(auto)]

ghost use Rattle.std.specs.Prelude.{◌≡◌, ℕ, ◌+◌, ◌%◌, ◌<◌};

/// The slot after this one: the next, or the first again.
pub(crate) fn slot_after(slot: u64, capacity: u64) -> u64
    requires { slot < capacity }
    ensures within { result < capacity }
    ensures next { (n : ℕ) → slot ≡ n % capacity → result ≡ (n + 1) % capacity }
{
    let next = slot + 1;
    if next == capacity { 0 } else { next }
}
