//! Laws of the definition of a script, each carried by a function that does nothing.
ghost use Rattle.std.specs.Prelude.{◌≡◌, ℕ, false, List, length, Some, None};
ghost use Rattle.bsc_script.specs.Carrying.{quietly};
ghost use Rattle.bsc_script.specs.Running.{opens};
ghost use Rattle.bsc_script.specs.States.{State, is_open, new_peer, with_opened};
ghost use Rattle.bsc_script.specs.States.{default_times};

/// 2,048 names may be open at once: where so many are another one is refused, and where one less are it opens.
pub fn opens_2048_names()
    ensures refused { (s : State) (name : List ℕ) → is_open s name ≡ false → length s.peers ≡ 2048 → opens s name ≡ None }
    ensures opened { (s : State) (name : List ℕ) → is_open s name ≡ false → length s.peers ≡ 2047
        → opens s name ≡ Some (quietly (with_opened (new_peer name s.clock) s)) }
{}

/// The hub of a script waits 10 seconds for a Connect-Request and for the answer to a Disconnect-Request, and its heartbeat is
/// 300 seconds.
pub fn the_hub_waits_10_seconds()
    ensures { default_times ≡ record { connect_wait = 10000; disconnect_wait = 10000; heartbeat = 300000 } }
{}
