//! What holds of every legal history. The functions do nothing: their contracts are the laws.
ghost use Rattle.bsc_history.specs.declared.entry.Entry.{Entry};
ghost use Rattle.bsc_history.specs.declared.limits.About.{About};
ghost use Rattle.bsc_history.specs.Legality.{Legal};
ghost use Rattle.bsc_load.specs.Laws.{AppendedIsSent};
ghost use Rattle.std.specs.Prelude.{◌≡◌, ◌^◌, List};
ghost use Rattle.bsc_load.specs.Loaded.{load_about};

/// The count of appended frames is how many frames entered the outboxes of all connections together.
pub fn appended_is_sent()
    ensures { (a : About) (H : List Entry) → Legal a H → AppendedIsSent a H }
{}

/// The hub of a workload has 1,024 rows and outboxes of 64 frames, and answers 2^52 calls of 2^62 callers.
pub fn the_hub_has_1024_rows()
    ensures { load_about.limits ≡ record { rows = 1024; outbox = 64; calls = 2 ^ 52; callers = 2 ^ 62 } }
{}
