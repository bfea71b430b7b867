//! Laws of runs for an application, carried by functions that do nothing.
ghost use Rattle.std.specs.Prelude.{◌≡◌};
ghost use Rattle.bsc_application.specs.Asking.{most_requests};

/// 256 requests are taken before a turn at most.
pub fn takes_256_requests_at_most()
    ensures { most_requests ≡ 256 }
{}
