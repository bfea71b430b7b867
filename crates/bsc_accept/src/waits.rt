//! How long ago something was.
ghost use Rattle.std.specs.Prelude.{◌≡◌, ◌-◌, ◌*◌, nat_le};

/// Whether a wait is over: so long ago it began.
pub fn is_over(since: u64, wait: u64, now: u64) -> bool
    ensures { result ≡ nat_le wait (now - since) }
{
    now.saturating_sub(since) >= wait
}

/// Twice a wait.
pub fn twice(wait: u32) -> u64
    ensures { result ≡ 2 * wait }
{
    2 * u64::from(wait)
}
