//! How many lines of a kind are told in a second.
ghost use Rattle.std.specs.Prelude.{◌≡◌};
ghost use Rattle.bsc_log.specs.Limits.{behind, goes_with, left_over, newest, settled, takes, told_in};

/// At most so many lines of a kind are told in a second.
const MOST: u64 = 10;

/// What is known of the lines of a kind.
#[derive(Clone, Copy, Debug)]
pub(crate) struct Limit {
    /// The newest second of a line, since 1970.
    second: u64,
    /// How many were told in it.
    told: u64,
    /// How many were left out, and are told of nowhere yet.
    left_out: u64,
}

impl Limit {
    /// There was no line.
    pub(crate) fn new() -> Limit
        ensures told { result.told ≡ 0 }
        ensures left_out { result.left_out ≡ 0 }
    {
        Limit {
            second: 0,
            told: 0,
            left_out: 0,
        }
    }

    /// Whether a line of this second belongs to the newest one.
    fn goes_with(&self, second: u64) -> bool
        ensures { result ≡ goes_with second self.now }
    {
        second == self.second || second.saturating_add(1) == self.second
    }

    /// The newest second once there is a line of this one.
    fn newest(&self, second: u64) -> u64
        ensures { result ≡ newest second self.now }
    {
        if self.goes_with(second) {
            self.second
        } else {
            second
        }
    }

    /// How many lines were told in that second.
    fn told_in(&self, second: u64) -> u64
        ensures { result ≡ told_in second self.now }
    {
        if self.goes_with(second) { self.told } else { 0 }
    }

    /// There is a line of this second. Whether it is told.
    pub(crate) fn takes(&mut self, second: u64) -> bool
        ensures told { result ≡ takes second self.old }
        ensures known { self.new ≡ behind second self.old }
    {
        let told = self.told_in(second);
        if told < MOST {
            self.second = self.newest(second);
            self.told = told + 1;
            true
        } else {
            self.left_out = self.left_out.saturating_add(1);
            false
        }
    }

    /// How many lines were left out of which is to be told in this second: their own is over. They are told of with this.
    pub(crate) fn take_left_over(&mut self, second: u64) -> u64
        ensures told { result ≡ left_over second self.old }
        ensures known { self.new ≡ settled second self.old }
    {
        if self.goes_with(second) {
            return 0;
        }
        let left_over = self.left_out;
        self.left_out = 0;
        left_over
    }

    /// How many lines were left out that are told of nowhere yet.
    pub(crate) fn left_out(&self) -> u64
        ensures { result ≡ self.now.left_out }
    {
        self.left_out
    }
}
