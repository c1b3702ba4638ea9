ghost use Rattle.std.specs.Prelude.{◌≡◌, ◌+◌};
ghost use Rattle.std.specs.Io.Iter.{u64_saturate};

/// Counts of lines.
#[derive(Clone, Copy, Debug, PartialEq, Eq)]
pub struct Summary {
    /// How many were read as the type.
    pub read: u64,

    /// How many could not be read.
    pub failed: u64,
}

impl Summary {
    /// Returns the counts of no lines.
    pub fn new() -> Self
        ensures read { result.read ≡ 0 }
        ensures failed { result.failed ≡ 0 }
    {
        Summary { read: 0, failed: 0 }
    }

    /// Counts a line that was read.
    pub fn count_read(&mut self)
        ensures read { self.new.read ≡ u64_saturate (self.old.read + 1) }
        ensures failed { self.new.failed ≡ self.old.failed }
    {
        self.read = self.read.saturating_add(1);
    }

    /// Counts a line that could not be read.
    pub fn count_failed(&mut self)
        ensures read { self.new.read ≡ self.old.read }
        ensures failed { self.new.failed ≡ u64_saturate (self.old.failed + 1) }
    {
        self.failed = self.failed.saturating_add(1);
    }
}
