// What tells the operator about the log.

/// What tells the operator that nothing is taken in any more.
pub trait Watch {
    /// Called once at most, by any thread: no command writes the batch that was told for this
    /// offset, so nothing is taken in any more and commands are refused.
    fn stopped(&self, offset: u64);
}
