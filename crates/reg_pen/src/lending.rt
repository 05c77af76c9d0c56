// Work on a keep that a pen lends.

/// Work on a keep that a pen lends.
pub trait WithKeep<K> {
    // The worker's state and the keep before, and both after.
    ghost does: { Self → K → Self → K → Type 0 };

    /// Does the work.
    fn with_keep(&mut self, keep: &mut K)
        ensures { does self.old keep.old self.new keep.new };
}
