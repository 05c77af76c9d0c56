// What a feed's history is made of. No value of it is made.

/// A step of a feed.
pub enum FeedEntry<T> {
    /// An item was appended.
    Added(T),
    /// The writer offers the first items, of this number, for publishing, and has a new pen (the
    /// right to make offers) with this key.
    Turned(u64, u64),
    /// The offered items are published.
    Published,
}
