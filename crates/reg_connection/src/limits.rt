// How long a connection may take, and how much is held of all of them.

/// Limits of times, in milliseconds, and of what a node holds. A time limit is kept to within
/// `look`.
#[derive(Clone, Copy, Debug, PartialEq, Eq)]
pub struct Limits {
    /// From the last answer to the first byte of the next request.
    pub idle: u64,
    /// From the first byte of a request to its last.
    pub request: u64,
    /// From the first byte of an answer that the client doesn't take at once to its last.
    pub answer: u64,
    /// From the last answer to the close, while the client's side is still open.
    pub linger: u64,
    /// The most bytes that are read and dropped while closing, to within one read.
    pub dropped: u64,
    /// The most connections of a node, including those at its workers; above 0.
    pub connections: usize,
    /// The most bytes of unfinished requests and unsent answers of a node, to within what came
    /// last.
    pub bytes: usize,
    /// How long a worker waits for the next request on its connection; above 0.
    pub stay: u64,
    /// The time between two searches for connections that are late.
    pub look: u64,
    /// The pause after a failed accept.
    pub pause: u64,
}

impl Limits {
    /// Returns the limits of the service: 60 s for the first byte, 10 s for a request and for an
    /// answer, and a close that lingers for 2 s or 16 MiB. The nodes of a process share 1,024
    /// connections and 256 MiB in equal parts.
    pub fn of_nodes(nodes: usize) -> Limits {
        let parts = nodes.max(1);
        Limits {
            idle: 60_000,
            request: 10_000,
            answer: 10_000,
            linger: 2_000,
            dropped: 16_777_216,
            connections: (1_024 / parts).max(1),
            bytes: 268_435_456 / parts,
            stay: 4,
            look: 1_000,
            pause: 20,
        }
    }
}
