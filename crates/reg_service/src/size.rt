// How much is served.
ghost use Rattle.std.specs.Prelude.{◌≡◌, ◌≤◌, max, min};

/// The most nodes.
pub const NODES_LIMIT: usize = 3;

/// How many nodes there are, and what each serves.
#[derive(Clone, Copy, Debug, PartialEq, Eq)]
pub struct Size {
    /// From 1 to 3; another number counts as the nearest of these.
    pub nodes: usize,
    /// The workers of a node, of which each answers one connection at a time. None count as one.
    pub workers: u32,
    /// A node ends once as many times its workers of its connections were closed.
    pub limit: Option<u64>,
}

impl Size {
    /// Returns the size with its workers brought into these bounds: fewer become `least`, more `most`.
    pub fn with_workers(self, least: u32, most: u32) -> Size
        requires { least ≤ most }
        ensures workers { result.workers ≡ max least (min self.workers most) }
        ensures others { (result.nodes ≡ self.nodes) × (result.limit ≡ self.limit) }
    {
        Size {
            nodes: self.nodes,
            workers: self.workers.clamp(least, most),
            limit: self.limit,
        }
    }

    /// How many ports there are: one a node.
    pub fn ports(self) -> usize
        ensures { (1 ≤ result) × (result ≤ NODES_LIMIT) }
    {
        self.nodes.clamp(1, NODES_LIMIT)
    }

    /// How many workers a port has.
    pub fn port_workers(self) -> u32
        ensures { 1 ≤ result }
    {
        self.workers.max(1)
    }

    /// How many desks there are in all: one a worker.
    pub fn desks(self) -> u32
        ensures { 1 ≤ result }
    {
        self.port_workers().saturating_mul(self.ports() as u32)
    }

    /// After how many closed connections a port ends.
    pub(crate) fn connections(self) -> Option<u64> {
        let workers = u64::from(self.port_workers());
        self.limit.map(|limit| limit.saturating_mul(workers))
    }
}
