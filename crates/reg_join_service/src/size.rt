// How many workers a port of a process has.
ghost use Rattle.std.specs.Prelude.{◌≤◌};

use reg_service::Size;

/// The least workers of a port: all but one may wait for the log, and one is left for lookups.
const WORKERS_LEAST: u32 = 2;

/// The most workers of a port.
const WORKERS_LIMIT: u32 = 16;

/// Returns the same size with the nearest allowed number of workers.
pub(crate) fn joined_size(size: Size) -> Size
    ensures { (WORKERS_LEAST ≤ result.workers) × (result.workers ≤ WORKERS_LIMIT) }
{
    size.with_workers(WORKERS_LEAST, WORKERS_LIMIT)
}
