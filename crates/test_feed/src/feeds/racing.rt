// A writer that publishes while a reader reads.
ghost use Rattle.std.specs.Prelude.{◌≡◌};

use crate::feeds::{Sum, sum_of};
use reg_feed::{Copies, FeedName, FeedReader, FeedWriter, Unnamed, feed};
use std::alloc::Global;
use std::marker::Brand;
use std::sync::Wait;
use std::test::Fail;
use std::thread::{Threads, join};

/// How often two items are published together, which add up to 3.
const ROUNDS: u64 = 20_000;

/// The most reads.
const READS: u64 = 20_000_000;

/// How many rounds failed.
fn write<N: FeedName<u64, Sum>, S: Copies<u64, Sum, N>, R: Wait + Drop>(
    writer: &mut FeedWriter<u64, Sum, N, S, R>,
) -> u64 {
    let mut failed: u64 = 0;
    for _ in 0..ROUNDS {
        let added = writer.append(1).is_ok() && writer.append(2).is_ok();
        if !added || writer.publish().is_err() {
            failed = failed.saturating_add(1);
        }
    }
    failed
}

/// How many reads gave nothing, how many went back or showed half of a round, and the last sum.
fn look<N: FeedName<u64, Sum>, S: Copies<u64, Sum, N>>(
    reader: &mut FeedReader<u64, Sum, N, S>,
) -> (u64, u64, u64) {
    let (mut none, mut odd, mut last): (u64, u64, u64) = (0, 0, 0);
    for _ in 0..READS {
        match reader.read(|sum| sum.total) {
            None => none = none.saturating_add(1),
            Some(total) => {
                if total < last || total % 3 != 0 {
                    odd = odd.saturating_add(1);
                }
                last = total;
            }
        }
        if last >= 3 * ROUNDS {
            break;
        }
    }
    (none, odd, last)
}

/// What both came to, and how many items the reader saw and the writer published.
fn race<
    N: FeedName<u64, Sum> + Send + Sync,
    S: Copies<u64, Sum, N> + Send + Sync,
    R: Threads + Wait + Send + Sync + Drop,
    Q: Threads + Wait + Sync,
>(
    rt: &Q,
    writer: &mut FeedWriter<u64, Sum, N, S, R>,
) -> Result<(u64, (u64, u64, u64), (u64, u64)), Fail> {
    let mut reader = writer.reader()?;
    let (failed, seen) = join(rt, || write(writer), || look(&mut reader));
    writer.covers(reader.seen());
    Ok((failed, seen, (reader.seen().len(), writer.tell().len())))
}

fn run<
    N: FeedName<u64, Sum> + Send + Sync,
    R: Threads + Wait + Send + Sync + Drop,
    Q: Threads + Wait + Sync,
>(
    alloc: Global,
    rt: R,
    other: &Q,
    list: Unnamed<u64>,
    first: Sum,
) -> Result<(u64, (u64, u64, u64), (u64, u64)), Fail>
    requires { (list.reached.book ≡ N.book) × (first ≡ N.first) }
{
    let mut writer = feed::<u64, Sum, N, R>(rt, alloc, list, first, 2)?;
    race(other, &mut writer)
}

#[test]
fn a_reader_beside_a_writer_sees_whole_rounds(rt: HostRuntime) -> Result<(), Fail> {
    let alloc = rt.alloc();
    let (failed, seen, counts) = run::<Brand, _, _>(alloc, &rt, &rt, Unnamed::new(), sum_of(0))?;
    assert_eq!(rt; (failed, seen), (0, (0, 0, 3 * ROUNDS)));
    assert_eq!(rt; counts, (2 * ROUNDS, 2 * ROUNDS));
    Ok(())
}
