// Two feeds of the same types, side by side.
ghost use Rattle.std.specs.Prelude.{◌≡◌};

use crate::feeds::{Sum, sum_of};
use reg_feed::{Copies, FeedName, FeedWriter, Stored, Unnamed, feed};
use std::alloc::{AllocError, Global};
use std::marker::Brand;
use std::sync::Wait;
use std::test::Fail;

/// A second feed, beside the first one's writer.
fn run_second<
    N: FeedName<u64, Sum>,
    S: Copies<u64, Sum, N>,
    M: FeedName<u64, Sum>,
    R: Wait + Drop + Copy,
>(
    alloc: Global,
    rt: R,
    one: &mut FeedWriter<u64, Sum, N, S, R>,
    list: Unnamed<u64>,
    first: Sum,
) -> Result<(u64, u64), Fail>
    requires { (list.reached.book ≡ M.book) × (first ≡ M.first) }
{
    let mut other = feed::<u64, Sum, M, R>(rt, alloc, list, first, 1)?;
    both_published(one, &mut other)
}

/// The feeds are lent, so that none has to be dropped on the way.
fn both_published<
    N: FeedName<u64, Sum>,
    S: Copies<u64, Sum, N>,
    M: FeedName<u64, Sum>,
    U: Copies<u64, Sum, M>,
    R: Wait + Drop,
>(
    one: &mut FeedWriter<u64, Sum, N, S, R>,
    other: &mut FeedWriter<u64, Sum, M, U, R>,
) -> Result<(u64, u64), Fail> {
    if one.append(7).is_err() || other.append(8).is_err() {
        return Err(Fail::from(AllocError));
    }
    one.publish()?;
    other.publish()?;
    Ok((one.value().total, other.value().total))
}

fn run_first<N: FeedName<u64, Sum>, R: Wait + Drop + Copy>(
    alloc: Global,
    rt: R,
    list: Unnamed<u64>,
    first: Sum,
    second: Sum,
) -> Result<(u64, u64), Fail>
    requires { (list.reached.book ≡ N.book) × (first ≡ N.first) }
{
    let mut one = feed::<u64, Sum, N, R>(rt, alloc, list, first, 1)?;
    run_second::<N, Stored<u64, Sum, N>, Brand, R>(alloc, rt, &mut one, Unnamed::new(), second)
}

fn totals_of<R: Wait + Drop + Copy>(
    alloc: Global,
    rt: R,
    first: Sum,
    second: Sum,
) -> Result<(u64, u64), Fail> {
    run_first::<Brand, R>(alloc, rt, Unnamed::new(), first, second)
}

#[test]
fn two_feeds_of_one_type_are_apart(rt: HostRuntime) -> Result<(), Fail> {
    let totals = totals_of(rt.alloc(), &rt, sum_of(5), sum_of(6))?;
    assert_eq!(rt; totals, (12, 14));
    Ok(())
}
