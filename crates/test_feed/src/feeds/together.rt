// Items that are appended together, with what the whole list then folds to.
ghost use Rattle.std.specs.Prelude.{◌≡◌};

use crate::feeds::{Sum, sum_of};
use reg_feed::{Copies, FeedName, FeedReader, FeedWriter, Fold, Unnamed, feed};
use std::alloc::Global;
use std::collections::VecDeque;
use std::marker::Brand;
use std::sync::Wait;
use std::test::Fail;

/// What readers see, and how many items are published.
fn shown<N: FeedName<u64, Sum>, S: Copies<u64, Sum, N>, R: Wait + Drop>(
    writer: &FeedWriter<u64, Sum, N, S, R>,
    reader: &mut FeedReader<u64, Sum, N, S>,
) -> (Option<u64>, u64) {
    (reader.read(|sum| sum.total), writer.tell().len())
}

/// Publishes two items together, and then one alone, which readers are shown on both copies.
fn run<N: FeedName<u64, Sum>, R: Wait + Drop>(
    alloc: Global,
    rt: R,
    list: Unnamed<u64>,
    first: Sum,
) -> Result<bool, Fail>
    requires { (list.reached.book ≡ N.book) × (first ≡ N.first) }
{
    let mut whole = first.again()?;
    whole.take_item(&7, &first)?;
    whole.take_item(&8, &first)?;
    let mut writer = feed::<u64, Sum, N, R>(rt, alloc, list, first, 1)?;
    let mut items = VecDeque::new(alloc);
    items.push_back(7)?;
    items.push_back(8)?;
    writer.append_all(items, whole)?;
    let mut reader = writer.reader()?;
    let before = shown(&writer, &mut reader);
    writer.publish()?;
    let together = shown(&writer, &mut reader);
    let behind = writer.append(3).is_ok();
    writer.publish()?;
    let both = shown(&writer, &mut reader);
    writer.publish()?;
    let again = shown(&writer, &mut reader);
    Ok(
        behind
            && before == (Some(5), 0)
            && together == (Some(20), 2)
            && both == (Some(23), 3)
            && again == both,
    )
}

fn holds<R: Wait + Drop>(alloc: Global, rt: R) -> Result<bool, Fail> {
    run::<Brand, R>(alloc, rt, Unnamed::new(), sum_of(5))
}

#[test]
fn items_come_with_their_value(rt: HostRuntime) -> Result<(), Fail> {
    assert!(rt; holds(rt.alloc(), &rt)?);
    Ok(())
}
