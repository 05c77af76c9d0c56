// What readers see before items are published, and after each attempt.
ghost use Rattle.std.specs.Prelude.{◌≡◌};

use crate::feeds::Sum;
use reg_feed::{Copies, FeedName, FeedReader, FeedWriter, Unnamed, feed};
use std::alloc::{AllocError, Global};
use std::marker::Brand;
use std::sync::Wait;
use std::test::Fail;

/// Whether a publish is done, if that is told, the sum that readers see after it, and how many items are
/// published.
type Step = (Option<bool>, Option<u64>, u64);

/// Items of a feed, and what comes of them.
struct Row {
    first: u64,
    /// How many items the fold refuses first.
    refusals: u64,
    items: &'static [u64],
    /// What each attempt to publish comes to.
    steps: &'static [Step],
}

/// An item stays pending where it is refused, and is published once. Behind that the other copy refuses it
/// in turn, which no reader sees.
static ROWS: [Row; 2] = [
    Row {
        first: 5,
        refusals: 0,
        items: &[7, 8],
        steps: &[(Some(true), Some(20), 2)],
    },
    Row {
        first: 0,
        refusals: 2,
        items: &[7],
        steps: &[
            (Some(false), Some(0), 0),
            (Some(false), Some(0), 0),
            (Some(true), Some(7), 1),
            (None, Some(7), 1),
            (None, Some(7), 1),
            (None, Some(7), 1),
        ],
    },
];

fn seen_by<N: FeedName<u64, Sum>, S: Copies<u64, Sum, N>>(
    reader: &mut FeedReader<u64, Sum, N, S>,
) -> Option<u64> {
    reader.read(|sum| sum.total)
}

fn append_all<N: FeedName<u64, Sum>, S: Copies<u64, Sum, N>, R: Wait + Drop>(
    writer: &mut FeedWriter<u64, Sum, N, S, R>,
    items: &[u64],
) -> Result<(), AllocError> {
    for item in items {
        if writer.append(*item).is_err() {
            return Err(AllocError);
        }
    }
    Ok(())
}

/// Whether the attempts to publish come to what the row says.
fn steps_hold<N: FeedName<u64, Sum>, S: Copies<u64, Sum, N>, R: Wait + Drop>(
    writer: &mut FeedWriter<u64, Sum, N, S, R>,
    reader: &mut FeedReader<u64, Sum, N, S>,
    steps: &[Step],
) -> bool {
    for step in steps {
        let done = writer.publish().is_ok();
        let is_told = step.0.is_none() || step.0 == Some(done);
        if !is_told || (seen_by(reader), writer.tell().len()) != (step.1, step.2) {
            return false;
        }
    }
    true
}

/// Whether readers see no item before it is published, and then what the row says.
fn row_holds<N: FeedName<u64, Sum>, S: Copies<u64, Sum, N>, R: Wait + Drop>(
    writer: &mut FeedWriter<u64, Sum, N, S, R>,
    row: &Row,
) -> Result<bool, Fail> {
    append_all(writer, row.items)?;
    let mut reader = writer.reader()?;
    let is_first = seen_by(&mut reader) == Some(row.first);
    Ok(is_first && steps_hold(writer, &mut reader, row.steps))
}

fn run_feed<N: FeedName<u64, Sum>, R: Wait + Drop>(
    alloc: Global,
    rt: R,
    list: Unnamed<u64>,
    first: Sum,
    row: &Row,
) -> Result<bool, Fail>
    requires { (list.reached.book ≡ N.book) × (first ≡ N.first) }
{
    let mut writer = feed::<u64, Sum, N, R>(rt, alloc, list, first, 1)?;
    row_holds(&mut writer, row)
}

fn holds<R: Wait + Drop>(alloc: Global, rt: R, row: &Row) -> Result<bool, Fail> {
    let first = Sum {
        total: row.first,
        refusals: row.refusals,
    };
    run_feed::<Brand, R>(alloc, rt, Unnamed::new(), first, row)
}

#[test]
fn readers_see_what_was_published(rt: HostRuntime) -> Result<(), Fail> {
    for row in &ROWS {
        assert!(rt; holds(rt.alloc(), &rt, row)?, "{}", row.first);
    }
    Ok(())
}
