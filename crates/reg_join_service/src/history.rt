// What is told before ports listen.
use crate::error::JoinError;
use crate::taking::Taker;
use crate::watch::Watch;
use reg_adapter_line::{AdapterLine, LineEnd};
use reg_chain::Chain;
use reg_feed::{Copies, FeedName};
use reg_join::TakenIn;
use reg_join_desk::JoinedPen;
use reg_service::ServiceError;
use reg_shared::Shared;
use reg_topic::Item;
use std::sync::Wait;
use std::time::{Clock, Duration};

/// Takes in all that is told before `ready`. At a batch that no command writes it stops taking in,
/// and leaves the rest. Fails if memory is refused, or if the adapter ends before `ready`.
pub(crate) fn take_history<
    N: FeedName<Item, Shared>,
    S: Copies<Item, Shared, N>,
    C: Chain + Drop,
    R: Wait + Clock + Drop,
    W: Watch,
>(
    rt: &R,
    line: &AdapterLine,
    taker: &mut Taker<N, S, C>,
    pen: &mut JoinedPen<N, S, C, R>,
    watch: &W,
) -> Result<(), JoinError> {
    for _news in rt.forever() {
        // All that was told before `ready`, or before the end, is due once this was read.
        let (is_ready, is_over) = (line.is_ready(), line.is_over());
        take_told(rt, taker, pen, watch)?;
        if is_ready {
            return Ok(());
        }
        if is_over {
            return Err(JoinError::NotReady(end_of(rt, line)));
        }
        if !line.wait_for_news(rt, Duration::from_secs(1)) {
            line.end_stalls(rt);
        }
    }
    unreachable!()
}

/// Takes in all that was told.
fn take_told<
    N: FeedName<Item, Shared>,
    S: Copies<Item, Shared, N>,
    C: Chain + Drop,
    R: Wait + Drop,
    W: Watch,
>(
    rt: &R,
    taker: &mut Taker<N, S, C>,
    pen: &mut JoinedPen<N, S, C, R>,
    watch: &W,
) -> Result<(), ServiceError> {
    for _piece in rt.forever() {
        if taker.passes_over() {
            return Ok(());
        }
        match taker.take(pen)? {
            TakenIn::Batch => {}
            TakenIn::All => return Ok(()),
            TakenIn::Stopped => watch.stopped(taker.next()),
        }
    }
    unreachable!()
}

/// Returns why the adapter tells no more; the end of the input if that isn't known.
pub(crate) fn end_of<R: Wait>(rt: &R, line: &AdapterLine) -> LineEnd {
    line.end(rt).unwrap_or(LineEnd::Input)
}
