// The threads and ports that follow lines.
ghost use Rattle.std.specs.Prelude.{◌≡◌, ◌<◌};
ghost use Rattle.std.specs.FinSet.{empty};

use crate::course::Course;
use crate::ended::{FollowError, LinesEnd};
use crate::intake::Intake;
use crate::reading::follow_lines;
use reg_desk::{FeedDesk, Nobody};
use reg_feed::{Copies, FeedName, Stored, Unnamed, feed};
use reg_meters::Traffic;
use reg_node::{Draw, Taken};
use reg_service::{Endpoints, Follow, ServiceError, Size, serve_desks};
use std::alloc::Global;
use std::io::{BufRead, Eprint};
use std::marker::Brand;
use std::net::Net;
use std::sync::{Arc, Wait};
use std::thread::{self, Parker, Threads};
use std::time::{Clock, Duration};

/// The most workers of a port.
const WORKERS_LIMIT: u32 = 1_024;

/// How often the program looks whether lines have come, in milliseconds.
const LOOK: u64 = 20;

/// Ports listen once no line has come for this long after the first one, in milliseconds.
const QUIET: u64 = 500;

/// Ports listen after this long even if no line has come, in milliseconds.
const PATIENCE: u64 = 10_000;

/// A desk over the list of taken records. It refuses commands.
pub type FollowDesk<M, U> = FeedDesk<Draw, Taken, M, U, Nobody>;

/// Tells the ports when lines can't be taken any more. It has nothing to bring to them: the thread
/// that takes lines publishes their list.
#[derive(Drop)]
struct Watching<'a> {
    course: &'a Course,
    grown: Parker,
}

impl Follow for Watching<'_> {
    fn follow(&self) {}

    fn is_over(&self) -> bool {
        self.course.has_failed()
    }

    fn grown(&self) -> &Parker {
        &self.grown
    }
}

/// Serves the registry that a reader's lines describe, at the ports that `endpoints` opens, each
/// with at most 1,024 workers. Commands are refused. The ports listen once 500 ms have passed
/// without a line after the first one, once 10 s have passed without any, or once the input has
/// ended. The end of the input is reported on the error output, and the ports go on with what they
/// have. `traffic` counts their connections and requests.
///
/// With a limit the call returns once all ports have ended. Without one it returns only if lines
/// can't be taken any more or the ports can't be started.
pub fn serve_lines<
    B: BufRead + Send + Drop + 'static,
    R: Threads + Wait + Clock + Net + Eprint + Sync + Send + Copy + Drop + 'static,
    E: Endpoints,
>(
    rt: R,
    alloc: Global,
    size: Size,
    reader: B,
    traffic: &Traffic,
    endpoints: &mut E,
) -> Result<(), FollowError> {
    let size = size.with_workers(1, WORKERS_LIMIT);
    serve_feed::<Brand, B, R, E>(rt, alloc, size, Unnamed::new(), reader, traffic, endpoints)
}

/// Makes the feed of all ports, starts the thread that takes lines, and serves by desks over that
/// feed.
fn serve_feed<
    M: FeedName<Draw, Taken> + Send + Sync + 'static,
    B: BufRead + Send + Drop + 'static,
    R: Threads + Wait + Clock + Net + Eprint + Sync + Send + Copy + Drop + 'static,
    E: Endpoints,
>(
    rt: R,
    alloc: Global,
    size: Size,
    list: Unnamed<Draw>,
    reader: B,
    traffic: &Traffic,
    endpoints: &mut E,
) -> Result<(), FollowError>
    requires { (list.reached.book ≡ M.book) × (M.first ≡ empty) }
{
    let count = size.desks();
    let mut intake = make_intake::<M, R>(rt, alloc, list, count)?;
    let mut desks = make_desks(alloc, &mut intake, count)?;
    let course = start(&rt, alloc, Taking { rt, reader, intake })?;
    wait_for_lines(&rt, &course);
    let served = serve_course(&rt, alloc, size, &course, &mut desks, traffic, endpoints);
    course.leave();
    served
}

/// Makes what takes lines, over a feed of its own with places for `readers` readers.
fn make_intake<M: FeedName<Draw, Taken>, R: Wait + Drop>(
    rt: R,
    alloc: Global,
    list: Unnamed<Draw>,
    readers: u32,
) -> Result<Intake<M, Stored<Draw, Taken, M>, R>, ServiceError>
    requires name { (list.reached.book ≡ M.book) × (M.first ≡ empty) }
    requires readers { 0 < readers }
{
    let out = feed::<Draw, Taken, M, R>(rt, alloc, list, Taken::new(alloc), readers as usize)?;
    Ok(Intake::new(alloc, Box::new(alloc, out)?))
}

/// Makes `count` desks over the feed of what takes lines.
fn make_desks<M: FeedName<Draw, Taken>, U: Copies<Draw, Taken, M>, R: Wait + Drop>(
    alloc: Global,
    intake: &mut Intake<M, U, R>,
    count: u32,
) -> Result<Vec<FollowDesk<M, U>>, ServiceError> {
    let mut desks = Vec::new(alloc);
    for _desk in 0..count {
        let view = intake.view()?;
        desks.push(FeedDesk::new(Nobody, view))?;
    }
    Ok(desks)
}

/// The work of a thread beside the ports.
trait Task {
    fn run(&mut self, course: &Course);
}

/// Takes lines, and keeps the desks' list alive until nobody needs it.
#[derive(Drop)]
struct Taking<B: Drop, M: FeedName<Draw, Taken>, U: Copies<Draw, Taken, M>, R: Wait + Drop> {
    rt: R,
    reader: B,
    intake: Intake<M, U, R>,
}

impl<
    B: BufRead + Drop,
    M: FeedName<Draw, Taken>,
    U: Copies<Draw, Taken, M>,
    R: Wait + Clock + Eprint + Drop,
> Task for Taking<B, M, U, R> {
    fn run(&mut self, course: &Course) {
        match follow_lines(&self.rt, &mut self.reader, &mut self.intake, course) {
            Ok(end) => {
                course.end();
                tell_end(&self.rt, end, self.intake.count());
            }
            Err(error) => course.fail(&self.rt, error),
        }
        for _ in self.rt.forever() {
            if course.is_left() {
                break;
            }
            thread::sleep(&self.rt, Duration::from_millis(LOOK));
        }
    }
}

/// Starts a thread and returns its course. Nobody joins the thread: its read may block for ever.
fn start<R: Threads, T: Task + Send + Drop + 'static>(
    rt: &R,
    alloc: Global,
    task: T,
) -> Result<Arc<Course, Global>, ServiceError> {
    let mut task = task;
    let course = Arc::new(alloc, Course::new())?;
    let own = Arc::try_clone(&course)?;
    match thread::spawn(rt, move || task.run(&own)) {
        Ok(_thread) => Ok(course),
        Err(_refused) => Err(ServiceError::NotStarted),
    }
}

/// Reports on the error output where the lines ended.
fn tell_end<R: Eprint>(rt: &R, end: LinesEnd, lines: u64) {
    let why = match end {
        LinesEnd::Input => "the input ended",
        LinesEnd::Unfinished => "the input ended in a line, which is dropped",
        LinesEnd::EmptyLine => "an empty line ended the log",
    };
    let _told = rt.eprintln(format_args!("{lines} lines taken: {why}"));
}

/// Waits until lines were taken and no more have come for a while, or none has come for long, or no
/// more can come.
fn wait_for_lines<R: Wait + Clock>(rt: &R, course: &Course) {
    let mut lines = 0;
    let mut waited: u64 = 0;
    for _ in rt.forever() {
        let patience = if lines == 0 { PATIENCE } else { QUIET };
        if course.has_ended() || waited >= patience {
            break;
        }
        thread::sleep(rt, Duration::from_millis(LOOK));
        waited = waited.saturating_add(LOOK);
        let now = course.lines();
        if now != lines {
            lines = now;
            waited = 0;
        }
    }
}

/// Serves by the desks, unless lines can't be taken.
fn serve_course<
    M: FeedName<Draw, Taken> + Send + Sync,
    U: Copies<Draw, Taken, M> + Send + Sync,
    R: Threads + Wait + Clock + Net + Sync + Send + Copy + Drop,
    E: Endpoints,
>(
    rt: &R,
    alloc: Global,
    size: Size,
    course: &Course,
    desks: &mut Vec<FollowDesk<M, U>>,
    traffic: &Traffic,
    endpoints: &mut E,
) -> Result<(), FollowError> {
    if let Some(error) = course.error(rt) {
        return Err(error);
    }
    let watching = Watching {
        course,
        grown: Parker::new(),
    };
    let reached = course.lines();
    serve_desks(
        rt,
        alloc,
        size,
        traffic,
        desks,
        endpoints,
        reached,
        Some(&watching),
    )?;
    match course.error(rt) {
        Some(error) => Err(error),
        None => Ok(()),
    }
}
