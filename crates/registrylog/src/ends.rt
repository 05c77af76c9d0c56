// What is written at the end, and the exit status.
use crate::fault::KeepError;
use clap::Error;
use clap::error::ErrorKind;
use log_arguments::EnvironmentError;
use reg_base::BaseError;
use reg_follow::FollowError;
use reg_inspection::Obstacle;
use reg_join_service::{JoinBaseError, JoinError};
use reg_service::ServiceError;
use reg_tail::TailError;
use std::alloc::Global;
use std::io::{self, Eprint, Print};
use std::process::{ExitCode, Termination};

/// How the program ended. Only this file makes one, and none can be dropped, so `main` has to
/// return the result of its command.
#[derive(Debug)]
pub(crate) struct Finished {
    status: u8,
}

impl Termination for Finished {
    /// Returns the exit status.
    fn report<R: Eprint>(self, _rt: &R) -> ExitCode {
        let Finished { status } = self;
        ExitCode::from(status)
    }
}

/// Reports why words aren't a command line, or writes the help or the version that they ask for.
pub(crate) fn refused<R: Print + Eprint>(rt: &R, error: Error) -> io::Result<Finished> {
    error.print(rt)?;
    match error.kind() {
        ErrorKind::DisplayHelp | ErrorKind::DisplayVersion => Ok(Finished { status: 0 }),
        ErrorKind::OutOfMemory => Ok(Finished { status: 1 }),
        _ => Ok(Finished { status: 2 }),
    }
}

/// Reports that the arguments aren't UTF-8 text.
pub(crate) fn misread<R: Eprint>(rt: &R, error: io::Error) -> io::Result<Finished> {
    if error.kind() != io::ErrorKind::InvalidData {
        return Err(error);
    }
    rt.eprintln("error: the arguments are not UTF-8")?;
    Ok(Finished { status: 2 })
}

/// Reports why the environment can't be read.
pub(crate) fn unset<R: Eprint>(rt: &R, error: EnvironmentError) -> io::Result<Finished> {
    rt.eprintln(format_args!("error: {error}"))?;
    match error {
        EnvironmentError::NotText(_) => Ok(Finished { status: 2 }),
        EnvironmentError::OutOfMemory => Ok(Finished { status: 1 }),
    }
}

/// Reports why metrics can't be shown.
pub(crate) fn unshown<R: Eprint>(rt: &R, error: io::Error) -> io::Result<Finished> {
    let kind = error.kind();
    rt.eprintln(format_args!("metrics: {kind:?}"))?;
    Ok(Finished { status: 1 })
}

/// Reports why the log of that file can't be locked.
pub(crate) fn unlocked<R: Eprint>(rt: &R, file: &str, fault: KeepError) -> io::Result<Finished> {
    match fault {
        KeepError::Missing | KeepError::Exists => rt.eprintln(format_args!("{file}: {fault}"))?,
        _ => rt.eprintln(fault)?,
    }
    Ok(Finished {
        status: fault.status(),
    })
}

/// Reports why a log isn't served, or a file isn't read or written. What keeps a log from being
/// taken over was reported before, line by line.
pub(crate) fn kept<R: Eprint>(rt: &R, served: Result<(), KeepError>) -> io::Result<Finished> {
    match served {
        Ok(()) => Ok(Finished { status: 0 }),
        Err(fault) => {
            if !matches!(fault, KeepError::Start(ServiceError::Closed(_))) {
                rt.eprintln(fault)?;
            }
            Ok(Finished {
                status: fault.status(),
            })
        }
    }
}

/// Reports why lines aren't followed any more.
pub(crate) fn followed<R: Eprint>(rt: &R, served: Result<(), FollowError>) -> io::Result<Finished> {
    match served {
        Ok(()) => Ok(Finished { status: 0 }),
        Err(error) => {
            rt.eprintln(error)?;
            Ok(Finished {
                status: error.status(),
            })
        }
    }
}

/// Reports why a shared log isn't served any more. What keeps its base from being served is
/// reported line by line.
pub(crate) fn joined<R: Eprint>(
    rt: &R,
    alloc: Global,
    served: Result<(), JoinError>,
) -> io::Result<Finished> {
    let Err(error) = served else {
        return Ok(Finished { status: 0 });
    };
    let status = error.status();
    match error {
        JoinError::Base(JoinBaseError::Closed(found)) => tell_obstacles(rt, alloc, &found)?,
        error => rt.eprintln(error)?,
    }
    Ok(Finished { status })
}

fn tell_obstacles<R: Eprint>(rt: &R, alloc: Global, found: &[Obstacle]) -> io::Result<()> {
    for obstacle in found {
        let text = obstacle.text(alloc)?;
        rt.eprintln(format_args!("base: {text}"))?;
    }
    Ok(())
}

/// Ends a command that only writes something.
pub(crate) fn told(written: io::Result<()>) -> io::Result<Finished> {
    written?;
    Ok(Finished { status: 0 })
}

/// Reports why the lines of a file aren't written any more.
pub(crate) fn tailed<R: Eprint>(rt: &R, error: TailError) -> io::Result<Finished> {
    rt.eprintln(error)?;
    Ok(Finished {
        status: error.status(),
    })
}

/// Ends a filter: status 0 if it found nothing wrong, 2 if it did; an error is reported.
pub(crate) fn filtered<R: Eprint>(rt: &R, ended: Result<bool, BaseError>) -> io::Result<Finished> {
    match ended {
        Ok(true) => Ok(Finished { status: 0 }),
        Ok(false) => Ok(Finished { status: 2 }),
        Err(error) => {
            rt.eprintln(error)?;
            Ok(Finished {
                status: error.status(),
            })
        }
    }
}
