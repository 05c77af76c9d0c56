//! The program `registrylog`: a registry whose log is kept in a file or shared, and tools for such
//! logs.
//!
//! `registrylog keep` serves the log of a file, `registrylog tail` writes its lines as they are
//! acknowledged, and `registrylog follow` serves lines as they come. `registrylog join` serves a
//! log that other processes write too, as an adapter tells it; `registrylog --rules` prints the
//! number of the rules that such processes have to share. `registrylog check` writes what a log
//! holds, `registrylog compact` the lines of its last records, and `registrylog base` the base that
//! a log from an offset on begins with. `registrylog help COMMAND` lists the options of each.
//!
//! This crate ties these to the system: files and locks, ports, metrics and messages. What is
//! proved is in the crates below, first of all `reg_pen`, `reg_file_keep` and `reg_join`.
#![tactic(auto)]

mod ends;
mod fault;
mod filtering;
mod following;
mod hearing;
mod joining;
mod keeping;
mod metered;
mod opening;
mod place;
mod progress;
mod replacing;
mod telling;
mod watching;

use crate::ends::{
    Finished, joined, kept, misread, refused, tailed, told, unlocked, unset, unshown,
};
use crate::fault::KeepError;
use crate::filtering::{Wish, base, check, compact};
use crate::following::{PIECE, follow};
use crate::joining::{HeardInput, JoinCounts, JoinPorts, JoinWatch, checks_of, tell_rules};
use crate::keeping::{KeepPorts, ended, open_log, open_short};
use crate::opening::{check_no_end, lock};
use crate::place::Place;
use crate::progress::Progress;
use crate::watching::{Shown, make_board, shown_by};
use log_arguments::{Environment, LogCommand, read_arguments};
use reg_join_service::serve_joined;
use reg_metrics::serve_pages;
use reg_service::serve_log;
use reg_tail::follow_file;
use std::env;
use std::io::{self, BufReader, Input};
use std::net::TcpListener;
use std::sync::Arc;

fn main(rt: HostRuntime) -> io::Result<Finished> {
    let alloc = rt.alloc();
    let words: Vec<String> = match env::args(&rt) {
        Ok(words) => words.collect(alloc)?,
        Err(error) => return misread(&rt, error),
    };
    let environment = match Environment::read(&rt) {
        Ok(environment) => environment,
        Err(error) => return unset(&rt, error),
    };
    let command = match read_arguments(alloc, words.as_slice(), environment.settings()) {
        Ok(command) => command,
        Err(error) => return refused(&rt, error),
    };
    let board = make_board(&rt, alloc)?;
    // Bound here, since the prover covers no thread of a type whose impl rests on bounds of a
    // caller's.
    if let Some((served, address)) = shown_by(&command) {
        let shown = Shown::new(rt, &board, served)?;
        let begun = match TcpListener::bind(&rt, address) {
            Ok(listener) => serve_pages(rt, alloc, listener, shown),
            Err(error) => Err(error),
        };
        if let Err(error) = begun {
            return unshown(&rt, error);
        }
    }
    match command {
        LogCommand::Keep {
            file,
            listen,
            nodes,
            workers,
            metrics: _,
            quiet,
            is_new,
        } => {
            let locked = match lock(&rt, alloc, file, is_new) {
                Ok(locked) => locked,
                Err(fault) => return unlocked(&rt, file, fault),
            };
            let place = Place::new(listen, nodes, workers);
            let progress = Progress::begin(rt, alloc, Some(file), quiet)?;
            let mut ports = KeepPorts::new(
                rt,
                alloc,
                place,
                progress,
                is_new,
                Arc::try_clone(&board)?,
            );
            let size = place.size();
            let served = match open_log(rt, alloc, &locked, &mut ports, &board) {
                Ok(log) => {
                    let served = serve_log(rt, alloc, size, &board.traffic, &mut ports, log);
                    ended(rt, alloc, &locked, served)
                }
                Err(fault) => Err(fault),
            };
            let served = match open_short(rt, alloc, &locked, served, &mut ports, &board) {
                Ok(log) => {
                    let served = serve_log(rt, alloc, size, &board.traffic, &mut ports, log);
                    ended(rt, alloc, &locked, served)
                }
                Err(ended) => ended,
            };
            drop(locked);
            kept(&rt, served)
        }
        LogCommand::Follow {
            listen,
            nodes,
            workers,
            metrics: _,
        } => {
            let place = Place::new(listen, nodes, workers);
            follow(rt, alloc, rt.reader(), place, board)
        }
        LogCommand::Join {
            listen,
            nodes,
            workers,
            metrics: _,
            check_every,
        } => {
            let place = Place::new(listen, nodes, workers);
            let every = checks_of(check_every);
            let heard = HeardInput::watched(rt, alloc, rt.reader(), Arc::try_clone(&board)?)?;
            let input = BufReader::with_capacity(alloc, PIECE, heard)?;
            let counts = JoinCounts::new(rt, Arc::try_clone(&board)?);
            let watch = JoinWatch::new(rt, &board);
            let mut ports = JoinPorts::new(rt, alloc, place, every, &board);
            let served = serve_joined(
                rt,
                alloc,
                place.size(),
                every,
                input,
                rt.stdout(),
                &Arc::new(alloc, counts)?,
                &board.traffic,
                &watch,
                &mut ports,
            );
            joined(&rt, alloc, served)
        }
        LogCommand::Rules => told(tell_rules(&rt)),
        LogCommand::Tail { file, from } => {
            let checked = check_no_end(&rt, alloc, file);
            if checked == Err(KeepError::Whole) {
                return kept(&rt, checked);
            }
            let error = follow_file(&rt, alloc, file, from, &mut io::writer(&rt));
            tailed(&rt, error)
        }
        LogCommand::Check { file, quiet } => check(rt, alloc, file, quiet),
        LogCommand::Base {
            file,
            below,
            quiet,
            whole,
        } => base(rt, alloc, file, below, quiet, whole),
        LogCommand::Compact {
            file,
            to,
            output,
            quiet,
            whole,
        } => {
            let wish = Wish {
                file,
                floor: to,
                output,
                whole,
            };
            compact(rt, alloc, wish, quiet)
        }
    }
}
