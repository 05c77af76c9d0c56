//! Tests of the kept log that need a disk which tears at each byte of each write and fails at each call, readers and writers that
//! fail, files of the system, or threads: its journal and the compactions of its file, how a file is followed, and what a process and its
//! adapter say to each other, and is overheard of that. What comes of bytes alone is tried by the program `log_cases`.
#![tactic(auto)]

#[cfg(test)]
mod batches;
#[cfg(test)]
mod exchanges;
#[cfg(test)]
mod faults;
#[cfg(test)]
mod journal;
#[cfg(test)]
mod overheard;
#[cfg(test)]
mod tail;
