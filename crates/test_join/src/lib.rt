//! Tests of pens over one chain, and of desks over it.
#![tactic(auto)]

#[cfg(test)]
mod chains;
#[cfg(test)]
mod commands;
#[cfg(test)]
mod desks;
#[cfg(test)]
mod opening;
#[cfg(test)]
mod plain;
#[cfg(test)]
mod processes;
#[cfg(test)]
mod runs;
#[cfg(test)]
mod turns;
