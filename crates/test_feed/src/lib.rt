//! Tests of feeds: what readers see of what is published.
#![tactic(auto)]

#[cfg(test)]
mod feeds;
