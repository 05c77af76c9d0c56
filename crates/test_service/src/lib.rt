//! Tests of nodes over sockets: of what their clients meet, of nodes that follow lines, of the nodes of the service, and of what is
//! counted and shown of them.
#![tactic(auto)]

#[cfg(test)]
mod asking;
#[cfg(test)]
mod counting;
#[cfg(test)]
mod crowd;
#[cfg(test)]
mod crowded;
#[cfg(test)]
mod follow;
#[cfg(test)]
mod holding;
#[cfg(test)]
mod kept;
#[cfg(test)]
mod rows;
#[cfg(test)]
mod scenes;
#[cfg(test)]
mod serve;
#[cfg(test)]
mod slow;
#[cfg(test)]
mod trials;
