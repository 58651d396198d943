//! Tests that cross crates. Without threads: plain programs of the definitions beside the policy's calls that are proved of
//! them, over drawn entries; what ledgers share; texts over streams that come in pieces and fail; and the printed forms of
//! refusals and faults. With threads: bells; boards under two threads; what stations lay down on a board's shelf; and
//! clusters. A test of a cluster is a list of steps (`scenes`), which `acting` and `deeds` do: what its gate is told
//! (`stages`), what its sessions ask and are answered, and what is left. Others are a script of sessions over links that lose
//! and repeat, and three client threads, whose cluster is played again in a world. Nothing here is used by the other crates.
#![tactic(auto)]

#[cfg(test)]
mod acting;
#[cfg(test)]
mod bells;
#[cfg(test)]
mod boards;
#[cfg(test)]
mod comparing;
#[cfg(test)]
mod deeds;
#[cfg(test)]
mod drawing;
#[cfg(test)]
mod entered;
#[cfg(test)]
mod entering;
#[cfg(test)]
mod going_on;
#[cfg(test)]
mod ledgers;
#[cfg(test)]
mod left;
#[cfg(test)]
mod lossy;
#[cfg(test)]
mod plain;
#[cfg(test)]
mod plain_events;
#[cfg(test)]
mod playing;
#[cfg(test)]
mod printing;
#[cfg(test)]
mod replaying;
#[cfg(test)]
mod scenes;
#[cfg(test)]
mod shelves;
#[cfg(test)]
mod stages;
#[cfg(test)]
mod streams;
#[cfg(test)]
mod texts;
#[cfg(test)]
mod threads;

/// The crate has tests alone; a library has to have an item.
pub const TESTS_ALONE: bool = true;
