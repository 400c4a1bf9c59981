//! Tests by the public calls of networks, worlds and the checker: what no schedule and no transcript can tell.
#![tactic(auto)]

#[cfg(test)]
mod checker_memory;
#[cfg(test)]
mod nodes;
#[cfg(test)]
mod worked_exchange;
#[cfg(test)]
mod world_memory;
#[cfg(test)]
mod worlds;
