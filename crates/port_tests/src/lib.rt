//! Tests by the public calls of the units, the tables and the slave: worked values, and what is answered call by call.
#![tactic(auto)]

#[cfg(test)]
mod last_exchange;
#[cfg(test)]
mod slave;
#[cfg(test)]
mod tables;
#[cfg(test)]
mod units;
#[cfg(test)]
mod values;
