//! Tests by the public calls of the codec and the ports: which octets they write and take, worked by hand.
#![tactic(auto)]

#[cfg(test)]
mod clock;
#[cfg(test)]
mod codec;
#[cfg(test)]
mod master;
#[cfg(test)]
mod slave;
#[cfg(test)]
mod values;
