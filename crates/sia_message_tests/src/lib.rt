//! Tests of messages, links and frames: messages that were spelled by hand, frames that reads cut at each place, and real
//! connections.
#![tactic(auto)]

#[cfg(test)]
mod cuts;
#[cfg(test)]
mod frames;
#[cfg(test)]
mod messages;
#[cfg(test)]
mod tcp;
