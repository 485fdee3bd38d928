//! Tests of payments, coin choice, formations and renewals, a table for each theme. The expected values are worked out by hand
//! from the rules.
#![tactic(auto)]

#[cfg(test)]
mod contracts;
#[cfg(test)]
mod fixtures;
#[cfg(test)]
mod forming;
#[cfg(test)]
mod paying;
