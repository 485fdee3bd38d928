//! Tests that cross crates: what comes in against what goes out, a table for each theme. Each case has its expected
//! values from outside of this repository's code.
#![tactic(auto)]

#[cfg(test)]
mod call;
#[cfg(test)]
mod configuration;
#[cfg(test)]
mod ledger;
#[cfg(test)]
mod prove;
#[cfg(test)]
mod root;
#[cfg(test)]
mod show;
