//! Tests of the running host, for what no contract says.
#![tactic(auto)]

#[cfg(test)]
mod numbers;
#[cfg(test)]
mod turn;
