//! Tests of the act of a host over its two disks, in memory: what it leaves around a call of a disk that fails.
#![tactic(auto)]

#[cfg(test)]
mod acts;
