//! Tests of a host's disks that are opened, in memory: journals that were written down by hand from their form, and disks whose calls fail.
#![tactic(auto)]

#[cfg(test)]
mod openings;
