//! Tests of records, identifiers, amounts and signatures, a table for each theme. Each case has its expected values from
//! outside of this repository's code: from the rules by hand, or from a Python script over hashlib.
#![tactic(auto)]

#[cfg(test)]
mod ids;
#[cfg(test)]
mod rules;
#[cfg(test)]
mod signs;
#[cfg(test)]
mod types;
