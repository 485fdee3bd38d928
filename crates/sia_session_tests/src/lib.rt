//! Tests of the session of a link, over a link in memory and a desk with few replies: frames that were spelled by hand, and a link
//! whose calls fail.
#![tactic(auto)]

#[cfg(test)]
mod desk;
#[cfg(test)]
mod talks;
