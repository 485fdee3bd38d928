//! A module for each command: its form, its files, and its text.
pub mod ledger;
pub mod prove;
pub mod root;
pub mod show;
