//! Tests of sources, sinks, disks, journals and shelves, a table for each theme: what no clause says of them,
//! above all what the system does, and which bytes stand where.
#![tactic(auto)]

#[cfg(test)]
mod edge_disks;
#[cfg(test)]
mod edge_memory;
#[cfg(test)]
mod edge_streams;
#[cfg(test)]
mod journal_files;
#[cfg(test)]
mod shelf_sectors;
