//! What a pass knows. No value of these types is made.

use std::collections::LinkedList;

/// Where a pass is.
pub enum Stage {
    Outside,
    /// It has drawn this ticket.
    Waiting(u64),
    /// It has drawn this ticket, which is served, and has taken the value.
    Inside(u64),
    /// It may put the first value in. Its ticket is the first.
    Opening(u64),
}

/// What a pass knows of the list, and how many passes it stands for.
pub struct View<E> {
    pub stage: Stage,
    pub seen: LinkedList<E>,
    /// The shorter list of the last join, of which nothing is known until both are compared.
    pub other: LinkedList<E>,
    /// The own entries, each with its position.
    pub own: LinkedList<(u64, E)>,
    pub parts: u64,
    pub rest: u64,
}
