//! What seats of the table know. These types are for the proofs alone: no value of them is made.
use std::collections::LinkedList;

/// What a pass knows: the desk as it was handed in, the numbers that the pass holds, and the turns that it has seen.
pub struct Known<D, A, B> {
    pub first: Option<D>,
    pub numbers: LinkedList<u64>,
    pub seen: LinkedList<(u64, Option<(A, B)>)>,
}

/// Where a seat is between two turns of its own.
pub enum Stage {
    Idle,
    /// It has a ticket.
    Waits(u64),
    /// Its ticket is due, and it has the desk.
    Serves(u64),
}

/// The view of a seat. What two passes knew when they were joined stands in `told` until a look compares it.
pub struct View<D, A, B> {
    pub known: Known<D, A, B>,
    pub told: LinkedList<Known<D, A, B>>,
    pub stage: Stage,
}
