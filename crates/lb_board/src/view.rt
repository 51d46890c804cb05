//! What a seat knows of its board.
use std::collections::LinkedList;

/// What clauses say of a seat. No value of it is made. Lists have the last entry first.
pub struct View<P> {
    /// The plan of the board.
    pub plan: P,
    /// The chapters that the seat drew.
    pub drawn: LinkedList<u64>,
    /// A draw of the seat found no chapter left.
    pub no_more: bool,
    /// A draw of the seat found the board halted.
    pub halted: bool,
    /// The seat halted the board.
    pub called: bool,
    /// The part that the seat has of the whole, which is 2^16 (a counting permission: Bornat, Calcagno, O'Hearn and Parkinson, Permission
    /// accounting in separation logic, 2005). A seat that has it all is the only one.
    pub allowance: u64,
    /// The chapter that the seat drew and has not posted.
    pub held: Option<u64>,
    /// The chapter that the seat is taking.
    pub taking: Option<u64>,
    /// The chapters that the seat took.
    pub taken: LinkedList<u64>,
    /// The chapters that the seat found not to be posted as it was to take them.
    pub missed: LinkedList<u64>,
}
