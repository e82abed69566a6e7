// The states of a store, and what a tending call has done.

// A store begins as new. A call that the power cuts off, and an open that is refused, leave it down.
#[derive(Clone, Copy, PartialEq, Eq, Debug, Drop)]
pub enum State {
    New,
    Open,
    Down,
}

// The step of upkeep that a tending call took: the root grew, a branch adopted a foster child, a branch was split, or none was due.
#[derive(Clone, Copy, PartialEq, Eq, Debug, Drop)]
pub enum Tended {
    Untended,
    Grown,
    Adopted,
    Split,
}
