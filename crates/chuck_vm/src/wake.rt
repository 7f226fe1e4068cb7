use ck_values::{Place, Trap};

/// A trap and its place.
#[derive(Clone, Copy, PartialEq, Eq)]
pub struct TrapAt {
    pub trap: Trap,
    pub place: Place,
}

/// A slice that ran: when, in samples, by the shred of which number, and with which trap.
#[derive(Clone, Copy, PartialEq, Eq)]
pub struct Wake {
    pub at: i64,
    pub shred: u64,
    pub trap: Option<TrapAt>,
}
