// Calls that draw.

/// What a call drew: a moment, or that no end was left.
#[derive(Clone, Copy)]
pub enum Call {
    Moment(u64),
    NoEnd,
}
