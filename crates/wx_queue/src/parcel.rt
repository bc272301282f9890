// What is sent, and what lies in the queue.
ghost use Rattle.std.specs.Prelude.{◌≡◌};

/// An item that was sent: the pass that sent it, and its number among those that this pass sent.
#[derive(Drop, Debug, Clone, Copy, PartialEq, Eq)]
pub struct Sent<I> {
    pub pass: u32,
    pub seq: u64,
    pub item: I,
}

/// What is sent: an item, two more of the same, made before it is sent, and what tells that it is done.
#[derive(Drop)]
pub struct Parcel<I, F> {
    pub item: I,
    pub second: I,
    pub third: I,
    pub done: F,
    pub ghost second_same: { second ≡ item },
    pub ghost third_same: { third ≡ item },
}

// What lies in the queue.
#[derive(Drop)]
pub(crate) struct Queued<I, F> {
    pub(crate) sent: Sent<I>,
    pub(crate) second: I,
    pub(crate) third: I,
    pub(crate) done: F,
    pub(crate) ghost second_same: { second ≡ sent.item },
    pub(crate) ghost third_same: { third ≡ sent.item },
}
