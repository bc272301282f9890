// What a recursor holds.
ghost use Rattle.std.specs.Prelude.{◌≡◌};
ghost use Rattle.wx_recursor.specs.Calls.{fresh};
ghost use Rattle.wx_holding.specs.Holding.{state_of};

use std::alloc::Global;
use std::collections::VecDeque;
use wx_index::{KnownList, OwnerList};
use wx_recursor::{BackendPlace, GuardWatch, Retry, ShownError, Work};
use wx_tree::{Place, Root};

/// What a recursor holds beside its backend.
pub struct Held {
    pub roots: Vec<Root>,
    pub filter: u32,
    pub queue: VecDeque<Work>,
    pub sweep_due: bool,
    pub owners: OwnerList,
    pub known: KnownList,
    pub guards: Vec<GuardWatch>,
    pub registrations: KnownList,
    pub waiting: KnownList,
    pub retries: Vec<Retry>,
    pub failed: Vec<Place>,
    pub skipped: Vec<Place>,
    pub stopped: bool,
    pub excluded: Vec<Place>,
    pub tombstones: Vec<Place>,
    pub lost: Vec<Place>,
    pub deferred: bool,
    pub asks_rebuild: bool,
    pub shown: Vec<ShownError>,
    pub backend: BackendPlace,
}

// Its parts are dropped by one call: docs/DESIGN.md, "What proofs cost".
impl Drop for Held {
    fn drop(self) {
        let Held {
            roots: _,
            filter: _,
            queue: _,
            sweep_due: _,
            owners: _,
            known: _,
            guards: _,
            registrations: _,
            waiting: _,
            retries: _,
            failed: _,
            skipped: _,
            stopped: _,
            excluded: _,
            tombstones: _,
            lost: _,
            deferred: _,
            asks_rebuild: _,
            shown: _,
            backend: _,
        } = self;
    }
}

impl Held {
    /// What a new recursor holds. It takes no memory.
    pub fn new(alloc: Global) -> Held
        ensures state { state_of result ≡ fresh }
    {
        Held {
            roots: Vec::new(alloc),
            filter: 0,
            queue: VecDeque::new(alloc),
            sweep_due: false,
            owners: OwnerList::new(alloc),
            known: KnownList::new(alloc),
            guards: Vec::new(alloc),
            registrations: KnownList::new(alloc),
            waiting: KnownList::new(alloc),
            retries: Vec::new(alloc),
            failed: Vec::new(alloc),
            skipped: Vec::new(alloc),
            stopped: false,
            excluded: Vec::new(alloc),
            tombstones: Vec::new(alloc),
            lost: Vec::new(alloc),
            deferred: false,
            asks_rebuild: false,
            shown: Vec::new(alloc),
            backend: BackendPlace::Installed,
        }
    }
}
