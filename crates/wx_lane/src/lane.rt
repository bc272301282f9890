// The lane, in which what backends brought waits for its turn.
ghost use Rattle.std.specs.Prelude.{◌≡◌, ◌<◌, ◌≤◌, ◌&&◌, ◌++◌, ◌∷◌, [], drop, length, nat_le, nat_lt, not, option_map, slice_get, take, true, IfOk, MatchOption, OnOk, OnErr};
ghost use Rattle.wx_scan.specs.Backings.{has_any, is_of_tree};
ghost use Rattle.wx_lane.specs.Messages.{has_changes as event_has_changes};
ghost use Rattle.wx_lane.specs.Lanes.{fenced, has_changes, hear, hear_first, is_event, is_full, is_unheard, is_waiting, put_item, waiting};
ghost use Rattle.wx_lane.specs.Kept.{is_to_be_heard, quiet, risen, RisesFrom};

use std::alloc::Global;
use std::collections::VecDeque;
use std::marker::Model;
use wx_events::{FileEventKind, ModifyKind};
use wx_notify::{Notify, NotifyPath};
use wx_text::Memory;
use wx_watch::NotifyFault;

/// What a backend brought.
pub struct LaneItem {
    pub name: u64,
    /// The number of the backend.
    pub back: u64,
    /// An event, or a fault.
    pub item: Result<Notify, NotifyFault>,
    /// Whether what it says of the tree was heard.
    pub heard: bool,
    /// Whether it is an event for which there was no room.
    pub full: bool,
}

// Its parts are dropped by one call: docs/DESIGN.md, "What proofs cost".
impl Drop for LaneItem {
    fn drop(self) {
        let LaneItem {
            name: _,
            back: _,
            item: _,
            heard: _,
            full: _,
        } = self;
    }
}

/// What backends brought, in order, until each is done with. Contracts see the items, and how many events may wait. Beside the items
/// it is kept how many wait, how many stand before the first that is to be heard, and whether names rise, so that a search for one
/// may be cut short.
#[derive(Drop)]
pub struct Lane {
    items: VecDeque<LaneItem>,
    size: u32,
    count: usize,
    before: usize,
    rising: bool,
}

impl Model for Lane {
    ghost use Rattle.wx_lane.specs.Lanes.{LaneState};
    ghost use Rattle.wx_lane.specs.Kept.{Kept};

    ghost Value = { LaneState };

    ghost view = { λ l. record { items = l.items.items; size = l.size } };

    ghost invariant = { λ l. Kept l.items.items l.size l.count l.before l.rising };
}

impl Lane {
    /// An empty lane in which so many events may wait. It takes no memory.
    pub fn new(alloc: Global, size: u32) -> Result<Lane, Memory>
        ensures { IfOk result (λ lane. lane ≡ record { items = []; size = size }) }
    {
        Ok(Lane {
            items: VecDeque::new(alloc),
            size,
            count: 0,
            before: 0,
            rising: true,
        })
    }

    /// Puts what a backend brought behind all others. The answer is false exactly where it is an event and as many events wait
    /// already as may; it is marked full then, and is kept only where it says something of the tree. It fails only for want of
    /// memory, and changes nothing then.
    pub fn put(
        &mut self,
        name: u64,
        back: u64,
        item: Result<Notify, NotifyFault>,
    ) -> Result<bool, Memory>
        ensures room { IfOk result (λ answer. answer ≡ not (is_full self.old item)) }
        ensures lane { OnOk result (self.new ≡ put_item name back item self.old) }
        ensures unchanged { OnErr result (self.new ≡ self.old) }
    {
        let full = is_event(&item) && self.count == self.size as usize;
        if full && !has_changes(&item) {
            return Ok(false);
        }
        self.join(LaneItem {
            name,
            back,
            item,
            heard: false,
            full,
        })?;
        Ok(!full)
    }

    /// An item joins behind all others, where there is room for it. It fails only for want of memory, and changes nothing then.
    fn join(&mut self, item: LaneItem) -> Result<(), Memory>
        requires { is_waiting item ≡ true → waiting self.old.items < self.old.size }
        ensures ok { OnOk result (self.new ≡ record self.old { items = self.old.items ++ item ∷ [] }) }
        ensures err { OnErr result (self.new ≡ self.old) }
    {
        let waits = waits(&item);
        let rising = rises(self.rising, item.name, &self.items);
        self.items.push_back(item)?;
        self.count += waits;
        self.rising = rising;
        self.before = quiet(self.before, &self.items);
        Ok(())
    }

    /// The first item. There is none exactly where the lane is empty.
    pub fn first(&self) -> Option<&LaneItem>
        ensures { option_map (λ i. i.now) result ≡ slice_get self.now.items 0 }
    {
        self.items.front()
    }

    /// The first item with a name below this one that wasn't heard, and that says something of the tree or is a fault. There is
    /// none exactly where no item is such a one.
    pub fn fence(&self, below: u64) -> Option<&LaneItem>
        ensures { option_map (λ i. i.now) result ≡ fenced below self.now.items }
    {
        let Some(first) = self.items.get(self.before) else {
            return None;
        };
        if first.name < below {
            return Some(first);
        }
        if self.rising {
            return None;
        }
        fenced(below, &self.items)
    }

    /// The item of this name was heard, where there is one: it is marked, and leaves where it is a fault or full.
    pub fn hear(&mut self, name: u64)
        ensures { self.new ≡ record self.old { items = hear name self.old.items } }
    {
        if let Some(i) = place(self.rising, name, &self.items) {
            hear_at(i, &mut self.items);
            self.before = quiet(self.before.min(i), &self.items);
        }
    }

    /// Takes the first item out. There is none exactly where the lane is empty.
    pub fn take(&mut self) -> Option<LaneItem>
        ensures first { result ≡ slice_get self.old.items 0 }
        ensures rest { self.new ≡ record self.old { items = drop 1 self.old.items } }
    {
        let Some(first) = self.items.pop_front() else {
            return None;
        };
        self.count -= waits(&first);
        self.before = quiet(self.before.saturating_sub(1), &self.items);
        Some(first)
    }
}

/// Whether what was brought is an event.
fn is_event(item: &Result<Notify, NotifyFault>) -> bool
    ensures { result ≡ is_event item.now }
{
    match item {
        Ok(_) => true,
        Err(_) => false,
    }
}

/// Whether such an event may have changed which paths there are.
fn is_of_tree(kind: FileEventKind) -> bool
    ensures { result ≡ is_of_tree kind }
{
    match kind {
        FileEventKind::Access(_) => false,
        FileEventKind::Modify(ModifyKind::Name(_)) => true,
        FileEventKind::Modify(ModifyKind::Any) => false,
        FileEventKind::Modify(ModifyKind::Data(_)) => false,
        FileEventKind::Modify(ModifyKind::Metadata(_)) => false,
        FileEventKind::Modify(ModifyKind::Other) => false,
        FileEventKind::Any
        | FileEventKind::Create(_)
        | FileEventKind::Remove(_)
        | FileEventKind::Other => true,
    }
}

/// Whether some path is named.
fn has_any(paths: &[NotifyPath]) -> bool
    ensures { result ≡ has_any paths.now }
{
    match paths {
        [] => false,
        [_, ..] => true,
    }
}

/// Whether this notification says something of the tree.
#[tactic(auto, using(crate::proofs::MessageLemmas::messages_where_told))]
fn event_has_changes(n: &Notify) -> bool
    ensures { result ≡ event_has_changes n.now }
{
    n.rescan || (is_of_tree(n.kind) && has_any(n.paths.as_slice()))
}

/// Whether what was brought is an event that says something of the tree.
fn has_changes(item: &Result<Notify, NotifyFault>) -> bool
    ensures { result ≡ has_changes item.now }
{
    match item {
        Ok(n) => event_has_changes(n),
        Err(_) => false,
    }
}

/// Whether the item is an event that isn't full.
fn is_waiting(item: &LaneItem) -> bool
    ensures { result ≡ is_waiting item.now }
{
    is_event(&item.item) && !item.full
}

/// How many of this one item wait.
fn waits(item: &LaneItem) -> usize
    ensures { result ≡ waiting (item.now ∷ []) }
{
    if is_waiting(item) { 1 } else { 0 }
}

/// Whether the item wasn't heard, and says something of the tree or is a fault.
fn is_to_be_heard(item: &LaneItem) -> bool
    ensures { result ≡ is_to_be_heard item.now }
{
    !item.heard && (has_changes(&item.item) || !is_event(&item.item))
}

/// Whether the item has a name below this one, and is to be heard.
fn is_unheard(below: u64, item: &LaneItem) -> bool
    ensures { result ≡ is_unheard below item.now }
{
    item.name < below && is_to_be_heard(item)
}

/// Whether names rise, and go on rising where one of this name joins.
fn rises(rising: bool, name: u64, items: &VecDeque<LaneItem>) -> bool
    ensures { result ≡ (rising && nat_le (risen 0 items.now.items) name) }
{
    match items.back() {
        None => rising,
        Some(last) => rising && last.name < name,
    }
}

/// How many stand before the first that is to be heard, where at least so many do.
fn quiet(least: usize, items: &VecDeque<LaneItem>) -> usize
    requires { least ≤ quiet items.now.items }
    ensures { result ≡ quiet items.now.items }
{
    let n = items.len();
    for i in least..n {
        if is_to_be_heard(&items[i]) {
            return i;
        }
    }
    n
}

/// The first of these that has a name below this one and is to be heard.
fn fenced(below: u64, items: &VecDeque<LaneItem>) -> Option<&LaneItem>
    ensures { option_map (λ i. i.now) result ≡ fenced below items.now.items }
{
    let n = items.len();
    for i in 0..n {
        let item = &items[i];
        if is_unheard(below, item) {
            return Some(item);
        }
    }
    None
}

/// Where the first item of this name stands, in lanes whose names may rise.
fn place(rising: bool, name: u64, items: &VecDeque<LaneItem>) -> Option<usize>
    requires { rising ≡ true → RisesFrom 0 items.now.items }
    ensures { MatchOption result (hear name items.now.items ≡ items.now.items) (λ i. (i < length items.now.items) × (hear name items.now.items ≡ take i items.now.items ++ hear_first (drop i items.now.items))) }
{
    if rising {
        place_risen(name, items)
    } else {
        place_any(name, items)
    }
}

/// Where the item of this name stands, where names rise.
fn place_risen(name: u64, items: &VecDeque<LaneItem>) -> Option<usize>
    requires { RisesFrom 0 items.now.items }
    ensures { MatchOption result (hear name items.now.items ≡ items.now.items) (λ i. (i < length items.now.items) × (hear name items.now.items ≡ take i items.now.items ++ hear_first (drop i items.now.items))) }
{
    let i = items.partition_point(
        |item: &LaneItem| -> bool
            ensures { result ≡ nat_lt item.now.name name }
        { item.name < name },
    );
    match items.get(i) {
        Some(item) if item.name == name => Some(i),
        _ => None,
    }
}

/// Where the first item of this name stands.
fn place_any(name: u64, items: &VecDeque<LaneItem>) -> Option<usize>
    ensures { MatchOption result (hear name items.now.items ≡ items.now.items) (λ i. (i < length items.now.items) × (hear name items.now.items ≡ take i items.now.items ++ hear_first (drop i items.now.items))) }
{
    let n = items.len();
    for i in 0..n {
        if items[i].name == name {
            return Some(i);
        }
    }
    None
}

/// The item at this index is marked heard, and leaves where it doesn't wait.
fn hear_at(i: usize, items: &mut VecDeque<LaneItem>)
    requires { i < length items.old.items }
    ensures { items.new.items ≡ take i items.old.items ++ hear_first (drop i items.old.items) }
{
    if is_waiting(&items[i]) {
        items[i].heard = true;
    } else {
        items.remove(i);
    }
}
