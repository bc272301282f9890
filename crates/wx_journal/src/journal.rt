// The journal of a run.
ghost use Rattle.std.specs.Prelude.{◌≡◌, ◌+◌, ◌<◌, ◌≤◌, ◌^◌, ◌==◌, if◌then◌else◌, List, false, [], ◌∷◌, length, reverse, slice_get, vec_len, vec_capacity, OnOk, OnErr, IfOk};
ghost use Rattle.std.specs.List.{list_any};
ghost use Rattle.wx_journal.specs.declared.entry.Entry.{Entry as AnEntry};
ghost use Rattle.std.specs.Slice.Iter.{iter_rest};
ghost use Rattle.wx_journal.specs.Names.{names_ticket, names_child, names_back, names_item, ticket_count, child_count, back_count, item_count, next_job, was_made, makes};
ghost use Rattle.wx_journal.specs.Counted.{AreAllMade};
ghost use Rattle.wx_journal.specs.Owners.{owners};

use crate::entry::Entry;
use std::alloc::Global;
use std::marker::Model;
use std::slice;
use wx_control::Id;
use wx_text::Memory;

/// The entries of a journal, in the order in which they came.
pub type Entries<'a> = slice::Iter<'a, Entry>;

/// The entries of a run so far, and the job of each child that they spawn. Contracts see the entries, the newest first, and the
/// room that was taken for more.
#[derive(Drop)]
pub struct Journal {
    entries: Vec<Entry>,
    parents: Vec<Id>,
    room: u64,
    tickets: u64,
    children: u64,
    backs: u64,
    items: u64,
    next_job: u64,
    gaps: bool,
}

impl Model for Journal {
    ghost use Rattle.std.specs.Prelude.{reverse, ◌≡◌, ◌+◌, ◌≤◌, vec_len, vec_capacity};
    ghost use Rattle.wx_journal.specs.Written.{Written};
    ghost use Rattle.wx_journal.specs.Counted.{AreCounted};
    ghost use Rattle.wx_journal.specs.Owners.{owners};

    ghost Value = { Written };

    ghost view = { λ j. record { past = reverse j.entries.items; spare = j.room } };

    ghost invariant = { λ j.
        AreCounted j.tickets j.children j.backs j.items j.next_job j.gaps (reverse j.entries.items)
        × (j.parents.items ≡ owners (reverse j.entries.items))
        × (vec_len j.entries + j.room ≤ vec_capacity j.entries)
        × (vec_len j.parents + j.room ≤ vec_capacity j.parents) };
}

impl Journal {
    /// A journal without entries. It fails only for want of memory.
    pub fn new(alloc: Global) -> Result<Journal, Memory>
        ensures { IfOk result (λ journal. journal.past ≡ []) }
    {
        Ok(Journal {
            entries: Vec::new(alloc),
            parents: Vec::new(alloc),
            room: 0,
            tickets: 0,
            children: 0,
            backs: 0,
            items: 0,
            next_job: 0,
            gaps: false,
        })
    }

    /// Takes room for `n` entries more. It fails only for want of memory, and leaves the journal as it was then.
    pub fn reserve(&mut self, n: u64) -> Result<(), Memory>
        ensures same { self.new.past ≡ self.old.past }
        ensures room { OnOk result (n ≤ self.new.spare) }
        ensures kept { self.old.spare ≤ self.new.spare }
        ensures fits { length self.new.past + self.new.spare < 2 ^ 64 }
        ensures err { OnErr result (self.new ≡ self.old) }
    {
        if n <= self.room {
            return Ok(());
        }
        self.parents.reserve(n as usize)?;
        self.entries.reserve(n as usize)?;
        self.room = n;
        Ok(())
    }

    /// Adds an entry in room that was taken.
    pub fn push(&mut self, entry: Entry)
        requires { 1 ≤ self.old.spare }
        ensures past { self.new.past ≡ entry ∷ self.old.past }
        ensures room { self.new.spare + 1 ≡ self.old.spare }
    {
        self.tickets = counted(self.entries.as_slice(), self.tickets, names_ticket(&entry));
        self.children = counted(self.entries.as_slice(), self.children, names_child(&entry));
        self.backs = counted(self.entries.as_slice(), self.backs, names_back(&entry));
        self.items = counted(self.entries.as_slice(), self.items, names_item(&entry));
        self.gaps = has_gaps(self.gaps, self.next_job, &entry);
        self.next_job = next_job(self.next_job, &entry);
        keep_owner(&mut self.parents, &entry);
        self.room -= 1;
        self.entries.push_reserved(entry);
    }

    /// How many entries there is room for.
    pub fn spare(&self) -> u64
        ensures spare { result ≡ self.now.spare }
        ensures fits { length self.now.past + self.now.spare < 2 ^ 64 }
    {
        self.room
    }

    /// How many tickets have a name: the next one has this name.
    pub fn tickets(&self) -> u64
        ensures { result ≡ ticket_count self.now.past }
    {
        self.tickets
    }

    /// How many children have a name: the next one has this name.
    pub fn children(&self) -> u64
        ensures { result ≡ child_count self.now.past }
    {
        self.children
    }

    /// The job for which the child of this name was spawned, or was to be. There is none exactly where no child has this name.
    pub fn owner(&self, child: u64) -> Option<Id>
        ensures { result ≡ slice_get (owners self.now.past) child }
    {
        let place = child as usize;
        if place < self.parents.len() {
            Some(self.parents[place])
        } else {
            None
        }
    }

    /// How many backends have a name: the next one has this name.
    pub fn backs(&self) -> u64
        ensures { result ≡ back_count self.now.past }
    {
        self.backs
    }

    /// How many brought items have a name: the next one has this name.
    pub fn items(&self) -> u64
        ensures { result ≡ item_count self.now.past }
    {
        self.items
    }

    /// The id of the next new job, which is above each that was made.
    pub fn next_job(&self) -> u64
        ensures { result ≡ next_job self.now.past }
    {
        self.next_job
    }

    /// Whether a job of this id was made. It looks at the entries only where an id was left out.
    pub fn was_made(&self, id: Id) -> bool
        ensures { result ≡ was_made id self.now.past }
    {
        if self.next_job <= id.0 as u64 {
            return false;
        }
        !self.gaps || any_makes(self.entries.as_slice(), id)
    }

    /// How many entries there are.
    pub fn len(&self) -> u64
        ensures { result ≡ length self.now.past }
    {
        self.entries.len() as u64
    }

    /// Whether there is no entry.
    pub fn is_empty(&self) -> bool
        ensures { result ≡ (length self.now.past == 0) }
    {
        self.entries.is_empty()
    }

    /// The entries, in the order in which they came.
    pub fn as_slice(&self) -> &[Entry]
        ensures in_order { result.now ≡ reverse self.now.past }
        ensures newest_first { self.now.past ≡ reverse result.now }
    {
        self.entries.as_slice()
    }

    /// The entries one by one, in the order in which they came.
    pub fn iter(&self) -> Entries<'_>
        ensures { iter_rest result ≡ reverse self.now.past }
    {
        self.entries.iter()
    }
}

/// Whether this entry names a ticket.
fn names_ticket(entry: &Entry) -> bool
    ensures { result ≡ names_ticket entry.now }
{
    matches!(entry, Entry::Asked { .. })
}

/// Whether this entry names a child.
fn names_child(entry: &Entry) -> bool
    ensures { result ≡ names_child entry.now }
{
    matches!(entry, Entry::Spawn { .. })
}

/// Whether this entry names a backend.
fn names_back(entry: &Entry) -> bool
    ensures { result ≡ names_back entry.now }
{
    matches!(entry, Entry::Make { .. })
}

/// Whether this entry names a brought item.
fn names_item(entry: &Entry) -> bool
    ensures { result ≡ names_item entry.now }
{
    matches!(entry, Entry::Brought { .. })
}

/// Whether this entry tells that a job of this id was made.
fn makes(entry: &Entry, id: Id) -> bool
    ensures { result ≡ makes id entry.now }
{
    match entry {
        Entry::Made(job) => *job == id,
        _ => false,
    }
}

/// Whether one of these entries tells that a job of this id was made.
fn any_makes(entries: &[Entry], id: Id) -> bool
    ensures { result ≡ list_any (makes id) entries.now }
{
    entries.iter().any(|entry| makes(entry, id))
}

/// Keeps the job for which this entry spawns a child, where it does, in room that was taken.
fn keep_owner(kept: &mut Vec<Id>, entry: &Entry)
    requires { vec_len kept.old < vec_capacity kept.old }
    ensures items { (p : List AnEntry) → kept.old.items ≡ owners p → kept.new.items ≡ owners (entry.now ∷ p) }
    ensures len { vec_len kept.new ≤ vec_len kept.old + 1 }
    ensures capacity { vec_capacity kept.new ≡ vec_capacity kept.old }
{
    match entry {
        Entry::Spawn { job, .. } => kept.push_reserved(*job),
        _ => {}
    }
}

/// Whether an id was left out, behind this entry, where it was so before: one that makes a job above the next one does.
fn has_gaps(before: bool, next: u64, entry: &Entry) -> bool
    ensures { (p : List AnEntry) → next ≡ next_job p → (before ≡ false → AreAllMade p) → result ≡ false → AreAllMade (entry.now ∷ p) }
{
    match entry {
        Entry::Made(id) => before || next < id.0 as u64,
        _ => before,
    }
}

/// The id of the next new job, behind this entry, where it was this before.
fn next_job(before: u64, entry: &Entry) -> u64
    ensures { (p : List AnEntry) → before ≡ next_job p → result ≡ next_job (entry.now ∷ p) }
{
    match entry {
        Entry::Made(id) if before <= id.0 as u64 => id.0 as u64 + 1,
        _ => before,
    }
}

/// This count of some of the entries, with one more where that is so.
fn counted(entries: &[Entry], count: u64, more: bool) -> u64
    requires { count ≤ length entries.now }
    ensures { result ≡ (if more then count + 1 else count) }
{
    if more { count + 1 } else { count }
}
