// The jobs that a worker holds, and those that an action sees.
ghost use Rattle.std.specs.Prelude.{◌≡◌, [], ◌∷◌, ◌++◌, ◌+◌, ◌*◌, ◌≤◌, true, is_some, length, None, Some, option_map, IfOk, OnOk, OnErr};
ghost use Rattle.std.specs.Borrow.{sem};
ghost use Rattle.std.specs.List.{find, filter, list_any};
ghost use Rattle.std.specs.Iterator.{YieldsFirstBy, item_count};
ghost use Rattle.wx_journal.specs.Names.{NamesItsOwn};
ghost use Rattle.wx_hooks.specs.HeldJobs.{is_of, is_here, living_ids, is_alive, runs_in, handles, task_of, with_held, parked_at};
ghost use Rattle.wx_hooks.specs.LentTask.{LendsTask};
ghost use Rattle.wx_hooks.specs.EndsJobs.{EndsJobs};
ghost use Rattle.wx_hooks.specs.JobsStand.{JobsStand};
ghost use Rattle.wx_machine.specs.Start.{Start};

use crate::held::Held;
use std::alloc::Global;
use std::collections::{BTreeMap, btree_map};
use std::marker::Model;
use wx_control::{Id, Job};
use wx_job::{Host, JobTask};
use wx_journal::Journal;
use wx_text::Memory;

/// The jobs that a worker holds, each under its id, and the id of one that lived when it was noted, by which it is found soon
/// whether any lives. Contracts see what is held of each, by rising id.
#[derive(Drop)]
pub struct JobList {
    items: BTreeMap<Id, Held>,
    noted: Id,
}

impl Model for JobList {
    ghost use Rattle.std.specs.Prelude.{List};
    ghost use Rattle.wx_hooks.specs.declared.held.Held.{Held};

    ghost Value = { List Held };

    ghost use Rattle.std.specs.BTreeMap.{values};
    ghost use Rattle.wx_hooks.specs.HeldJobs.{AreUnderIds};

    ghost view = { λ j. values j.items };

    ghost invariant = { λ j. AreUnderIds j.items.entries };
}

/// Adds the id of a job behind these, where it isn't gone. It fails only for want of memory.
fn push_living(ids: &mut Vec<Id>, held: &Held) -> Result<(), Memory>
    ensures { OnOk result (ids.new.items ≡ ids.old.items ++ living_ids (held.now ∷ [])) }
{
    if !held.is_here() {
        return Ok(());
    }
    let id = held.handle.id();
    ids.push(id)?;
    Ok(())
}

impl JobList {
    /// No job. It takes no memory.
    pub fn new(alloc: Global) -> JobList
        ensures { result ≡ [] }
    {
        JobList {
            items: BTreeMap::new(alloc),
            noted: Id(0),
        }
    }

    /// How many jobs are held.
    pub fn len(&self) -> usize
        ensures { result ≡ length self.now }
    {
        self.items.len()
    }

    /// What is held of the job of this id, where it is held.
    pub fn get(&self, id: Id) -> Option<&Held>
        ensures { option_map (λ h. h.now) result ≡ find (is_of id) self.now }
    {
        self.items.get(&id)
    }

    /// Whether the job of this id is held, and isn't gone.
    pub fn lives(&self, id: Id) -> bool
        ensures { result ≡ is_alive (find (is_of id) self.now) }
    {
        match self.get(id) {
            Some(held) => held.is_here(),
            None => false,
        }
    }

    /// Whether a job that is held isn't gone. All are looked at only where the one that was noted is.
    pub fn any_lives(&self) -> bool
        ensures { result ≡ list_any is_here self.now }
    {
        if self.lives(self.noted) {
            return true;
        }
        self.items.values().any(|held| held.is_here())
    }

    /// Notes a job that lives: the one that was noted, while it does, and then the next one by its id.
    pub fn note_living(&mut self)
        ensures { self.new ≡ self.old }
    {
        if self.lives(self.noted) {
            return;
        }
        let next = self
            .items
            .range(self.noted..)
            .find(|entry| entry.1.is_here());
        if let Some((id, _)) = next {
            self.noted = *id;
        }
    }

    /// The ids of the jobs that aren't gone, rising. It fails only for want of memory.
    pub fn living(&self, alloc: Global) -> Result<Vec<Id>, Memory>
        ensures { IfOk result (λ ids. ids.items ≡ living_ids self.now) }
    {
        let mut ids = Vec::new(alloc);
        for held in self.items.values() {
            push_living(&mut ids, held)?;
        }
        Ok(ids)
    }

    /// How many tickets are parked at the job of this id: none, where it isn't held.
    pub fn parked(&self, id: Id) -> u64
        ensures { result ≡ parked_at id self.now }
    {
        match self.get(id) {
            Some(held) => held.task.parked(),
            None => 0,
        }
    }

    /// Whether this child is that of the job of this id, and runs.
    pub fn runs(&self, id: Id, child: u64) -> bool
        ensures { result ≡ runs_in child (find (is_of id) self.now) }
    {
        match self.get(id) {
            Some(held) => held.runs(child),
            None => false,
        }
    }

    /// The task of the job of this id, which is held. All else stays.
    pub fn task_mut(&mut self, id: Id) -> &mut JobTask
        requires held { is_some (find (is_of id) self.old) ≡ true }
        ensures* lends { sem 𝓛 (LendsTask self.entry id result) }
        ensures task { option_map task_of (find (is_of id) self.old) ≡ Some result.now }
    {
        let Some(held) = self.items.get_mut(&id) else {
            unreachable!()
        };
        &mut held.task
    }

    /// Adds a job whose id isn't held, at the place of its id among rising ones. It fails only for want of memory, and adds
    /// none then.
    pub fn add(&mut self, held: Held) -> Result<(), Memory>
        requires new { find (is_of held.handle.id) self.old ≡ None }
        ensures added { OnOk result (self.new ≡ with_held held self.old) }
        ensures len { OnOk result (length self.new ≡ length self.old + 1) }
        ensures err { OnErr result (self.new ≡ self.old) }
    {
        let id = held.handle.id();
        self.items.insert(id, held)?;
        Ok(())
    }

    /// The jobs that are gone leave.
    pub fn leave_gone(&mut self)
        ensures here { self.new ≡ filter is_here self.old }
        ensures fewer { length self.new ≤ length self.old }
    {
        self.items.retain(|_, held| held.is_here());
    }

    /// The jobs, by rising id, each with the handle on it.
    pub fn iter(&self) -> Jobs<'_>
        ensures { result ≡ handles self.now }
    {
        Jobs {
            held: self.items.values(),
        }
    }

    /// The end of all jobs: each that lives is gone, by rising id, and its child is let go. None is held any more. It takes
    /// no memory: the room for it was kept.
    pub fn end_all<W: Host>(&mut self, host: &mut W, journal: &mut Journal)
        ghost start: { Start }
        requires stand { JobsStand journal.old.past self.old }
        requires own { NamesItsOwn journal.old.past }
        requires room { 2 * length self.old ≤ journal.old.spare }
        requires host_room { 2 * length self.old ≤ (W.seen host.old).spare }
        ensures ends { EndsJobs start journal.old.past (W.seen host.old) journal.new.past (W.seen host.new) }
        ensures left { self.new ≡ [] }
    {
        while let Some((_, mut held)) = self.items.pop_first() {
            held.task.end(host, journal);
        }
    }
}

/// The jobs that an action sees, by rising id, each with the handle on it. Contracts see those that are left.
#[derive(Drop)]
pub struct Jobs<'a> {
    held: btree_map::Values<'a, Id, Held>,
}

impl<'a> Model for Jobs<'a> {
    ghost use Rattle.std.specs.Prelude.{List};
    ghost use Rattle.wx_control.specs.declared.id.Id.{Id};
    ghost use Rattle.wx_control.specs.declared.job.Job.{Job};

    ghost Value = { List (Id × Job) };

    ghost use Rattle.wx_hooks.specs.HeldJobs.{handles};

    ghost view = { λ j. handles j.held };
}

impl<'a> Iterator for Jobs<'a> {
    type Item = (Id, &'a Job);

    ghost next_gives = { YieldsFirstBy (λ item. (item.0, item.1.now)) (λ rest. rest) };

    ghost remaining = { item_count (λ rest. rest) };

    fn next(&mut self) -> Option<(Id, &'a Job)> {
        let held = self.held.next()?;
        Some((held.handle.id(), &held.handle))
    }
}
