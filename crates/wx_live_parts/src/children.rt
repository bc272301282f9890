// Children that run.
ghost use Rattle.std.specs.Prelude.{◌≡◌, false, is_err};
ghost use Rattle.wx_journal.specs.Told.{Counts};

use crate::child::NamedChild;
use crate::codes::{NO_CHILD, code_of_memory};
use std::alloc::Global;
use std::process::Processes;
use wx_command::Spawnable;
use wx_events::ProcessEnd;
use wx_journal::HostFault;

/// The children that weren't waited for yet, in the order in which they were spawned, and how often a call on one failed.
pub struct Children<R: Processes + Drop> {
    rt: R,
    alloc: Global,
    children: Vec<NamedChild<R>>,
    faults: u64,
}

// Its parts are dropped by one call: docs/DESIGN.md, "What proofs cost".
impl<R: Processes + Drop> Drop for Children<R> {
    fn drop(self) {
        let Children {
            rt: _,
            alloc: _,
            children: _,
            faults: _,
        } = self;
    }
}

/// The child of this name, or the code of the fault that there is none.
fn child_of<R: Processes>(
    children: &mut [NamedChild<R>],
    name: u64,
) -> Result<&mut NamedChild<R>, u32> {
    for child in children.iter_mut() {
        if child.name == name {
            return Ok(child);
        }
    }
    Err(NO_CHILD)
}

fn signal_child<R: Processes>(
    rt: &R,
    alloc: Global,
    children: &mut [NamedChild<R>],
    name: u64,
    number: i32,
) -> Result<(), u32> {
    child_of(children, name)?.signal(rt, alloc, number)
}

fn kill_child<R: Processes>(children: &mut [NamedChild<R>], name: u64) -> Result<(), u32> {
    child_of(children, name)?.kill()
}

fn wait_for<R: Processes>(children: &mut [NamedChild<R>], name: u64) -> Result<ProcessEnd, u32> {
    child_of(children, name)?.wait()
}

fn first_end<R: Processes>(children: &mut [NamedChild<R>]) -> Option<u64> {
    for child in children.iter_mut() {
        if child.tells_end() {
            return Some(child.name);
        }
    }
    None
}

fn has_end<R: Processes>(children: &mut [NamedChild<R>]) -> bool {
    for child in children.iter_mut() {
        if child.has_end_to_tell() {
            return true;
        }
    }
    false
}

impl<R: Processes + Drop> Children<R> {
    /// None yet.
    pub fn new(rt: R, alloc: Global) -> Children<R>
        ensures { result.faults ≡ 0 }
    {
        Children {
            rt,
            alloc,
            children: Vec::new(alloc),
            faults: 0,
        }
    }

    /// How often a call failed. It ends at the greatest number.
    pub fn faults(&self) -> u64
        ensures { result ≡ self.now.faults }
    {
        self.faults
    }

    /// Counts whether a call failed.
    fn count(&mut self, failed: bool)
        ensures { Counts failed self.old.faults self.new.faults }
    {
        if failed {
            self.faults = self.faults.saturating_add(1);
        }
    }

    /// Counts whether a call failed, and answers as it did.
    fn counted<T>(&mut self, answer: Result<T, u32>) -> Result<T, HostFault>
        ensures { Counts (is_err result) self.old.faults self.new.faults }
    {
        match answer {
            Ok(value) => Ok(value),
            Err(code) => {
                self.count(true);
                Err(HostFault(code))
            }
        }
    }

    /// Spawns a child of this name.
    pub fn spawn(&mut self, name: u64, what: &Spawnable) -> Result<(), HostFault>
        ensures { Counts (is_err result) self.old.faults self.new.faults }
    {
        let answer = self.start(name, what);
        self.counted(answer)
    }

    fn start(&mut self, name: u64, what: &Spawnable) -> Result<(), u32>
        ensures { self.new.faults ≡ self.old.faults }
    {
        if let Err(error) = self.children.reserve(1) {
            return Err(code_of_memory(error));
        }
        let child = NamedChild::start(&self.rt, self.alloc, name, what)?;
        self.children.push_reserved(child);
        Ok(())
    }

    /// Sends the signal of this number to a child.
    pub fn signal(&mut self, name: u64, number: i32) -> Result<(), HostFault>
        ensures { Counts (is_err result) self.old.faults self.new.faults }
    {
        let children = self.children.as_mut_slice();
        let answer = signal_child(&self.rt, self.alloc, children, name, number);
        self.counted(answer)
    }

    /// Kills a child.
    pub fn kill(&mut self, name: u64) -> Result<(), HostFault>
        ensures { Counts (is_err result) self.old.faults self.new.faults }
    {
        let answer = kill_child(self.children.as_mut_slice(), name);
        self.counted(answer)
    }

    /// Waits until a child ends, and answers how. It is forgotten then.
    pub fn wait(&mut self, name: u64) -> Result<ProcessEnd, HostFault>
        ensures { Counts (is_err result) self.old.faults self.new.faults }
    {
        match wait_for(self.children.as_mut_slice(), name) {
            Ok(end) => {
                self.forget(name);
                Ok(end)
            }
            Err(code) => self.counted(Err(code)),
        }
    }

    /// Kills a child without waiting, and forgets it.
    pub fn let_go(&mut self, name: u64)
        ensures { Counts false self.old.faults self.new.faults }
    {
        let answer = kill_child(self.children.as_mut_slice(), name);
        self.count(answer.is_err());
        self.forget(name);
    }

    fn forget(&mut self, name: u64)
        ensures { self.new.faults ≡ self.old.faults }
    {
        self.children.retain(|child| child.name != name);
    }

    /// The first that has ended, where that wasn't told yet.
    pub fn ended(&mut self) -> Option<u64>
        ensures { self.new.faults ≡ self.old.faults }
    {
        first_end(self.children.as_mut_slice())
    }

    /// Whether one has ended, and that wasn't told yet.
    pub fn has_end_to_tell(&mut self) -> bool
        ensures { self.new.faults ≡ self.old.faults }
    {
        has_end(self.children.as_mut_slice())
    }

    /// Whether there is one whose end wasn't told yet.
    pub fn has_untold(&self) -> bool {
        self.children.iter().any(|child| !child.is_told())
    }
}
