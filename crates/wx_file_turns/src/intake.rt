// What is kept of what backends brought.
ghost use Rattle.std.specs.Prelude.{◌≡◌, IfOk};
ghost use Rattle.wx_machine.specs.Files.{asked};
ghost use Rattle.wx_file_turns.specs.Intake.{begun, heard, left, nothing_brought, stepped, told};

use std::alloc::Global;
use wx_lane::Lane;
use wx_text::Memory;

/// What backends brought and isn't done with. With it is kept: the revision of which it is to be told that all is watched, where it
/// is; the least name of the backends that are live beside the one that stands; below which name all that was brought is heard before
/// it is told; and whether that name stands, or may still rise.
#[derive(Drop)]
pub struct Intake {
    pub lane: Lane,
    pub asks: Option<u64>,
    pub since: u64,
    pub fence: u64,
    pub fenced: bool,
}

/// Of which revision it is to be told that all is watched: of none that is the first.
fn asked(revision: u64) -> Option<u64>
    ensures { result ≡ asked revision }
{
    if revision == 0 { None } else { Some(revision) }
}

impl Intake {
    /// Nothing was brought. So many events may wait. It fails only for want of memory.
    pub(crate) fn new(alloc: Global, size: u32) -> Result<Intake, Memory>
        ensures { IfOk result (λ intake. intake ≡ nothing_brought size) }
    {
        Ok(Intake {
            lane: Lane::new(alloc, size)?,
            asks: None,
            since: 0,
            fence: 0,
            fenced: false,
        })
    }

    /// Settings of this revision were applied, where so many backends and items have a name. Where the same is watched in the same
    /// way, the backends that are live still are.
    pub(crate) fn begin(&mut self, revision: u64, same: bool, backs: u64, items: u64)
        ensures { self.new ≡ begun revision same backs items self.old }
    {
        self.asks = asked(revision);
        if !same {
            self.since = backs;
        }
        self.fence = items;
        self.fenced = false;
    }

    /// A step was done, where so many items have a name.
    pub(crate) fn step(&mut self, items: u64)
        ensures { self.new ≡ stepped items self.old }
    {
        if !self.fenced {
            self.fence = items;
        }
    }

    /// The item of this name was heard.
    pub(crate) fn hear(&mut self, item: u64)
        ensures { self.new ≡ heard item self.old }
    {
        self.lane.hear(item);
        self.fenced = true;
    }

    /// The first item leaves.
    pub(crate) fn leave(&mut self)
        ensures { self.new ≡ left self.old }
    {
        let _first = self.lane.take();
    }

    /// It was told that all is watched.
    pub(crate) fn tell(&mut self)
        ensures { self.new ≡ told self.old }
    {
        self.asks = None;
    }
}
