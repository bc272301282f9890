// What a recursor makes of changes of the tree.
ghost use Rattle.std.specs.Prelude.{◌≡◌, true, false, OnErr, OnOk};
ghost use Rattle.wx_holding.specs.Holding.{state_of};
ghost use Rattle.wx_lane.specs.Public.{named};
ghost use Rattle.wx_recursor.specs.Calls.{created, removed, renamed, unsure};

use crate::recursor::Recursor;
use crate::rooting::named;
use wx_scan::Backend;
use wx_text::Memory;
use wx_topology::{be_unsure, create, remove, rename};
use wx_words::TextPath;

impl<B: Backend + Drop> Recursor<B> {
    /// Something was created at this path, which is made absolute by the folder, and normalised. At each path that stands for the
    /// same, what is owned at or below it goes, the guards and roots there are queued, and it is a candidate of each recursive
    /// root that owns its parent. It fails only for want of memory, and changes nothing then.
    pub fn topology_create(&mut self, p: &TextPath) -> Result<(), Memory>
        ensures state { OnOk result (state_of self.new.held ≡ created (named self.old.cwd p.now) (state_of self.old.held)) }
        ensures unchanged { OnErr result (state_of self.new.held ≡ state_of self.old.held) }
        ensures spent { OnOk result (self.old.spent ≡ false) }
        ensures idle { self.old.spent ≡ true → self.new ≡ self.old }
        ensures others { (self.new.back ≡ self.old.back) × (self.new.kind ≡ self.old.kind) × (self.new.follow ≡ self.old.follow) × (self.new.cwd ≡ self.old.cwd) × (self.new.spent ≡ self.old.spent) }
    {
        if self.spent {
            return Err(Memory);
        }
        let place = named(self.alloc, &self.cwd, p)?;
        self.at_rest = false;
        create(self.alloc, &place, &mut self.held)
    }

    /// What was at this path, which is made absolute by the folder, and normalised, was removed. At each path that stands for the
    /// same, what is owned at or below it goes, the guards of the roots there are queued, and it becomes a tombstone. It fails
    /// only for want of memory, and changes nothing then.
    pub fn topology_remove(&mut self, p: &TextPath) -> Result<(), Memory>
        ensures state { OnOk result (state_of self.new.held ≡ removed (named self.old.cwd p.now) (state_of self.old.held)) }
        ensures unchanged { OnErr result (state_of self.new.held ≡ state_of self.old.held) }
        ensures spent { OnOk result (self.old.spent ≡ false) }
        ensures idle { self.old.spent ≡ true → self.new ≡ self.old }
        ensures others { (self.new.back ≡ self.old.back) × (self.new.kind ≡ self.old.kind) × (self.new.follow ≡ self.old.follow) × (self.new.cwd ≡ self.old.cwd) × (self.new.spent ≡ self.old.spent) }
    {
        if self.spent {
            return Err(Memory);
        }
        let place = named(self.alloc, &self.cwd, p)?;
        self.at_rest = false;
        remove(self.alloc, &place, &mut self.held)
    }

    /// What was at the first path is at the second now: both were removed, and then the second was created. Both are made absolute
    /// by the folder, and normalised. It fails only for want of memory, and changes nothing then.
    pub fn topology_rename(&mut self, from: &TextPath, to: &TextPath) -> Result<(), Memory>
        ensures state { OnOk result (state_of self.new.held ≡ renamed (named self.old.cwd from.now) (named self.old.cwd to.now) (state_of self.old.held)) }
        ensures unchanged { OnErr result (state_of self.new.held ≡ state_of self.old.held) }
        ensures spent { OnOk result (self.old.spent ≡ false) }
        ensures idle { self.old.spent ≡ true → self.new ≡ self.old }
        ensures others { (self.new.back ≡ self.old.back) × (self.new.kind ≡ self.old.kind) × (self.new.follow ≡ self.old.follow) × (self.new.cwd ≡ self.old.cwd) × (self.new.spent ≡ self.old.spent) }
    {
        if self.spent {
            return Err(Memory);
        }
        let left = named(self.alloc, &self.cwd, from)?;
        let reached = named(self.alloc, &self.cwd, to)?;
        self.at_rest = false;
        rename(self.alloc, &left, &reached, &mut self.held)
    }

    /// Something changed at this path, which is made absolute by the folder, and normalised. At each path that stands for the
    /// same, what is owned at or below it goes, the guards and roots there are queued, and it is to be looked at. It fails only
    /// for want of memory, and changes nothing then.
    pub fn topology_ambiguous(&mut self, p: &TextPath) -> Result<(), Memory>
        ensures state { OnOk result (state_of self.new.held ≡ unsure (named self.old.cwd p.now) (state_of self.old.held)) }
        ensures unchanged { OnErr result (state_of self.new.held ≡ state_of self.old.held) }
        ensures spent { OnOk result (self.old.spent ≡ false) }
        ensures idle { self.old.spent ≡ true → self.new ≡ self.old }
        ensures others { (self.new.back ≡ self.old.back) × (self.new.kind ≡ self.old.kind) × (self.new.follow ≡ self.old.follow) × (self.new.cwd ≡ self.old.cwd) × (self.new.spent ≡ self.old.spent) }
    {
        if self.spent {
            return Err(Memory);
        }
        let place = named(self.alloc, &self.cwd, p)?;
        self.at_rest = false;
        be_unsure(self.alloc, &place, &mut self.held)
    }
}
