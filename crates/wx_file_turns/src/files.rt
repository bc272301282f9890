// What an engine keeps of what is watched.
ghost use Rattle.std.specs.Prelude.{◌≡◌, IfOk, None, true, List};
ghost use Rattle.wx_journal.specs.declared.entry.Entry.{Entry};
ghost use Rattle.wx_machine.specs.Files.{source, unwatched};
ghost use Rattle.wx_machine.specs.Start.{Start};
ghost use Rattle.wx_paths.specs.Paths.{is_absolute};
ghost use Rattle.wx_file_turns.specs.Intake.{is_live_by, nothing_brought};
ghost use Rattle.wx_file_turns.specs.Standing.{FilesStand, is_revision, owing, works};

use crate::intake::Intake;
use std::alloc::Global;
use wx_fs::Recursor;
use wx_scan::Backend;
use wx_text::Memory;
use wx_words::TextPath;

/// What keeps watches, over a backend of this name.
pub struct Watching<B: Backend + Drop> {
    pub back: u64,
    pub recursor: Recursor<B>,
}

// Its parts are dropped by one call: docs/DESIGN.md, "What proofs cost".
impl<B: Backend + Drop> Drop for Watching<B> {
    fn drop(self) {
        let Watching {
            back: _,
            recursor: _,
        } = self;
    }
}

/// What an engine keeps of what is watched: the folder from which paths are taken, the revision of the settings that were applied
/// last, what keeps watches, where some path is to be watched, and what backends brought.
pub struct Files<B: Backend + Drop> {
    pub alloc: Global,
    pub folder: TextPath,
    pub applied: Option<u64>,
    pub source: Option<Watching<B>>,
    pub intake: Intake,
}

// Its parts are dropped by one call: docs/DESIGN.md, "What proofs cost".
impl<B: Backend + Drop> Drop for Files<B> {
    fn drop(self) {
        let Files {
            alloc: _,
            folder: _,
            applied: _,
            source: _,
            intake: _,
        } = self;
    }
}

impl<B: Backend + Drop> Files<B> {
    /// Nothing was applied yet, nothing is watched, and nothing was brought. So many events that are brought may wait. It fails only
    /// for want of memory.
    pub fn new(alloc: Global, folder: TextPath, size: u32) -> Result<Files<B>, Memory>
        requires { is_absolute folder ≡ true }
        ensures given { IfOk result (λ files. (files.folder ≡ folder) × (files.applied ≡ None) × (files.source ≡ None) × (files.intake ≡ nothing_brought size)) }
        ensures stands { IfOk result (λ files. (s : Start) (p : List Entry) → s.folder ≡ folder → s.config.event_channel_size ≡ size → source s p ≡ unwatched → FilesStand s files p) }
        ensures owing { IfOk result (λ files. owing files ≡ 0) }
    {
        let intake = Intake::new(alloc, size)?;
        Ok(Files {
            alloc,
            folder,
            applied: None,
            source: None,
            intake,
        })
    }

    /// Whether the settings of this revision were applied last.
    pub(crate) fn is_applied(&self, revision: u64) -> bool
        ensures { result ≡ is_revision revision self.now.applied }
    {
        match self.applied {
            None => false,
            Some(applied) => applied == revision,
        }
    }
}

impl<B: Backend + Drop> Watching<B> {
    /// Whether it has work.
    pub(crate) fn has_work(&self) -> bool
        ensures { result ≡ works self.now }
    {
        self.recursor.has_work()
    }

    /// Whether the backend of this name is live: it is the one that stands, or none before this other name.
    pub(crate) fn is_live(&self, since: u64, back: u64) -> bool
        ensures { result ≡ is_live_by self.now since back }
    {
        self.back == back || since <= back
    }
}
