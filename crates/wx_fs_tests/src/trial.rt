// A recursor with its outside. What a call asks for is looked at before it, so that each test says what it needs.
ghost use Rattle.std.specs.Prelude.{◌≡◌, [], true, IfOk};
ghost use Rattle.wx_paths.specs.Paths.{is_absolute};
ghost use Rattle.wx_fs_tests.specs.Allowed.{all_allowed};
ghost use Rattle.wx_step.specs.Asking.{AreAllowed};

use std::alloc::Global;
use wx_fs::{Backend, Recursor, StepResult};
use wx_fs_trial::{FailingBackend, Refusing, path, put_place, shown_paths};
use wx_mem_tree::MemTree;
use wx_poller::Poller;
use wx_recursor::BackendPlace;
use wx_recursor_lists::has_path;
use wx_text::{Copies, List, Memory};
use wx_tree::{Place, Root};
use wx_watch::{WatchedPath, Watcher};
use wx_words::TextPath;

/// A backend that a recursor is tried over.
pub trait Tried: Backend {
    /// One that watches nothing yet. Its second watch fails as the word says, or doesn't where it says `ok`.
    fn make(alloc: Global, fails: &str) -> Result<Self, Memory>
        ensures { IfOk result (λ back. (Self.backing back).registrations ≡ []) };

    /// What it watches, in order, where it tells that.
    fn watched(&self) -> &[TextPath];

    /// What it was told to watch no more, in order, where it tells that.
    fn unwatched(&self) -> &[TextPath];
}

impl Tried for FailingBackend {
    fn make(alloc: Global, fails: &str) -> Result<FailingBackend, Memory> {
        let mut back = FailingBackend::new(alloc);
        if fails != "ok" {
            back.fail(1, fails)?;
        }
        Ok(back)
    }

    fn watched(&self) -> &[TextPath] {
        self.registered.as_slice()
    }

    fn unwatched(&self) -> &[TextPath] {
        self.unwatched.as_slice()
    }
}

impl Tried for Poller {
    fn make(alloc: Global, _fails: &str) -> Result<Poller, Memory> {
        Poller::new(alloc, false)
    }

    fn watched(&self) -> &[TextPath] {
        &[]
    }

    fn unwatched(&self) -> &[TextPath] {
        &[]
    }
}

/// Roots: `r` a recursive one, `n` another, with a comma between two. What says neither is no root.
fn roots(alloc: Global, words: &str) -> Result<List<WatchedPath>, Memory> {
    let mut roots = List::new(alloc);
    for root in words.split(", ") {
        if let Some((kind, at)) = root.split_once(" ") {
            roots.push(WatchedPath {
                path: path(alloc, at)?,
                recursive: kind == "r",
            })?;
        }
    }
    Ok(roots)
}

fn all_allowed(under: &[Place], roots: &[Root]) -> bool
    ensures { result ≡ all_allowed under.now roots.now }
{
    let mut rest = roots;
    while let [first, after @ ..] = rest {
        if first.recursive && !has_path(&first.path, under) {
            return false;
        }
        rest = after;
    }
    true
}

/// Whether each recursive root is one of these.
fn are_allowed(under: &[Place], roots: &[Root]) -> bool
    ensures { result ≡ true → AreAllowed under.now roots.now }
{
    all_allowed(under, roots)
}

fn is_absolute(path: &TextPath) -> bool
    ensures { result ≡ is_absolute path.now }
{
    matches!(path.text().as_slice(), [b'/', ..])
}

/// A recursor, its outside, what its steps showed so far, how often they asked for a rebuild, the backend where it is lent, how
/// often the tree had been looked at when that was last noted, and how many nodes were put into it.
pub struct Trial<B: Tried + Drop> {
    pub alloc: Global,
    pub recursor: Recursor<B>,
    pub tree: MemTree,
    pub dirs: Refusing,
    pub shown: String,
    pub rebuilds: u64,
    pub lent: Option<B>,
    pub looks: u64,
    pub nodes: usize,
}

// Its parts are dropped by one call: docs/DESIGN.md, "What proofs cost".
impl<B: Tried + Drop> Drop for Trial<B> {
    fn drop(self) {
        let Trial {
            alloc: _,
            recursor: _,
            tree: _,
            dirs: _,
            shown: _,
            rebuilds: _,
            lent: _,
            looks: _,
            nodes: _,
        } = self;
    }
}

impl<B: Tried + Drop> Trial<B> {
    /// Over an empty tree, in a folder, with a backend that fails so.
    pub fn new(alloc: Global, folder: &str, fails: &str) -> Result<Trial<B>, Memory> {
        let folder = path(alloc, folder)?;
        if !is_absolute(&folder) {
            return Err(Memory);
        }
        let tree = MemTree::new(alloc)?;
        let back = B::make(alloc, fails)?;
        let recursor = Recursor::new(alloc, back, Watcher::Native, false, folder)?;
        Ok(Trial {
            alloc,
            recursor,
            tree,
            dirs: Refusing::new(alloc),
            shown: String::new(alloc),
            rebuilds: 0,
            lent: None,
            looks: 0,
            nodes: 0,
        })
    }

    /// Sets the roots. What judges directories may be asked below each.
    pub fn reconcile(&mut self, words: &str) -> Result<(), Memory> {
        let given = roots(self.alloc, words)?;
        self.recursor.reconcile(&given, 0)?;
        let mut under = Vec::new(self.alloc);
        for root in self.recursor.held().roots.as_slice() {
            under.push(root.path.copy(self.alloc)?)?;
        }
        self.dirs.under = under;
        Ok(())
    }

    /// Does one step. None where no backend is installed, or it could ask about a root that isn't judged.
    fn step(&mut self) -> Result<Option<StepResult>, Memory> {
        if self.recursor.back.is_none() {
            return Ok(None);
        }
        let under = self.dirs.under.as_slice();
        if are_allowed(under, self.recursor.held.roots.as_slice()) {
            let told = self.recursor.step(&mut self.tree, &mut self.dirs)?;
            return Ok(Some(told));
        }
        Ok(None)
    }

    /// Lends the backend. Meanwhile none is there, and it can't be lent again.
    pub fn lend(&mut self) -> bool {
        self.lent = self.recursor.lend();
        self.lent.is_some()
            && self.recursor.backend().is_none()
            && self.recursor.lend().is_none()
            && matches!(self.recursor.held().backend, BackendPlace::Lent)
    }

    /// Restores the backend, where it was lent.
    pub fn restore(&mut self) -> bool {
        if self.recursor.back.is_some() {
            return false;
        }
        let Some(back) = self.lent.take() else {
            return false;
        };
        match self.recursor.held.backend {
            BackendPlace::Lent => {
                self.recursor.restore(back);
                matches!(self.recursor.held().backend, BackendPlace::Installed)
            }
            _ => false,
        }
    }

    /// Watches again what waits. None where no backend is installed.
    pub fn replay(&mut self) -> Result<Option<StepResult>, Memory> {
        if self.recursor.back.is_none() {
            return Ok(None);
        }
        let told = self.recursor.replay_backend_snapshot(&mut self.tree)?;
        Ok(Some(told))
    }

    /// Keeps what was shown, a line an error.
    fn note(&mut self, told: &StepResult) -> Result<(), Memory> {
        for error in told.errors.as_slice() {
            let line = format!(in self.alloc; "{error}\n")?;
            self.shown.push_str(line.as_str())?;
        }
        if told.rebuild_backend {
            self.rebuilds = self.rebuilds.saturating_add(1);
        }
        Ok(())
    }

    /// Forgets what was shown.
    pub fn forget(&mut self) -> bool {
        self.shown = String::new(self.alloc);
        true
    }

    /// Does one step. No where it can't be done, or asks for a rebuild.
    pub fn goes_on(&mut self) -> Result<bool, Memory> {
        let Some(told) = self.step()? else {
            return Ok(false);
        };
        self.note(&told)?;
        Ok(!told.rebuild_backend)
    }

    /// Steps at most so often, while there is work. No where a step can't be done, or asks for a rebuild.
    pub fn run(&mut self, most: u64) -> Result<bool, Memory> {
        for _ in 0..most {
            if !self.recursor.has_work() {
                return Ok(true);
            }
            if !self.goes_on()? {
                return Ok(false);
            }
        }
        Ok(true)
    }

    /// Steps until there is no work, or a rebuild is asked for.
    pub fn settle(&mut self) -> Result<bool, Memory> {
        Ok(self.run(1000)? && !self.recursor.has_work())
    }

    /// Whether there is no work, and no retry is needed.
    pub fn is_idle(&self) -> bool {
        !self.recursor.has_work() && !self.recursor.needs_retry()
    }

    /// Installs this backend, which watches nothing yet, where the old one was dropped.
    fn install(&mut self, back: B) -> Result<bool, Memory>
        requires { (B.backing back).registrations ≡ [] }
    {
        match self.recursor.held.backend {
            BackendPlace::Dropped => {
                self.recursor.install_backend(back)?;
                Ok(true)
            }
            _ => Ok(false),
        }
    }

    /// Drops the backend, installs another one that fails so, and watches again what waits. No where one of these can't be done.
    pub fn rebuild(&mut self, fails: &str) -> Result<bool, Memory> {
        let back = B::make(self.alloc, fails)?;
        self.recursor.prepare_backend_rebuild()?;
        if !self.install(back)? {
            return Ok(false);
        }
        let Some(told) = self.replay()? else {
            return Ok(false);
        };
        self.note(&told)?;
        Ok(true)
    }

    /// What is owned, in order.
    pub fn owned(&self) -> Result<String, Memory> {
        let mut out = String::new(self.alloc);
        for owner in self.recursor.held().owners.as_slice() {
            put_place(self.alloc, &owner.path, &mut out)?;
        }
        Ok(out)
    }

    /// What guards roots, in order.
    pub fn guards(&self) -> Result<String, Memory> {
        let mut out = String::new(self.alloc);
        for guard in self.recursor.held().guards.as_slice() {
            put_place(self.alloc, &guard.path, &mut out)?;
        }
        Ok(out)
    }

    /// What is watched, in order.
    pub fn watched(&self) -> Result<String, Memory> {
        match self.recursor.backend() {
            Some(back) => shown_paths(self.alloc, back.watched()),
            None => Ok(String::new(self.alloc)),
        }
    }

    /// What was to be watched no more, in order.
    pub fn unwatched(&self) -> Result<String, Memory> {
        match self.recursor.backend() {
            Some(back) => shown_paths(self.alloc, back.unwatched()),
            None => Ok(String::new(self.alloc)),
        }
    }
}
