// The settings of an engine, and what sets them.
ghost use Rattle.std.specs.Prelude.{◌≡◌, false, None, IfOk};

use crate::change::{Change, RevisionSpent};
use crate::config_watched::ConfigWatched;
use std::alloc::Global;
use std::marker::Model;
use wx_control::Flag;
use wx_text::{Copies, List, Memory};
use wx_watch::{WatchedPath, Watcher};

/// A value that can be replaced, which contracts see as that value.
#[derive(Drop, Debug)]
pub struct Changeable<T> {
    value: T,
}

impl<T> Model for Changeable<T> {
    ghost Value = { T };

    ghost view = { λ c. c.value };
}

impl<T> Changeable<T> {
    /// This value, which can be replaced.
    pub fn new(value: T) -> Self
        ensures { result ≡ value }
    {
        Changeable { value }
    }

    /// Sets the value, and drops the one before.
    pub fn replace(&mut self, value: T)
    where
        T: Drop,
        ensures { self.new ≡ value }
    {
        self.value = value;
    }

    /// The value.
    pub fn get(&self) -> &T
        ensures { result.now ≡ self.now }
    {
        &self.value
    }
}

impl<T: Default> Default for Changeable<T> {
    ghost is_default = { T.is_default };

    fn default() -> Self {
        Changeable::new(T::default())
    }
}

/// The number of a function, which can be replaced.
pub type ChangeableFn = Changeable<u32>;

/// The number of a filter, which can be replaced.
pub type ChangeableFilterer = Changeable<u32>;

/// The settings of an engine. Handlers and filters are named by the numbers under which the caller handed them in.
#[derive(Debug)]
pub struct Config {
    /// The revision: how often a setting was changed.
    pub change_signal: u64,
    /// The number of the action handler.
    pub action_handler: u32,
    /// The number of the error handler.
    pub error_handler: u32,
    /// The paths that are watched.
    pub pathset: Changeable<List<WatchedPath>>,
    /// How they are watched.
    pub file_watcher: Changeable<Watcher>,
    /// Whether links are followed.
    pub follow_symlinks: Changeable<bool>,
    /// Whether a stop and a continue of the terminal are heard.
    pub signal_job_control: bool,
    /// Whether keys are heard.
    pub keyboard_events: Changeable<bool>,
    /// How long events are collected, in nanoseconds.
    pub throttle: Changeable<u64>,
    /// The number of the filter.
    pub filterer: u32,
    /// Kept for its name alone: no error is shown yet.
    pub error_channel_size: u32,
    /// How many events the queue holds.
    pub event_channel_size: u32,
    /// Raised when the watching of files first settles after a change of the settings. Nothing raises it yet.
    pub fs_ready: Flag,
}

// Its parts are dropped by one call: docs/DESIGN.md, "What proofs cost".
impl Drop for Config {
    fn drop(self) {
        let Config {
            change_signal: _,
            action_handler: _,
            error_handler: _,
            pathset: _,
            file_watcher: _,
            follow_symlinks: _,
            signal_job_control: _,
            keyboard_events: _,
            throttle: _,
            filterer: _,
            error_channel_size: _,
            event_channel_size: _,
            fs_ready: _,
        } = self;
    }
}

/// Each setter sets one value and raises the revision by one. `RevisionSpent` comes exactly where the revision is 2^64 − 1;
/// then nothing is changed. A field that is written by itself raises no revision.
impl Config {
    ghost use Rattle.wx_config.specs.Defaults.{default_config};
    ghost use Rattle.wx_config.specs.Changes.{Changes};

    /// The default settings: revision 0, each number 0, no path, links followed, keys not heard, a throttle of
    /// 50 milliseconds, room for 4,096 events, and a flag that isn't raised. It fails only for want of memory.
    pub fn new(alloc: Global) -> Result<Config, Memory>
        ensures settings { IfOk result (λ config. config ≡ default_config config.fs_ready) }
        ensures ready { IfOk result (λ config. config.fs_ready.seen ≡ false) }
    {
        let fs_ready = Flag::new(alloc, false)?;
        Ok(Config {
            change_signal: 0,
            action_handler: 0,
            error_handler: 0,
            pathset: Changeable::new(List::new(alloc)),
            file_watcher: Changeable::new(Watcher::Native),
            follow_symlinks: Changeable::new(true),
            signal_job_control: false,
            keyboard_events: Changeable::new(false),
            throttle: Changeable::new(50_000_000),
            filterer: 0,
            error_channel_size: 64,
            event_channel_size: 4096,
            fs_ready,
        })
    }

    /// Sets no value.
    pub fn signal_change(&mut self) -> Result<(), RevisionSpent>
        ensures { Changes Change.Signal self.old self.new result }
    {
        if self.change_signal == u64::MAX {
            return Err(RevisionSpent);
        }
        self.change_signal += 1;
        Ok(())
    }

    /// Sets the paths that are watched.
    pub fn pathset(&mut self, paths: List<WatchedPath>) -> Result<(), RevisionSpent>
        ensures { Changes (Change.Pathset paths) self.old self.new result }
    {
        self.signal_change()?;
        self.pathset.replace(paths);
        Ok(())
    }

    /// Sets how files are watched.
    pub fn file_watcher(&mut self, watcher: Watcher) -> Result<(), RevisionSpent>
        ensures { Changes (Change.FileWatcher watcher) self.old self.new result }
    {
        self.signal_change()?;
        self.file_watcher.replace(watcher);
        Ok(())
    }

    /// Sets whether links are followed.
    pub fn follow_symlinks(&mut self, on: bool) -> Result<(), RevisionSpent>
        ensures { Changes (Change.FollowSymlinks on) self.old self.new result }
    {
        self.signal_change()?;
        self.follow_symlinks.replace(on);
        Ok(())
    }

    /// Sets whether keys are heard.
    pub fn keyboard_events(&mut self, on: bool) -> Result<(), RevisionSpent>
        ensures { Changes (Change.KeyboardEvents on) self.old self.new result }
    {
        self.signal_change()?;
        self.keyboard_events.replace(on);
        Ok(())
    }

    /// Sets how long events are collected, in nanoseconds.
    pub fn throttle(&mut self, ns: u64) -> Result<(), RevisionSpent>
        ensures { Changes (Change.Throttle ns) self.old self.new result }
    {
        self.signal_change()?;
        self.throttle.replace(ns);
        Ok(())
    }

    /// Sets the number of the filter.
    pub fn filterer(&mut self, n: u32) -> Result<(), RevisionSpent>
        ensures { Changes (Change.Filterer n) self.old self.new result }
    {
        self.signal_change()?;
        self.filterer = n;
        Ok(())
    }

    /// Sets the number of the error handler.
    pub fn on_error(&mut self, n: u32) -> Result<(), RevisionSpent>
        ensures { Changes (Change.OnError n) self.old self.new result }
    {
        self.signal_change()?;
        self.error_handler = n;
        Ok(())
    }

    /// Sets the number of the action handler.
    pub fn on_action(&mut self, n: u32) -> Result<(), RevisionSpent>
        ensures { Changes (Change.OnAction n) self.old self.new result }
    {
        self.signal_change()?;
        self.action_handler = n;
        Ok(())
    }

    /// Does what the setter of this change does.
    pub fn apply(&mut self, change: Change) -> Result<(), RevisionSpent>
        ensures { Changes change self.old self.new result }
    {
        match change {
            Change::Signal => self.signal_change(),
            Change::Pathset(paths) => self.pathset(paths),
            Change::FileWatcher(watcher) => self.file_watcher(watcher),
            Change::FollowSymlinks(on) => self.follow_symlinks(on),
            Change::KeyboardEvents(on) => self.keyboard_events(on),
            Change::Throttle(ns) => self.throttle(ns),
            Change::Filterer(n) => self.filterer(n),
            Change::OnError(n) => self.on_error(n),
            Change::OnAction(n) => self.on_action(n),
        }
    }

    /// A copy of the flag that is raised when the watching of files first settles after a change of the settings. It fails
    /// only for want of memory.
    pub fn fs_ready(&self, alloc: Global) -> Result<Flag, Memory>
        ensures { IfOk result (λ flag. flag ≡ self.now.fs_ready) }
    {
        self.fs_ready.copy(alloc)
    }

    /// Watches the revision, of which nothing was told yet.
    pub fn watch(&self) -> ConfigWatched
        ensures { result ≡ None }
    {
        ConfigWatched::new()
    }
}
