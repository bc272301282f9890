// Changes of settings.
use std::alloc::Global;
use wx_text::{Copies, List, Memory, Text};
use wx_watch::{WatchedPath, Watcher};
use wx_words::{Spelled, Words, put_row, put_word, read_rows};

/// A change of the settings: the value that one of them is set to, or none.
#[derive(Drop, Debug)]
pub enum Change {
    /// No value is set.
    Signal,
    /// The paths that are watched.
    Pathset(List<WatchedPath>),
    /// How they are watched.
    FileWatcher(Watcher),
    /// Whether links are followed.
    FollowSymlinks(bool),
    /// Whether keys are heard.
    KeyboardEvents(bool),
    /// How long events are collected, in nanoseconds.
    Throttle(u64),
    /// The number of the filter.
    Filterer(u32),
    /// The number of the error handler.
    OnError(u32),
    /// The number of the action handler.
    OnAction(u32),
}

/// A change was refused, since the revision is 2^64 − 1 and can't be raised.
#[derive(Clone, Copy, Debug, PartialEq, Eq)]
pub struct RevisionSpent;

impl Copies for Change {
    fn copy(&self, alloc: Global) -> Result<Change, Memory> {
        Ok(match self {
            Change::Signal => Change::Signal,
            Change::Pathset(paths) => Change::Pathset(paths.copy(alloc)?),
            Change::FileWatcher(watcher) => Change::FileWatcher(*watcher),
            Change::FollowSymlinks(on) => Change::FollowSymlinks(*on),
            Change::KeyboardEvents(on) => Change::KeyboardEvents(*on),
            Change::Throttle(throttle) => Change::Throttle(*throttle),
            Change::Filterer(n) => Change::Filterer(*n),
            Change::OnError(n) => Change::OnError(*n),
            Change::OnAction(n) => Change::OnAction(*n),
        })
    }
}

#[tactic(auto, unfolding(crate::specs::ChangeWords::change))]
impl Spelled for Change {
    ghost use Rattle.wx_config.specs.ChangeWords.{change};

    ghost spelling = { change };

    fn put_after(&self, out: &mut Text) -> Result<(), Memory> {
        match self {
            Change::Signal => put_word(b"signal", out),
            Change::Pathset(paths) => put_row(b"paths", &paths, out),
            Change::FileWatcher(watcher) => put_row(b"watcher", &watcher, out),
            Change::FollowSymlinks(on) => put_row(b"follow", &on, out),
            Change::KeyboardEvents(on) => put_row(b"keyboard", &on, out),
            Change::Throttle(throttle) => put_row(b"throttle", &throttle, out),
            Change::Filterer(n) => put_row(b"filterer", &n, out),
            Change::OnError(n) => put_row(b"onerror", &n, out),
            Change::OnAction(n) => put_row(b"onaction", &n, out),
        }
    }

    fn read(alloc: Global, line: &mut Words) -> Result<Option<Change>, Memory> {
        read_rows!(alloc, line;
            b"signal" => Change::Signal,
            b"paths" (paths) => Change::Pathset(paths),
            b"watcher" (watcher) => Change::FileWatcher(watcher),
            b"follow" (on) => Change::FollowSymlinks(on),
            b"keyboard" (on) => Change::KeyboardEvents(on),
            b"throttle" (throttle) => Change::Throttle(throttle),
            b"filterer" (n) => Change::Filterer(n),
            b"onerror" (n) => Change::OnError(n),
            b"onaction" (n) => Change::OnAction(n),
        )
    }
}
