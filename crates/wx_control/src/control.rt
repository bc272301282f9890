// What one message asks of a job.

use std::alloc::Global;
use wx_events::Signal;
use wx_text::{Copies, Memory, Text};
use wx_words::{Spelled, Words, put_row, put_word, read_rows};

/// What is asked of a job by one message.
#[derive(Clone, Copy, Debug, PartialEq, Eq)]
pub enum Control {
    /// Start its child, where none runs.
    Start,
    /// Kill its child and wait for it, where one runs.
    Stop,
    /// Signal its child, where one runs, and kill it where it still runs once the grace is over.
    GracefulStop { signal: Signal, grace: u64 },
    /// Stop its child and start it afresh, where one runs.
    TryRestart,
    /// Signal its child, where one runs, and start it afresh once it ended, or was killed at the end of the grace.
    TryGracefulRestart { signal: Signal, grace: u64 },
    /// Stop its child, where one runs, and start it afresh in any case.
    ContinueTryGracefulRestart,
    /// Signal its child, where one runs.
    Signal(Signal),
    /// Let its child go, where one runs, and be gone.
    Delete,
    /// Be done when its child has ended, at once where it has.
    NextEnding,
    /// Call the function of this number.
    SyncFunc(u32),
    /// Begin the function of this number, and poll it until it is ready.
    AsyncFunc(u32),
    /// Call the spawn hook of this number before each spawn.
    SetSyncSpawnHook(u32),
    /// Call no spawn hook.
    UnsetSpawnHook,
    /// Call the error handler of this number at each fault of a call on its child.
    SetSyncErrorHandler(u32),
    /// Call no error handler.
    UnsetErrorHandler,
    /// Spawn by the spawn function of this number.
    SetSpawnFn(u32),
    /// Spawn by the child function of this number.
    SetSpawnChildFn(u32),
    /// Spawn as where no function was set.
    ClearSpawnFn,
}

impl Copies for Control {
    fn copy(&self, _alloc: Global) -> Result<Control, Memory> {
        Ok(*self)
    }
}

#[tactic(auto, unfolding(crate::specs::Controls::control))]
impl Spelled for Control {
    ghost use Rattle.wx_control.specs.Controls.{control};

    ghost spelling = { control };

    fn put_after(&self, out: &mut Text) -> Result<(), Memory> {
        match self {
            Control::Start => put_word(b"start", out),
            Control::Stop => put_word(b"stop", out),
            Control::GracefulStop { signal, grace } => {
                put_row(b"gracefulstop", &&(*signal, *grace), out)
            }
            Control::TryRestart => put_word(b"tryrestart", out),
            Control::TryGracefulRestart { signal, grace } => {
                put_row(b"trygracefulrestart", &&(*signal, *grace), out)
            }
            Control::ContinueTryGracefulRestart => put_word(b"continue", out),
            Control::Signal(signal) => put_row(b"signal", &signal, out),
            Control::Delete => put_word(b"delete", out),
            Control::NextEnding => put_word(b"nextending", out),
            Control::SyncFunc(n) => put_row(b"run", &n, out),
            Control::AsyncFunc(n) => put_row(b"runasync", &n, out),
            Control::SetSyncSpawnHook(n) => put_row(b"sethook", &n, out),
            Control::UnsetSpawnHook => put_word(b"unsethook", out),
            Control::SetSyncErrorHandler(n) => put_row(b"seterror", &n, out),
            Control::UnsetErrorHandler => put_word(b"unseterror", out),
            Control::SetSpawnFn(n) => put_row(b"setspawn", &n, out),
            Control::SetSpawnChildFn(n) => put_row(b"setchild", &n, out),
            Control::ClearSpawnFn => put_word(b"clearspawn", out),
        }
    }

    fn read(alloc: Global, line: &mut Words) -> Result<Option<Control>, Memory> {
        read_rows!(alloc, line;
            b"start" => Control::Start,
            b"stop" => Control::Stop,
            b"gracefulstop" (signal, grace) => Control::GracefulStop { signal, grace },
            b"tryrestart" => Control::TryRestart,
            b"trygracefulrestart" (signal, grace) => Control::TryGracefulRestart { signal, grace },
            b"continue" => Control::ContinueTryGracefulRestart,
            b"signal" (signal) => Control::Signal(signal),
            b"delete" => Control::Delete,
            b"nextending" => Control::NextEnding,
            b"run" (n) => Control::SyncFunc(n),
            b"runasync" (n) => Control::AsyncFunc(n),
            b"sethook" (n) => Control::SetSyncSpawnHook(n),
            b"unsethook" => Control::UnsetSpawnHook,
            b"seterror" (n) => Control::SetSyncErrorHandler(n),
            b"unseterror" => Control::UnsetErrorHandler,
            b"setspawn" (n) => Control::SetSpawnFn(n),
            b"setchild" (n) => Control::SetSpawnChildFn(n),
            b"clearspawn" => Control::ClearSpawnFn,
        )
    }
}
