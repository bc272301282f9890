// How a run is to end.
use wx_events::Signal;

/// How an act asks that the run ends.
#[derive(Clone, Copy, Debug, PartialEq, Eq)]
pub enum QuitManner {
    /// At once.
    Abort,
    /// Once no job lives. Each is stopped, for which its child is sent this signal and has this many nanoseconds to end, and then
    /// deleted.
    Graceful { signal: Signal, grace: u64 },
}
