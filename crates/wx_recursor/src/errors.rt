// What a step shows.
use crate::answers::Look;
use crate::known::Identity;
use wx_error::RuntimeError;
use wx_tree::Place;
use wx_watch::NotifyFault;

/// Why a look at a path fails.
#[derive(Drop)]
pub enum ScanFault {
    NotFound,
    /// The look failed, with this code.
    Io(u32),
    /// The path was known as this, and now something else is there.
    Changed(Identity, Look),
}

/// An error that a step shows.
#[derive(Drop)]
pub enum ShownError {
    /// A path couldn't be watched.
    PathAdd(Place, NotifyFault),
    /// A path couldn't be looked at.
    PathScan(Place, ScanFault),
    /// The watch on a path couldn't be given up.
    PathRemove(Place, NotifyFault),
    /// No more can be watched.
    TooManyWatches(NotifyFault),
    /// No more files can be open.
    TooManyHandles(NotifyFault),
    /// The filter failed.
    Filter(RuntimeError),
}
