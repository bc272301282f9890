// Which notifications are public for a recursor: the expected values are worked out by hand.
use crate::runs::runs_hold;
use crate::trial::{Trial, Tried};
use std::alloc::Global;
use wx_events::FileEventKind;
use wx_fs::{Notify, NotifyPath};
use wx_fs_trial::{FailingBackend, path};
use wx_text::{List, Memory};

/// A notification of this path, or of no path where it is `none`.
fn notification(alloc: Global, at: &str) -> Result<Notify, Memory> {
    let mut paths = List::new(alloc);
    if at != "none" {
        paths.push(NotifyPath {
            path: path(alloc, at)?,
            file_type: None,
        })?;
    }
    Ok(Notify {
        kind: FileEventKind::Any,
        paths,
        rescan: false,
        process: None,
    })
}

/// Whether a notification of this path is public.
pub fn is_public<B: Tried + Drop>(trial: &Trial<B>, at: &str) -> Result<bool, Memory> {
    let n = notification(trial.alloc, at)?;
    Ok(trial.recursor.event_is_public(&n))
}

// Paths of notifications, in the folder /w.
const PUBLIC: &str = "\
# where there are no roots only what names no path is public
/w ok
public a = no
public /w/a = no
public / = no
public none = yes
# the roots are /w/a with all below it, and /b with its entries
/w ok
roots r a, n /b
public a = yes
public a/x/y = yes
public /w/a/x = yes
public x/../a = yes
public ../b = yes
public /b/x = yes
public ../w/../b/./x = yes
public ../b/x/y = no
public b = no
public /a = no
public . = no
public ab = no
public / = no
public none = yes
# the roots of the last reconcile count
/w ok
roots r a, n /b
roots n /w
public a = yes
public a/x = no
public /b = no
public . = yes
";

#[test]
fn notifications_that_are_public(rt: HostRuntime) {
    runs_hold::<FailingBackend>(&rt, rt.alloc(), PUBLIC);
}
