// Which notifications are of what is to be watched.
ghost use Rattle.std.specs.Prelude.{◌≡◌, ◌≤◌, ◌+◌, ◌^◌, if◌then◌else◌, nat_le};
ghost use Rattle.wx_paths.specs.Paths.{is_absolute, path_parts};
ghost use Rattle.wx_lane.specs.Meetings.{is_of_met, meet_all, met, start};
ghost use Rattle.wx_lane.specs.Public.{event_is_public, is_of, is_of_any, named, some_of_any};

use crate::meeting::{Meeting, meet_all};
use wx_notify::{Notify, NotifyPath};
use wx_text::Text;
use wx_tree::Root;
use wx_words::TextPath;

/// How far the folder meets a place of these parts, where a path is seen from it.
fn met_before(parts: &[Text], folder: &TextPath, path: &TextPath) -> Meeting
    ensures value { result ≡ (if is_absolute path.now then start else meet_all parts.now start (path_parts folder.now)) }
    ensures within { result.depth ≤ 2 ^ 64 }
{
    let start = Meeting {
        shared: 0,
        depth: 0,
    };
    if matches!(path.text().as_slice(), [b'/', ..]) {
        start
    } else {
        meet_all(parts, start, folder)
    }
}

/// How far the path, as it is seen from the folder, meets a place of these parts.
fn met(parts: &[Text], folder: &TextPath, path: &TextPath) -> Meeting
    ensures { result ≡ met parts.now folder.now path.now }
{
    let before = met_before(parts, folder, path);
    meet_all(parts, before, path)
}

/// Whether the path has at most one part more than a place of so many.
fn is_near(parts: usize, at: Meeting) -> bool
    ensures { result ≡ nat_le at.depth (parts + 1) }
{
    at.depth <= parts as u128 + 1
}

/// Whether a path that meets the root so far is the root, lies below it where it is recursive, or else is a direct entry of it.
fn is_of_met(root: &Root, at: Meeting) -> bool
    ensures { result ≡ is_of_met root.now at }
{
    let parts = root.path.depth();
    at.shared == parts as u128 && (root.recursive || is_near(parts, at))
}

/// Whether the path, as it is seen from the folder, is the root, lies below it where it is recursive, or else is a direct entry of it.
fn is_of(root: &Root, folder: &TextPath, path: &TextPath) -> bool
    ensures { result ≡ is_of root.now (named folder.now path.now) }
{
    let at = met(root.path.parts(), folder, path);
    is_of_met(root, at)
}

/// Whether the path is of one of these roots.
fn is_of_any(roots: &[Root], folder: &TextPath, path: &TextPath) -> bool
    ensures { result ≡ is_of_any roots.now (named folder.now path.now) }
{
    let mut rest = roots;
    while let [first, after @ ..] = rest {
        if is_of(first, folder, path) {
            return true;
        }
        rest = after;
    }
    false
}

/// Whether one of these paths is of one of these roots.
fn some_of_any(folder: &TextPath, roots: &[Root], paths: &[NotifyPath]) -> bool
    ensures { result ≡ some_of_any folder.now roots.now paths.now }
{
    let mut rest = paths;
    while let [first, after @ ..] = rest {
        if is_of_any(roots, folder, &first.path) {
            return true;
        }
        rest = after;
    }
    false
}

/// Whether this notification is public: it names no path, or one that is a root, lies below a recursive root, or is a direct entry of
/// another root. Paths are seen from the folder, without `.` and `..`. It takes no memory.
pub fn event_is_public(n: &Notify, folder: &TextPath, roots: &[Root]) -> bool
    ensures { result ≡ event_is_public folder.now roots.now n.now }
{
    let paths = n.paths.as_slice();
    paths.is_empty() || some_of_any(folder, roots, paths)
}
