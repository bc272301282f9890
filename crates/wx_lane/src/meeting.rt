// How far a path meets a place from the front, told without memory.
ghost use Rattle.std.specs.Prelude.{◌≡◌, ◌==◌, ◌&&◌, ◌+◌, ◌^◌, ◌<◌, ◌≤◌, length};
ghost use Rattle.wx_paths.specs.Paths.{path_parts};
ghost use Rattle.wx_lane.specs.Meetings.{is_next, meet_all, meet_down, meet_part, meet_up};

use wx_paths::parts_in;
use wx_text::Text;
use wx_words::TextPath;

/// How far the place to which the parts of a path have led so far meets another.
#[derive(Clone, Copy)]
pub struct Meeting {
    /// How many parts, from the front on, both share.
    pub shared: u128,
    /// How many parts the place of the path has.
    pub depth: u128,
}

/// Whether the part behind so many others, from the front on, is this one.
fn is_next(part: &[u8], n: u128, parts: &[Text]) -> bool
    ensures { result ≡ is_next part.now n parts.now }
{
    if n < parts.len() as u128 {
        parts[parts.len() - 1 - n as usize].as_slice() == part
    } else {
        false
    }
}

/// Whether all parts so far are shared, and this one is too.
fn is_shared(parts: &[Text], part: &[u8], at: Meeting) -> bool
    ensures { result ≡ (at.shared == at.depth && is_next part.now at.shared parts.now) }
{
    at.shared == at.depth && is_next(part, at.shared, parts)
}

/// A part more is walked.
fn meet_down(parts: &[Text], part: &[u8], at: Meeting) -> Meeting
    requires { at.depth < 2 ^ 66 }
    ensures { result ≡ meet_down parts.now part.now at }
{
    if is_shared(parts, part, at) {
        Meeting {
            shared: at.depth + 1,
            depth: at.depth + 1,
        }
    } else {
        Meeting {
            shared: at.shared,
            depth: at.depth + 1,
        }
    }
}

/// A part less is walked, where there is one.
fn meet_up(at: Meeting) -> Meeting
    ensures { result ≡ meet_up at }
{
    if at.shared == at.depth {
        Meeting {
            shared: at.shared.saturating_sub(1),
            depth: at.depth.saturating_sub(1),
        }
    } else {
        Meeting {
            shared: at.shared,
            depth: at.depth.saturating_sub(1),
        }
    }
}

/// A part of a path is walked.
fn meet_part(parts: &[Text], at: Meeting, part: &[u8]) -> Meeting
    requires { at.depth < 2 ^ 66 }
    ensures { result ≡ meet_part parts.now at part.now }
{
    if part == b"..".as_slice() {
        meet_up(at)
    } else {
        meet_down(parts, part, at)
    }
}

/// How many bytes a path has.
fn path_len(path: &TextPath) -> usize
    ensures { result ≡ length path.now }
{
    path.text().len()
}

/// All parts of a path are walked, behind those that were.
pub fn meet_all(parts: &[Text], from: Meeting, path: &TextPath) -> Meeting
    requires { from.depth ≤ 2 ^ 64 }
    ensures value { result ≡ meet_all parts.now from (path_parts path.now) }
    ensures within { result.depth ≤ from.depth + 2 ^ 64 }
{
    if path_len(path) == 0 {
        return from;
    }
    let mut at = from;
    for part in parts_in(path) {
        at = meet_part(parts, at, part);
    }
    at
}
