// Which paths begin with which.
ghost use Rattle.std.specs.Prelude.{◌≡◌, ◌<◌, ◌≤◌, length, take, map, IfOk};
ghost use Rattle.std.specs.List.{fold};
ghost use Rattle.wx_paths.specs.Paths.{starts_with, is_top, parent, components, both_begin, common_prefix, shared_components, IsLongestFront};

use crate::joined::path_of;
use crate::pieces::{components, components_in};
use std::alloc::Global;
use wx_text::{List, Memory, Text};
use wx_words::TextPath;

/// Whether the components of the second path are a front of those of the first. It takes no memory.
pub fn starts_with(path: &TextPath, other: &TextPath) -> bool
    ensures { result ≡ starts_with path.now other.now }
{
    let mut ours = components_in(path);
    for theirs in components_in(other) {
        match ours.next() {
            Some(part) if part == theirs => {}
            _ => return false,
        }
    }
    true
}

/// Whether a path of these components has none above it.
fn is_top(parts: &[Text]) -> bool
    ensures { result ≡ is_top parts.now }
{
    match parts {
        [] => true,
        [only] => only.as_slice() == b"/".as_slice(),
        _ => false,
    }
}

/// The path of all components of this path but the last. It is absent for `/` and for the empty path, and where both are
/// spelled otherwise, as `//`. It fails only for want of memory.
pub fn parent(alloc: Global, path: &TextPath) -> Result<Option<TextPath>, Memory>
    ensures { IfOk result (λ above. above ≡ parent path.now) }
{
    let list = components(alloc, path)?;
    let parts = list.as_slice();
    if is_top(parts) {
        return Ok(None);
    }
    let above = path_of(alloc, &parts[..parts.len() - 1])?;
    Ok(Some(above))
}

/// How many of these components are a front of those of this path.
fn shared_len(parts: &[Text], path: &TextPath) -> usize
    ensures fits { result ≤ length parts.now }
    ensures shared { take result parts.now ≡ both_begin parts.now (components path.now) }
{
    let mut theirs = components_in(path);
    for (i, part) in parts.iter().enumerate() {
        match theirs.next() {
            Some(other) if part.as_slice() == other => {}
            _ => return i,
        }
    }
    parts.len()
}

/// The components with which all these paths begin.
fn shared_parts(alloc: Global, first: &TextPath, others: &[TextPath]) -> Result<Vec<Text>, Memory>
    ensures { IfOk result (λ parts. parts.items ≡ fold both_begin (components first.now) (map components others.now)) }
{
    let mut parts = components(alloc, first)?.into_vec();
    for path in others {
        let len = shared_len(parts.as_slice(), path);
        parts.truncate(len);
    }
    Ok(parts)
}

/// The longest path whose components are a front of those of each of these. It is absent where there is no path, or where
/// they share no component. It fails only for want of memory.
pub fn common_prefix(alloc: Global, paths: &List<TextPath>) -> Result<Option<TextPath>, Memory>
    ensures value { IfOk result (λ common. common ≡ common_prefix paths.now) }
    ensures longest { IfOk result (λ common. 0 < length paths.now → IsLongestFront (map components paths.now) (shared_components common)) }
{
    let Some((first, others)) = paths.as_slice().split_first() else {
        return Ok(None);
    };
    let parts = shared_parts(alloc, first, others)?;
    if parts.is_empty() {
        return Ok(None);
    }
    let common = path_of(alloc, parts.as_slice())?;
    Ok(Some(common))
}
