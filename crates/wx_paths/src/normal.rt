// Paths without `.` and `..`.
ghost use Rattle.std.specs.Prelude.{◌≡◌, IfOk, OnOk, OnErr};
ghost use Rattle.wx_paths.specs.Paths.{with_part, kept, path_parts, normalize};

use crate::joined::put_joined;
use crate::pieces::{is_absolute, parts_in};
use std::alloc::Global;
use wx_text::{Memory, Text};
use wx_words::TextPath;

/// Keeps one part more, or where it is `..` one less.
fn keep(alloc: Global, kept: &mut Vec<Text>, part: &[u8]) -> Result<(), Memory>
    ensures { OnOk result (kept.new.items ≡ with_part kept.old.items part.now) }
{
    if part == b"..".as_slice() {
        kept.pop();
    } else {
        kept.push(Text::from_slice(alloc, part)?)?;
    }
    Ok(())
}

/// The parts of this path that are kept.
fn kept_parts(alloc: Global, path: &TextPath) -> Result<Vec<Text>, Memory>
    ensures { IfOk result (λ parts. parts.items ≡ kept (path_parts path.now)) }
{
    let mut kept = Vec::new(alloc);
    for part in parts_in(path) {
        keep(alloc, &mut kept, part)?;
    }
    Ok(kept)
}

/// The same place without `.` and `..`: each `..` takes the part before it away, and is dropped where there is none. The
/// result has no doubled or trailing slash, is absolute where the path is, and is empty where nothing is left of a relative
/// one. It fails only for want of memory.
pub fn normalize(alloc: Global, path: &TextPath) -> Result<TextPath, Memory>
    ensures { IfOk result (λ normal. normal ≡ normalize path.now) }
{
    let mut text = Text::new(alloc);
    if is_absolute(path.text().as_slice()) {
        text.push(b'/')?;
    }
    let kept = kept_parts(alloc, path)?;
    put_joined(kept.as_slice(), b'/', &mut text)?;
    Ok(TextPath::new(text))
}
