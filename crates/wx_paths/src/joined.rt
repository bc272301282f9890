// Paths of their components.
ghost use Rattle.std.specs.Prelude.{◌≡◌, ◌++◌, IfOk, OnOk};
ghost use Rattle.std.specs.List.{join_with_byte};
ghost use Rattle.wx_paths.specs.Paths.{is_rooted, path_of};

use std::alloc::Global;
use wx_text::{Memory, Text};
use wx_words::TextPath;

/// Appends these texts with this byte between each two. It fails only for want of memory.
pub fn put_joined(parts: &[Text], separator: u8, out: &mut Text) -> Result<(), Memory>
    ensures { OnOk result (out.new ≡ out.old ++ join_with_byte separator parts.now) }
{
    for (i, part) in parts.iter().enumerate() {
        if i > 0 {
            out.push(separator)?;
        }
        out.append(part.as_slice())?;
    }
    Ok(())
}

/// Whether the first component is `/`.
fn is_rooted(parts: &[Text]) -> bool
    ensures { result ≡ is_rooted parts.now }
{
    match parts {
        [first, ..] => first.as_slice() == b"/".as_slice(),
        [] => false,
    }
}

/// The path that these components spell: there is a slash between each two, but no further one behind `/`. It fails only
/// for want of memory.
pub fn path_of(alloc: Global, parts: &[Text]) -> Result<TextPath, Memory>
    ensures { IfOk result (λ path. path ≡ path_of parts.now) }
{
    let mut text = Text::new(alloc);
    if is_rooted(parts) {
        text.push(b'/')?;
        put_joined(&parts[1..], b'/', &mut text)?;
    } else {
        put_joined(parts, b'/', &mut text)?;
    }
    Ok(TextPath::new(text))
}
