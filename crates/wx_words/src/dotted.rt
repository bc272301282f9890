// Values of several parts that are one word.
ghost use Rattle.std.specs.Prelude.{◌≡◌, ℕ, List, Option, IfOk};
ghost use Rattle.wx_words.specs.Line.{Reads};
ghost use Rattle.wx_words.specs.Dotted.{read_dotted};

use crate::cursor::Words;
use std::alloc::Global;
use wx_text::Memory;

/// A value whose parts are one word, with dots between them.
pub trait Dotted: Drop {
    // the value at the front of these parts, and the parts after it
    ghost read_parts: { List (List ℕ) → Option (Self × List (List ℕ)) };

    /// Takes the value whose parts are at the front, or loses the place.
    fn read_parts(alloc: Global, parts: &mut Words) -> Result<Option<Self>, Memory>
        ensures { IfOk result (λ x. Reads parts.new x (read_parts parts.old)) };
}

/// Takes the value whose parts are the word at the front, or loses the place.
pub fn read_dotted<D: Dotted>(alloc: Global, line: &mut Words) -> Result<Option<D>, Memory>
    ensures { IfOk result (λ x. Reads line.new x (read_dotted D.read_parts line.old)) }
{
    let Some(word) = line.next() else {
        return Ok(None);
    };
    let mut parts = Words::dotted(word);
    let Some(value) = D::read_parts(alloc, &mut parts)? else {
        return Ok(None);
    };
    if parts.is_done() {
        Ok(Some(value))
    } else {
        Ok(None)
    }
}
