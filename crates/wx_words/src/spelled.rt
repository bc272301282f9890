// Values that are written as words.
ghost use Rattle.std.specs.Prelude.{◌≡◌, ℕ, ◌++◌, List, Option, OnOk, OnErr, IfOk, IfSome, IfNone};
ghost use Rattle.wx_words.specs.Texts.{text_in};
ghost use Rattle.wx_words.specs.Forms.{Stood};
ghost use Rattle.wx_words.specs.Spellings.{Spelling};
ghost use Rattle.wx_words.specs.Parts.{line as a_line};
ghost use Rattle.wx_words.specs.Line.{behind, joined, Reads, Taken};

use crate::cursor::Words;
use std::alloc::Global;
use wx_text::{Memory, Text};

/// A value that stands in lines as words.
pub trait Spelled: Drop {
    // the words of each value, which values the code has, and how they are read
    ghost spelling: { Spelling a_line Self };

    /// Appends the words, each with a space before it. A part of the words may stand in `out` where memory runs out.
    fn put_after(&self, out: &mut Text) -> Result<(), Memory>
        ensures text { OnOk result (out.new ≡ behind out.old (spelling.words self.now)) }
        ensures fits { OnOk result (spelling.fits self.now) };

    /// Takes the value at the front, or loses the place.
    fn read(alloc: Global, line: &mut Words) -> Result<Option<Self>, Memory>
        ensures { IfOk result (λ x. Reads line.new x (spelling.read line.old)) };

    /// Takes the value at the front, and leaves the line where none stands there: what is taken spells the value, and
    /// nothing else does. It leaves the line as it was where memory runs out.
    final fn take(alloc: Global, line: &mut Words) -> Result<Option<Self>, Memory>
        ensures exact { IfOk result (λ o. Taken line.old line.new o (spelling.read line.old)) }
        ensures some { IfOk result (λ o. IfSome o (λ x. spelling.fits x × Stood text_in (spelling.words x) line.old line.new)) }
        ensures none { IfOk result (λ o. IfNone o ((x : Self) (rest : List (List ℕ)) → spelling.fits x → line.old ≡ spelling.words x ++ rest → ⊥)) }
        ensures err { OnErr result (line.new ≡ line.old) }
    {
        let mut ahead = line.fork();
        let found = Self::read(alloc, &mut ahead)?;
        if found.is_some() {
            *line = ahead;
        }
        Ok(found)
    }

    /// Appends the words with one space between them. It fails only for want of memory, and leaves the text as it was
    /// then.
    final fn put(&self, out: &mut Text) -> Result<(), Memory>
        ensures ok { OnOk result (out.new ≡ out.old ++ joined (spelling.words self.now)) }
        ensures err { OnErr result (out.new ≡ out.old) }
    {
        let mut spelled = Text::new(out.allocator());
        self.put_after(&mut spelled)?;
        match spelled.as_slice() {
            [_, behind @ ..] => out.append(behind),
            [] => Ok(()),
        }
    }
}
