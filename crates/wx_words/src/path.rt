// Paths.
ghost use Rattle.std.specs.Prelude.{◌≡◌};

use crate::cursor::Words;
use crate::spelled::Spelled;
use std::alloc::Global;
use std::cmp::Ordering;
use std::hash::{Hash, Hasher};
use std::marker::Model;
use wx_text::{Copies, Memory, Text};

/// A path as a text, which contracts see as its bytes.
#[derive(Drop, Debug)]
pub struct TextPath {
    text: Text,
}

impl Model for TextPath {
    ghost use Rattle.std.specs.Prelude.{List, ℕ};

    ghost Value = { List ℕ };

    ghost view = { λ p. p.text };
}

impl TextPath {
    /// The path that this text spells.
    pub fn new(text: Text) -> TextPath
        ensures { result ≡ text }
    {
        TextPath { text }
    }

    /// The text of this path.
    pub fn text(&self) -> &Text
        ensures { result.now ≡ self.now }
    {
        &self.text
    }
}

impl Copies for TextPath {
    fn copy(&self, alloc: Global) -> Result<TextPath, Memory> {
        Ok(TextPath {
            text: self.text.copy(alloc)?,
        })
    }
}

impl Spelled for TextPath {
    ghost use Rattle.wx_words.specs.Texts.{AllBytes, text_words, read_text};
    ghost use Rattle.wx_words.specs.TextLaws.{text_form};
    ghost use Rattle.wx_words.specs.CleanLaws.{text_words_clean};

    ghost spelling = { record { fits = AllBytes; words = text_words; read = read_text; form = text_form; clean = text_words_clean } };

    fn put_after(&self, out: &mut Text) -> Result<(), Memory> {
        self.text.put_after(out)
    }

    fn read(alloc: Global, line: &mut Words) -> Result<Option<TextPath>, Memory> {
        match Text::read(alloc, line)? {
            Some(text) => Ok(Some(TextPath { text })),
            None => Ok(None),
        }
    }
}

impl PartialEq for TextPath {
    ghost use Rattle.std.specs.Prelude.{◌==◌};
    ghost use Rattle.std.specs.Cmp.{partial_equiv_from_equiv};
    ghost use Rattle.std.specs.Cmp.Lexicographic.{pointwise, nat_list_eq_equiv};

    ghost eq = { pointwise ◌==◌ };

    ghost laws = { partial_equiv_from_equiv nat_list_eq_equiv };

    fn eq(&self, other: &TextPath) -> bool {
        self.text == other.text
    }
}

impl Eq for TextPath {
    ghost use Rattle.std.specs.Cmp.Lexicographic.{nat_list_eq_equiv};

    ghost laws = { nat_list_eq_equiv };
}

impl PartialOrd for TextPath {
    ghost use Rattle.std.specs.Prelude.{Some};
    ghost use Rattle.std.specs.Ordering.{nat_cmp};
    ghost use Rattle.std.specs.Cmp.Lexicographic.{slice_cmp, texts_po};

    ghost partial_cmp = { λ x y. Some (slice_cmp nat_cmp x y) };

    ghost laws = { texts_po };

    fn partial_cmp(&self, other: &TextPath) -> Option<Ordering> {
        Some(self.cmp(other))
    }
}

impl Ord for TextPath {
    ghost use Rattle.std.specs.Prelude.{refl};
    ghost use Rattle.std.specs.Ordering.{nat_cmp};
    ghost use Rattle.std.specs.Cmp.Lexicographic.{slice_cmp, texts_ties, nat_list_cmp_total};

    ghost cmp = { slice_cmp nat_cmp };

    ghost total = { nat_list_cmp_total };

    ghost matches_partial_cmp = { λ x y. refl };

    ghost matches_eq = { texts_ties };

    fn cmp(&self, other: &TextPath) -> Ordering {
        self.text.cmp(&other.text)
    }
}

impl Hash for TextPath {
    ghost use Rattle.std.specs.Hash.{slice, u8 as byte, same_Alike};
    ghost use Rattle.std.specs.Cmp.Lexicographic.{bytes_decides};

    ghost hash_input = { slice byte };

    ghost respects_eq = { (same_Alike (slice byte) bytes_decides).fed };

    fn hash<H: Hasher>(&self, state: &mut H) {
        self.text.hash(state);
    }
}
