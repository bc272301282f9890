// Values that are told apart by their first word.
ghost use Rattle.std.specs.Prelude.{◌≡◌, ℕ, false, List, [], ◌∷◌, ◌++◌, Some, None, OnOk, MatchBool};
ghost use Rattle.std.specs.Str.{bytes_eq};
ghost use Rattle.wx_words.specs.Combine.{read_literal};
ghost use Rattle.wx_words.specs.Line.{behind, joined};

use crate::cursor::Words;
use crate::spelled::Spelled;
use wx_text::{Memory, Text};

/// What stands behind a first word, lent to be written: a value, or one behind the other.
pub trait Fields {
    /// Whether the numbers and texts are those of the code.
    ghost fits: { Self → Type 0 };

    ghost words: { Self → List (List ℕ) };

    /// Appends the words, each with a space before it. A part of the words may stand in `out` where memory runs out.
    fn put_fields(&self, out: &mut Text) -> Result<(), Memory>
        ensures text { OnOk result (out.new ≡ behind out.old (words self.now)) }
        ensures fits { OnOk result (fits self.now) };
}

impl<'a, T: Spelled> Fields for &'a T {
    ghost fits = { λ lent. T.spelling.fits lent.now };

    ghost words = { λ lent. T.spelling.words lent.now };

    fn put_fields(&self, out: &mut Text) -> Result<(), Memory> {
        let value: &T = self;
        value.put_after(out)
    }
}

#[tactic(auto, using(crate::specs::LineLaws::behinds))]
impl<A: Fields, B: Fields> Fields for (A, B) {
    ghost fits = { λ p. A.fits p.0 × B.fits p.1 };

    ghost words = { λ p. A.words p.0 ++ B.words p.1 };

    fn put_fields(&self, out: &mut Text) -> Result<(), Memory> {
        let (first, second) = self;
        first.put_fields(out)?;
        second.put_fields(out)?;
        Ok(())
    }
}

/// Fields behind a word that names them.
#[derive(Clone, Copy)]
pub struct NamedFields<'a, F> {
    pub word: &'a [u8],
    pub fields: F,
}

/// These fields behind this word.
#[macro_export]
macro_rules! named {
    ($word:literal, $fields:expr) => {
        $crate::NamedFields {
            word: $word,
            fields: $fields,
        }
    };
}

#[tactic(auto, using(crate::specs::LineLaws::behinds))]
impl<'a, F: Fields> Fields for NamedFields<'a, F> {
    ghost fits = { λ n. F.fits n.fields };

    ghost words = { λ n. n.word.now ∷ F.words n.fields };

    fn put_fields(&self, out: &mut Text) -> Result<(), Memory> {
        put_word(self.word, out)?;
        self.fields.put_fields(out)?;
        Ok(())
    }
}

/// Appends this word, with a space before it.
pub fn put_word(word: &[u8], out: &mut Text) -> Result<(), Memory>
    ensures { OnOk result (out.new ≡ behind out.old (word.now ∷ [])) }
{
    out.push(32)?;
    out.append(word)
}

/// Appends this word and these values, each with a space before it. A part of that may stand in `out` where memory
/// runs out.
#[tactic(auto, using(crate::specs::LineLaws::behinds))]
pub fn put_row<F: Fields>(word: &[u8], fields: &F, out: &mut Text) -> Result<(), Memory>
    ensures text { OnOk result (out.new ≡ behind out.old (word.now ∷ F.words fields.now)) }
    ensures fits { OnOk result (F.fits fields.now) }
{
    put_word(word, out)?;
    fields.put_fields(out)?;
    Ok(())
}

/// Appends this word and these values with one space between them. A part of that may stand in `out` where memory runs
/// out.
#[tactic(auto, using(crate::specs::LineLaws::begins))]
pub fn begin_row<F: Fields>(word: &[u8], fields: &F, out: &mut Text) -> Result<(), Memory>
    ensures text { OnOk result (out.new ≡ out.old ++ joined (word.now ∷ F.words fields.now)) }
    ensures fits { OnOk result (F.fits fields.now) }
{
    out.append(word)?;
    fields.put_fields(out)?;
    Ok(())
}

/// Whether these are the same word.
#[tactic(auto, using(crate::specs::LineLaws::bytes_same))]
pub fn is_word(first: &[u8], word: &[u8]) -> bool
    ensures { MatchBool result (first.now ≡ word.now) (bytes_eq first.now word.now ≡ false) }
{
    first == word
}

/// Takes this word, or loses the place.
pub fn take_literal(word: &[u8], line: &mut Words) -> bool
    ensures { MatchBool result (read_literal word.now line.old ≡ Some (tt, line.new)) (read_literal word.now line.old ≡ None) }
{
    match line.next() {
        None => false,
        Some(next) => next == word,
    }
}

/// Takes the first word, and then the fields that stand behind this word, or loses the place. A row may name what reads
/// its fields, where that is not their type.
#[macro_export]
macro_rules! read_rows {
    ($alloc:expr, $line:expr; $($word:literal $(($($field:pat),+ $(= $reader:path)?))? => $value:expr,)+) => {{
        let _alloc = $alloc;
        let Some(first) = $line.next() else {
            return Ok(None);
        };
        $(if $crate::is_word(first, $word.as_slice()) {
            return $crate::read_row!(_alloc, $line; $(($($field),+ $(= $reader)?))? => $value);
        })+
        Ok(None)
    }};
}

/// Takes the fields of a row, and makes its value of them.
#[macro_export]
macro_rules! read_row {
    ($alloc:expr, $line:expr; => $value:expr) => {
        Ok(Some($value))
    };
    ($alloc:expr, $line:expr; ($($field:pat),+) => $value:expr) => {
        match $crate::Spelled::read($alloc, $line)? {
            Some(($($field),+)) => Ok(Some($value)),
            None => Ok(None),
        }
    };
    ($alloc:expr, $line:expr; ($($field:pat),+ = $reader:path) => $value:expr) => {
        match $reader($alloc, $line)? {
            Some(($($field),+)) => Ok(Some($value)),
            None => Ok(None),
        }
    };
}
