// A value that may be absent, as words.
ghost use Rattle.std.specs.Prelude.{◌≡◌, IfOk};
ghost use Rattle.wx_words.specs.Line.{Reads};
ghost use Rattle.wx_events.specs.OrNone.{read_or_none};

use std::alloc::Global;
use std::fmt;
use wx_text::{Memory, Text};
use wx_words::{Fields, Spelled, Words, put_word, take_literal};

/// A value that may be absent, lent to be written. Where it is absent the word `none` stands for it.
#[derive(Clone, Copy)]
pub struct OrNone<'a, T>(pub &'a Option<T>);

impl<'a, T: Spelled> Fields for OrNone<'a, T> {
    ghost use Rattle.wx_events.specs.OrNone.{OrNoneFits, or_none_words};

    ghost fits = { λ lent. OrNoneFits T.spelling lent.0.now };

    ghost words = { λ lent. or_none_words T.spelling lent.0.now };

    fn put_fields(&self, out: &mut Text) -> Result<(), Memory> {
        match self.0 {
            Some(value) => value.put_after(out),
            None => put_word(b"none", out),
        }
    }
}

impl<'a, T: fmt::Display> fmt::Display for OrNone<'a, T> {
    fn fmt<W: fmt::Write>(&self, f: &mut fmt::Formatter<W>) -> fmt::Result {
        match self.0 {
            Some(value) => value.fmt(f),
            None => f.write_str("none"),
        }
    }
}

/// Takes the word `none`, or else the value at the front, or loses the place.
pub fn read_or_none<T: Spelled>(
    alloc: Global,
    line: &mut Words,
) -> Result<Option<Option<T>>, Memory>
    ensures { IfOk result (λ x. Reads line.new x (read_or_none T.spelling line.old)) }
{
    let mut ahead = line.fork();
    if take_literal(b"none", &mut ahead) {
        *line = ahead;
        return Ok(Some(None));
    }
    match T::read(alloc, line)? {
        Some(value) => Ok(Some(Some(value))),
        None => Ok(None),
    }
}
