// A value or an error, as words.
ghost use Rattle.std.specs.Prelude.{◌≡◌, IfOk};
ghost use Rattle.wx_words.specs.Line.{Reads};
ghost use Rattle.wx_words.specs.Results.{read_result};

use crate::cursor::Words;
use crate::rows::Fields;
use crate::spelled::Spelled;
use std::alloc::Global;
use wx_text::{Memory, Text};

/// A value or an error, lent to be written.
#[derive(Clone, Copy)]
pub struct ResultRef<'a, T, E> {
    pub result: &'a Result<T, E>,
}

impl<'a, T: Spelled, E: Spelled> Fields for ResultRef<'a, T, E> {
    ghost use Rattle.wx_words.specs.Results.{ResultFits, result_words};

    ghost fits = { λ lent. ResultFits T.spelling E.spelling lent.result.now };

    ghost words = { λ lent. result_words T.spelling E.spelling lent.result.now };

    fn put_fields(&self, out: &mut Text) -> Result<(), Memory> {
        match self.result {
            Ok(value) => value.put_after(out),
            Err(error) => error.put_after(out),
        }
    }
}

/// Takes the value at the front, or else the error, or loses the place.
pub fn read_result<T: Spelled, E: Spelled>(
    alloc: Global,
    line: &mut Words,
) -> Result<Option<Result<T, E>>, Memory>
    ensures { IfOk result (λ x. Reads line.new x (read_result T.spelling E.spelling line.old)) }
{
    let mut ahead = line.fork();
    if let Some(value) = T::read(alloc, &mut ahead)? {
        *line = ahead;
        return Ok(Some(Ok(value)));
    }
    match E::read(alloc, line)? {
        Some(error) => Ok(Some(Err(error))),
        None => Ok(None),
    }
}
