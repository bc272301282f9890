// Values in boxes as words.
ghost use Rattle.wx_words.specs.Line.{Reads};

use crate::cursor::Words;
use crate::spelled::Spelled;
use std::alloc::Global;
use wx_text::{Boxed, Memory, Text};

impl<T: Spelled> Spelled for Boxed<T> {
    ghost spelling = { T.spelling };

    fn put_after(&self, out: &mut Text) -> Result<(), Memory> {
        self.get().put_after(out)
    }

    fn read(alloc: Global, line: &mut Words) -> Result<Option<Boxed<T>>, Memory> {
        match T::read(alloc, line)? {
            Some(value) => Ok(Some(Boxed::new(alloc, value)?)),
            None => Ok(None),
        }
    }
}
