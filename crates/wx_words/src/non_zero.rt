// Signed numbers other than zero, as words.
ghost use Rattle.std.specs.Prelude.{◌≡◌};

use crate::cursor::Words;
use crate::spelled::Spelled;
use std::alloc::Global;
use std::num::{NonZeroI32, NonZeroI64};
use wx_text::{Memory, Text};

impl Spelled for NonZeroI64 {
    ghost use Rattle.wx_words.specs.Parts.{as_line, non_zero_i64};

    ghost spelling = { as_line non_zero_i64 };

    fn put_after(&self, out: &mut Text) -> Result<(), Memory> {
        self.get().put_after(out)
    }

    fn read(alloc: Global, line: &mut Words) -> Result<Option<NonZeroI64>, Memory> {
        let Some(n) = i64::read(alloc, line)? else {
            return Ok(None);
        };
        let Some(found) = NonZeroI64::new(n) else {
            return Ok(None);
        };
        Ok(Some(found))
    }
}

impl Spelled for NonZeroI32 {
    ghost use Rattle.wx_words.specs.Parts.{as_line, non_zero_i32};

    ghost spelling = { as_line non_zero_i32 };

    fn put_after(&self, out: &mut Text) -> Result<(), Memory> {
        self.get().put_after(out)
    }

    fn read(alloc: Global, line: &mut Words) -> Result<Option<NonZeroI32>, Memory> {
        let Some(n) = i32::read(alloc, line)? else {
            return Ok(None);
        };
        let Some(found) = NonZeroI32::new(n) else {
            return Ok(None);
        };
        Ok(Some(found))
    }
}
