// Values one behind the other, as words.
ghost use Rattle.std.specs.Prelude.{◌≡◌};

use crate::cursor::Words;
use crate::spelled::Spelled;
use std::alloc::Global;
use wx_text::{Memory, Text};

#[tactic(auto, using(crate::specs::LineLaws::behinds), unfolding(crate::specs::Parts::both))]
impl<A: Spelled, B: Spelled> Spelled for (A, B) {
    ghost use Rattle.wx_words.specs.Parts.{both};

    ghost spelling = { both A.spelling B.spelling };

    fn put_after(&self, out: &mut Text) -> Result<(), Memory> {
        let (first, second) = self;
        first.put_after(out)?;
        second.put_after(out)?;
        Ok(())
    }

    fn read(alloc: Global, line: &mut Words) -> Result<Option<(A, B)>, Memory> {
        let Some(first) = A::read(alloc, line)? else {
            return Ok(None);
        };
        let Some(second) = B::read(alloc, line)? else {
            return Ok(None);
        };
        Ok(Some((first, second)))
    }
}
