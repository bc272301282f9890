// What is done and gives no value, as a word.
use crate::cursor::Words;
use crate::read_rows;
use crate::rows::put_word;
use crate::spelled::Spelled;
use std::alloc::Global;
use wx_text::{Memory, Text};

#[tactic(auto, unfolding(crate::specs::Done::ok))]
impl Spelled for () {
    ghost use Rattle.wx_words.specs.Done.{ok};

    ghost spelling = { ok };

    fn put_after(&self, out: &mut Text) -> Result<(), Memory> {
        put_word(b"ok", out)
    }

    fn read(alloc: Global, line: &mut Words) -> Result<Option<()>, Memory> {
        read_rows!(alloc, line;
            b"ok" => (),
        )
    }
}
