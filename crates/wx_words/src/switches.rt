// What is on or off, as a word.
use crate::cursor::Words;
use crate::read_rows;
use crate::rows::put_word;
use crate::spelled::Spelled;
use std::alloc::Global;
use wx_text::{Memory, Text};

#[tactic(auto, unfolding(crate::specs::Switches::switch))]
impl Spelled for bool {
    ghost use Rattle.wx_words.specs.Switches.{switch};

    ghost spelling = { switch };

    fn put_after(&self, out: &mut Text) -> Result<(), Memory> {
        match self {
            true => put_word(b"on", out),
            false => put_word(b"off", out),
        }
    }

    fn read(alloc: Global, line: &mut Words) -> Result<Option<bool>, Memory> {
        read_rows!(alloc, line;
            b"on" => true,
            b"off" => false,
        )
    }
}
