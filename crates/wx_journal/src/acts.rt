// What a handler asks of the engine, as words.
use crate::entry::Act;
use std::alloc::Global;
use wx_text::{Memory, Text};
use wx_words::{Spelled, Words, put_row, put_word, read_rows};

#[tactic(auto, unfolding(crate::specs::Acts::act_of, wx_words::specs::Parts::both))]
impl<J: Spelled> Spelled for Act<J> {
    ghost use Rattle.wx_journal.specs.Acts.{act_of};

    ghost spelling = { act_of J.spelling };

    fn put_after(&self, out: &mut Text) -> Result<(), Memory> {
        match self {
            Act::Create(job, command) => put_row(b"create", &(job, command), out),
            Act::Ask(job, ask) => put_row(b"ask", &(job, ask), out),
            Act::Change(change) => put_row(b"change", &change, out),
            Act::Quit => put_word(b"quit", out),
            Act::QuitGracefully { signal, grace } => {
                put_row(b"quitgracefully", &(signal, grace), out)
            }
        }
    }

    fn read(alloc: Global, line: &mut Words) -> Result<Option<Act<J>>, Memory> {
        read_rows!(alloc, line;
            b"create" (job, command) => Act::Create(job, command),
            b"ask" (job, ask) => Act::Ask(job, ask),
            b"change" (change) => Act::Change(change),
            b"quit" => Act::Quit,
            b"quitgracefully" (signal, grace) => Act::QuitGracefully { signal, grace },
        )
    }
}
