// A program and its arguments, as words.
ghost use Rattle.std.specs.Prelude.{◌≡◌};

use std::alloc::Global;
use wx_text::{List, Memory, Text};
use wx_words::{Fields, Spelled, Words, put_items};

/// A program, and its arguments.
#[derive(Drop, Debug)]
pub struct Argv {
    pub prog: Text,
    pub args: List<Text>,
}

/// The same, lent to be written.
#[derive(Clone, Copy)]
pub struct ArgvRef<'a> {
    pub prog: &'a Text,
    pub args: &'a List<Text>,
}

impl<'a> Fields for ArgvRef<'a> {
    ghost use Rattle.wx_command.specs.Argvs.{argv};

    ghost fits = { λ lent. argv.fits (record { prog = lent.prog.now; args = lent.args.now }) };

    ghost words = { λ lent. argv.words (record { prog = lent.prog.now; args = lent.args.now }) };

    #[tactic(auto, using(wx_words::specs::LineLaws::spaces), unfolding(wx_words::specs::Line::behind))]
    fn put_fields(&self, out: &mut Text) -> Result<(), Memory> {
        let args = self.args.as_slice();
        (args.len() as u64 + 1).put_after(out)?;
        self.prog.put_after(out)?;
        put_items(args, out)
    }
}

impl Spelled for Argv {
    ghost use Rattle.wx_command.specs.Argvs.{argv};

    ghost spelling = { argv };

    fn put_after(&self, out: &mut Text) -> Result<(), Memory> {
        let lent = ArgvRef {
            prog: &self.prog,
            args: &self.args,
        };
        lent.put_fields(out)
    }

    fn read(alloc: Global, line: &mut Words) -> Result<Option<Argv>, Memory> {
        let found: Option<List<Text>> = List::read(alloc, line)?;
        let Some(mut args) = found else {
            return Ok(None);
        };
        let Some(prog) = args.take_first() else {
            return Ok(None);
        };
        Ok(Some(Argv { prog, args }))
    }
}
