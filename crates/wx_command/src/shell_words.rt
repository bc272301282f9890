// Shells as words.
ghost use Rattle.std.specs.Prelude.{◌≡◌, IfOk};
ghost use Rattle.wx_words.specs.Line.{Reads};
ghost use Rattle.wx_command.specs.Shells.{quoting, program_option};

use crate::shell::Shell;
use std::alloc::Global;
use wx_text::{List, Memory, Text};
use wx_words::{Fields, Spelled, Words, put_row, put_word, read_rows};

/// Whether the text is to be quoted, to be written.
#[derive(Clone, Copy)]
struct Quoting(bool);

#[tactic(auto, unfolding(crate::specs::Shells::quoting))]
impl Fields for Quoting {
    ghost use Rattle.wx_command.specs.Shells.{quoting};

    ghost fits = { λ q. quoting.fits q.0 };

    ghost words = { λ q. quoting.words q.0 };

    fn put_fields(&self, out: &mut Text) -> Result<(), Memory> {
        if self.0 {
            put_word(b"quoted", out)
        } else {
            put_word(b"raw", out)
        }
    }
}

/// Takes whether to quote, or loses the place.
#[tactic(auto, unfolding(crate::specs::Shells::quoting))]
fn read_quoting(alloc: Global, line: &mut Words) -> Result<Option<bool>, Memory>
    ensures { IfOk result (λ x. Reads line.new x (quoting.read line.old)) }
{
    read_rows!(alloc, line;
        b"quoted" => true,
        b"raw" => false,
    )
}

/// A program option, which may be absent, lent to be written.
#[derive(Clone, Copy)]
struct ProgramOption<'a>(&'a Option<Text>);

#[tactic(auto, unfolding(crate::specs::Shells::program_option))]
impl<'a> Fields for ProgramOption<'a> {
    ghost use Rattle.wx_command.specs.Shells.{program_option};

    ghost fits = { λ lent. program_option.fits lent.0.now };

    ghost words = { λ lent. program_option.words lent.0.now };

    fn put_fields(&self, out: &mut Text) -> Result<(), Memory> {
        match self.0 {
            Some(text) => put_row(b"some", &text, out),
            None => put_word(b"none", out),
        }
    }
}

/// Takes a program option, which may be absent, or loses the place.
#[tactic(auto, unfolding(crate::specs::Shells::program_option))]
fn read_program_option(alloc: Global, line: &mut Words) -> Result<Option<Option<Text>>, Memory>
    ensures { IfOk result (λ x. Reads line.new x (program_option.read line.old)) }
{
    read_rows!(alloc, line;
        b"none" => None,
        b"some" (text) => Some(text),
    )
}

#[tactic(auto, unfolding(crate::specs::Shells::shell, wx_words::specs::Parts::both))]
impl Spelled for Shell {
    ghost use Rattle.wx_command.specs.Shells.{shell};

    ghost spelling = { shell };

    fn put_after(&self, out: &mut Text) -> Result<(), Memory> {
        let option = ProgramOption(&self.program_option);
        let behind = (Quoting(self.quote), (&self.options, option));
        (&self.prog, behind).put_fields(out)
    }

    fn read(alloc: Global, line: &mut Words) -> Result<Option<Shell>, Memory> {
        let Some(prog) = Text::read(alloc, line)? else {
            return Ok(None);
        };
        let Some(quote) = read_quoting(alloc, line)? else {
            return Ok(None);
        };
        let found: Option<List<Text>> = List::read(alloc, line)?;
        let Some(options) = found else {
            return Ok(None);
        };
        let Some(program_option) = read_program_option(alloc, line)? else {
            return Ok(None);
        };
        Ok(Some(Shell {
            prog,
            options,
            program_option,
            quote,
        }))
    }
}
