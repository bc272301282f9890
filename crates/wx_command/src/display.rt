// How programs and commands are shown.
ghost use Rattle.std.specs.Prelude.{◌≡◌, IsTrue};
ghost use Rattle.std.specs.Fmt.{WritesOnOk};
ghost use Rattle.std.specs.List.{list_all};
ghost use Rattle.std.specs.Str.{is_utf8};
ghost use Rattle.wx_words.specs.Line.{spaced};
ghost use Rattle.wx_command.specs.Shown.{shown};

use crate::command::Command;
use crate::program::Program;
use std::{fmt, str};
use wx_text::Text;
use wx_words::Escaped;

/// Writes a text, or where it isn't UTF-8 the word that stands for it.
fn write_text<W: fmt::Write>(text: &Text, f: &mut fmt::Formatter<W>) -> fmt::Result
    ensures { IsTrue (is_utf8 text.now) → WritesOnOk W.write_str_gives f.old result text.now f.new }
{
    match str::from_utf8(text.as_slice()) {
        Ok(text) => f.write_str(text),
        Err(_) => write!(f, "{}", Escaped(text)),
    }
}

/// Writes each text with a space before it.
fn write_behind<W: fmt::Write>(texts: &[Text], f: &mut fmt::Formatter<W>) -> fmt::Result
    ensures { IsTrue (list_all is_utf8 texts.now) → WritesOnOk W.write_str_gives f.old result (spaced texts.now) f.new }
{
    for text in texts {
        f.write_str(" ")?;
        write_text(text, f)?;
    }
    Ok(())
}

impl fmt::Display for Program {
    ghost output = { shown };

    fn fmt<W: fmt::Write>(&self, f: &mut fmt::Formatter<W>) -> fmt::Result {
        match self {
            Program::Exec { prog, args } => {
                write_text(prog, f)?;
                write_behind(args.as_slice(), f)
            }
            Program::Shell { command, .. } => write_text(command, f),
        }
    }
}

impl fmt::Display for Command {
    ghost output = { λ c. shown c.program };

    fn fmt<W: fmt::Write>(&self, f: &mut fmt::Formatter<W>) -> fmt::Result {
        self.program.fmt(f)
    }
}
