// The options of a spawn, as a word.
ghost use Rattle.std.specs.Prelude.{◌≡◌};
ghost use Rattle.wx_command.specs.Options.{flag_byte, flag_in, options_in};

use crate::command::SpawnOptions;
use std::alloc::Global;
use wx_text::{Memory, Text};
use wx_words::{Spelled, Words};

/// This letter where the option is on, and a hyphen where it is off.
fn flag_byte(letter: u8, on: bool) -> u8
    ensures { result ≡ flag_byte letter on }
{
    if on { letter } else { b'-' }
}

/// Whether the option of this letter is on.
fn flag_in(letter: u8, byte: u8) -> Option<bool>
    ensures { result ≡ flag_in letter byte }
{
    if byte == letter {
        Some(true)
    } else if byte == b'-' {
        Some(false)
    } else {
        None
    }
}

/// The options that a word stands for.
fn options_in(word: &[u8]) -> Option<SpawnOptions>
    ensures { result ≡ options_in word.now }
{
    match word {
        [g, s, r, f] => Some(SpawnOptions {
            grouped: flag_in(b'g', *g)?,
            session: flag_in(b's', *s)?,
            reset_sigmask: flag_in(b'r', *r)?,
            grant_foreground: flag_in(b'f', *f)?,
        }),
        _ => None,
    }
}

#[tactic(auto, unfolding(crate::specs::OptionsLaws::options, wx_words::specs::Line::behind))]
impl Spelled for SpawnOptions {
    ghost use Rattle.wx_command.specs.OptionsLaws.{options};

    ghost spelling = { options };

    fn put_after(&self, out: &mut Text) -> Result<(), Memory> {
        out.append(b" ")?;
        out.push(flag_byte(b'g', self.grouped))?;
        out.push(flag_byte(b's', self.session))?;
        out.push(flag_byte(b'r', self.reset_sigmask))?;
        out.push(flag_byte(b'f', self.grant_foreground))
    }

    fn read(_alloc: Global, line: &mut Words) -> Result<Option<SpawnOptions>, Memory> {
        match line.next() {
            Some(word) => Ok(options_in(word)),
            None => Ok(None),
        }
    }
}
