// Keys.
ghost use Rattle.std.specs.Prelude.{◌≡◌, ◌++◌, IfOk, OnOk, MatchOption, None, Some};
ghost use Rattle.std.specs.Char.{encode_utf8};
ghost use Rattle.wx_words.specs.Texts.{text_word};
ghost use Rattle.wx_events.specs.Keys.{behind_front, char_in, code_in, key_in, pressed, modifiers_word, code_word, CodeFits};

use std::alloc::Global;
use std::{fmt, str};
use wx_text::{Memory, Text};
use wx_words::{Spelled, Words, put_word, text_in};

/// What was read from the keyboard.
#[derive(Clone, Copy, Debug, PartialEq, Eq)]
pub enum Keyboard {
    /// The end of the input.
    Eof,
    Key { key: KeyCode, modifiers: Modifiers },
}

/// Which key was pressed.
#[derive(Clone, Copy, Debug, PartialEq, Eq)]
pub enum KeyCode {
    /// The key of this character.
    Char(char),
    Enter,
    Escape,
}

/// Which keys were held meanwhile.
#[derive(Clone, Copy, Debug, Default, PartialEq, Eq)]
pub struct Modifiers {
    pub ctrl: bool,
}

/// Appends what stands before a key for its modifiers.
fn put_modifiers(modifiers: Modifiers, out: &mut Text) -> Result<(), Memory>
    ensures { OnOk result (out.new ≡ out.old ++ modifiers_word modifiers) }
{
    if modifiers.ctrl {
        out.append(b"ctrl.")
    } else {
        Ok(())
    }
}

/// Appends the word of the text that is this character alone.
fn put_char(c: char, out: &mut Text) -> Result<(), Memory>
    ensures { OnOk result (out.new ≡ out.old ++ text_word (encode_utf8 c)) }
{
    let mut buffer = [0; 4];
    let bytes = c.encode_utf8(&mut buffer).as_bytes();
    let text = Text::from_slice(out.allocator(), bytes)?;
    text.put(out)
}

/// Appends the word of a key without modifiers.
fn put_code(key: KeyCode, out: &mut Text) -> Result<(), Memory>
    ensures text { OnOk result (out.new ≡ out.old ++ code_word key) }
    ensures fits { OnOk result (CodeFits key) }
{
    match key {
        KeyCode::Char(c) => {
            out.append(b"char.")?;
            put_char(c, out)
        }
        KeyCode::Enter => out.append(b"enter"),
        KeyCode::Escape => out.append(b"escape"),
    }
}

/// The character that these bytes are alone.
fn char_of(bytes: &[u8]) -> Option<char>
    ensures { result ≡ char_in bytes.now }
{
    let Ok(text) = str::from_utf8(bytes) else {
        return None;
    };
    let mut chars = text.chars();
    let first = chars.next()?;
    match chars.next() {
        Some(_) => None,
        None => Some(first),
    }
}

/// What stands in a word behind this front.
fn behind_front<'a>(front: &[u8], word: &'a [u8]) -> Option<&'a [u8]>
    ensures { MatchOption result (behind_front front.now word.now ≡ None) (λ rest. behind_front front.now word.now ≡ Some rest.now) }
{
    word.strip_prefix(front)
}

/// The key that a word without modifiers spells.
fn code_of(alloc: Global, word: &[u8]) -> Result<Option<KeyCode>, Memory>
    ensures { IfOk result (λ key. key ≡ code_in word.now) }
{
    if word == b"enter".as_slice() {
        return Ok(Some(KeyCode::Enter));
    }
    if word == b"escape".as_slice() {
        return Ok(Some(KeyCode::Escape));
    }
    let Some(escaped) = behind_front(b"char.", word) else {
        return Ok(None);
    };
    let Some(text) = text_in(alloc, escaped)? else {
        return Ok(None);
    };
    match char_of(text.as_slice()) {
        Some(c) => Ok(Some(KeyCode::Char(c))),
        None => Ok(None),
    }
}

/// The key that this word spells, with these modifiers before it.
fn pressed(alloc: Global, word: &[u8], modifiers: Modifiers) -> Result<Option<Keyboard>, Memory>
    ensures { IfOk result (λ key. key ≡ pressed modifiers word.now) }
{
    match code_of(alloc, word)? {
        Some(key) => Ok(Some(Keyboard::Key { key, modifiers })),
        None => Ok(None),
    }
}

/// What a word spells.
fn key_of(alloc: Global, word: &[u8]) -> Result<Option<Keyboard>, Memory>
    ensures { IfOk result (λ key. key ≡ key_in word.now) }
{
    if word == b"eof".as_slice() {
        return Ok(Some(Keyboard::Eof));
    }
    match behind_front(b"ctrl.", word) {
        Some(key) => pressed(alloc, key, Modifiers { ctrl: true }),
        None => pressed(alloc, word, Modifiers { ctrl: false }),
    }
}

/// Shows a character as a part of a word.
fn show_char<W: fmt::Write>(f: &mut fmt::Formatter<W>, c: char) -> fmt::Result {
    if c.is_ascii_graphic() && c != '%' {
        return f.write_char(c);
    }
    let mut buffer = [0; 4];
    for b in c.encode_utf8(&mut buffer).as_bytes() {
        write!(f, "%{b:02X}")?;
    }
    Ok(())
}

impl fmt::Display for KeyCode {
    fn fmt<W: fmt::Write>(&self, f: &mut fmt::Formatter<W>) -> fmt::Result {
        match self {
            KeyCode::Char(c) => {
                f.write_str("char.")?;
                show_char(f, *c)
            }
            KeyCode::Enter => f.write_str("enter"),
            KeyCode::Escape => f.write_str("escape"),
        }
    }
}

impl fmt::Display for Keyboard {
    fn fmt<W: fmt::Write>(&self, f: &mut fmt::Formatter<W>) -> fmt::Result {
        match self {
            Keyboard::Eof => f.write_str("eof"),
            Keyboard::Key { key, modifiers } => {
                if modifiers.ctrl {
                    f.write_str("ctrl.")?;
                }
                key.fmt(f)
            }
        }
    }
}

#[tactic(auto, unfolding(crate::specs::Events::key, wx_words::specs::Line::behind))]
impl Spelled for Keyboard {
    ghost use Rattle.wx_events.specs.Events.{key};

    ghost spelling = { key };

    fn put_after(&self, out: &mut Text) -> Result<(), Memory> {
        match self {
            Keyboard::Eof => put_word(b"eof", out),
            Keyboard::Key { key, modifiers } => {
                out.push(32)?;
                put_modifiers(*modifiers, out)?;
                put_code(*key, out)
            }
        }
    }

    fn read(alloc: Global, line: &mut Words) -> Result<Option<Keyboard>, Memory> {
        match line.next() {
            Some(word) => key_of(alloc, word),
            None => Ok(None),
        }
    }
}
