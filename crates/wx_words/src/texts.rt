// Texts as words.
ghost use Rattle.std.specs.Prelude.{◌≡◌, ◌+◌, ◌*◌, ◌<◌, ◌++◌, Option, Some, None, OnOk, IfOk, IfSome, IfNone, length, true};
ghost use Rattle.wx_words.specs.CleanLaws.{text_words_clean};
ghost use Rattle.wx_words.specs.TextLaws.{text_form};
ghost use Rattle.wx_words.specs.Texts.{AllBytes, escaped_byte, escaped, text_words, hex_in, unescaped, text_in, read_text, is_plain, onto};
ghost use Rattle.std.specs.Fmt.{digit_glyph};

use crate::cursor::Words;
use crate::spelled::Spelled;
use std::alloc::Global;
use std::fmt;
use wx_text::{Memory, Text};

/// The hexadecimal digit of a number.
fn hex_digit(n: u8) -> u8
    requires { n < 16 }
    ensures { result ≡ digit_glyph true n }
{
    if n < 10 { 48 + n } else { 55 + n }
}

/// The value of a hexadecimal digit.
fn hex_value(c: u8) -> Option<u8>
    ensures { result ≡ hex_in c }
{
    match c {
        48..=57 => Some(c - 48),
        65..=70 => Some(c - 55),
        97..=102 => Some(c - 87),
        _ => None,
    }
}

/// Whether this byte stands for itself.
fn is_plain(b: u8) -> bool
    ensures { result ≡ is_plain b }
{
    32 < b && b < 127 && b != 37
}

/// Appends what stands for this byte.
fn put_byte(b: u8, out: &mut Text) -> Result<(), Memory>
    ensures { OnOk result (out.new ≡ out.old ++ escaped_byte b) }
{
    if is_plain(b) {
        out.push(b)
    } else {
        out.append(&[37, hex_digit(b / 16), hex_digit(b % 16)])
    }
}

/// Appends what stands for these bytes.
fn put_bytes(bytes: &[u8], out: &mut Text) -> Result<(), Memory>
    ensures text { OnOk result (out.new ≡ out.old ++ escaped bytes.now) }
    ensures fits { AllBytes bytes.now }
{
    for b in bytes {
        put_byte(*b, out)?;
    }
    Ok(())
}

/// The first byte that a word stands for, and what stands behind it.
fn first_byte(word: &[u8]) -> Option<(u8, &[u8])>
    requires { 0 < length word.now }
    ensures none { IfNone result (unescaped word.now ≡ None) }
    ensures some { IfSome result (λ p. unescaped word.now ≡ onto p.0 (unescaped p.1.now)) }
    ensures shorter { IfSome result (λ p. length p.1.now < length word.now) }
{
    match word {
        [37, c, d, rest @ ..] => match (hex_value(*c), hex_value(*d)) {
            (Some(high), Some(low)) => Some((16 * high + low, rest)),
            _ => None,
        },
        [b, rest @ ..] => { if is_plain(*b) { Some((*b, rest)) } else { None } }
        [] => None,
    }
}

/// The bytes that a word stands for.
#[tactic(auto, using(crate::proofs::BehindLaws::behind_more))]
fn unescaped(alloc: Global, word: &[u8]) -> Result<Option<Text>, Memory>
    ensures { IfOk result (λ t. t ≡ unescaped word.now) }
{
    let mut text = Text::new(alloc);
    let mut rest = word;
    while !rest.is_empty() {
        let Some((byte, after)) = first_byte(rest) else {
            return Ok(None);
        };
        text.push(byte)?;
        rest = after;
    }
    Ok(Some(text))
}

/// The text that a word stands for.
pub fn text_in(alloc: Global, word: &[u8]) -> Result<Option<Text>, Memory>
    ensures { IfOk result (λ t. t ≡ text_in word.now) }
{
    match word {
        [] => Ok(None),
        [37] => Ok(Some(Text::new(alloc))),
        _ => unescaped(alloc, word),
    }
}

/// A text that is shown as the word that stands for it.
#[derive(Clone, Copy, Debug)]
pub struct Escaped<'a>(pub &'a Text);

impl fmt::Display for Escaped<'_> {
    fn fmt<W: fmt::Write>(&self, f: &mut fmt::Formatter<W>) -> fmt::Result {
        let bytes = self.0.as_slice();
        if bytes.is_empty() {
            return f.write_str("%");
        }
        for b in bytes {
            if is_plain(*b) {
                f.write_char(*b as char)?;
            } else {
                write!(f, "%{b:02X}")?;
            }
        }
        Ok(())
    }
}

impl Spelled for Text {
    ghost spelling = { record { fits = AllBytes; words = text_words; read = read_text; form = text_form; clean = text_words_clean } };

    fn put_after(&self, out: &mut Text) -> Result<(), Memory> {
        out.push(32)?;
        if self.len() == 0 {
            return out.push(37);
        }
        put_bytes(self.as_slice(), out)
    }

    fn read(alloc: Global, line: &mut Words) -> Result<Option<Text>, Memory> {
        match line.next() {
            Some(word) => text_in(alloc, word),
            None => Ok(None),
        }
    }
}
