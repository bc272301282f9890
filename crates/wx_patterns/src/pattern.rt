// A pattern, and reading it from a line.
ghost use Rattle.std.specs.Prelude.{◌≡◌, ◌<◌, ◌++◌, length, true, IfOk, OnOk};
ghost use Rattle.std.specs.List.{list_all, list_any};
ghost use Rattle.wx_words.specs.Line.{parts};
ghost use Rattle.wx_patterns.specs.Lists.{last_or};
ghost use Rattle.wx_patterns.specs.Lines.{before_slash, behind_slash, body, is_fixed, is_negated, is_part, is_pattern, is_slash, pattern_of, unmarked};

use std::alloc::Global;
use wx_text::{List, Memory, Text};
use wx_words::cut;

/// A pattern: whether it had a `!` in front, and its parts.
#[derive(Drop, Debug)]
pub struct Pattern {
    pub negated: bool,
    pub parts: List<Text>,
}

/// Whether a line has a `!` in front.
fn is_negated(line: &[u8]) -> bool
    ensures { result ≡ is_negated line.now }
{
    matches!(line, [b'!', ..])
}

/// A line without one `!` in front.
fn unmarked(line: &[u8]) -> &[u8]
    ensures { result.now ≡ unmarked line.now }
{
    match line {
        [b'!', rest @ ..] => rest,
        _ => line,
    }
}

/// A text without one slash in front.
fn behind_slash(line: &[u8]) -> &[u8]
    ensures { result.now ≡ behind_slash line.now }
{
    match line {
        [b'/', rest @ ..] => rest,
        _ => line,
    }
}

/// Whether a text ends with a slash.
fn ends_with_slash(line: &[u8]) -> bool
    ensures slash { result ≡ is_slash (last_or 0 line.now) }
    ensures some { result ≡ true → 0 < length line.now }
{
    match line {
        [.., last] => *last == b'/',
        [] => false,
    }
}

/// A text without one slash at its end.
fn before_slash(line: &[u8]) -> &[u8]
    ensures { result.now ≡ before_slash line.now }
{
    if ends_with_slash(line) {
        &line[..line.len() - 1]
    } else {
        line
    }
}

/// What is left of a line.
fn body(line: &[u8]) -> &[u8]
    ensures { result.now ≡ body line.now }
{
    before_slash(behind_slash(unmarked(line)))
}

/// Whether a piece between slashes can be a part: it isn't empty, `.` or `..`.
fn is_part(piece: &[u8]) -> bool
    ensures { result ≡ is_part piece.now }
{
    !(piece.is_empty() || piece == b".".as_slice() || piece == b"..".as_slice())
}

/// Whether these are parts with a slash between each two.
fn are_parts(text: &[u8]) -> bool
    ensures { result ≡ list_all is_part (parts 47 text.now) }
{
    let mut rest = text;
    while let Some((piece, after)) = cut(rest, b'/') {
        if !is_part(piece) {
            return false;
        }
        rest = after;
    }
    is_part(rest)
}

/// Whether a line is a pattern.
pub fn is_pattern(line: &[u8]) -> bool
    ensures { result ≡ is_pattern line.now }
{
    are_parts(body(line))
}

/// Whether this text has a slash.
fn has_slash(text: &[u8]) -> bool
    ensures { result ≡ list_any is_slash text.now }
{
    for byte in text {
        if *byte == b'/' {
            return true;
        }
    }
    false
}

/// Whether a line had a slash in front, or has one left.
fn is_fixed(line: &[u8]) -> bool
    ensures { result ≡ is_fixed line.now }
{
    matches!(unmarked(line), [b'/', ..]) || has_slash(body(line))
}

/// Appends the parts of this text.
fn put_parts(alloc: Global, text: &[u8], out: &mut List<Text>) -> Result<(), Memory>
    ensures { OnOk result (out.new ≡ out.old ++ parts 47 text.now) }
{
    let mut rest = text;
    while let Some((piece, after)) = cut(rest, b'/') {
        out.push(Text::from_slice(alloc, piece)?)?;
        rest = after;
    }
    out.push(Text::from_slice(alloc, rest)?)
}

/// The pattern of a line that is one.
pub fn read_pattern(alloc: Global, line: &[u8]) -> Result<Pattern, Memory>
    ensures { IfOk result (λ pattern. pattern ≡ pattern_of line.now) }
{
    let mut parts = List::new(alloc);
    if !is_fixed(line) {
        parts.push(Text::from_slice(alloc, b"**")?)?;
    }
    put_parts(alloc, body(line), &mut parts)?;
    Ok(Pattern {
        negated: is_negated(line),
        parts,
    })
}
