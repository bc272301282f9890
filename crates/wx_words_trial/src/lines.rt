// Values and their lines.
use std::alloc::Global;
use std::fmt;
use wx_text::{Copies, Memory, Text};
use wx_words::{Spelled, Words};

/// The words of this value with one space between them.
pub fn line_of<T: Spelled>(alloc: Global, value: &T) -> Result<Text, Memory> {
    let mut line = Text::new(alloc);
    value.put(&mut line)?;
    Ok(line)
}

/// The value whose words are this whole line.
pub fn read_line<T: Spelled>(alloc: Global, line: &[u8]) -> Result<Option<T>, Memory> {
    let mut words = Words::new(line);
    let found = T::take(alloc, &mut words)?;
    if words.is_done() { Ok(found) } else { Ok(None) }
}

/// Whether the words of this value, with one space between them, are this line.
pub fn is_written<T: Spelled>(alloc: Global, value: &T, line: &[u8]) -> Result<bool, Memory> {
    let written = line_of(alloc, value)?;
    Ok(written.as_slice() == line)
}

/// Whether this value is shown so.
pub fn is_shown<T: fmt::Display>(alloc: Global, value: &T, shown: &str) -> Result<bool, Memory> {
    let text = format!(in alloc; "{value}")?;
    Ok(text.as_str() == shown)
}

/// Whether the fields of this value are shown by this text.
pub fn has_fields<T: fmt::Debug>(alloc: Global, value: &T, fields: &str) -> Result<bool, Memory> {
    let text = format!(in alloc; "{value:?}")?;
    Ok(text.as_str() == fields)
}

/// Whether the fields of this value are shown by a text that begins so.
pub fn begins<T: fmt::Debug>(alloc: Global, value: &T, fields: &str) -> Result<bool, Memory> {
    let text = format!(in alloc; "{value:?}")?;
    Ok(text.as_str().starts_with(fields))
}

/// Whether a copy of this value equals it.
pub fn equals_its_copy<T: Copies + PartialEq + Drop>(
    alloc: Global,
    value: &T,
) -> Result<bool, Memory> {
    let copy = value.copy(alloc)?;
    Ok(copy == *value)
}

/// Whether this whole line is a value of this type.
pub fn is_read<T: Spelled>(alloc: Global, line: &[u8]) -> Result<bool, Memory> {
    let found: Option<T> = read_line(alloc, line)?;
    Ok(found.is_some())
}

/// Whether this whole line is no value of this type.
pub fn is_refused<T: Spelled>(alloc: Global, line: &[u8]) -> Result<bool, Memory> {
    let found: Option<T> = read_line(alloc, line)?;
    Ok(found.is_none())
}

/// Whether this whole line is a value of this type, which is written by the line.
pub fn is_read_again<T: Spelled>(alloc: Global, line: &[u8]) -> Result<bool, Memory> {
    match read_line::<T>(alloc, line)? {
        Some(value) => is_written(alloc, &value, line),
        None => Ok(false),
    }
}
