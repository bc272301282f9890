// Tables of cases. They are texts, a case a line: a mark stands between what is given and what is expected of it.
use crate::lines::{has_fields, is_refused, is_written, read_line};
use std::alloc::Global;
use std::fmt;
use wx_text::Memory;
use wx_words::Spelled;

/// Whether the answer is yes, and not want of memory.
fn is_yes(answer: Result<bool, Memory>) -> bool {
    answer == Ok(true)
}

/// The first line of this table that isn't so.
pub fn first_wrong_line<'a, F: Fn(Global, &str) -> Result<bool, Memory>>(
    alloc: Global,
    table: &'a str,
    is_so: F,
) -> Option<&'a str>
    requires { F.IsAlwaysCallable is_so }
{
    for case in table.lines() {
        if !is_yes(is_so(alloc, case)) {
            return Some(case);
        }
    }
    None
}

/// The first line of this table where what stands before this mark and what stands behind it aren't so.
pub fn first_wrong_pair<'a, F: Fn(Global, &str, &str) -> Result<bool, Memory>>(
    alloc: Global,
    table: &'a str,
    mark: &str,
    is_so: F,
) -> Option<&'a str>
    requires { F.IsAlwaysCallable is_so }
{
    for case in table.lines() {
        let answer = match case.split_once(mark) {
            Some((line, expected)) => is_so(alloc, line, expected),
            None => Ok(false),
        };
        if !is_yes(answer) {
            return Some(case);
        }
    }
    None
}

/// Whether this line is read as a value that is so beside it and what is expected.
fn is_value<T: Spelled, F: Fn(Global, &T, &str, &str) -> Result<bool, Memory>>(
    alloc: Global,
    line: &str,
    expected: &str,
    is_so: &F,
) -> Result<bool, Memory>
    requires { F.IsAlwaysCallable is_so.now }
{
    match read_line::<T>(alloc, line.as_bytes())? {
        Some(value) => is_so(alloc, &value, line, expected),
        None => Ok(false),
    }
}

/// The first line of this table that isn't a value before this mark, or where this value, its line and what stands behind the mark
/// aren't so.
pub fn first_wrong_value<'a, T: Spelled, F: Fn(Global, &T, &str, &str) -> Result<bool, Memory>>(
    alloc: Global,
    table: &'a str,
    mark: &str,
    is_so: F,
) -> Option<&'a str>
    requires { F.IsAlwaysCallable is_so }
{
    for case in table.lines() {
        let answer = match case.split_once(mark) {
            Some((line, expected)) => is_value(alloc, line, expected, &is_so),
            None => Ok(false),
        };
        if !is_yes(answer) {
            return Some(case);
        }
    }
    None
}

/// Whether this value has these fields, and is written by this line.
pub fn is_spelled<T: Spelled + fmt::Debug>(
    alloc: Global,
    value: &T,
    line: &str,
    fields: &str,
) -> Result<bool, Memory> {
    Ok(has_fields(alloc, value, fields)? && is_written(alloc, value, line.as_bytes())?)
}

/// The first line of the table that isn't read as the value with the fields behind ` = `, or that this value isn't written by.
pub fn first_misread<'a, T: Spelled + fmt::Debug>(
    alloc: Global,
    table: &'a str,
) -> Option<&'a str> {
    first_wrong_value(alloc, table, " = ", |alloc, value: &T, line, fields| {
        is_spelled(alloc, value, line, fields)
    })
}

/// The first line of the table that is a value of this type.
pub fn first_accepted<'a, T: Spelled>(alloc: Global, table: &'a str) -> Option<&'a str> {
    first_wrong_line(
        alloc,
        table,
        |alloc, line| is_refused::<T>(alloc, line.as_bytes()),
    )
}
