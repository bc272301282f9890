// Places: the expected values are worked out by hand.
use std::alloc::Global;
use std::process::Abort;
use wx_fs_trial::{place, root};
use wx_text::{Copies, Memory, Text};

/// A row, by its words.
#[derive(Clone, Copy)]
struct Row<'a> {
    first: &'a str,
    second: &'a str,
    third: &'a str,
}

fn row_of(line: &str) -> Row<'_> {
    let (first, more) = line.split_once(" ").unwrap_or((line, ""));
    let (second, third) = more.split_once(" ").unwrap_or((more, ""));
    Row {
        first,
        second,
        third,
    }
}

// A path, its place spelled, and how many parts it has.
const SPELLED: &str = "\
/ / 0
// / 0
/w /w 1
/w/ /w 1
//w//a/ /w/a 2
/w/a/b /w/a/b 3
/.. /.. 1
w/a /w/a 2
";

/// Whether the place of the first word is spelled by the second, has so many parts, and equals its copy.
fn is_spelled(alloc: Global, row: &Row<'_>) -> Result<bool, Memory> {
    let read = place(alloc, row.first)?;
    let copy = read.copy(alloc)?;
    let written = copy.path(alloc)?;
    Ok(
        written.text().as_slice() == row.second.as_bytes()
            && row.third.parse::<usize>() == Ok(read.depth())
            && read.is_same(&copy),
    )
}

// Two paths, and whether they are the same, the first holds the second, holds it below, and has it as an entry.
const HELD: &str = "\
/ / yynn
/ /w nyyy
/ /w/a nyyn
/w /w yynn
/w /w/a nyyy
/w /w/a/b nyyn
/w/a /w nnnn
/w /wa nnnn
/w/a /v/a nnnn
/a /w/a nnnn
";

fn letter(yes: bool) -> char {
    if yes { 'y' } else { 'n' }
}

/// Whether the two places stand to each other so.
fn is_held(alloc: Global, row: &Row<'_>) -> Result<bool, Memory> {
    let path = place(alloc, row.first)?;
    let other = place(alloc, row.second)?;
    let found = format!(in alloc;
        "{a}{b}{c}{d}",
        a = letter(path.is_same(&other)),
        b = letter(path.holds(&other)),
        c = letter(path.holds_below(&other)),
        d = letter(path.has_entry(&other))
    )?;
    Ok(found.as_str() == row.third)
}

// A path, the place two levels above, and the last two parts.
const UP: &str = "\
/w/a/b /w /a/b
";

/// Whether this is so.
fn is_up(alloc: Global, row: &Row<'_>) -> Result<bool, Memory> {
    let below = place(alloc, row.first)?;
    if below.depth() < 2 {
        return Ok(false);
    }
    let above = below.up(alloc, 2)?;
    let mut last = Text::new(alloc);
    below.put_last(2, &mut last)?;
    Ok(above.is_same(&place(alloc, row.second)?) && last.as_slice() == row.third.as_bytes())
}

// Two roots, and whether they are the same: only where both path and kind are.
const ROOTS: &str = "\
r/w r/w yes
n/w r/w no
r/w n/w no
r/w r/v no
";

/// Whether the copy of the first root is the second one just where this says so.
fn is_root(alloc: Global, row: &Row<'_>) -> Result<bool, Memory> {
    let (first, at) = row.first.split_once("/").unwrap_or(("", ""));
    let (second, other) = row.second.split_once("/").unwrap_or(("", ""));
    let copy = root(alloc, first, at)?.copy(alloc)?;
    let is_same = copy.is_same(&root(alloc, second, other)?);
    Ok(is_same == (row.third == "yes"))
}

/// Ends the test where the answer isn't yes, and says at which row.
fn expect_yes(rt: &impl Abort, answer: Result<bool, Memory>, row: &str) {
    assert!(rt; answer == Ok(true), "at {row}");
}

#[test]
fn places_and_roots(rt: HostRuntime) {
    for line in SPELLED.lines() {
        expect_yes(&rt, is_spelled(rt.alloc(), &row_of(line)), line);
    }
    for line in HELD.lines() {
        expect_yes(&rt, is_held(rt.alloc(), &row_of(line)), line);
    }
    for line in UP.lines() {
        expect_yes(&rt, is_up(rt.alloc(), &row_of(line)), line);
    }
    for line in ROOTS.lines() {
        expect_yes(&rt, is_root(rt.alloc(), &row_of(line)), line);
    }
}
