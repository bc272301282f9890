// The filter by patterns. A case is a line: its base and its patterns, and behind ` = ` what it answers about events. An event is
// given by its paths, with `;` between each two, behind a `-` where it is rejected, and behind a `+` where it passes. What was drawn
// is told apart by a slow reading of the rules: `tools/drawn_patterns.py`.
use crate::command_tests::text;
use crate::drawn_patterns::DRAWN;
use crate::expecting::{expect_none, expect_yes};
use std::alloc::Global;
use std::process::Abort;
use wx_config::Filterer;
use wx_error::RuntimeError;
use wx_events::{Event, Priority, Tag};
use wx_patterns::{AddError, Patterns};
use wx_text::{List, Memory, Text};
use wx_words::TextPath;
use wx_words_trial::{first_wrong_line, first_wrong_pair, is_shown};

/// The path that this text spells.
fn path(alloc: Global, path: &str) -> Result<TextPath, Memory> {
    Ok(TextPath::new(Text::from_slice(alloc, path.as_bytes())?))
}

/// Adds this line, and tells whether it is a pattern.
fn add(alloc: Global, patterns: &mut Patterns, line: &str) -> Result<bool, Memory> {
    let line = Text::from_slice(alloc, line.as_bytes())?;
    match patterns.add(&line) {
        Ok(()) => Ok(true),
        Err(AddError::Bad) => Ok(false),
        Err(AddError::Memory) => Err(Memory),
    }
}

/// The filter with this base and these patterns, or none where one of these is no pattern.
fn filter(alloc: Global, words: &str) -> Result<Option<Patterns>, Memory> {
    let (base, lines) = match words.split_once(", ") {
        Some((base, lines)) => (base, lines),
        None => (words, ""),
    };
    let mut patterns = Patterns::new(alloc, path(alloc, base)?)?;
    for line in lines.split(", ") {
        if !line.is_empty() && !add(alloc, &mut patterns, line)? {
            return Ok(None);
        }
    }
    Ok(Some(patterns))
}

/// An event with these paths, and with a tag of which nothing is known before each.
fn event(alloc: Global, paths: &str) -> Result<Event, Memory> {
    let mut tags = List::new(alloc);
    for one in paths.split(";") {
        tags.push(Tag::Unknown)?;
        let path = path(alloc, one)?;
        let file_type = None;
        tags.push(Tag::Path { path, file_type })?;
    }
    Ok(Event { tags })
}

/// Whether the filter lets an event with these paths pass, and a folder where there is one path, just where it says so.
fn is_answered<F: Filterer>(
    alloc: Global,
    patterns: &F,
    paths: &str,
    passes: bool,
) -> Result<bool, Memory> {
    let event = event(alloc, paths)?;
    let answer = patterns.check_event(&event, Priority::Normal).ok();
    if paths.contains(";") {
        return Ok(answer == Some(passes));
    }
    let folder = patterns.check_dir(&path(alloc, paths)?).ok();
    Ok(answer == Some(passes) && folder == answer)
}

/// Whether it answers this event as it is said there.
fn is_so(alloc: Global, patterns: &Patterns, wanted: &str) -> Result<bool, Memory> {
    if let Some(paths) = wanted.strip_prefix("-") {
        return is_answered(alloc, patterns, paths, false);
    }
    match wanted.strip_prefix("+") {
        Some(paths) => is_answered(alloc, patterns, paths, true),
        None => Ok(false),
    }
}

/// Whether the filter of these words answers so.
fn answers(alloc: Global, words: &str, wanted: &str) -> Result<bool, Memory> {
    let Some(patterns) = filter(alloc, words)? else {
        return Ok(false);
    };
    for one in wanted.split(", ") {
        if !is_so(alloc, &patterns, one)? {
            return Ok(false);
        }
    }
    Ok(true)
}

// In this order: the last pattern that matches counts; what lies in an ignored folder; patterns without a slash; those with one;
// any byte and any run of bytes, which holds no slash; `**`; paths as they stand; and several paths.
const CASES: &str = "\
/w, target, *.tmp, !keep.tmp = -/w/target, -/w/a/target/x, -/w/a.tmp, -/w/target/keep.tmp, +/w/keep.tmp, +/w, +/other/a.tmp
/w, !keep.tmp, *.tmp = -/w/keep.tmp, -/w/a/keep.tmp, +/w/keep
/w, *.tmp, !*.tmp, a.tmp = -/w/a.tmp, +/w/b.tmp
/w, !a = +/w/a, +/w/b
/w = +/w/a, +/w, +/
/w, a, !a/b = -/w/a, -/w/a/b, -/w/a/b/c
/w, a/*, !a/b = +/w/a, -/w/a/c, +/w/a/b, +/w/a/b/c
/w, a, !**/b = -/w/a/b, +/w/b
/w, a = -/w/a, -/w/b/a, -/w/b/a/c, +/w/ab, +/w/b
/w, a/ = -/w/a, -/w/b/a, -/w/a/b
/w, /a = -/w/a, -/w/a/b, +/w/b/a
/w, /a/ = -/w/a, +/w/b/a
/w, a/b = -/w/a/b, -/w/a/b/c, +/w/a, +/w/c/a/b
/w, !/a, !!a, / b = +/w/a, +/w/!a, -/w/ b, +/w/b
/w, ?!a, a b = -/w/!!a, -/w/a b, +/w/a, +/w/b
/w, ? = -/w/a, -/w/b/c, +/w/ab, +/w/ab/cd
/w, a?c = -/w/abc, -/w/a?c, +/w/ac, +/w/a/c, +/w/abbc
/w, /a*c = -/w/ac, -/w/abbc, -/w/a*c, +/w/a/c, +/w/a/bc, +/w/acb
/w, /*/a = -/w/b/a, +/w/a, +/w/b/c/a
/w, *a*b*a* = -/w/aba, -/w/cacbcac, -/w/aabba, +/w/aab, +/w/ba
/w, *ab*ab = -/w/abab, -/w/aababab, +/w/ab, +/w/aba
/w, /*** = -/w/a, -/w/a/b, +/w
/w, a** = -/w/a, -/w/ab, +/w/b/c
/w, ** = -/w/a, -/w/a/b, +/w
/w, /** = -/w/a, +/w, +/
/w, a/** = +/w/a, -/w/a/b, -/w/a/b/c
/w, **/a = -/w/a, -/w/b/c/a, +/w/b
/w, a/**/b = -/w/a/b, -/w/a/c/b, -/w/a/c/d/b, +/w/c/a/b, +/w/a/c
/w, a/**/b/**/c = -/w/a/b/c, -/w/a/b/b/d/c, +/w/a/c/b
/w, **/**/a/**/** = -/w/a/b, -/w/c/a/b, +/w/a, +/w/b
/w, a = -/w//a, -/w/./a/, -//w/a, -/w/../a/../w/b, +/w/../b, -/w/b/../a, +w/a, +/wa
/w, .a, ..a, ... = -/w/.a, -/w/..a, -/w/..., +/w/.., +/w/.
/, a = -/a, -/b/a, +/, +/b
/w/x, x = +/w/x, -/w/x/x, +/w/x/w, +/x
/w/, a = -/w/a, +/w/b
/w, a = -/w/a;/w/b/a, +/w/a;/w/b, +/w/b;/w/a, +/w/a;/v/a, -/w/a;/w/a;/w/a/c
";

#[test]
fn patterns_ignore(rt: HostRuntime) {
    expect_none(&rt, first_wrong_pair(rt.alloc(), CASES, " = ", answers));
}

#[test]
fn drawn_patterns_ignore(rt: HostRuntime) {
    expect_none(&rt, first_wrong_pair(rt.alloc(), DRAWN, " = ", answers));
}

// The first line is empty: it is no pattern.
const BAD: &str = "
/
//
///
!
!/
!//
.
..
/.
./
!..
//a
a//
a//b
a/./b
a/..
../a
/./
!/../a/
";

/// Whether a filter by `a` refuses this line, and then ignores what it did.
fn is_refused(alloc: Global, line: &str) -> Result<bool, Memory> {
    let Some(mut patterns) = filter(alloc, "/w, a")? else {
        return Ok(false);
    };
    let is_added = add(alloc, &mut patterns, line)?;
    Ok(!is_added && is_so(alloc, &patterns, "-/w/a")? && is_so(alloc, &patterns, "+/w/b")?)
}

#[test]
fn what_is_no_pattern_is_refused(rt: HostRuntime) {
    expect_none(&rt, first_wrong_line(rt.alloc(), BAD, is_refused));
    let shown = is_shown(rt.alloc(), &AddError::Bad, "bad pattern");
    expect_yes(&rt, shown, "a bad pattern");
    let shown = is_shown(rt.alloc(), &AddError::from(Memory), "memory");
    expect_yes(&rt, shown, "want of memory");
}

#[test]
fn an_event_without_a_path_passes(rt: HostRuntime) {
    let alloc = rt.alloc();
    let found = filter(alloc, "/, **").expect(&rt, "memory");
    let patterns = found.expect(&rt, "a pattern");
    let mut tags = List::new(alloc);
    tags.push(Tag::Process(1)).expect(&rt, "a tag");
    let event = Event { tags };
    assert!(rt; patterns.check_event(&event, Priority::Low).ok() == Some(true));
    drop(event);
    drop(patterns);
}

#[test]
fn patterns_answer_from_a_box(rt: HostRuntime) {
    let alloc = rt.alloc();
    let found = filter(alloc, "/w, a").expect(&rt, "memory");
    let patterns = found.expect(&rt, "a pattern");
    let boxed: Box<dyn Filterer + Drop> = Box::new(alloc, patterns).expect(&rt, "a box");
    expect_yes(&rt, is_answered(alloc, &boxed, "/w/a/b", false), "/w/a/b");
    expect_yes(&rt, is_answered(alloc, &boxed, "/w/b", true), "/w/b");
    drop(boxed);
}

/// So many copies of this text.
fn repeated(alloc: Global, text: &[u8], many: usize) -> Result<Text, Memory> {
    let mut all = Text::new(alloc);
    for _ in 0..many {
        all.append(text)?;
    }
    Ok(all)
}

/// Whether a filter by these copies of a text, and an end, lets a path of these copies and an end pass.
fn passes(
    alloc: Global,
    pattern: (&[u8], &[u8]),
    path: (&[u8], &[u8]),
    many: usize,
) -> Result<Option<bool>, Memory> {
    let mut patterns = Patterns::new(alloc, TextPath::new(Text::from_slice(alloc, b"/w")?))?;
    let mut line = repeated(alloc, pattern.0, many)?;
    line.append(pattern.1)?;
    if patterns.add(&line).is_err() {
        return Ok(None);
    }
    let mut text = Text::from_slice(alloc, b"/w/")?;
    text.append(repeated(alloc, path.0, many)?.as_slice())?;
    text.append(path.1)?;
    Ok(patterns.check_dir(&TextPath::new(text)).ok())
}

// A matcher that tries the same choice again and again doesn't end with these.
#[test]
fn hostile_patterns_end(rt: HostRuntime) {
    let alloc = rt.alloc();
    let runs = passes(alloc, (b"*a", b"b"), (b"aa", b""), 200);
    assert!(rt; runs == Ok(Some(true)));
    let runs = passes(alloc, (b"*a", b"*"), (b"ba", b"c"), 200);
    assert!(rt; runs == Ok(Some(false)));
    let deep = passes(alloc, (b"**/a/", b"b"), (b"a/a/", b"a"), 60);
    assert!(rt; deep == Ok(Some(true)));
    let deep = passes(alloc, (b"**/", b"b"), (b"a/", b"b"), 200);
    assert!(rt; deep == Ok(Some(false)));
}
