// Which paths are ignored.
ghost use Rattle.std.specs.Prelude.{◌≡◌, [], drop, if◌then◌else◌, length, not, true, IfOk, OnOk};
ghost use Rattle.std.specs.List.{list_any};
ghost use Rattle.wx_paths.specs.Paths.{begins_with, components};
ghost use Rattle.wx_patterns.specs.Ignoring.{below, hidden_by, ignored};
ghost use Rattle.wx_patterns.specs.Lists.{some_front};
ghost use Rattle.wx_patterns.specs.Matching.{matches};
ghost use Rattle.wx_patterns.specs.Rows.{fits_first, judged, of_fronts};

use crate::fronts::matched_fronts;
use crate::pattern::Pattern;
use crate::rows::new_row;
use std::alloc::Global;
use wx_paths::{Parts, components_in};
use wx_text::{List, Memory, Text};
use wx_words::TextPath;

/// What a front is behind a pattern: hidden or not by its word where the pattern matches, and else what it was.
fn word_at(row: &[bool], i: usize, word: bool, before: bool) -> bool
    ensures { result ≡ (if fits_first (λ ends. ends) (drop i row.now) then word else before) }
{
    match row.get(i) {
        Some(true) => word,
        _ => before,
    }
}

/// Puts a pattern's word at each front that it matches.
fn judge(hidden: &mut [bool], row: &[bool], word: bool)
    ensures { hidden.new ≡ judged word row.now hidden.old }
{
    for i in 0..hidden.len() {
        hidden[i] = word_at(row, i, word, hidden[i]);
    }
}

/// Whether one of these is so.
fn any(fronts: &[bool]) -> bool
    ensures { result ≡ list_any (λ front. front) fronts.now }
{
    for front in fronts {
        if *front {
            return true;
        }
    }
    false
}

/// Whether a front is hidden, but for the empty one.
fn any_hidden(hidden: &[bool]) -> bool
    ensures { result ≡ list_any (λ front. front) (drop 1 hidden.now) }
{
    match hidden {
        [_, fronts @ ..] => any(fronts),
        [] => false,
    }
}

/// Puts the word of this pattern at each front that it matches.
fn judge_by(
    alloc: Global,
    hidden: &mut [bool],
    pattern: &Pattern,
    names: &[Text],
) -> Result<(), Memory>
    ensures { OnOk result (hidden.new ≡ judged (not pattern.now.negated) (of_fronts (matches pattern.now.parts) names.now) hidden.old) }
{
    let row = matched_fronts(alloc, pattern.parts.as_slice(), names)?;
    judge(hidden, row.as_slice(), !pattern.negated);
    Ok(())
}

/// Puts the words of these patterns, one after the other, over a row in which none stands.
fn judge_by_all(
    alloc: Global,
    hidden: &mut [bool],
    patterns: &[Pattern],
    names: &[Text],
) -> Result<(), Memory>
    requires { hidden.old ≡ of_fronts (hidden_by []) names.now }
    ensures { OnOk result (hidden.new ≡ of_fronts (hidden_by patterns.now) names.now) }
{
    for pattern in patterns {
        judge_by(alloc, hidden, pattern, names)?;
    }
    Ok(())
}

/// Whether the last of these patterns that matches hides some front of these names.
fn is_hidden(alloc: Global, patterns: &[Pattern], names: &[Text]) -> Result<bool, Memory>
    ensures { IfOk result (λ answer. answer ≡ some_front (hidden_by patterns.now) names.now) }
{
    let mut hidden = new_row(alloc, false, names.len())?;
    judge_by_all(alloc, hidden.as_mut_slice(), patterns, names)?;
    Ok(any_hidden(hidden.as_slice()))
}

/// Goes past the base, where these components begin with it.
fn goes_past(base: &[Text], path: &mut Parts<'_>) -> bool
    ensures begins { result ≡ begins_with path.old base.now }
    ensures rest { result ≡ true → path.new ≡ drop (length base.now) path.old }
{
    for ours in base {
        match path.next() {
            Some(part) if part == ours.as_slice() => {}
            _ => return false,
        }
    }
    true
}

/// What is behind the base of a path that lies there.
fn names_below(alloc: Global, base: &[Text], path: &TextPath) -> Result<List<Text>, Memory>
    ensures { IfOk result (λ names. names ≡ below base.now (components path.now)) }
{
    let mut names = List::new(alloc);
    let mut parts = components_in(path);
    if goes_past(base, &mut parts) {
        for part in parts {
            names.push(Text::from_slice(alloc, part)?)?;
        }
    }
    Ok(names)
}

/// Whether this path is ignored.
pub fn is_ignored(
    alloc: Global,
    base: &[Text],
    patterns: &[Pattern],
    path: &TextPath,
) -> Result<bool, Memory>
    ensures { IfOk result (λ answer. answer ≡ ignored base.now patterns.now path.now) }
{
    let names = names_below(alloc, base, path)?;
    is_hidden(alloc, patterns, names.as_slice())
}
