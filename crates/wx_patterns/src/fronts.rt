// A pattern and the fronts of a list of names.
ghost use Rattle.std.specs.Prelude.{◌≡◌, ◌+◌, ◌<◌, ◌&&◌, drop, false, if◌then◌else◌, length, true, IfOk, OnOk};
ghost use Rattle.wx_patterns.specs.Lists.{is_empty};
ghost use Rattle.wx_patterns.specs.Matching.{is_deep, matches, part_matches};
ghost use Rattle.wx_patterns.specs.Rows.{behind_part, behind_parts, fits_first, moved, of_fronts, spread};

use crate::parts::part_matches;
use crate::rows::{new_row, spread};
use std::alloc::Global;
use wx_text::{Memory, Text};

/// Whether a part is `**`.
fn is_deep(part: &[u8]) -> bool
    ensures { result ≡ is_deep part.now }
{
    part == b"**".as_slice()
}

/// Whether a pattern ended here, and this part matches the name at this index. A part is compared only where it is so.
fn name_fits_at(
    alloc: Global,
    here: bool,
    part: &[u8],
    names: &[Text],
    i: usize,
) -> Result<bool, Memory>
    ensures { IfOk result (λ fits. fits ≡ (here && fits_first (part_matches part.now) (drop i names.now))) }
{
    match names.get(i) {
        Some(name) if here => part_matches(alloc, part, name.as_slice()),
        _ => Ok(false),
    }
}

/// One name follows that this part matches.
fn one_name(alloc: Global, row: &mut [bool], part: &[u8], names: &[Text]) -> Result<(), Memory>
    ensures { OnOk result (row.new ≡ moved (part_matches part.now) false row.old names.now) }
{
    let mut before = false;
    for i in 0..row.len() {
        let here = row[i];
        row[i] = before;
        before = name_fits_at(alloc, here, part, names, i)?;
    }
    Ok(())
}

/// Whether there is a name at this index.
fn is_name_at(names: &[Text], i: usize) -> bool
    ensures { result ≡ fits_first (λ name. true) (drop i names.now) }
{
    match names.get(i) {
        Some(_) => true,
        None => false,
    }
}

/// Any one name follows.
fn any_name(row: &mut [bool], names: &[Text])
    ensures { row.new ≡ moved (λ name. true) false row.old names.now }
{
    let mut before = false;
    for i in 0..row.len() {
        let here = row[i];
        row[i] = before;
        before = here & is_name_at(names, i);
    }
}

/// Any names follow, but at least one where this is the last part.
fn deep_part(row: &mut [bool], last: bool, names: &[Text])
    ensures { row.new ≡ (if last then moved (λ name. true) false (spread false row.old) names.now else spread false row.old) }
{
    spread(row);
    if last {
        any_name(row, names);
    }
}

/// What this part stands for follows.
fn next_part(
    alloc: Global,
    row: &mut [bool],
    part: &[u8],
    last: bool,
    names: &[Text],
) -> Result<(), Memory>
    ensures { OnOk result (row.new ≡ behind_part part.now last row.old names.now) }
{
    if is_deep(part) {
        deep_part(row, last, names);
        Ok(())
    } else {
        one_name(alloc, row, part, names)
    }
}

/// Whether no part stands behind this index.
fn is_last(parts: &[Text], i: usize) -> bool
    requires { i < length parts.now }
    ensures { result ≡ is_empty (drop (i + 1) parts.now) }
{
    match parts.get(i + 1) {
        Some(_) => false,
        None => true,
    }
}

/// What these parts stand for follows, one after the other.
fn all_parts(alloc: Global, row: &mut [bool], parts: &[Text], names: &[Text]) -> Result<(), Memory>
    ensures { OnOk result (row.new ≡ behind_parts parts.now row.old names.now) }
{
    for (i, part) in parts.iter().enumerate() {
        let last = is_last(parts, i);
        next_part(alloc, row, part.as_slice(), last, names)?;
    }
    Ok(())
}

/// Of each front of these names, the empty one first, whether these parts of a pattern match it. It takes no choice twice: the time
/// is that of the product of both lengths.
pub fn matched_fronts(alloc: Global, parts: &[Text], names: &[Text]) -> Result<Vec<bool>, Memory>
    ensures { IfOk result (λ row. row.items ≡ of_fronts (matches parts.now) names.now) }
{
    let mut row = new_row(alloc, true, names.len())?;
    all_parts(alloc, row.as_mut_slice(), parts, names)?;
    Ok(row)
}
