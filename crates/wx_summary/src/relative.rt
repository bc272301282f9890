// Paths of events, and what of them stands under a path.
ghost use Rattle.std.specs.Prelude.{◌≡◌, ◌++◌, drop, length, IfOk, OnOk, map};
ghost use Rattle.wx_paths.specs.Paths.{components};
ghost use Rattle.wx_keys.specs.Tags.{paths};
ghost use Rattle.wx_summary.specs.Summaries.{trunk, trunks, common, below, relative, changed, changed_in};

use crate::group::{Group, is_in};
use std::alloc::Global;
use wx_events::{Event, FileType};
use wx_keys::Tagged;
use wx_paths::{Parts, common_prefix, components_in, parent, put_joined, starts_with};
use wx_text::{Copies, List, Memory, Text};
use wx_words::TextPath;

/// The path itself where it leads to a folder or has no parent, else its parent.
fn trunk(alloc: Global, path: &TextPath, file_type: Option<FileType>) -> Result<TextPath, Memory>
    ensures { IfOk result (λ found. found ≡ trunk (path.now, file_type)) }
{
    if let Some(FileType::Dir) = file_type {
        return path.copy(alloc);
    }
    match parent(alloc, path)? {
        Some(above) => Ok(above),
        None => path.copy(alloc),
    }
}

/// The trunks of all paths that the events hold.
fn trunks(alloc: Global, events: &List<Event>) -> Result<List<TextPath>, Memory>
    ensures { IfOk result (λ found. found ≡ trunks events.now) }
{
    let mut trunks = List::new(alloc);
    for (path, file_type) in events.paths() {
        trunks.push(trunk(alloc, path, file_type)?)?;
    }
    Ok(trunks)
}

/// What all trunks share.
pub fn common(alloc: Global, events: &List<Event>) -> Result<Option<TextPath>, Memory>
    ensures { IfOk result (λ found. found ≡ common events.now) }
{
    let trunks = trunks(alloc, events)?;
    common_prefix(alloc, &trunks)
}

/// The components of the path behind as many as the one above has.
fn behind<'a>(path: &'a TextPath, above: &TextPath) -> Parts<'a>
    ensures { result ≡ drop (length (components above.now)) (components path.now) }
{
    let mut rest = components_in(path);
    for _part in components_in(above) {
        rest.next();
    }
    rest
}

/// These parts as texts.
fn texts_of(alloc: Global, parts: Parts<'_>) -> Result<Vec<Text>, Memory>
    ensures { IfOk result (λ texts. texts.items ≡ parts.entry) }
{
    let mut texts = Vec::new(alloc);
    for part in parts {
        texts.push(Text::from_slice(alloc, part)?)?;
    }
    Ok(texts)
}

/// The components of the path behind those of the one above it, with a slash between each two.
fn below(alloc: Global, path: &TextPath, above: &TextPath) -> Result<Text, Memory>
    ensures { IfOk result (λ text. text ≡ below path.now above.now) }
{
    let parts = texts_of(alloc, behind(path, above))?;
    let mut text = Text::new(alloc);
    put_joined(parts.as_slice(), b'/', &mut text)?;
    Ok(text)
}

/// A path at or under the one above as its components behind those of that, any other as it is.
fn relative(alloc: Global, path: &TextPath, above: &Option<TextPath>) -> Result<Text, Memory>
    ensures { IfOk result (λ text. text ≡ relative above.now path.now) }
{
    match above {
        Some(above) if starts_with(path, above) => below(alloc, path, above),
        _ => path.text().copy(alloc),
    }
}

/// Appends the paths of an event.
fn add_paths(
    alloc: Global,
    event: &Event,
    above: &Option<TextPath>,
    texts: &mut Vec<Text>,
) -> Result<(), Memory>
    ensures { OnOk result (texts.new.items ≡ texts.old.items ++ map (λ found. relative above.now found.0) (paths event.now.tags)) }
{
    for (path, _) in event.paths() {
        texts.push(relative(alloc, path, above)?)?;
    }
    Ok(())
}

/// Appends the paths of an event that is of this group.
fn add_changed(
    alloc: Global,
    event: &Event,
    above: &Option<TextPath>,
    group: Group,
    texts: &mut Vec<Text>,
) -> Result<(), Memory>
    ensures { OnOk result (texts.new.items ≡ texts.old.items ++ changed_in above.now group event.now) }
{
    if is_in(group, event) {
        add_paths(alloc, event, above, texts)
    } else {
        Ok(())
    }
}

/// The paths of this group.
pub fn changed(
    alloc: Global,
    events: &List<Event>,
    above: &Option<TextPath>,
    group: Group,
) -> Result<Vec<Text>, Memory>
    ensures { IfOk result (λ texts. texts.items ≡ changed above.now group events.now) }
{
    let mut texts = Vec::new(alloc);
    for event in events.as_slice() {
        add_changed(alloc, event, above, group, &mut texts)?;
    }
    Ok(texts)
}
