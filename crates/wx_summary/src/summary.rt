// Summaries of events.
ghost use Rattle.std.specs.Prelude.{◌≡◌, ◌==◌, [], ◌++◌, IfOk, OnOk, option_map};
ghost use Rattle.std.specs.List.{cons_option, filter_map};
ghost use Rattle.std.specs.List.Sorted.{IsPermutation, IsSorted};
ghost use Rattle.std.specs.List.Retain.{IsFiltered, DiffersFromLast};
ghost use Rattle.std.specs.Ordering.{nat_cmp};
ghost use Rattle.std.specs.Cmp.Lexicographic.{pointwise, slice_cmp};
ghost use Rattle.wx_summary.specs.Summaries.{common, elements, joined, pair, group_pair, summary, value_of};

use crate::group::Group;
use crate::relative::{changed, common};
use std::alloc::Global;
use wx_events::Event;
use wx_paths::put_joined;
use wx_text::{Copies, List, Memory, Text};
use wx_words::TextPath;

/// What stands between two paths in a text of a summary.
pub const PATH_SEPARATOR: &str = ":";

/// All groups, by rising names.
const GROUPS: [Group; 6] = [
    Group::Created,
    Group::MetaChanged,
    Group::OtherwiseChanged,
    Group::Removed,
    Group::Renamed,
    Group::Written,
];

/// What events come to: pairs of a name and its text, by rising names, each name once.
#[derive(Drop, Debug)]
pub struct Summary {
    pub pairs: List<(Text, Text)>,
}

impl Summary {
    /// The text of this name, absent where it has none. It takes no memory.
    pub fn get(&self, name: &Text) -> Option<&Text>
        ensures { option_map (λ text. text.now) result ≡ value_of self.now.pairs name.now }
    {
        for pair in self.pairs.as_slice() {
            if pair.0.as_slice() == name.as_slice() {
                return Some(&pair.1);
            }
        }
        None
    }
}

/// These texts in the order of their bytes. It fails only for want of memory.
fn sorted(mut texts: Vec<Text>) -> Result<Vec<Text>, Memory>
    ensures moved { IfOk result (λ sorted. IsPermutation texts.items sorted.items) }
    ensures rising { IfOk result (λ sorted. IsSorted (slice_cmp nat_cmp) sorted.items) }
{
    texts.sort()?;
    Ok(texts)
}

/// These texts without those that equal the one before them.
fn without_repeats(mut texts: Vec<Text>) -> Vec<Text>
    ensures { IsFiltered (DiffersFromLast (pointwise ◌==◌)) [] texts.items result.items }
{
    texts.dedup();
    texts
}

/// These texts in the order of their bytes, each once. It fails only for want of memory.
fn distinct(texts: Vec<Text>) -> Result<Vec<Text>, Memory>
    ensures { IfOk result (λ kept. kept.items ≡ elements texts.items) }
{
    let sorted = sorted(texts)?;
    Ok(without_repeats(sorted))
}

/// The texts in order, each once, with a colon between each two. It is absent where there is none.
fn joined(alloc: Global, texts: Vec<Text>) -> Result<Option<Text>, Memory>
    ensures { IfOk result (λ text. text ≡ joined texts.items) }
{
    if texts.is_empty() {
        return Ok(None);
    }
    let kept = distinct(texts)?;
    let mut text = Text::new(alloc);
    put_joined(kept.as_slice(), b':', &mut text)?;
    Ok(Some(text))
}

/// Appends this name with its text, where it has one.
fn put_pair(
    alloc: Global,
    name: &str,
    text: Option<Text>,
    pairs: &mut List<(Text, Text)>,
) -> Result<(), Memory>
    ensures { OnOk result (pairs.new ≡ pairs.old ++ cons_option (pair name.now text) []) }
{
    match text {
        Some(text) => pairs.push((Text::from_slice(alloc, name.as_bytes())?, text)),
        None => Ok(()),
    }
}

/// Appends what this group comes to.
fn put_group(
    alloc: Global,
    events: &List<Event>,
    above: &Option<TextPath>,
    group: Group,
    pairs: &mut List<(Text, Text)>,
) -> Result<(), Memory>
    requires { above.now ≡ common events.now }
    ensures { OnOk result (pairs.new ≡ pairs.old ++ cons_option (group_pair events.now group) []) }
{
    let text = joined(alloc, changed(alloc, events, above, group)?)?;
    put_pair(alloc, group.name(), text, pairs)
}

/// Appends what each of these groups comes to.
#[tactic(auto, using(crate::proofs::PairLemmas::cons_option_append))]
fn put_groups(
    alloc: Global,
    events: &List<Event>,
    above: &Option<TextPath>,
    groups: &[Group],
    pairs: &mut List<(Text, Text)>,
) -> Result<(), Memory>
    requires { above.now ≡ common events.now }
    ensures { OnOk result (pairs.new ≡ pairs.old ++ filter_map (group_pair events.now) groups.now) }
{
    for group in groups {
        put_group(alloc, events, above, *group, pairs)?;
    }
    Ok(())
}

/// The text of a path, where there is one.
fn text_of(alloc: Global, path: &Option<TextPath>) -> Result<Option<Text>, Memory>
    ensures { IfOk result (λ text. text ≡ path.now) }
{
    match path {
        Some(path) => Ok(Some(path.text().copy(alloc)?)),
        None => Ok(None),
    }
}

/// What these events come to, as a command may be told in its environment: `COMMON`, the path above all of theirs, and for
/// each group of changes the paths that changed so, relative to that, with a colon between each two. An event without paths
/// adds nothing, one without a kind counts for `COMMON` alone, and one of several kinds is in the group of each. The rules
/// are in `docs/CONTRACTS.md`, "wx_summary". It fails only for want of memory.
#[tactic(auto, using(crate::proofs::PairLemmas::cons_option_append))]
pub fn summarise_events_to_env(alloc: Global, events: &List<Event>) -> Result<Summary, Memory>
    ensures { IfOk result (λ found. found.pairs ≡ summary events.now) }
{
    let above = common(alloc, events)?;
    let mut pairs = List::new(alloc);
    put_pair(alloc, "COMMON", text_of(alloc, &above)?, &mut pairs)?;
    put_groups(alloc, events, &above, &GROUPS, &mut pairs)?;
    Ok(Summary { pairs })
}
