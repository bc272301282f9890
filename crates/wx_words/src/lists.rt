// Lists as words.
ghost use Rattle.std.specs.Prelude.{◌≡◌, ◌+◌, ◌++◌, List, Option, Some, None, OnOk, IfOk};
ghost use Rattle.std.specs.List.{flat_map, AllByRecursion};
ghost use Rattle.wx_words.specs.Line.{spaced, Reads};
ghost use Rattle.wx_words.specs.ToEnd.{HasWord, read_to_end};
ghost use Rattle.wx_words.specs.Lists.{read_items, read_list};

use crate::cursor::Words;
use crate::spelled::Spelled;
use std::alloc::Global;
use wx_text::{List, Memory, Text};

/// Appends the words of each item, each with a space before it. A part of the words may stand in `out` where memory
/// runs out.
pub fn put_items<T: Spelled>(items: &[T], out: &mut Text) -> Result<(), Memory>
    ensures text { OnOk result (out.new ≡ out.old ++ spaced (flat_map T.spelling.words items.now)) }
    ensures fits { OnOk result (AllByRecursion T.spelling.fits items.now) }
{
    for item in items {
        item.put_after(out)?;
    }
    Ok(())
}

/// Takes so many items.
fn take_items<T: Spelled>(
    alloc: Global,
    count: u64,
    line: &mut Words,
) -> Result<Option<List<T>>, Memory>
    ensures { IfOk result (λ xs. Reads line.new xs (read_items T.spelling.read count line.old)) }
{
    let mut items = List::new(alloc);
    for _ in 0..count {
        let Some(item) = T::read(alloc, line)? else {
            return Ok(None);
        };
        items.push(item)?;
    }
    Ok(Some(items))
}

/// Takes all values to the end of the line, or loses the place.
#[tactic(auto, using(crate::proofs::ToEndLemmas::stops, crate::proofs::ToEndLemmas::ends))]
pub fn read_to_end<T: Spelled>(alloc: Global, line: &mut Words) -> Result<Option<List<T>>, Memory>
    requires { HasWord T.spelling }
    ensures { IfOk result (λ xs. Reads line.new xs (read_to_end T.spelling.read line.old)) }
{
    let mut items = List::new(alloc);
    while !line.is_done() {
        let Some(item) = T::read(alloc, line)? else {
            return Ok(None);
        };
        items.push(item)?;
    }
    Ok(Some(items))
}

impl<T: Spelled> Spelled for List<T> {
    ghost use Rattle.wx_words.specs.Parts.{list_of};

    ghost spelling = { list_of T.spelling };

    #[tactic(auto, using(crate::specs::LineLaws::spaces), unfolding(crate::specs::Line::behind))]
    fn put_after(&self, out: &mut Text) -> Result<(), Memory> {
        (self.len() as u64).put_after(out)?;
        put_items(self.as_slice(), out)
    }

    #[tactic(auto, unfolding(crate::specs::Lists::read_list))]
    fn read(alloc: Global, line: &mut Words) -> Result<Option<List<T>>, Memory> {
        match u64::read(alloc, line)? {
            Some(count) => take_items(alloc, count, line),
            None => Ok(None),
        }
    }
}
