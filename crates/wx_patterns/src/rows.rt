// Rows: where what a pattern has so far may end.
ghost use Rattle.std.specs.Prelude.{◌≡◌, ◌∷◌, false, replicate, IfOk};
ghost use Rattle.wx_patterns.specs.Lists.{last_or};
ghost use Rattle.wx_patterns.specs.Rows.{spread};

use std::alloc::Global;
use wx_text::Memory;

/// The row over so many items with this at its first place, and nothing elsewhere.
pub fn new_row(alloc: Global, first: bool, items: usize) -> Result<Vec<bool>, Memory>
    ensures { IfOk result (λ row. row.items ≡ first ∷ replicate items false) }
{
    let mut row = Vec::new(alloc);
    row.push(first)?;
    for i in 0..items {
        row.push(false)?;
    }
    Ok(row)
}

/// Any run of items follows.
pub fn spread(row: &mut [bool])
    ensures { row.new ≡ spread false row.old }
{
    let mut before = false;
    for i in 0..row.len() {
        before |= row[i];
        row[i] = before;
    }
}

/// Whether a pattern ends at the last place.
pub fn last_place(row: &[bool]) -> bool
    ensures { result ≡ last_or false row.now }
{
    match row {
        [.., last] => *last,
        [] => false,
    }
}
