// What is registered, and for what.
ghost use Rattle.std.specs.Prelude.{◌≡◌, OnOk};
ghost use Rattle.wx_recursor.specs.Holding.{put_deep};
ghost use Rattle.wx_recursor.specs.Steps.{has_new};

use crate::owners::has_path;
use std::alloc::Global;
use wx_recursor::Known;
use wx_text::{Copies, Memory};
use wx_tree::Place;

/// Whether one of the paths is not among the others.
pub fn has_new(paths: &[Place], old: &[Place]) -> bool
    ensures { result ≡ has_new paths.now old.now }
{
    let mut rest = paths;
    while let [first, after @ ..] = rest {
        if !has_path(first, old) {
            return true;
        }
        rest = after;
    }
    false
}

/// Puts it before the first that is less deep.
pub fn put_deep(alloc: Global, known: &Known, out: &mut Vec<Known>) -> Result<(), Memory>
    ensures { OnOk result (out.new.items ≡ put_deep known.now out.old.items) }
{
    let mut i = 0;
    while i < out.len() {
        if out[i].path.depth() < known.path.depth() {
            break;
        }
        i += 1;
    }
    out.insert(i, known.copy(alloc)?)?;
    Ok(())
}
