// The turns of a script that are left.
ghost use Rattle.std.specs.Prelude.{◌≡◌, ◌∷◌, [], reverse, IfOk, IfNone, IfSome};

use std::alloc::Global;
use std::marker::Model;
use wx_script::ScriptTurn;
use wx_text::{Copies, List, Memory};

/// The turns that are left, each twice: one is given, and one is told. Contracts see them in order.
#[derive(Drop)]
pub(crate) struct Supply {
    giving: Vec<ScriptTurn>,
    telling: Vec<ScriptTurn>,
}

impl Model for Supply {
    ghost use Rattle.std.specs.Prelude.{List, reverse, ◌≡◌};
    ghost use Rattle.wx_script.specs.declared.script.ScriptTurn.{ScriptTurn};

    ghost Value = { List ScriptTurn };

    ghost view = { λ s. reverse s.giving.items };

    ghost invariant = { λ s. s.telling.items ≡ s.giving.items };
}

impl Supply {
    /// These turns. It fails only for want of memory.
    pub(crate) fn new(alloc: Global, turns: &List<ScriptTurn>) -> Result<Supply, Memory>
        ensures { IfOk result (λ supply. supply ≡ turns.now) }
    {
        let giving = reversed(alloc, turns)?;
        let telling = reversed(alloc, turns)?;
        Ok(Supply { giving, telling })
    }

    /// Takes out the next turn: one to give, and one to tell.
    pub(crate) fn next(&mut self) -> Option<(ScriptTurn, ScriptTurn)>
        ensures none { IfNone result (self.old ≡ []) }
        ensures same { IfNone result (self.new ≡ []) }
        ensures some { IfSome result (λ pair. self.old ≡ pair.0 ∷ self.new) }
        ensures twice { IfSome result (λ pair. pair.1 ≡ pair.0) }
    {
        match (self.giving.pop(), self.telling.pop()) {
            (Some(given), Some(told)) => Some((given, told)),
            _ => None,
        }
    }
}

/// These turns once more, the last first.
fn reversed(alloc: Global, turns: &List<ScriptTurn>) -> Result<Vec<ScriptTurn>, Memory>
    ensures { IfOk result (λ items. items.items ≡ reverse turns.now) }
{
    let mut items = Vec::with_capacity(alloc, turns.len())?;
    for turn in turns.as_slice() {
        let copied = turn.copy(alloc)?;
        items.push(copied)?;
    }
    items.as_mut_slice().reverse();
    Ok(items)
}
