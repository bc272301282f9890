// Where nothing can be let go.
ghost use Rattle.wx_holding.specs.Calm.{IsStill, ReleasesCalmly, StandsBy};
ghost use Rattle.wx_recursor.specs.Sound.{AreSound, things};
ghost use Rattle.wx_tree.specs.Trees.{Tree};
ghost use Rattle.std.specs.Prelude.{◌≡◌, true, [], IfOk, OnOk};
ghost use Rattle.wx_holding.specs.Effects.{Releases};
ghost use Rattle.wx_holding.specs.Holding.{state_of};
ghost use Rattle.wx_scan.specs.Looked.{OnlyLooks};
ghost use Rattle.wx_step.specs.Rests.{IsAtRest, leaves_guards};

use std::alloc::Global;
use wx_holding::Held;
use wx_recursor::{Item, Work};
use wx_scan::{Backend, Scanner};
use wx_text::Memory;

/// Whether something is queued, and the first of it leaves the guards as they are.
pub fn leaves_guards(held: &Held) -> bool
    ensures { result ≡ leaves_guards (state_of held.now).queue }
{
    match held.queue.front() {
        Some(Work::Plain(Item::Guard(_))) => false,
        Some(Work::Plain(Item::Visit(_))) => false,
        Some(Work::Plain(Item::Scan(_, _))) => true,
        Some(Work::Plain(Item::Candidate(_, _))) => true,
        Some(Work::Probe(_, _)) => true,
        None => false,
    }
}

/// Whether no registration waits, and the representative of none is lost.
fn is_quiet(held: &Held) -> bool
    ensures waiting { result ≡ true → (state_of held.now).waiting ≡ [] }
    ensures lost { result ≡ true → (state_of held.now).lost ≡ [] }
{
    held.waiting.is_empty() && held.lost.is_empty()
}

/// Lets go what serves nothing, and says whether nothing is left that could be let go. Where that is known before, it need not
/// look for it. It fails only for want of memory.
pub fn let_go<B: Backend, S: Scanner>(
    alloc: Global,
    at_rest: bool,
    held: &mut Held,
    back: &mut B,
    scan: &mut S,
) -> Result<bool, Memory>
    requires { at_rest ≡ true → IsAtRest (state_of held.now) }
    ensures looked { OnlyLooks (S.looked scan.old) (S.looked scan.new) }
    ensures rest { S.rest scan.new ≡ S.rest scan.old }
    ensures place { S.place scan.new ≡ S.place scan.old }
    ensures state { OnOk result (Releases (state_of held.old) (state_of held.new)) }
    ensures rests { IfOk result (λ rests. rests ≡ true → IsAtRest (state_of held.new)) }
    ensures calm { (t : Tree) → IsStill t (S.looked scan.old) (S.looked scan.new) → StandsBy t (state_of held.old).registrations (B.backing back.old) (B.fits back.old t) → AreSound (things (state_of held.old)) → OnOk result (ReleasesCalmly (state_of held.old) (state_of held.new) × StandsBy t (state_of held.new).registrations (B.backing back.new) (B.fits back.new t)) }
{
    if at_rest {
        return Ok(true);
    }
    held.release(alloc, back, scan)?;
    Ok(is_quiet(held))
}
