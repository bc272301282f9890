// One step: the first of the queue, or the sweep, and then letting go.
ghost use Rattle.wx_scan.specs.Told.{IsNamed};
ghost use Rattle.wx_holding.specs.Calm.{IsCalm, StandsBy};
ghost use Rattle.wx_recursor.specs.Sound.{AreSound, things};
ghost use Rattle.wx_step.specs.Calmly.{ActsCalmly, FirstsCalmly, HandsCalmly, IsFirstReadable, IsReadableItem, StepsCalmly};
ghost use Rattle.wx_tree.specs.Trees.{Tree};
ghost use Rattle.std.specs.Prelude.{◌≡◌, ◌⊎◌, Bool, true, [], IfOk, OnOk};
ghost use Rattle.wx_holding.specs.Holding.{state_of};
ghost use Rattle.wx_recursor.specs.Steps.{told};
ghost use Rattle.wx_recursor.specs.declared.work.Work.TheVariants.{Plain};
ghost use Rattle.wx_scan.specs.Looked.{OnlyLooks, Rose};
ghost use Rattle.wx_step.specs.Asking.{FirstAsksBelow, ItemAsksBelow, WorkAsksBelow};
ghost use Rattle.wx_step.specs.Rests.{IsAtRest};
ghost use Rattle.wx_step.specs.Stepped.{Acts, ActsItem, Firsts, Hands, LooksOrSweeps, Steps};
ghost use Rattle.wx_tree.specs.Paths.{Path};

use crate::judging::look_at_candidate;
use crate::probing::probe;
use crate::resting::{leaves_guards, let_go};
use std::alloc::Global;
use std::mem;
use wx_holding::{Held, list, look_at_root, look_here};
use wx_recursor::{Item, ShownError, Work};
use wx_scan::{Backend, DirCheck, Scanner};
use wx_text::Memory;

/// What a step shows, in order, whether it asks for a rebuild of the backend, and whether nothing is left that could be let go.
#[derive(Drop)]
pub struct Shown {
    pub errors: Vec<ShownError>,
    pub asks_rebuild: bool,
    pub at_rest: bool,
}

/// Does what an item asks for. It fails only for want of memory.
fn act_item<B: Backend, S: Scanner, D: DirCheck>(
    alloc: Global,
    item: Item,
    follow: bool,
    held: &mut Held,
    back: &mut B,
    scan: &mut S,
    dirs: &mut D,
) -> Result<(), Memory>
    requires { ItemAsksBelow (D.under dirs.now) item }
    ensures looked { OnlyLooks (S.looked scan.old) (S.looked scan.new) }
    ensures raised { OnOk result (Rose (S.looked scan.old).looks (S.looked scan.new).looks) }
    ensures rest { S.rest scan.new ≡ S.rest scan.old }
    ensures place { S.place scan.new ≡ S.place scan.old }
    ensures under { D.under dirs.new ≡ D.under dirs.old }
    ensures dirs_place { D.place dirs.new ≡ D.place dirs.old }
    ensures kept { (b : D.Base) → D.kept b dirs.old → D.kept b dirs.new }
    ensures agrees { (ok : Path → Bool) → D.agrees ok dirs.new → D.agrees ok dirs.old }
    ensures state { OnOk result (ActsItem item (state_of held.old) (state_of held.new)) }
    ensures calm { (t : Tree) (ok : Path → Bool) → IsCalm t follow (S.looked scan.old) (S.looked scan.new) (state_of held.old).registrations (B.backing back.old) (B.fits back.old t) → IsNamed t → D.agrees ok dirs.new → IsReadableItem t item → OnOk result (ActsCalmly t ok item (state_of held.old) (state_of held.new) × StandsBy t (state_of held.new).registrations (B.backing back.new) (B.fits back.new t)) }
{
    match item {
        Item::Guard(root) => held.guard(alloc, &root, follow, back, scan),
        Item::Visit(root) => {
            let found = look_at_root(alloc, &root.path, follow, scan)?;
            held.visit(alloc, &root, found, follow, back, scan)
        }
        Item::Scan(root, path) => {
            let found = list(alloc, &path, scan)?;
            held.take_listing(alloc, &root, &path, found)
        }
        Item::Candidate(root, path) => {
            let found = look_at_candidate(alloc, &root, &path, follow, scan, dirs)?;
            held.try_candidate(alloc, &root, &path, found, follow, back, scan)
        }
    }
}

/// Does what is queued. It fails only for want of memory.
fn act<B: Backend, S: Scanner, D: DirCheck>(
    alloc: Global,
    work: Work,
    follow: bool,
    held: &mut Held,
    back: &mut B,
    scan: &mut S,
    dirs: &mut D,
) -> Result<(), Memory>
    requires { WorkAsksBelow (D.under dirs.now) work }
    ensures looked { OnlyLooks (S.looked scan.old) (S.looked scan.new) }
    ensures raised { OnOk result (Rose (S.looked scan.old).looks (S.looked scan.new).looks) }
    ensures rest { S.rest scan.new ≡ S.rest scan.old }
    ensures place { S.place scan.new ≡ S.place scan.old }
    ensures under { D.under dirs.new ≡ D.under dirs.old }
    ensures dirs_place { D.place dirs.new ≡ D.place dirs.old }
    ensures kept { (b : D.Base) → D.kept b dirs.old → D.kept b dirs.new }
    ensures agrees { (ok : Path → Bool) → D.agrees ok dirs.new → D.agrees ok dirs.old }
    ensures state { OnOk result (Acts work (state_of held.old) (state_of held.new)) }
    ensures calm { (t : Tree) (ok : Path → Bool) (i : Item) → work ≡ Plain i → IsCalm t follow (S.looked scan.old) (S.looked scan.new) (state_of held.old).registrations (B.backing back.old) (B.fits back.old t) → IsNamed t → D.agrees ok dirs.new → IsReadableItem t i → OnOk result (ActsCalmly t ok i (state_of held.old) (state_of held.new) × StandsBy t (state_of held.new).registrations (B.backing back.new) (B.fits back.new t)) }
{
    match work {
        Work::Plain(item) => act_item(alloc, item, follow, held, back, scan, dirs),
        Work::Probe(path, owned) => {
            let found = look_here(alloc, &path, follow, scan)?;
            probe(alloc, &path, owned.as_slice(), found, held)
        }
    }
}

/// Does the first of the queue, or the sweep where nothing is queued. It fails only for want of memory.
fn first<B: Backend, S: Scanner, D: DirCheck>(
    alloc: Global,
    follow: bool,
    held: &mut Held,
    back: &mut B,
    scan: &mut S,
    dirs: &mut D,
) -> Result<(), Memory>
    requires { FirstAsksBelow (D.under dirs.now) (state_of held.now).queue }
    ensures looked { OnlyLooks (S.looked scan.old) (S.looked scan.new) }
    ensures raised { OnOk result (Rose (S.looked scan.old).looks (S.looked scan.new).looks ⊎ ((state_of held.old).queue ≡ [])) }
    ensures rest { S.rest scan.new ≡ S.rest scan.old }
    ensures place { S.place scan.new ≡ S.place scan.old }
    ensures under { D.under dirs.new ≡ D.under dirs.old }
    ensures dirs_place { D.place dirs.new ≡ D.place dirs.old }
    ensures kept { (b : D.Base) → D.kept b dirs.old → D.kept b dirs.new }
    ensures agrees { (ok : Path → Bool) → D.agrees ok dirs.new → D.agrees ok dirs.old }
    ensures state { OnOk result (Firsts (state_of held.old) (state_of held.new)) }
    ensures calm { (t : Tree) (ok : Path → Bool) → IsCalm t follow (S.looked scan.old) (S.looked scan.new) (state_of held.old).registrations (B.backing back.old) (B.fits back.old t) → IsNamed t → D.agrees ok dirs.new → IsFirstReadable t (state_of held.old).queue → OnOk result (FirstsCalmly t ok (state_of held.old) (state_of held.new) × StandsBy t (state_of held.new).registrations (B.backing back.new) (B.fits back.new t)) }
{
    match held.queue.pop_front() {
        None => {
            held.sweep();
            Ok(())
        }
        Some(work) => act(alloc, work, follow, held, back, scan, dirs),
    }
}

/// One step, before it hands out what it showed. It says whether nothing is left that could be let go. What is known to be so,
/// and what leaves the guards and all owners, need no look at what is held.
fn run<B: Backend, S: Scanner, D: DirCheck>(
    alloc: Global,
    at_rest: bool,
    follow: bool,
    held: &mut Held,
    back: &mut B,
    scan: &mut S,
    dirs: &mut D,
) -> Result<bool, Memory>
    requires asks { FirstAsksBelow (D.under dirs.now) (state_of held.now).queue }
    requires rests { at_rest ≡ true → IsAtRest (state_of held.now) }
    ensures looked { OnlyLooks (S.looked scan.old) (S.looked scan.new) }
    ensures raised { OnOk result (Rose (S.looked scan.old).looks (S.looked scan.new).looks ⊎ ((state_of held.old).queue ≡ [])) }
    ensures rest { S.rest scan.new ≡ S.rest scan.old }
    ensures place { S.place scan.new ≡ S.place scan.old }
    ensures under { D.under dirs.new ≡ D.under dirs.old }
    ensures dirs_place { D.place dirs.new ≡ D.place dirs.old }
    ensures kept { (b : D.Base) → D.kept b dirs.old → D.kept b dirs.new }
    ensures agrees { (ok : Path → Bool) → D.agrees ok dirs.new → D.agrees ok dirs.old }
    ensures state { OnOk result (Steps (state_of held.old) (state_of held.new)) }
    ensures rests { IfOk result (λ rests. rests ≡ true → IsAtRest (state_of held.new)) }
    ensures calm { (t : Tree) (ok : Path → Bool) → IsCalm t follow (S.looked scan.old) (S.looked scan.new) (state_of held.old).registrations (B.backing back.old) (B.fits back.old t) → IsNamed t → D.agrees ok dirs.new → IsFirstReadable t (state_of held.old).queue → AreSound (things (state_of held.old)) → OnOk result (StepsCalmly t ok (state_of held.old) (state_of held.new) × StandsBy t (state_of held.new).registrations (B.backing back.new) (B.fits back.new t)) }
{
    let owners = held.owners.len();
    let leaves = at_rest && leaves_guards(held);
    first(alloc, follow, held, back, scan, dirs)?;
    let stays = leaves && held.owners.len() >= owners;
    let_go(alloc, stays, held, back, scan)
}

/// What was shown, and whether a rebuild is asked for, which isn't kept any more.
fn hand_out(alloc: Global, at_rest: bool, held: &mut Held) -> Shown
    ensures state { state_of held.new ≡ told (state_of held.old) }
    ensures errors { result.errors.items ≡ (state_of held.old).shown }
    ensures rebuild { result.asks_rebuild ≡ (state_of held.old).asks_rebuild }
    ensures rests { result.at_rest ≡ at_rest }
{
    let errors = mem::replace(&mut held.shown, Vec::new(alloc));
    let asks_rebuild = held.asks_rebuild;
    held.asks_rebuild = false;
    Shown {
        errors,
        asks_rebuild,
        at_rest,
    }
}

/// Does one step, and hands out what it showed. What judges directories is asked only strictly below the root of a candidate,
/// down to the candidate. `at_rest` says that nothing is left that could be let go, as the last step answered: then most steps
/// needn't look for it. It fails only for want of memory, and then nothing is said of what is held.
pub fn step<B: Backend, S: Scanner, D: DirCheck>(
    alloc: Global,
    at_rest: bool,
    follow: bool,
    held: &mut Held,
    back: &mut B,
    scan: &mut S,
    dirs: &mut D,
) -> Result<Shown, Memory>
    requires asks { FirstAsksBelow (D.under dirs.now) (state_of held.now).queue }
    requires rests { at_rest ≡ true → IsAtRest (state_of held.now) }
    ensures looked { OnlyLooks (S.looked scan.old) (S.looked scan.new) }
    ensures raised { OnOk result (LooksOrSweeps (state_of held.old) (state_of held.new) (S.looked scan.old) (S.looked scan.new)) }
    ensures rest { S.rest scan.new ≡ S.rest scan.old }
    ensures place { S.place scan.new ≡ S.place scan.old }
    ensures under { D.under dirs.new ≡ D.under dirs.old }
    ensures dirs_place { D.place dirs.new ≡ D.place dirs.old }
    ensures kept { (b : D.Base) → D.kept b dirs.old → D.kept b dirs.new }
    ensures agrees { (ok : Path → Bool) → D.agrees ok dirs.new → D.agrees ok dirs.old }
    ensures state { IfOk result (λ r. Hands (state_of held.old) (state_of held.new) r.errors.items r.asks_rebuild) }
    ensures rests { IfOk result (λ r. r.at_rest ≡ true → IsAtRest (state_of held.new)) }
    ensures calm { (t : Tree) (ok : Path → Bool) → IsCalm t follow (S.looked scan.old) (S.looked scan.new) (state_of held.old).registrations (B.backing back.old) (B.fits back.old t) → IsNamed t → D.agrees ok dirs.new → IsFirstReadable t (state_of held.old).queue → AreSound (things (state_of held.old)) → IfOk result (λ r. HandsCalmly t ok (state_of held.old) (state_of held.new) r.errors.items r.asks_rebuild × StandsBy t (state_of held.new).registrations (B.backing back.new) (B.fits back.new t)) }
{
    let rests = run(alloc, at_rest, follow, held, back, scan, dirs)?;
    Ok(hand_out(alloc, rests, held))
}
