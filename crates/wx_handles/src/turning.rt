// Turns of a world with handles.
ghost use Rattle.std.specs.Prelude.{◌≡◌, ◌≤◌, ◌∷◌, ◌+◌, false, None, Some, true};
ghost use Rattle.wx_machine.specs.Told.{is_last};
ghost use Rattle.wx_live.specs.Drawn.{NoneLeft, with_moment};
ghost use Rattle.wx_live.specs.Lives.{OnlyDraws};
ghost use Rattle.wx_handles.specs.Told.{Turns};
ghost use Rattle.wx_handles.specs.Turns.{is_item, item_kind, kind_drawn, plain_kind, turn_at};
ghost use Rattle.wx_handles.specs.Rounds.{is_at, is_round, next_place, place_behind};

use crate::mark::{Mark, Plain};
use crate::marks::Marks;
use wx_control::{Flag, Id};
use wx_hooks::Turned;
use wx_journal::{Entry, Turn, TurnKind};
use wx_live::Live;
use wx_pass::Item;
use wx_queue::Taken;

/// What a turn brings that is no item of the queue.
fn plain_kind(plain: Plain) -> TurnKind
    ensures { result ≡ plain_kind plain }
{
    match plain {
        Plain::Ended(child) => TurnKind::Ended(child),
        Plain::Work => TurnKind::Work,
        Plain::Job(id) => TurnKind::Job(id),
        Plain::Listen => TurnKind::Listen,
        Plain::File => TurnKind::File,
        Plain::Last => TurnKind::Last,
    }
}

/// What a turn brings that is this item.
fn item_kind(item: Item) -> TurnKind
    ensures kind { result ≡ item_kind item }
    ensures not_last { is_last result ≡ false }
{
    match item {
        Item::Ask(id, ask) => TurnKind::Ask(id, ask),
        Item::Keys(bytes) => TurnKind::Keys(bytes),
    }
}

/// The next of the round, and its place behind that.
fn next_in_round(jobs: u32, place: u64) -> (Plain, u64)
    requires within { place ≤ jobs + 2 }
    ensures round { is_round (plain_kind result.0) ≡ true }
    ensures at { is_at jobs (plain_kind result.0) place ≡ true }
    ensures place { result.1 ≡ next_place jobs place }
    ensures within { result.1 ≤ jobs + 2 }
{
    if place == 0 {
        return (Plain::Work, 1);
    }
    if place <= jobs as u64 {
        return (Plain::Job(Id((place - 1) as u32)), place + 1);
    }
    if place == jobs as u64 + 1 {
        return (Plain::Listen, place + 1);
    }
    (Plain::File, 0)
}

/// Waits a little before a round.
fn rest_before<L: Live>(live: &mut L, place: u64)
    ensures drawn { L.drawn live.new ≡ L.drawn live.old }
    ensures rest { OnlyDraws (L.seen live.old).progress.moment (L.seen live.old) (L.seen live.new) }
{
    if place == 0 {
        live.rest();
    }
}

/// The next of the round, before which it waits a little where the round begins.
fn round<L: Live>(live: &mut L, jobs: u32, place: u64) -> (Plain, u64)
    requires within { place ≤ jobs + 2 }
    ensures round { is_round (plain_kind result.0) ≡ true }
    ensures at { is_at jobs (plain_kind result.0) place ≡ true }
    ensures place { result.1 ≡ next_place jobs place }
    ensures within { result.1 ≤ jobs + 2 }
    ensures drawn { L.drawn live.new ≡ L.drawn live.old }
    ensures rest { OnlyDraws (L.seen live.old).progress.moment (L.seen live.old) (L.seen live.new) }
{
    rest_before(live, place);
    next_in_round(jobs, place)
}

/// An end of a child, where one is left, and else the next of the round; and the place of the round behind it.
pub(crate) fn end_or_round<L: Live>(live: &mut L, jobs: u32, place: u64) -> (Plain, u64)
    requires within { place ≤ jobs + 2 }
    ensures not_last { is_last (plain_kind result.0) ≡ false }
    ensures no_item { is_item (plain_kind result.0) ≡ false }
    ensures left { is_round (plain_kind result.0) ≡ true → NoneLeft (L.drawn live.old).left }
    ensures at { is_at jobs (plain_kind result.0) place ≡ true }
    ensures place { result.1 ≡ place_behind jobs (plain_kind result.0) place }
    ensures within { result.1 ≤ jobs + 2 }
    ensures drawn { L.drawn live.new ≡ kind_drawn (plain_kind result.0) (L.drawn live.old) }
    ensures rest { OnlyDraws (L.seen live.old).progress.moment (L.seen live.old) (L.seen live.new) }
{
    match live.ended() {
        Some(child) => (Plain::Ended(child), place),
        None => round(live, jobs, place),
    }
}

/// A turn that is no item of the queue. Its moment is drawn, and it is marked and told.
pub(crate) fn plain_turn<L: Live>(live: &mut L, marks: &mut Marks, plain: Plain) -> Turned
    requires marks { 1 ≤ marks.old.spare }
    requires live { 1 ≤ (L.seen live.old).spare }
    ensures kind { result.turn.kind ≡ plain_kind plain }
    ensures none { result.done ≡ None }
    ensures later { (L.seen live.old).progress.moment ≤ result.turn.at }
    ensures marked { marks.new.past ≡ record { at = result.turn.at; plain = Some plain } ∷ marks.old.past }
    ensures room { marks.new.spare + 1 ≡ marks.old.spare }
    ensures drawn { L.drawn live.new ≡ with_moment result.turn.at (L.drawn live.old) }
    ensures turns { Turns (turn_at result.turn.at (plain_kind plain)) result.turn.at (L.seen live.old) (L.seen live.new) }
{
    let at = live.now();
    marks.push(Mark {
        at,
        plain: Some(plain),
    });
    live.note(Entry::Turn(Turn {
        at,
        kind: plain_kind(plain),
    }));
    Turned {
        turn: Turn {
            at,
            kind: plain_kind(plain),
        },
        done: None,
    }
}

/// The turn of an item that the queue gave. Its moment is drawn, and it is marked and told.
pub(crate) fn item_turn<L: Live>(
    live: &mut L,
    marks: &mut Marks,
    taken: Taken<Item, Option<Flag>>,
) -> Turned
    requires marks { 1 ≤ marks.old.spare }
    requires live { 1 ≤ (L.seen live.old).spare }
    requires same { taken.third ≡ taken.second }
    ensures kind { result.turn.kind ≡ item_kind taken.second }
    ensures not_last { is_last result.turn.kind ≡ false }
    ensures done { result.done ≡ taken.done }
    ensures later { (L.seen live.old).progress.moment ≤ result.turn.at }
    ensures marked { marks.new.past ≡ record { at = result.turn.at; plain = None } ∷ marks.old.past }
    ensures room { marks.new.spare + 1 ≡ marks.old.spare }
    ensures drawn { L.drawn live.new ≡ with_moment result.turn.at (L.drawn live.old) }
    ensures turns { Turns (turn_at result.turn.at (item_kind taken.second)) result.turn.at (L.seen live.old) (L.seen live.new) }
{
    let Taken {
        pass: _,
        seq: _,
        second,
        third,
        done,
    } = taken;
    let at = live.now();
    marks.push(Mark { at, plain: None });
    live.note(Entry::Turn(Turn {
        at,
        kind: item_kind(third),
    }));
    Turned {
        turn: Turn {
            at,
            kind: item_kind(second),
        },
        done,
    }
}
