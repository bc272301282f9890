// The queue's rule: what each pass sent is what was given of it, and then what the queue holds of it.
use crate::parcel::{Queued, Sent};
use crossbeam_queue::RuledArrayQueue;
use crossbeam_queue::protocol::{Join, Lesson, Outcome, Protocol, Split};
use std::collections::LinkedList;

/// What the world's end or a pass knows. No value of it is made.
pub struct Known<I> {
    pub takes: bool,
    pub sends: bool,
    pub number: u32,
    pub sent: LinkedList<Sent<I>>,
    pub given: LinkedList<Sent<I>>,
    pub made: u32,
    pub noted: LinkedList<(u32, LinkedList<Sent<I>>)>,
}

pub(crate) struct Conserved;

impl<I, F> Protocol<Queued<I, F>, Known<I>> for Conserved {
    ghost use Rattle.std.specs.Prelude.{true, false, []};
    ghost use Rattle.wx_queue.specs.Rule.{known, Delivers};

    ghost holds = { Delivers (λ x. x.sent) };

    ghost first = { known true false 0 [] [] 0 [] };
}

pub(crate) type Ruled<I, F> = RuledArrayQueue<Queued<I, F>, Known<I>, Conserved>;

// The world's end makes a pass.
pub(crate) struct Deals;

impl<I> Split<Known<I>> for Deals {
    ghost use Rattle.std.specs.Prelude.{true, false, [], ◌+◌};
    ghost use Rattle.wx_queue.specs.Rule.{known};

    ghost left = { λ v. known v.takes v.sends v.number v.sent v.given (v.made + 1) v.noted };

    ghost right = { λ v. known false true v.made [] [] 0 [] };
}

// The world's end takes a pass in.
pub(crate) struct Notes;

impl<I> Join<Known<I>> for Notes {
    ghost use Rattle.std.specs.Prelude.{true, false, [], ◌∷◌};
    ghost use Rattle.wx_queue.specs.Rule.{known};

    ghost both = { λ v w. known v.takes v.sends v.number v.sent v.given v.made ((w.number, w.sent) ∷ v.noted) };

    ghost spent = { known false false 0 [] [] 0 [] };
}

pub(crate) struct Puts;

impl<I, F> Outcome<Queued<I, F>, Known<I>> for Puts {
    ghost use Rattle.std.specs.Prelude.{◌≡◌, [], ◌∷◌, ◌++◌};
    ghost use Rattle.wx_queue.specs.Rule.{known};

    ghost then = { λ v x w. w ≡ known v.takes v.sends v.number (v.sent ++ x.sent ∷ []) v.given v.made v.noted };
}

// A refused push tells nothing but the length.
impl<I, F> Lesson<Queued<I, F>, Known<I>> for Puts {
    ghost fact = { λ v items. Unit {0} };
}

pub(crate) struct Takes;

impl<I, F> Outcome<Queued<I, F>, Known<I>> for Takes {
    ghost use Rattle.std.specs.Prelude.{◌≡◌, [], ◌∷◌, ◌++◌};
    ghost use Rattle.wx_queue.specs.Rule.{known};

    ghost then = { λ v x w. w ≡ known v.takes v.sends v.number v.sent (v.given ++ x.sent ∷ []) v.made v.noted };
}

// What the world's end knows of the passes that it took in.
impl<I, F> Lesson<Queued<I, F>, Known<I>> for Takes {
    ghost use Rattle.wx_queue.specs.Rule.{Tells};
    ghost use Rattle.std.specs.Prelude.{map};

    ghost fact = { λ v items. Tells v (map (λ x. x.sent) items) };
}
