// Rests.
ghost use Rattle.std.specs.Prelude.{◌≡◌};

use crate::children::Children;
use crate::moments::Moments;
use std::process::Processes;
use std::rt::Clock;
use std::time::Duration;

/// How many milliseconds a rest lasts.
const REST: u64 = 50;

/// How many milliseconds pass in a rest from one look at the children to the next.
const STEP: u64 = 5;

/// Waits as long as a rest lasts, or until a child has ended.
pub fn rest_whole<R: Processes + Clock + Drop>(children: &mut Children<R>, moments: &Moments<R>)
    ensures { children.new.faults ≡ children.old.faults }
{
    if children.has_untold() {
        rest_beside(children, moments);
    } else {
        moments.rest(Duration::from_millis(REST));
    }
}

/// The same where a child may end.
fn rest_beside<R: Processes + Clock + Drop>(children: &mut Children<R>, moments: &Moments<R>)
    ensures { children.new.faults ≡ children.old.faults }
{
    for _ in 0..REST / STEP {
        if children.has_end_to_tell() {
            return;
        }
        moments.rest(Duration::from_millis(STEP));
    }
}
