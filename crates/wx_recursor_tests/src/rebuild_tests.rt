// Rebuilds of what is held: the expected values are worked out by hand from the rules.
use crate::runs::runs_hold;

// A backend is dropped.
const PREPARED: &str = "\
# what is registered waits
with root /w, own /w, own /w/a, registered /w, registered /w/a
prepare
held = waiting /w /w/a; owned /w /w/a
# what serves owned paths goes before what serves guards alone
with root /w, own /w, guard /g/x /g, registered /g, registered /w
prepare
held = waiting /w /g; owned /w; guards /g
# a guard that shares the registration of an owned path waits once
with root /w, own /w, guard /w/no /w, registered /w
prepare
held = waiting /w; owned /w; guards /w
# what is registered goes before what waited
with root /w, own /w, own /w/a, registered /w/a, waiting /w
prepare
held = waiting /w/a /w; owned /w /w/a
# an excluded path is owned no more
with root /w, own /w, own /w/a, registered /w, registered /w/a, excluded /w/a
prepare
held = waiting /w; owned /w
# a skipped path is owned no more
with root /w, own /w, own /w/a, registered /w, registered /w/a, skipped /w/a
prepare
held = waiting /w; owned /w; skipped /w/a
# what is at or below a tombstone is owned no more
with root /w, own /w, own /w/a, own /w/a/b, registered /w, registered /w/a, registered /w/a/b, tombstone /w/a
prepare
held = waiting /w; owned /w; tombstones /w/a
# a guard below a tombstone goes
with root /w, own /w, guard /g/x /g, registered /w, registered /g, tombstone /g
prepare
held = waiting /w; owned /w; tombstones /g
# where the representative is lost another path of the same directory takes its place
with root /w, own /w, own /w/l /w/a, registered /w, registered /w/a
prepare
held = waiting /w /w/l; owned /w /w/l
# the representative stays where it still stands for its directory
with root /w, own /w/l /w/a, own /w/a, registered /w/a
prepare
held = waiting /w/a; owned /w/l /w/a
# a registration that nothing needs isn't watched again
with root /w, own /w, registered /w, registered /w/a
prepare
held = waiting /w; owned /w
";

// What waits is watched again by a backend that fails as is said.
const REPLAYED: &str = "\
# what waits is watched again, in order
with root /w, own /w, own /w/a, guard /g/x /g, waiting /w, waiting /w/a, waiting /g
replay ok
held = registered /w /w/a /g; owned /w /w/a; guards /g
registered = /w /w/a /g
# nothing is there: this is shown, and what is owned there and below goes
with root /w, own /w, own /w/a, own /w/a/b, waiting /w, waiting /w/a, waiting /w/a/b
replay ok nopath ok
held = registered /w /w/a/b; owned /w; add /w/a
registered = /w /w/a/b
# nothing is there: the guards of the roots there are queued
with root /w, own /w, waiting /w
replay nopath
held = guard /w; add /w
registered = none
# nothing is there: another path of the same directory waits
with root /w, own /w, own /w/a, own /w/l /w/a, waiting /w, waiting /w/a
replay ok nopath
held = registered /w; waiting /w/l; owned /w /w/l; add /w/a
registered = /w
# where nothing more can be watched all that is left waits
with root /w, own /w, own /w/a, own /w/b, waiting /w, waiting /w/a, waiting /w/b
replay ok maxwatches ok
held = registered /w; waiting /w/b /w/a; owned /w /w/a /w/b; watches
registered = /w
# no space for watches: the same
with root /w, own /w, own /w/a, waiting /w, waiting /w/a
replay space ok
held = waiting /w/a /w; owned /w /w/a; watches
registered = none
# no more handles: the same
with root /w, own /w, own /w/a, waiting /w, waiting /w/a
replay handles ok
held = waiting /w/a /w; owned /w /w/a; handles
registered = none
# the first other fault of a path asks for a rebuild, which ends the replay
with root /w, own /w, own /w/a, own /w/b, waiting /w, waiting /w/a, waiting /w/b
replay ok generic ok
held = registered /w; waiting /w/b /w/a; owned /w /w/a /w/b; add /w/a; rebuild
registered = /w
# the second fault of a path gives the path up, and the replay goes on
with root /w, own /w, own /w/a, own /w/b, failed /w/a, waiting /w, waiting /w/a, waiting /w/b
replay ok generic ok
held = registered /w /w/b; owned /w /w/b; skipped /w/a; add /w/a
registered = /w /w/b
# a replay that finds no memory says so
with root /w, own /w, waiting /w
short replay memory
# registrations count, those that wait and guards too; a deferred replay needs a retry until the next reconcile
with root /w, own /w, own /w/a, guard /g/x /g, registered /w, registered /w/a, waiting /g
replays = 4
needs retry = no
defer
needs retry = yes
roots none
needs retry = no
";

#[test]
fn a_backend_is_rebuilt(rt: HostRuntime) {
    runs_hold(&rt, rt.alloc(), PREPARED);
    runs_hold(&rt, rt.alloc(), REPLAYED);
}
