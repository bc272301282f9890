// Steps over a tree in memory: the expected values are worked out by hand from the rules.
use crate::runs::runs_hold;

const STEPS: &str = "\
# a recursive root owns all directories below it, links not followed. Where only an inner root is left, the rest is unwatched
d /
d /w
d /w/a
d /w/a/b
f /w/f
l /w/l a
roots r /w
settle
registered = /w /w/a /w/a/b
owned = /w /w/a /w/a/b
roots n /w/a
settle
registered = /w/a
asked = /w/a /w/a /w/a/b
shown = none
rebuilds = 0
# the directories below a root are owned. Where only one of them is left as a root, the others are unwatched, the deepest first
d /
d /w
d /w/a
d /w/a/b
roots r /w
settle
owned = /w /w/a /w/a/b
roots n /w/a
settle
owned = /w/a
unwatched = /w/a/b /w
shown = none
# a refused directory isn't owned, a root below it is, and an absent root is guarded and shown
d /
d /w
d /w/d
d /w/d/e
f /w/f
refused /w/d
roots r /w, n /w/d/e, n /w/no
settle
registered = /w /w/d/e
guards = /w
shown = absent /w/no
rebuilds = 0
# a watch that fails twice is shown twice: after the first time a rebuild is asked for, after the second the path is skipped
d /
d /w
d /w/a
d /w/a/b
call 1 generic
call 2 generic
roots r /w
settle
registered = /w
owned = /w
shown = add /w/a add /w/a
rebuilds = 1
needs retry = yes
# where no more can be watched, that is shown once, and nothing more is watched
d /
d /w
d /w/a
d /w/b
call 1 maxwatches
roots r /w
settle
registered = /w
shown = watches
rebuilds = 0
calls = 2
needs retry = yes
# two paths that lead to one directory share a registration
follow
d /
d /w
d /w/a
l /w/l a
roots r /w
settle
registered = /w /w/a
owned = /w /w/a /w/l
shown = none
rebuilds = 0
# a filter that fails is shown, what is owned stays, and one retry is kept
d /
d /w
d /w/a
misjudged /w/a
roots r /w
settle
owned = /w
shown = filter
retries = 1
rebuilds = 0
# a path that changed in some way becomes a candidate of the root that owns its parent, where it is a directory
d /
d /w
roots r /w
settle
d /w/a
f /w/f
probe /w/a
probe /w/f
settle
owned = /w /w/a
shown = none
# a probe whose look fails is shown, and one retry is kept for the root that owned the path
d /
d /w
d /w/a
roots r /w
settle
next fails
probe /w/a
settle
owned = /w /w/a
shown = fault /w/a
retries = 1
# a root that comes to be there is found by its guard's step, and its guard goes
d /
d /w
roots r /w/a
settle
guards = /w
d /w/a
roots r /w/a
settle
guards = none
registered = /w/a
shown = absent /w/a
";

#[test]
fn steps_over_a_tree(rt: HostRuntime) {
    runs_hold(&rt, rt.alloc(), STEPS);
}
