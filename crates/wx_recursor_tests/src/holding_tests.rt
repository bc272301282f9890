// What is held, and what looks at roots and guards find, over a tree in memory: the expected values are worked out by hand from the
// rules.
use crate::runs::runs_hold;

const HELD: &str = "\
# looks at roots, links not followed
d /
d /w
d /w/a
f /w/f
l /w/l a
root / = directory
root /w/a = directory
root /w/f = other
root /w/l = barred
root /w/l/x = barred
root /w/f/x = barred
root /none = missing
root /none/x = missing
# guards of paths, links not followed
d /
d /w
d /w/a
f /w/f
l /w/l a
guard /w/none = /w
guard /none/x = /
guard /w/l/x = /w
guard /w/f/x = /w
guard /w/a = /w
# a reconcile queues retries of its roots and then the roots, and leaves a sweep to be done
has work = no
needs retry = no
with retry /w /w/a, retry /v /v
needs retry = yes
roots r /w
has work = yes
needs retry = no
filter = 3
held = candidate /w /w/a; visit /w; sweep
has work = yes
# a rescan queues the roots that stand, and asks for a rebuild
roots r /w
rescan
filter = 3
held = visit /w; rebuild; sweep
# each entry of a listing becomes a candidate
d /
d /w
d /w/a
f /w/f
l /w/l a
list /w /w
held = candidate /w /w/a; candidate /w /w/f; candidate /w /w/l
# a directory that is gone where it is to be listed is shown
d /
d /w
list /w /w/none
held = absent /w/none
";

#[test]
fn what_is_held(rt: HostRuntime) {
    runs_hold(&rt, rt.alloc(), HELD);
}
