// Changes of the tree: the expected values are worked out by hand from the rules.
use crate::runs::runs_hold;

const CHANGES: &str = "\
# created: a candidate of the root that owns the parent
with root /w, own /w
create /w/a
held = owned /w; candidate /w /w/a; sweep
# created: what was owned there and below goes
with root /w, own /w, own /w/a, own /w/a/b, own /w/b
create /w/a
held = owned /w /w/b; candidate /w /w/a; sweep
# created: a root that isn't recursive has no candidates
with flat /w, own /w
create /w/a
held = owned /w; sweep
# created: a root that doesn't own the parent has none
with root /w, own /w
create /w/a/b
held = owned /w; sweep
# created: the same at the top
with root /, own /
create /a
held = owned /; candidate / /a; sweep
# created: the guards and the roots there and below are queued
with root /w, own /w, guard /w/a /w, guard /w/a/b /w, guard /v/a /v
create /w/a
held = owned /w; guards /w /w /v; guard /w/a; guard /w/a/b; visit /w/a; visit /w/a/b; candidate /w /w/a; sweep
# created: what lies at, above or below it is no tombstone any more
with root /w, own /w, tombstone /w/a, tombstone /w/a/b, tombstone /w, tombstone /w/b
create /w/a
held = owned /w; tombstones /w/b; candidate /w /w/a; sweep
# created: in a directory that is owned under two paths
with root /w, own /w, own /w/a, own /w/l /w/a
create /w/a/b
held = owned /w /w/a /w/l; candidate /w /w/a/b; candidate /w /w/l/b; sweep
# created: the same, where the change is told by the path that leads there
with root /w, own /w, own /w/a, own /w/l /w/a
create /w/l/b
held = owned /w /w/a /w/l; candidate /w /w/a/b; candidate /w /w/l/b; sweep
# removed: what was owned there and below goes
with root /w, own /w, own /w/a, own /w/a/b, own /w/b
remove /w/a
held = owned /w /w/b; tombstones /w/a; sweep
# removed: the guards of the roots there and below are queued
with root /w/a, flat /w, root /v, own /w/a
remove /w
held = tombstones /w; guard /w/a; guard /w; sweep
# removed: tombstones there and below stay
with root /w, own /w, tombstone /w/a/b
remove /w/a
held = owned /w; tombstones /w/a/b /w/a; sweep
# removed: a directory that is owned under two paths goes from both
with root /w, own /w, own /w/a, own /w/l /w/a
remove /w/a
held = owned /w; tombstones /w/l /w/a; sweep
# renamed: removed at both, and created at the second
with root /w, own /w, own /w/a, own /w/a/c, own /w/b
rename /w/a /w/b
held = owned /w; tombstones /w/a; candidate /w /w/b; sweep
# renamed: the guards and the roots at the second are queued
with root /w, root /w/b, own /w
rename /w/a /w/b
held = owned /w; tombstones /w/a; guard /w/b; visit /w/b; candidate /w /w/b; sweep
# renamed: a path below the one that was left has no owned parent any more
with root /w, own /w, own /w/a
rename /w/a /w/a/b
held = owned /w; sweep
# changed in some way: what was owned there and below goes, and it is looked at
with root /w, own /w, own /w/a, own /w/a/b
ambiguous /w/a
held = owned /w; probe /w/a /w; sweep
# changed in some way: a path that nothing owns is looked at too
with root /w, own /w
ambiguous /w/a
held = owned /w; probe /w/a; sweep
# changed in some way: the guards and the roots there are queued
with guard /w/a /w, tombstone /w
ambiguous /w/a
held = guards /w; guard /w/a; visit /w/a; probe /w/a; sweep
# changed in some way: two paths of one directory
with root /w, own /w, own /w/a, own /w/l /w/a
ambiguous /w/a
held = owned /w; probe /w/l /w; probe /w/a /w; sweep
";

#[test]
fn the_tree_changes(rt: HostRuntime) {
    runs_hold(&rt, rt.alloc(), CHANGES);
}
