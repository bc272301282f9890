// Each call of the outside fails in turn, in a run over twenty paths: the expected ends follow from the rules.
//
// A row orders a failure. Then the root settles, and the rest of the row holds.
use crate::runs::each_holds;
use crate::trial::Trial;
use std::alloc::Global;
use std::process::Abort;

// The twenty paths.
const TWENTY: &str = "\
d /
d /w
d /w/a
d /w/d
l /w/l a
f /w/f
d /w/g
f /w/a/f
d /w/a/b
f /w/d/f
d /w/d/e
d /w/g/h
d /w/a/b/c
f /w/a/b/f
f /w/d/e/f
f /w/g/h/f
f /w/a/b/c/f
d /o
d /o/p
f /o/f
";

// What is done where the root settles.
const SETTLES: &str = "\
roots r /w
settle
";

// What is done where the root has nothing below any more.
const NARROWS: &str = "\
roots n /w
settle
owned = /w
registrations = 1
calls = 15
";

// Nothing fails: so many calls there are.
const NOTHING: &str = "\
needs retry = no, all but = -, owned = /w /w/a /w/d /w/g /w/a/b /w/d/e /w/g/h /w/a/b/c, shown = none, looks = 33, judgements = 12, calls = 8
";

// Each look in its order: with what all that is missing begins where it fails, how many retries are kept, and what is shown. A
// root that can't be looked at is kept for a retry, and found again through its guard.
const LOOKS: &str = "\
look 0, all but = -, retries = 1, rebuilds = 0, shown = fault /
look 1, all but = -, retries = 1, rebuilds = 0, shown = fault /w
look 2, all but = -, retries = 0, rebuilds = 0, shown = fault /w
look 3, all but = /w/, retries = 1, rebuilds = 0, shown = fault /w
look 4, all but = /w/a, retries = 1, rebuilds = 0, shown = fault /w/a
look 5, all but = /w/a, retries = 0, rebuilds = 0, shown = fault /w/a
look 6, all but = /w/d, retries = 1, rebuilds = 0, shown = fault /w/d
look 7, all but = /w/d, retries = 0, rebuilds = 0, shown = fault /w/d
look 8, all but = -, retries = 1, rebuilds = 0, shown = fault /w/l
look 9, all but = -, retries = 1, rebuilds = 0, shown = fault /w/f
look 10, all but = /w/g, retries = 1, rebuilds = 0, shown = fault /w/g
look 11, all but = /w/g, retries = 0, rebuilds = 0, shown = fault /w/g
look 12, all but = /w/a/, retries = 1, rebuilds = 0, shown = fault /w/a
look 13, all but = /w/d/, retries = 1, rebuilds = 0, shown = fault /w/d
look 14, all but = /w/g/, retries = 1, rebuilds = 0, shown = fault /w/g
look 15, all but = -, retries = 1, rebuilds = 0, shown = fault /w/a/f
look 16, all but = /w/a/b, retries = 1, rebuilds = 0, shown = fault /w/a/b
look 17, all but = /w/a/b, retries = 0, rebuilds = 0, shown = fault /w/a/b
look 18, all but = -, retries = 1, rebuilds = 0, shown = fault /w/d/f
look 19, all but = /w/d/e, retries = 1, rebuilds = 0, shown = fault /w/d/e
look 20, all but = /w/d/e, retries = 0, rebuilds = 0, shown = fault /w/d/e
look 21, all but = /w/g/h, retries = 1, rebuilds = 0, shown = fault /w/g/h
look 22, all but = /w/g/h, retries = 0, rebuilds = 0, shown = fault /w/g/h
look 23, all but = /w/a/b/, retries = 1, rebuilds = 0, shown = fault /w/a/b
look 24, all but = /w/d/e/, retries = 1, rebuilds = 0, shown = fault /w/d/e
look 25, all but = /w/g/h/, retries = 1, rebuilds = 0, shown = fault /w/g/h
look 26, all but = /w/a/b/c, retries = 1, rebuilds = 0, shown = fault /w/a/b/c
look 27, all but = /w/a/b/c, retries = 0, rebuilds = 0, shown = fault /w/a/b/c
look 28, all but = -, retries = 1, rebuilds = 0, shown = fault /w/a/b/f
look 29, all but = -, retries = 1, rebuilds = 0, shown = fault /w/d/e/f
look 30, all but = -, retries = 1, rebuilds = 0, shown = fault /w/g/h/f
look 31, all but = /w/a/b/c/, retries = 1, rebuilds = 0, shown = fault /w/a/b/c
look 32, all but = -, retries = 1, rebuilds = 0, shown = fault /w/a/b/c/f
";

// Each call of what judges directories fails, and refuses.
const JUDGEMENTS: &str = "\
judgement 0 fails, all but = /w/a, retries = 1, rebuilds = 0, shown = filter
judgement 0 refuses, all but = /w/a, retries = 0, rebuilds = 0, shown = none
judgement 1 fails, all but = /w/d, retries = 1, rebuilds = 0, shown = filter
judgement 1 refuses, all but = /w/d, retries = 0, rebuilds = 0, shown = none
judgement 2 fails, all but = /w/g, retries = 1, rebuilds = 0, shown = filter
judgement 2 refuses, all but = /w/g, retries = 0, rebuilds = 0, shown = none
judgement 3 fails, all but = /w/a/b, retries = 1, rebuilds = 0, shown = filter
judgement 3 refuses, all but = /w/a/b, retries = 0, rebuilds = 0, shown = none
judgement 4 fails, all but = /w/a/b, retries = 1, rebuilds = 0, shown = filter
judgement 4 refuses, all but = /w/a/b, retries = 0, rebuilds = 0, shown = none
judgement 5 fails, all but = /w/d/e, retries = 1, rebuilds = 0, shown = filter
judgement 5 refuses, all but = /w/d/e, retries = 0, rebuilds = 0, shown = none
judgement 6 fails, all but = /w/d/e, retries = 1, rebuilds = 0, shown = filter
judgement 6 refuses, all but = /w/d/e, retries = 0, rebuilds = 0, shown = none
judgement 7 fails, all but = /w/g/h, retries = 1, rebuilds = 0, shown = filter
judgement 7 refuses, all but = /w/g/h, retries = 0, rebuilds = 0, shown = none
judgement 8 fails, all but = /w/g/h, retries = 1, rebuilds = 0, shown = filter
judgement 8 refuses, all but = /w/g/h, retries = 0, rebuilds = 0, shown = none
judgement 9 fails, all but = /w/a/b/c, retries = 1, rebuilds = 0, shown = filter
judgement 9 refuses, all but = /w/a/b/c, retries = 0, rebuilds = 0, shown = none
judgement 10 fails, all but = /w/a/b/c, retries = 1, rebuilds = 0, shown = filter
judgement 10 refuses, all but = /w/a/b/c, retries = 0, rebuilds = 0, shown = none
judgement 11 fails, all but = /w/a/b/c, retries = 1, rebuilds = 0, shown = filter
judgement 11 refuses, all but = /w/a/b/c, retries = 0, rebuilds = 0, shown = none
";

// Each watch. The first fault of a path asks for a rebuild, and the path is tried again. Where nothing is there the path counts as
// gone; a root is found again through its guard. Where no more can be watched what was watched before stays, and that is all.
const WATCHES: &str = "\
call 0 io, all but = -, retries = 0, calls = 9, rebuilds = 1, shown = add /w
call 0 nopath, all but = -, retries = 0, rebuilds = 0, shown = add /w
call 0 maxwatches, owned = none, registered = none, shown = watches, needs retry = yes, rebuilds = 0
call 1 io, all but = -, retries = 0, calls = 9, rebuilds = 1, shown = add /w/a
call 1 nopath, all but = /w/a, retries = 0, rebuilds = 0, shown = add /w/a
call 1 maxwatches, owned = /w, registered = /w, shown = watches, needs retry = yes, rebuilds = 0
call 2 io, all but = -, retries = 0, calls = 9, rebuilds = 1, shown = add /w/d
call 2 nopath, all but = /w/d, retries = 0, rebuilds = 0, shown = add /w/d
call 2 maxwatches, owned = /w /w/a, registered = /w /w/a, shown = watches, needs retry = yes, rebuilds = 0
call 3 io, all but = -, retries = 0, calls = 9, rebuilds = 1, shown = add /w/g
call 3 nopath, all but = /w/g, retries = 0, rebuilds = 0, shown = add /w/g
call 3 maxwatches, owned = /w /w/a /w/d, registered = /w /w/a /w/d, shown = watches, needs retry = yes, rebuilds = 0
call 4 io, all but = -, retries = 0, calls = 9, rebuilds = 1, shown = add /w/a/b
call 4 nopath, all but = /w/a/b, retries = 0, rebuilds = 0, shown = add /w/a/b
call 4 maxwatches, owned = /w /w/a /w/d /w/g, registered = /w /w/a /w/d /w/g, shown = watches, needs retry = yes, rebuilds = 0
call 5 io, all but = -, retries = 0, calls = 9, rebuilds = 1, shown = add /w/d/e
call 5 nopath, all but = /w/d/e, retries = 0, rebuilds = 0, shown = add /w/d/e
call 5 maxwatches, owned = /w /w/a /w/d /w/g /w/a/b, registered = /w /w/a /w/d /w/g /w/a/b, shown = watches, needs retry = yes, rebuilds = 0
call 6 io, all but = -, retries = 0, calls = 9, rebuilds = 1, shown = add /w/g/h
call 6 nopath, all but = /w/g/h, retries = 0, rebuilds = 0, shown = add /w/g/h
call 6 maxwatches, owned = /w /w/a /w/d /w/g /w/a/b /w/d/e, registered = /w /w/a /w/d /w/g /w/a/b /w/d/e, shown = watches, needs retry = yes, rebuilds = 0
call 7 io, all but = -, retries = 0, calls = 9, rebuilds = 1, shown = add /w/a/b/c
call 7 nopath, all but = /w/a/b/c, retries = 0, rebuilds = 0, shown = add /w/a/b/c
call 7 maxwatches, owned = /w /w/a /w/d /w/g /w/a/b /w/d/e /w/g/h, registered = /w /w/a /w/d /w/g /w/a/b /w/d/e /w/g/h, shown = watches, needs retry = yes, rebuilds = 0
";

// Each unwatch, the deepest path first. A fault is shown, and asks for a rebuild; that the path wasn't watched counts as done. What
// was registered is forgotten all the same.
const UNWATCHES: &str = "\
call 8 io, registered = /w /w/a/b/c, shown = remove /w/a/b/c, rebuilds = 1
call 8 nowatch, registered = /w /w/a/b/c, shown = none, rebuilds = 0
call 9 io, registered = /w /w/a/b, shown = remove /w/a/b, rebuilds = 1
call 9 nowatch, registered = /w /w/a/b, shown = none, rebuilds = 0
call 10 io, registered = /w /w/d/e, shown = remove /w/d/e, rebuilds = 1
call 10 nowatch, registered = /w /w/d/e, shown = none, rebuilds = 0
call 11 io, registered = /w /w/g/h, shown = remove /w/g/h, rebuilds = 1
call 11 nowatch, registered = /w /w/g/h, shown = none, rebuilds = 0
call 12 io, registered = /w /w/a, shown = remove /w/a, rebuilds = 1
call 12 nowatch, registered = /w /w/a, shown = none, rebuilds = 0
call 13 io, registered = /w /w/d, shown = remove /w/d, rebuilds = 1
call 13 nowatch, registered = /w /w/d, shown = none, rebuilds = 0
call 14 io, registered = /w /w/g, shown = remove /w/g, rebuilds = 1
call 14 nowatch, registered = /w /w/g, shown = none, rebuilds = 0
";

/// Behind what the row orders the root settles, the lines behind that hold, and then the rest of the row.
fn row_holds(rt: &impl Abort, alloc: Global, lines: &str, row: &str) {
    let (ordered, found) = row.split_once(", ").expect(rt, row);
    let mut trial = Trial::new(alloc).expect(rt, row);
    each_holds(rt, &mut trial, row, TWENTY, "\n");
    each_holds(rt, &mut trial, row, ordered, "\n");
    each_holds(rt, &mut trial, row, SETTLES, "\n");
    each_holds(rt, &mut trial, row, lines, "\n");
    each_holds(rt, &mut trial, row, found, ", ");
    drop(trial);
}

fn rows_hold(rt: &impl Abort, alloc: Global, lines: &str, rows: &str) {
    for row in rows.lines() {
        row_holds(rt, alloc, lines, row);
    }
}

#[test]
fn each_call_fails(rt: HostRuntime) {
    rows_hold(&rt, rt.alloc(), "", NOTHING);
    rows_hold(&rt, rt.alloc(), "", LOOKS);
    rows_hold(&rt, rt.alloc(), "", JUDGEMENTS);
    rows_hold(&rt, rt.alloc(), "", WATCHES);
    rows_hold(&rt, rt.alloc(), NARROWS, UNWATCHES);
}
