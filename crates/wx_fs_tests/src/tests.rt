// A recursor by its calls, over a backend that fails where it is told to: the expected values are worked out by hand from the rules.
use crate::runs::runs_hold;
use wx_fs_trial::FailingBackend;

const RUNS: &str = "\
# a refused directory isn't owned, a root below it is, and an absent root is guarded and shown
/ ok
tree / /w/ /w/d/ /w/d/e/ /w/f
refused /w/d
roots r /w, n /w/d/e, n /w/no
settle
watched = /w /w/d/e
guards = /w
shown = fswatcher native pathscan /w/no notfound
rebuilds = 0
# a recursive root owns all below it; where only an inner root is left, the rest is unwatched, the deepest first
/ ok
tree / /w/ /w/a/ /w/a/b/
roots r /w
settle
owned = /w /w/a /w/a/b
roots n /w/a
settle
owned = /w/a
watched = /w/a
unwatched = /w/a/b /w
shown = none
# a watch that fails asks for a rebuild; where it fails again the path is skipped; it is shown each time
/ generic
tree / /w/ /w/a/ /w/a/b/
roots r /w
asks
rebuilds = 1
shown = fswatcher native pathadd /w/a generic no 0
forget
rebuild generic
settle
rebuilds = 1
owned = /w
watched = /w
shown = fswatcher native pathadd /w/a generic no 0
needs retry = yes
# roots are taken from the folder, normalised, and kept once
/w ok
tree / /w/ /w/d/
roots r x/../d, r /w/d, n d, r ./d
roots = 2
settle
watched = /w/d
# after a rebuild all that was watched is watched again, and nothing else: first what is owned, then the guard
/ ok
tree / /w/ /w/a/
roots r /w, r /g/x
settle
watched = /w / /w/a
replays = 4
rescan
asks
rebuilds = 1
rebuild ok
settle
watched = /w /w/a /
owned = /w /w/a
rebuilds = 1
# a replay that is deferred needs a retry until the next reconcile
/ ok
tree / /w/
roots r /w
settle
needs retry = no
defer
needs retry = yes
roots r /w
needs retry = no
# a step in which a watch finds no memory has spent the recursor; what was watched stays so
/ memory
tree / /w/ /w/a/
roots r /w
short settle
watched = /w
looks
has work = no
short step
short replay
short roots r /w
short rescan
short prepare
has work = no
looks = 0
# a replay in which a watch finds no memory has spent it too
/ ok
tree / /w/ /w/a/
roots r /w
settle
short rebuild memory
watched = /w
looks
has work = no
short step
short replay
short roots r /w
short rescan
short prepare
has work = no
looks = 0
# it hears of no change any more, and what it owned stays
/ memory
tree / /w/ /w/a/
roots r /w
short settle
short create /w/a
short remove /w/a
short rename /w/a /w/b
short ambiguous /w/a
has work = no
owned = /w
";

#[test]
fn a_recursor_by_its_calls(rt: HostRuntime) {
    runs_hold::<FailingBackend>(&rt, rt.alloc(), RUNS);
}
