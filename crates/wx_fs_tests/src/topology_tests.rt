// A recursor whose tree changes, and one that lends its backend, over a poller and over a backend that watches whatever it is told to:
// the expected values are worked out by hand from the rules.
use crate::runs::runs_hold;
use std::alloc::Global;
use std::process::Abort;
use wx_fs_trial::FailingBackend;
use wx_poller::Poller;
use wx_text::Memory;

const RUNS: &str = "\
# a directory comes, goes, comes again under another name, and changes in some way
/ ok
tree / /w/
roots r /w
settle
owned = /w
tree /w/a/
create /w/a
settle
owned = /w /w/a
gone /w/a
remove /w/a
settle
owned = /w
tree /w/b/
rename /w/a /w/b
settle
owned = /w /w/b
ambiguous /w/b
settle
owned = /w /w/b
shown = none
rebuilds = 0
rescan
asks
rebuilds = 1
# whole trees come and go; what stands below is found by listings
/ ok
tree / /w/
roots r /w
settle
owned = /w
tree /w/a/ /w/a/b/ /w/a/f
create /w/a
settle
owned = /w /w/a /w/a/b
create /w/a/f
settle
owned = /w /w/a /w/a/b
gone /w/a
ambiguous /w/a
settle
owned = /w
shown = none
rebuilds = 0
# a root that is absent at first comes and goes
/ ok
tree / /w/
roots r /w/r
settle
owned = none
guards = /w
shown = fswatcher native pathscan /w/r notfound
tree /w/r/
create /w/r
settle
owned = /w/r
guards = none
gone /w/r
remove /w/r
settle
owned = none
guards = /w
shown = fswatcher native pathscan /w/r notfound
rebuilds = 0
# both paths of a rename are taken from the folder
/w/d ok
tree / /w/ /w/d/
roots r /w
settle
tree /w/d/a/
create a
settle
owned = /w /w/d /w/d/a
gone /w/d/a
tree /w/b/
rename ./a x/../../b
settle
owned = /w /w/d /w/b
gone /w/b
tree /w/d/a/
rename ../b ../d/a
settle
owned = /w /w/d /w/d/a
shown = none
rebuilds = 0
# while its backend is lent, a recursor has the work that it had, and is told of changes
/ ok
tree / /w/
roots r /w
settle
lend
has work = no
needs retry = no
replays = 1
tree /w/a/
create /w/a
has work = yes
restore
settle
owned = /w /w/a
rebuilds = 0
";

#[test]
fn the_tree_changes(rt: HostRuntime) {
    runs_hold::<Poller>(&rt, rt.alloc(), RUNS);
    runs_hold::<FailingBackend>(&rt, rt.alloc(), RUNS);
}

// Paths as they are given, in the folder /w/d, and the directory that each leads to.
const PATHS: &str = "\
a | /w/d/a
./a | /w/d/a
x/../a | /w/d/a
../b | /w/b
../../w/b | /w/b
../../../../w/b | /w/b
..//./b/ | /w/b
/w/b | /w/b
/w/c/../b/. | /w/b
//w//b// | /w/b
";

/// A run in which a directory is created, changes, and is removed, each told by this path.
fn told_by(alloc: Global, given: &str, place: &str) -> Result<String, Memory> {
    Ok(format!(in alloc;
        "{given} leads to {place}\n/w/d ok\ntree / /w/ /w/d/\nroots r /w\nsettle\nowned = /w /w/d\ntree {place}/\ncreate {given}\nsettle\nowned = /w /w/d {place}\nambiguous {given}\nsettle\nowned = /w /w/d {place}\ngone {place}\nremove {given}\nsettle\nowned = /w /w/d\nrebuilds = 0\n"
    )?)
}

/// The path leads to the place.
fn leads(rt: &impl Abort, alloc: Global, given: &str, place: &str) {
    let run = told_by(alloc, given, place).expect(rt, given);
    runs_hold::<FailingBackend>(rt, alloc, run.as_str());
}

#[test]
fn paths_are_taken_from_the_folder(rt: HostRuntime) {
    for case in PATHS.lines() {
        let (given, place) = case.split_once(" | ").expect(&rt, case);
        leads(&rt, rt.alloc(), given, place);
    }
}
