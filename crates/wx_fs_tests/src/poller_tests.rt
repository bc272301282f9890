// A poller over a tree in memory: the expected values are worked out by hand.
use crate::outside::runs_hold;

const TREE: &str = "\
d /
d /w
";

const POLLED: &str = "\
# a file is changed, and another one is new
f /w/a
watch /w = ok
next = none
f /w/a 2
f /w/b
next = create.file 1 /w/b file - -
next = modify.data.any 1 /w/a file - -
next = none
# the same where links are followed
follows
f /w/a
watch /w = ok
next = none
f /w/a 2
f /w/b
next = create.file 1 /w/b file - -
next = modify.data.any 1 /w/a file - -
next = none
# what isn't there, and what isn't watched
watch /none = nopath 0
unwatch /w = nowatch 0
unwatch /none = nowatch 0
faults = 0
watch /w = ok
watch /w = ok
unwatch /w = ok
unwatch /w = nowatch 0
next = none
# removes first, then creates, then modifications, each by path. What is another kind is removed and created
f /w/c
f /w/b
d /w/a
d /w/d
f /w/m
f /w/e
watch /w = ok
gone /w/c
gone /w/a
f /w/a
l /w/b /w
f /w/m 2
f /w/e 2
d /w/k
f /w/f
next = remove.folder 1 /w/a dir - -
next = remove.file 1 /w/b file - -
next = remove.file 1 /w/c file - -
next = create.file 1 /w/a file - -
next = create.any 1 /w/b symlink - -
next = create.file 1 /w/f file - -
next = create.folder 1 /w/k dir - -
next = modify.data.any 1 /w/e file - -
next = modify.data.any 1 /w/m file - -
next = none
# a link that goes, a directory that goes with all below, and a path that is there again
l /w/l /w
f /w/a
watch /w = ok
gone /w/l
next = remove.any 1 /w/l symlink - -
gone /w
next = remove.folder 1 /w dir - -
next = remove.file 1 /w/a file - -
next = none
d /w
next = create.folder 1 /w dir - -
next = none
# what one registration covers stays where another one covers it too
d /w/s
f /w/a
f /w/s/b
watch /w = ok
watch /w/s = ok
next = none
unwatch /w = ok
next = none
f /w/a 2
gone /w/s/b
next = remove.file 1 /w/s/b file - -
next = none
watch /w = ok
unwatch /w/s = ok
gone /w/s
next = remove.folder 1 /w/s dir - -
next = none
# what was seen before a path was watched is told, and what a watch finds isn't
f /w/a
watch /w = ok
f /w/a 2
watch /w/a = ok
next = modify.data.any 1 /w/a file - -
f /w/b
watch /w = ok
next = create.file 1 /w/b file - -
f /w/c
watch /w/c = ok
next = none
# a look that fails in the middle leaves what was seen: the third look from there on is that at `/w/a`
f /w/a
watch /w = ok
f /w/a 2
fail +2 5
next = io 5 0
faults = 1
next = modify.data.any 1 /w/a file - -
next = none
unwatch /w = ok
fail +2 5
watch /w = io 5 0
unwatch /w = nowatch 0
watch /w = ok
next = none
# a link that is followed is what it leads to
follows
f /w/a
l /l /w
watch /l = ok
f /w/a 2
next = modify.data.any 1 /l/a file - -
next = none
";

#[test]
fn what_a_poller_tells(rt: HostRuntime) {
    runs_hold(&rt, rt.alloc(), TREE, POLLED);
}
