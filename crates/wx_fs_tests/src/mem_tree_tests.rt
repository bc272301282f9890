// A tree in memory, as its scanner sees it: the expected values are worked out by hand.
use crate::outside::runs_hold;

// A tree with files, links and directories.
const TREE: &str = "\
d /
d /w
d /w/a
f /w/a/f 5
f /w/f 1
l /w/l a
l /w/m /w/l/f
l /w/up ../v
l /w/lost none
l /w/round round
d /v
f /v/x 9
";

const LOOKS: &str = "\
# each call answers
look / = dir /
look /w = dir /w
look /w/f = other
look /w/l = link
look /w/none = none
look /none/none = none
look /w/f/x = none
look /w/l/f = other
follow /w/l = dir /w/a
follow /w/m = other
follow /w/up = dir /v
follow /w/lost = none
follow /w/round = none
follow /w/a = dir /w/a
canonical /w/a = /w/a
canonical /w/l/f = /w/a/f
canonical /w/up/x = /v/x
canonical /w/none = none
stamp /w/f = 1
stamp /w/m = 5
stamp /w/a = 0
stamp /w/none = none
scan / = entries /w /v
scan /w/a = entries /w/a/f
scan /w/l = entries /w/l/f
scan /w/up = entries /w/up/x
scan /w/f = entries
scan /w/none = none
scan /v = entries /v/x
looks = 29
# a directory is made a file, and another one is gone
f /w/a 7
gone /v
look /w/a = other
stamp /w/a = 7
look /w/a/f = other
look /v = none
look /v/x = none
scan / = entries /w
scan /w = entries /w/a /w/f /w/l /w/m /w/up /w/lost /w/round
scan /w/a = entries
# what stands in two trees is exchanged, and the looks at each stay
other d /v
stamp /w/f = 1
swap
looks = 1
look /w = none
look /v = dir /v
turn
looks = 0
look / = dir /
look /w = dir /w
look /w/f = other
look /w/l = link
look /w/none = none
look /none/none = none
look /w/f/x = none
look /w/l/f = other
follow /w/l = dir /w/a
follow /w/m = other
follow /w/up = dir /v
follow /w/lost = none
follow /w/round = none
follow /w/a = dir /w/a
canonical /w/a = /w/a
canonical /w/l/f = /w/a/f
canonical /w/up/x = /v/x
canonical /w/none = none
stamp /w/f = 1
stamp /w/m = 5
stamp /w/a = 0
stamp /w/none = none
scan / = entries /w /v
scan /w/a = entries /w/a/f
scan /w/l = entries /w/l/f
scan /w/up = entries /w/up/x
scan /w/f = entries
scan /w/none = none
scan /v = entries /v/x
# looks fail that are to fail, and of two codes for one look the first stands
fail 1 5
fail 3 13
fail 1 6
look /w = dir /w
look /w = io 5
stamp /w/f = 1
scan /w/a = io 13
canonical /w = /w
look /w/none = none
";

#[test]
fn looks_at_a_tree(rt: HostRuntime) {
    runs_hold(&rt, rt.alloc(), TREE, LOOKS);
}
