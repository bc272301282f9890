// Links, and what one directory is reached by: the expected values are worked out by hand from the rules.
use crate::runs::runs_hold;

const LINKS: &str = "\
# a link below a root isn't owned where links aren't followed
d /
d /w
d /w/a
l /w/l a
roots r /w
settle
owned = /w /w/a
registered = /w /w/a
unwatched = none
guards = none
shown = none
rebuilds = 0
# a link below a root shares the registration of its directory where links are followed
follow
d /
d /w
d /w/a
l /w/l a
roots r /w
settle
owned = /w /w/a /w/l
registered = /w /w/a
unwatched = none
guards = none
shown = none
rebuilds = 0
# a link back to the root is owned and not scanned again
follow
d /
d /w
d /w/a
l /w/a/up /w
roots r /w
settle
owned = /w /w/a /w/a/up
registered = /w /w/a
unwatched = none
guards = none
shown = none
rebuilds = 0
# a link to a directory beside the root is scanned, since it is new there
follow
d /
d /w
d /o
d /o/p
l /w/l /o
roots r /w
settle
owned = /w /w/l /w/l/p
registered = /w /w/l /w/l/p
unwatched = none
guards = none
shown = none
rebuilds = 0
# a link that leads nowhere is absent, and shown
follow
d /
d /w
l /w/l /no
roots r /w
settle
owned = /w
registered = /w
unwatched = none
guards = none
shown = absent /w/l
rebuilds = 0
# a link that leads to a file is no directory
follow
d /
d /w
f /f
l /w/l /f
roots r /w
settle
owned = /w
registered = /w
unwatched = none
guards = none
shown = none
rebuilds = 0
# a root that is a link: a guard, and nothing is shown
d /
d /o
l /l /o
roots r /l
settle
owned = none
registered = /
unwatched = none
guards = /
shown = none
rebuilds = 0
# a root below a link: the same
d /
d /o
d /o/x
l /l /o
roots r /l/x
settle
owned = none
registered = /
unwatched = none
guards = /
shown = none
rebuilds = 0
# a root below a file: the same
d /
f /f
roots r /f/x
settle
owned = none
registered = /
unwatched = none
guards = /
shown = none
rebuilds = 0
# a root that is a link, where links are followed
follow
d /
d /o
d /o/x
l /l /o
roots r /l
settle
owned = /l /l/x
registered = /l /l/x
unwatched = none
guards = none
shown = none
rebuilds = 0
# two roots that lead to one tree own it each by its own path, and share what is registered
follow
d /
d /w
d /w/a
l /l /w
roots r /w, r /l
settle
owned = /w /l /w/a /l/a
registered = /w /w/a
unwatched = none
guards = none
shown = none
rebuilds = 0
# between the look at a candidate and the watch its link came to lead elsewhere: it is unwatched and counts as gone
follow
d /
d /w
d /o
d /p
l /w/l /o
later d /
later d /w
later d /o
later d /p
later l /w/l /p
changes 4
roots r /w
settle
owned = /w
registered = /w
unwatched = /w/l
guards = none
shown = changed /w/l
retries = 0
rebuilds = 0
# between the look at a root and the watch its link came to lead elsewhere: it is found again through its guard, which then goes
follow
d /
d /o
d /p
l /l /o
later d /
later d /o
later d /p
later l /l /p
changes 1
roots r /l
settle
owned = /l
registered = /l
unwatched = /l /
guards = none
shown = changed /l
rebuilds = 0
# the path isn't there any more at the second look: it is unwatched and counts as gone
follow
d /
d /w
d /w/a
later d /
later d /w
changes 4
roots r /w
settle
owned = /w
registered = /w
unwatched = /w/a
guards = none
shown = absent /w/a
rebuilds = 0
# what a registration was made by is owned no more, and others share it: it stays, and a rebuild is asked for once
follow
d /
d /w
d /w/a
l /l /w
roots r /w, r /l
settle
roots r /l
settle
rebuilds = 1
roots r /l
settle
owned = /l /l/a
registered = /w /w/a
unwatched = none
guards = none
shown = none
rebuilds = 1
# a path whose link leads elsewhere by now is known under another identity: it is left out of the next replay, and isn't owned
follow
d /
d /w
d /o
d /p
l /w/l /o
roots r /w
settle
owned = /w /w/l
registered = /w /w/l
unwatched = none
guards = none
shown = none
l /w/l /p
roots r /w
settle
owned = /w
registered = /w
unwatched = /w/l
guards = none
shown = none
excluded = 1
rebuilds = 1
# a guard keeps the registration that it shares, and is a path by which it was made
d /
d /w
roots n /w, r /w/no
settle
roots r /w/no
settle
owned = none
registered = /w
unwatched = none
guards = /w
shown = absent /w/no absent /w/no
rebuilds = 0
";

#[test]
fn links_and_what_they_lead_to(rt: HostRuntime) {
    runs_hold(&rt, rt.alloc(), LINKS);
}
