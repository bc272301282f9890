// Which notifications are public: the expected values are worked out by hand.
use crate::expecting::expect_none;
use std::alloc::Global;
use wx_lane::{Notify, event_is_public};
use wx_text::{Memory, Text};
use wx_tree::{Place, Root};
use wx_words::TextPath;
use wx_words_trial::{first_wrong_pair, first_wrong_value, read_line};

// Roots, and below each the paths that are of it (`yes`) or aren't (`no`), seen from /w/d.
const PATHS: &str = "\
r /w | yes /w
r /w | yes /w/a
r /w | yes /w/a/b/c
r /w | no /
r /w | no /v
r /w | no /wa
r /w | no /wa/b
r /w/a | no /w/ab
r /w/a | no /w
r /w/a | yes /w/b/../a/c
r /w/a | no /w/a/../b
r /w/a | yes //w/./a//
r /w/a | yes /../w/a
r /w/a/b | no /w/a/c/b
r /w/a/b | yes /w/x/../a/y/../b/z
r / | yes /
r / | yes /x/y
n / | yes /
n / | yes /x
n / | no /x/y
n /w | yes /w
n /w | yes /w/a
n /w | no /w/a/b
n /w | yes /w/a/b/..
n /w | yes /w/a/../b
n /w | no /wa
n /w | no /
r /w/d | yes a
r /w/d | yes .
r /w/d | no ..
r /w | yes ..
n /w | yes ../x
n /w | no ../x/y
r /w/d/a | yes ./a/b
r /w/d/a | no ab
r /v | yes ../../v/x
r /w/d | yes %
n /w | yes %
n /w | no a
";

/// The path that this text spells.
fn path(alloc: Global, text: &str) -> Result<TextPath, Memory> {
    Ok(TextPath::new(Text::from_slice(alloc, text.as_bytes())?))
}

/// The root of these words: whether it is recursive, and its path.
fn root(alloc: Global, words: &str) -> Result<Option<Root>, Memory> {
    let Some((way, at)) = words.split_once(" ") else {
        return Ok(None);
    };
    let place = Place::new(alloc, &path(alloc, at)?)?;
    Ok(Some(Root {
        path: place,
        recursive: way == "r",
    }))
}

/// Whether a notification of a path is public for this root exactly where the case says so.
fn is_of_root(alloc: Global, root_words: &str, more: &str) -> Result<bool, Memory> {
    let Some((wanted, at)) = more.split_once(" ") else {
        return Ok(false);
    };
    let Some(root) = root(alloc, root_words)? else {
        return Ok(false);
    };
    let line = format!(in alloc; "create.file 1 {at} file - -")?;
    let Some(notification) = read_line::<Notify>(alloc, line.as_bytes())? else {
        return Ok(false);
    };
    let folder = path(alloc, "/w/d")?;
    let public = event_is_public(&notification, &folder, &[root]);
    Ok(public == (wanted == "yes"))
}

#[test]
fn paths_are_of_roots(rt: HostRuntime) {
    expect_none(&rt, first_wrong_pair(rt.alloc(), PATHS, " | ", is_of_root));
}

// Notifications, and whether they are public for /a with all below it and for /b with its entries.
const NOTIFICATIONS: &str = "\
any 0 - - | yes
any 0 rescan - | yes
create.file 1 /a/x/y file - - | yes
create.file 1 /b/x file - - | yes
create.file 1 /b/x/y file - - | no
create.file 1 /c file - - | no
create.file 2 /c none /d none - - | no
create.file 2 /c none /b none - - | yes
create.file 2 /a none /c none - - | yes
modify.name.both 3 /c none /d none /b/e none - - | yes
create.file 1 /c file rescan - | no
";

/// Whether this notification is public exactly where the case says so.
fn is_public(
    alloc: Global,
    notification: &Notify,
    _line: &str,
    wanted: &str,
) -> Result<bool, Memory> {
    let (Some(first), Some(second)) = (root(alloc, "r /a")?, root(alloc, "n /b")?) else {
        return Ok(false);
    };
    let folder = path(alloc, "/")?;
    let public = event_is_public(notification, &folder, &[first, second]);
    let without = event_is_public(notification, &folder, &[]);
    Ok(public == (wanted == "yes") && without == notification.paths.is_empty())
}

#[test]
fn one_path_suffices(rt: HostRuntime) {
    expect_none(
        &rt,
        first_wrong_value(rt.alloc(), NOTIFICATIONS, " | ", is_public),
    );
}
