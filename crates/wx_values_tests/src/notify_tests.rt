// What a backend brings, as words: the expected values are worked out by hand.
//
// Cases stand in tables that are texts, a case a line: the words, ` = `, and the fields of the value.
use crate::expecting::expect_none;
use std::alloc::Global;
use wx_notify::{Notify, NotifyPath};
use wx_text::Memory;
use wx_words_trial::{
    equals_its_copy, first_accepted, first_wrong_line, first_wrong_value, is_spelled, is_written,
    read_line,
};

/// Whether this notification has these fields, is written by this line, and equals its copy.
fn is_notification(
    alloc: Global,
    value: &Notify,
    line: &str,
    fields: &str,
) -> Result<bool, Memory> {
    Ok(is_spelled(alloc, value, line, fields)? && equals_its_copy(alloc, value)?)
}

const NOTIFICATIONS: &str = "\
create.file 1 /w/a file - - = Notify { kind: Create(File), paths: List { items: [NotifyPath { path: TextPath { text: Text { bytes: [47, 119, 47, 97] } }, file_type: Some(File) }] }, rescan: false, process: None }
any 0 rescan - = Notify { kind: Any, paths: List { items: [] }, rescan: true, process: None }
other 0 - 0 = Notify { kind: Other, paths: List { items: [] }, rescan: false, process: Some(0) }
remove.any 1 % none rescan 4294967295 = Notify { kind: Remove(Any), paths: List { items: [NotifyPath { path: TextPath { text: Text { bytes: [] } }, file_type: None }] }, rescan: true, process: Some(4294967295) }
modify.name.both 2 / dir /%20 symlink - 7 = Notify { kind: Modify(Name(Both)), paths: List { items: [NotifyPath { path: TextPath { text: Text { bytes: [47] } }, file_type: Some(Dir) }, NotifyPath { path: TextPath { text: Text { bytes: [47, 32] } }, file_type: Some(Symlink) }] }, rescan: false, process: Some(7) }
modify.data.any 1 none other - - = Notify { kind: Modify(Data(Any)), paths: List { items: [NotifyPath { path: TextPath { text: Text { bytes: [110, 111, 110, 101] } }, file_type: Some(Other) }] }, rescan: false, process: None }
";

// The first line is empty.
const BAD_NOTIFICATIONS: &str = "
any
any 0
any 0 -
any 0 rescan
any 0 - - -
any 0 - rescan
any 0 - 4294967296
any 0 - 07
any 0 - -1
any 0 none -
any 0 on -
any 0 - none
any 1 - -
any 1 /a - - -
any 1 /a file dir - -
any 2 /a file - -
kind any 0 - -
anything 0 - -
";

const PATHS: &str = "\
/w/a file
/w none
% other
none none
";

/// Whether this line is a path with its type, which is written by the line and equals its copy.
fn is_path(alloc: Global, line: &str) -> Result<bool, Memory> {
    match read_line::<NotifyPath>(alloc, line.as_bytes())? {
        Some(path) => Ok(
            is_written(alloc, &path, line.as_bytes())? && equals_its_copy(alloc, &path)?,
        ),
        None => Ok(false),
    }
}

#[test]
fn notifications_and_their_words(rt: HostRuntime) {
    expect_none(
        &rt,
        first_wrong_value(rt.alloc(), NOTIFICATIONS, " = ", is_notification),
    );
    expect_none(&rt, first_accepted::<Notify>(rt.alloc(), BAD_NOTIFICATIONS));
    expect_none(&rt, first_wrong_line(rt.alloc(), PATHS, is_path));
}
