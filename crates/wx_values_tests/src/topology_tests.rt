// What notifications say of the tree: the expected values are worked out by hand.
use crate::expecting::expect_none;
use std::alloc::Global;
use wx_lane::{Notify, Topology, topology_messages};
use wx_text::Memory;
use wx_words::Escaped;
use wx_words_trial::first_wrong_value;

// A notification by its words, and its messages.
const MESSAGES: &str = "\
create.file 1 /w/a file - - = +/w/a
create.any 2 /w/a file /w/b none - - = +/w/a +/w/b
create.folder 0 - - =
remove.file 2 /w/a none /w/b none - - = -/w/a -/w/b
modify.name.from 1 /w/a none - - = -/w/a
modify.name.from 2 /w/a none /w/b none - - = -/w/a -/w/b
modify.name.both 2 /w/a none /w/b none - - = /w/a>/w/b
modify.name.both 3 /w/a none /w/b none /w/c none - - = /w/a>/w/b ?/w/c
modify.name.both 4 /w/a none /w/b none /w/c none /w/d none - - = /w/a>/w/b ?/w/c ?/w/d
modify.name.both 1 /w/a none - - = ?/w/a
modify.name.both 0 - - =
modify.name.to 1 /w/a none - - = ?/w/a
modify.name.any 2 /w/a none /w/b none - - = ?/w/a ?/w/b
modify.name.other 1 /w/a none - - = ?/w/a
any 1 /w/a none - - = ?/w/a
other 2 /w/a none /w/b none - - = ?/w/a ?/w/b
modify.any 1 /w/a none - - =
modify.data.content 1 /w/a file - - =
modify.meta.perm 1 /w/a file - - =
modify.other 1 /w/a file - - =
access.close.write 1 /w/a file - - =
access.any 1 /w/a file rescan - = !
create.file 1 /w/a file rescan 7 = ! +/w/a
modify.name.both 3 /w/a none /w/b none /w/c none rescan - = ! /w/a>/w/b ?/w/c
other 0 rescan - = !
any 0 - - =
";

/// A message as a word with a space before it.
fn shown(alloc: Global, message: &Topology) -> Result<String, Memory> {
    Ok(match message {
        Topology::Create(path) => format!(in alloc; " +{path}", path = Escaped(path.text()))?,
        Topology::Remove(path) => format!(in alloc; " -{path}", path = Escaped(path.text()))?,
        Topology::Rename { from, to } => {
            format!(in alloc;
                " {from}>{to}",
                from = Escaped(from.text()),
                to = Escaped(to.text())
            )?
        }
        Topology::Ambiguous(path) => format!(in alloc; " ?{path}", path = Escaped(path.text()))?,
        Topology::Rescan => format!(in alloc; " !")?,
    })
}

/// Whether this notification has these messages.
fn has_messages(
    alloc: Global,
    notification: &Notify,
    _line: &str,
    wanted: &str,
) -> Result<bool, Memory> {
    let messages = topology_messages(alloc, notification)?;
    let mut all = String::new(alloc);
    for message in messages.as_slice() {
        let one = shown(alloc, message)?;
        all.push_str(one.as_str())?;
    }
    Ok(all.as_str() == wanted)
}

#[test]
fn notifications_have_their_messages(rt: HostRuntime) {
    expect_none(
        &rt,
        first_wrong_value(rt.alloc(), MESSAGES, " =", has_messages),
    );
}
