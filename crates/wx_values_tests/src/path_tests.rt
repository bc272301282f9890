// Paths by the rules of their components: the expected values are worked out by hand.
use crate::expecting::expect_none;
use std::alloc::Global;
use wx_paths::{common_prefix, components, normalize, parent, path_of, starts_with};
use wx_text::{List, Memory, Text};
use wx_words::TextPath;
use wx_words_trial::first_wrong_pair;

/// The path of this text.
fn path_in(alloc: Global, text: &str) -> Result<TextPath, Memory> {
    Ok(TextPath::new(Text::from_slice(alloc, text.as_bytes())?))
}

/// Appends these texts with a space between each two.
fn put_spaced(texts: &[Text], out: &mut Text) -> Result<(), Memory> {
    for (i, text) in texts.iter().enumerate() {
        if i > 0 {
            out.push(b' ')?;
        }
        out.append(text.as_slice())?;
    }
    Ok(())
}

/// Appends a path, or `none`.
fn put_path(path: &Option<TextPath>, out: &mut Text) -> Result<(), Memory> {
    match path {
        Some(path) => out.append(path.text().as_slice()),
        None => out.append(b"none"),
    }
}

/// Whether this path has these components, this normal form and this parent.
fn is_path(alloc: Global, text: &str, expected: &str) -> Result<bool, Memory> {
    let path = path_in(alloc, text)?;
    let mut line = Text::new(alloc);
    let parts = components(alloc, &path)?;
    put_spaced(parts.as_slice(), &mut line)?;
    line.push(b'|')?;
    let normal = normalize(alloc, &path)?;
    line.append(normal.text().as_slice())?;
    line.push(b'|')?;
    let above = parent(alloc, &path)?;
    put_path(&above, &mut line)?;
    Ok(line.as_slice() == expected.as_bytes())
}

/// Each line: a path, its components, the normal path, the parent.
const PATHS: &str = "\
|||none
/|/|/|none
//|/|/|none
.|.||
..|..||
./|.||
/.|/|/|none
/..|/ ..|/|/
a|a|a|
a/|a|a|
a//|a|a|
/a|/ a|/a|/
/a/|/ a|/a|/
//a|/ a|/a|/
///a//b///c//|/ a b c|/a/b/c|/a/b
a/b|a b|a/b|a
./a|. a|a|.
././a|. a|a|.
.//a|. a|a|.
a/.|a|a|
a/./b|a b|a/b|a
/a/./../b|/ a .. b|/b|/a/..
a/..|a ..||a
a/../..|a .. ..||a/..
../a|.. a|a|..
../../a|.. .. a|a|../..
/../a|/ .. a|/a|/..
/a/b/..|/ a b ..|/a|/a/b
/a/b/../c|/ a b .. c|/a/c|/a/b/..
/a/../../b|/ a .. .. b|/b|/a/../..
a/b/../../c|a b .. .. c|c|a/b/../..
a/b/../..|a b .. ..||a/b/..
...|...|...|
/...|/ ...|/...|/
.a|.a|.a|
a.|a.|a.|
..a|..a|..a|
a..|a..|a..|
/.a/..b/c.|/ .a ..b c.|/.a/..b/c.|/.a/..b
./..|. ..||.
./.|.||
/./a|/ a|/a|/
/.//./|/|/|none
a/./././b/|a b|a/b|a
a/../b/../c|a .. b .. c|c|a/../b/..
/a/b/c/../../d|/ a b c .. .. d|/a/d|/a/b/c/../..
.../..|... ..||...
";

#[test]
fn components_normal_paths_and_parents(rt: HostRuntime) {
    expect_none(&rt, first_wrong_pair(rt.alloc(), PATHS, "|", is_path));
}

/// Whether this path starts with the other one of the case just where it says so.
fn is_start(alloc: Global, text: &str, rest: &str) -> Result<bool, Memory> {
    let Some((other, answer)) = rest.split_once('|') else {
        return Ok(false);
    };
    let path = path_in(alloc, text)?;
    let front = path_in(alloc, other)?;
    let expected = if starts_with(&path, &front) {
        "yes"
    } else {
        "no"
    };
    Ok(answer == expected)
}

const STARTS: &str = "\
/a/b|/a|yes
/a/b|/a/|yes
/a/b|//a|yes
/a/b|/|yes
/a/b||yes
/a/b|/a/b|yes
/a/b|/a/b/c|no
/ab|/a|no
/a/b|a|no
a/b|/a|no
a/b|a|yes
./a|a|no
./a|.|yes
a|./a|no
a/./b|a/b|yes
a/../b|a|yes
a/../b|b|no
/a/../b|/b|no
||yes
|a|no
/|/|yes
/||yes
|/|no
//|/|yes
a|A|no
.|./|yes
/a/b/c|/a/c|no
";

/// The paths of this text, which has a space between each two. The empty text has none.
fn paths_in(alloc: Global, text: &str) -> Result<List<TextPath>, Memory> {
    let mut list = List::new(alloc);
    for word in text.split(' ') {
        if !word.is_empty() {
            list.push(path_in(alloc, word)?)?;
        }
    }
    Ok(list)
}

/// Whether these paths have this common prefix.
fn is_common(alloc: Global, text: &str, expected: &str) -> Result<bool, Memory> {
    let paths = paths_in(alloc, text)?;
    let common = common_prefix(alloc, &paths)?;
    let mut line = Text::new(alloc);
    put_path(&common, &mut line)?;
    Ok(line.as_slice() == expected.as_bytes())
}

const COMMON: &str = "\
/a/b /a/c|/a
a /a|none
|none
/a/b /a/b|/a/b
/a/b /a/bc|/a
/a /b|/
/a/b/c /a/b /a/b/d|/a/b
/a/b/c|/a/b/c
a/b a/c|a
a b|none
./a ./b|.
./a a|none
//a//b/ /a/./b/c|/a/b
a/../b a/../c|a/..
/ /a|/
/a/b/c /a/c/b /a|/a
a/b/c a/b a|a
/a/b/x/d /a/c/x/d|/a
";

#[test]
fn starts_and_common_prefixes(rt: HostRuntime) {
    expect_none(&rt, first_wrong_pair(rt.alloc(), STARTS, "|", is_start));
    expect_none(&rt, first_wrong_pair(rt.alloc(), COMMON, "|", is_common));
}

/// Whether these components spell this path.
fn is_spelled(alloc: Global, text: &str, expected: &str) -> Result<bool, Memory> {
    let mut parts = List::new(alloc);
    for word in text.split(' ') {
        parts.push(Text::from_slice(alloc, word.as_bytes())?)?;
    }
    let path = path_of(alloc, parts.as_slice())?;
    Ok(path.text().as_slice() == expected.as_bytes())
}

const SPELLED: &str = "\
/|/
/ a|/a
/ a b|/a/b
. a|./a
a b c|a/b/c
.. a|../a
";

#[test]
fn spelled_paths(rt: HostRuntime) {
    expect_none(&rt, first_wrong_pair(rt.alloc(), SPELLED, "|", is_spelled));
}
