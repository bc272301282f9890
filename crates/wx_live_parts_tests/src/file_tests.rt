// Looks at files that a shell made: the expected answers are those of the system's own tools.
use crate::expecting::expect_yes;
use crate::trial::{Parts, new_parts, run_shell};
use std::alloc::Global;
use std::test::Fail;
use wx_events::ProcessEnd;
use wx_scan::{EntryKind, ScanError, Scanner};
use wx_text::{Memory, Text};
use wx_words::TextPath;

/// Makes a folder, with a file, a file and a folder with odd names, one whose name isn't UTF-8, and links.
const MAKE: &str = "mkdir -p d/below && : > 'a b' && : > 'line
feed' && : > \"$(printf 'bad\\377')\" && ln -s d l && ln -s nowhere dangling && ln -s round round";

/// Paths in this folder, whether links are followed, and what stands there.
const KINDS: &[(&str, bool, &str)] = &[
    ("", false, "directory "),
    ("/a b", false, "other"),
    ("/a b", true, "other"),
    ("/line\nfeed", false, "other"),
    ("/d", false, "directory /d"),
    ("/d/below", true, "directory /d/below"),
    ("/l", false, "link"),
    ("/l", true, "directory /d"),
    ("/l/below", false, "directory /d/below"),
    ("/dangling", false, "link"),
    ("/dangling", true, "nothing"),
    ("/round", false, "link"),
    ("/round", true, "nothing"),
    ("/none", false, "nothing"),
    ("/a b/below", false, "nothing"),
];

fn path_of(alloc: Global, folder: &str, name: &str) -> Result<TextPath, Memory> {
    let mut text = Text::from_slice(alloc, folder.as_bytes())?;
    text.append(name.as_bytes())?;
    Ok(TextPath::new(text))
}

/// Runs a script in this folder: whether it ended with success.
fn in_folder(alloc: Global, parts: &mut Parts, folder: &str, script: &str) -> Result<bool, Memory> {
    let whole = format!(in alloc; "cd {folder} && {script}")?;
    Ok(run_shell(alloc, parts, whole.as_str())? == Some(ProcessEnd::Success))
}

/// Makes the folder, where nothing stood before.
fn is_made(alloc: Global, parts: &mut Parts, folder: &str, script: &str) -> Result<bool, Memory> {
    let fresh = format!(in alloc; "rm -rf {folder} && mkdir {folder}")?;
    let begun = run_shell(alloc, parts, fresh.as_str())? == Some(ProcessEnd::Success);
    Ok(begun && in_folder(alloc, parts, folder, script)?)
}

/// Takes the folder away.
fn is_removed(alloc: Global, parts: &mut Parts, folder: &str) -> Result<bool, Memory> {
    let script = format!(in alloc; "rm -rf {folder}")?;
    Ok(run_shell(alloc, parts, script.as_str())? == Some(ProcessEnd::Success))
}

/// Whether this stands at a path of the folder.
fn is_kind(
    alloc: Global,
    parts: &mut Parts,
    folder: &str,
    name: &str,
    follow: bool,
    want: &str,
) -> Result<bool, Memory> {
    let path = path_of(alloc, folder, name)?;
    match parts.classify(&path, follow) {
        Ok(EntryKind::Directory(found)) => match want.strip_prefix("directory ") {
            Some(name) => Ok(found == path_of(alloc, folder, name)?),
            None => Ok(false),
        },
        Ok(EntryKind::NonFollowedSymlink) => Ok(want == "link"),
        Ok(EntryKind::Other) => Ok(want == "other"),
        Err(error) => Ok(error == ScanError::NotFound && want == "nothing"),
    }
}

#[test]
fn each_path_is_what_stands_there(rt: HostRuntime) -> Result<(), Fail> {
    let alloc = rt.alloc();
    let mut parts = new_parts(rt)?;
    let folder = format!(in alloc; "/tmp/wx_kinds.{}", std::process::id(rt.process()))?;
    let made = is_made(alloc, &mut parts, folder.as_str(), MAKE);
    expect_yes(&rt, made, "the folder");
    let before = parts.looks();
    for (name, follow, want) in KINDS.iter() {
        let answer = is_kind(alloc, &mut parts, folder.as_str(), name, *follow, want);
        expect_yes(&rt, answer, name);
    }
    assert_eq!(rt; parts.looks().saturating_sub(before), 15);
    assert_eq!(rt; parts.scan_faults(), 0);
    let gone = is_removed(alloc, &mut parts, folder.as_str());
    expect_yes(&rt, gone, "the end");
    drop(parts);
    Ok(())
}

/// The entries of the folder whose names are UTF-8.
const LISTED: &[&str] = &["/a b", "/line\nfeed", "/d", "/l", "/dangling", "/round"];

/// Whether these entries, and no others, are listed.
fn are_listed(alloc: Global, parts: &mut Parts, folder: &str) -> Result<bool, Memory> {
    let path = path_of(alloc, folder, "")?;
    let Ok(entries) = parts.scan(&path) else {
        return Ok(false);
    };
    for name in LISTED.iter() {
        let want = path_of(alloc, folder, name)?;
        if !entries.as_slice().iter().any(|entry| *entry == want) {
            return Ok(false);
        }
    }
    Ok(entries.len() == LISTED.len())
}

/// Whether looks by a path that isn't UTF-8 are faults that are counted.
fn are_faults(alloc: Global, parts: &mut Parts) -> Result<bool, Memory> {
    let bad = TextPath::new(Text::from_slice(alloc, b"/tmp/\xff")?);
    let fault = ScanError::Io(84);
    let before = parts.scan_faults();
    let all = matches!(parts.classify(&bad, false), Err(error) if error == fault)
        && matches!(parts.canonicalize(&bad), Err(error) if error == fault)
        && matches!(parts.scan(&bad), Err(error) if error == fault)
        && matches!(parts.stamp(&bad), Err(error) if error == fault);
    Ok(all && parts.scan_faults().saturating_sub(before) == 4)
}

/// Whether links are resolved.
fn are_resolved(alloc: Global, parts: &mut Parts, folder: &str) -> Result<bool, Memory> {
    let asked = path_of(alloc, folder, "/l/../l/below/.")?;
    let want = path_of(alloc, folder, "/d/below")?;
    let found = matches!(parts.canonicalize(&asked), Ok(path) if path == want);
    let nowhere = path_of(alloc, folder, "/dangling")?;
    let none = matches!(parts.canonicalize(&nowhere), Err(ScanError::NotFound));
    Ok(found && none)
}

#[test]
fn a_folder_is_listed_without_names_that_are_no_text(rt: HostRuntime) -> Result<(), Fail> {
    let alloc = rt.alloc();
    let mut parts = new_parts(rt)?;
    let folder = format!(in alloc; "/tmp/wx_listed.{}", std::process::id(rt.process()))?;
    let made = is_made(alloc, &mut parts, folder.as_str(), MAKE);
    expect_yes(&rt, made, "the folder");
    let listed = are_listed(alloc, &mut parts, folder.as_str());
    expect_yes(&rt, listed, "the entries");
    let resolved = are_resolved(alloc, &mut parts, folder.as_str());
    expect_yes(&rt, resolved, "links");
    assert_eq!(rt; parts.scan_faults(), 0);
    let faults = are_faults(alloc, &mut parts);
    expect_yes(&rt, faults, "a path that is no text");
    let gone = is_removed(alloc, &mut parts, folder.as_str());
    expect_yes(&rt, gone, "the end");
    drop(parts);
    Ok(())
}

/// What is done in a folder with a file `f`, and whether the stamp of the file is another one then.
const CHANGES: &[(&str, bool)] = &[
    ("cat f > /dev/null", false),
    ("chmod 600 f", false),
    (": > g", false),
    ("sleep 0.02; echo two > f", true),
    ("sleep 0.02; echo two > f", true),
    ("sleep 0.02; echo more >> f", true),
    // a file like it takes its place
    ("cp -p f g && mv g f", true),
    ("touch -d '2001-01-01 00:00:00' f", true),
];

/// Whether the stamp of a file is another one behind this script just where it should be.
fn is_stamped(
    alloc: Global,
    parts: &mut Parts,
    folder: &str,
    script: &str,
    changes: bool,
) -> Result<bool, Memory> {
    let path = path_of(alloc, folder, "/f")?;
    let before = parts.stamp(&path);
    let done = in_folder(alloc, parts, folder, script)?;
    let after = parts.stamp(&path);
    match (before, after) {
        (Ok(before), Ok(after)) => Ok(done && (before != after) == changes),
        _ => Ok(false),
    }
}

#[test]
fn a_stamp_changes_where_the_file_does(rt: HostRuntime) -> Result<(), Fail> {
    let alloc = rt.alloc();
    let mut parts = new_parts(rt)?;
    let folder = format!(in alloc; "/tmp/wx_stamps.{}", std::process::id(rt.process()))?;
    let made = is_made(alloc, &mut parts, folder.as_str(), "echo one > f");
    expect_yes(&rt, made, "the folder");
    for (script, changes) in CHANGES.iter() {
        let answer = is_stamped(alloc, &mut parts, folder.as_str(), script, *changes);
        expect_yes(&rt, answer, script);
    }
    let gone = is_removed(alloc, &mut parts, folder.as_str());
    expect_yes(&rt, gone, "the end");
    drop(parts);
    Ok(())
}
