// Looks at the files of the system.
use crate::codes::{NO_TEXT, code_of};
use std::alloc::{AllocGlobal, Global};
use std::fs::{self, Metadata};
use std::io::{Error, ErrorKind};
use std::os::unix::fs::MetadataExt;
use std::rt::Files;
use wx_scan::{EntryKind, ScanError};
use wx_text::{List, Text};
use wx_words::TextPath;

/// The path as the system takes it, which is a fault where it isn't UTF-8.
fn name_of(path: &TextPath) -> Result<&str, ScanError> {
    match std::str::from_utf8(path.text().as_slice()) {
        Ok(name) => Ok(name),
        Err(_) => Err(ScanError::Io(NO_TEXT)),
    }
}

fn path_of(alloc: Global, name: &str) -> Result<TextPath, ScanError> {
    Ok(TextPath::new(Text::from_slice(alloc, name.as_bytes())?))
}

/// Why a look failed. Behind what is no directory nothing is there, and neither behind links without end.
fn scan_error(error: &Error) -> ScanError {
    match error.kind() {
        ErrorKind::NotFound | ErrorKind::NotADirectory | ErrorKind::FilesystemLoop => {
            ScanError::NotFound
        }
        ErrorKind::OutOfMemory => ScanError::Memory,
        _ => ScanError::Io(code_of(error)),
    }
}

fn metadata<R: Files>(rt: &R, path: &TextPath, follow: bool) -> Result<Metadata, ScanError> {
    let name = name_of(path)?;
    let found = if follow {
        fs::metadata(rt, name)
    } else {
        fs::symlink_metadata(rt, name)
    };
    match found {
        Ok(data) => Ok(data),
        Err(error) => Err(scan_error(&error)),
    }
}

/// What stands at a path.
pub fn kind_at<R: Files + AllocGlobal>(
    rt: &R,
    path: &TextPath,
    follow: bool,
) -> Result<EntryKind, ScanError> {
    let file_type = metadata(rt, path, follow)?.file_type();
    if file_type.is_dir() {
        return Ok(EntryKind::Directory(canonical_at(rt, path)?));
    }
    if file_type.is_symlink() {
        return Ok(EntryKind::NonFollowedSymlink);
    }
    Ok(EntryKind::Other)
}

/// The same path without links.
pub fn canonical_at<R: Files + AllocGlobal>(
    rt: &R,
    path: &TextPath,
) -> Result<TextPath, ScanError> {
    match fs::canonicalize(rt, name_of(path)?) {
        Ok(found) => path_of(rt.alloc(), found.as_str()),
        Err(error) => Err(scan_error(&error)),
    }
}

/// The entries of a directory, but for those whose name isn't UTF-8.
pub fn entries_at<R: Files + AllocGlobal + Clone + Drop>(
    rt: &R,
    path: &TextPath,
) -> Result<List<TextPath>, ScanError> {
    let entries = match fs::read_dir(rt, name_of(path)?) {
        Ok(entries) => entries,
        Err(error) => return Err(scan_error(&error)),
    };
    let mut paths = List::new(rt.alloc());
    for entry in entries {
        match entry {
            Ok(entry) => paths.push(path_of(rt.alloc(), entry.path().as_str())?)?,
            Err(error) if error.kind() == ErrorKind::InvalidFilename => {}
            Err(error) => return Err(scan_error(&error)),
        }
    }
    Ok(paths)
}

/// The stamp of a file: by when it was modified, how long it is, and which file it is.
pub fn stamp_at<R: Files>(rt: &R, path: &TextPath) -> Result<u64, ScanError> {
    let data = metadata(rt, path, true)?;
    let modified = stamped(
        data.mtime().cast_unsigned(),
        data.mtime_nsec().cast_unsigned(),
    );
    Ok(stamped(stamped(modified, data.len()), data.ino()))
}

/// A stamp in which this number counts too. With any other number it is another.
fn stamped(stamp: u64, number: u64) -> u64 {
    (stamp ^ number).wrapping_mul(0x0000_0100_0000_01b3)
}
