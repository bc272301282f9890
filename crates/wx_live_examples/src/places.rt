// Where a trial has its files.
use std::alloc::{AllocGlobal, Global};
use std::rt::{Env, Files};
use std::{env, fs, io};

/// The folder of a trial, and beside it the file that the command makes longer, and one that is moved into the folder.
#[derive(Drop)]
pub struct Places {
    pub folder: String,
    pub mark: String,
    pub beside: String,
}

/// Makes a folder below the system's temporary folder, in the place of one that an earlier run left, and answers its path without links.
pub fn make_top<R: Env + Files + AllocGlobal>(rt: &R, process: u32) -> io::Result<String> {
    let name = format!(in rt.alloc(); "wx_live_examples.{process}")?;
    let path = env::temp_dir(rt)?.join(rt.alloc(), name.as_str())?;
    drop(fs::remove_dir_all(rt, &path));
    fs::create_dir(rt, &path)?;
    Ok(String::from_str(rt.alloc(), fs::canonicalize(rt, &path)?.as_str())?)
}

/// The paths of a trial.
pub fn places_of(alloc: Global, top: &str, number: usize) -> io::Result<Places> {
    Ok(Places {
        folder: format!(in alloc; "{top}/{number}")?,
        mark: format!(in alloc; "{top}/{number}.mark")?,
        beside: format!(in alloc; "{top}/{number}.beside")?,
    })
}

/// Makes the folder of a trial, with a file.
pub fn make_folder<R: Files + AllocGlobal>(rt: &R, folder: &str) -> io::Result<()> {
    fs::create_dir(rt, folder)?;
    let path = format!(in rt.alloc(); "{folder}/old")?;
    fs::write(rt, path.as_str(), "old\n")
}
