//! Replays each script in the folder that it runs in, and compares what is written with the journal beside the script. So it does
//! with the cases of files that have many.
#![tactic(auto)]

mod cases;
mod comparing;

use cases::{Case, read_cases};
use comparing::{first_other_line, part_of, replayed};
use std::fs;
use std::io::{self, Error, ErrorKind};
use std::process::ExitCode;
use wx_text::Memory;

/// The error that stands for want of memory.
fn no_memory(_want: Memory) -> Error {
    Error::from(ErrorKind::OutOfMemory)
}

/// The names of the files in the folder, in order.
fn names(rt: &HostRuntime) -> io::Result<Vec<String>> {
    let mut names = Vec::new(rt.alloc());
    for entry in fs::read_dir(rt, ".")? {
        names.push(String::from_str(rt.alloc(), entry?.file_name())?)?;
    }
    names.sort()?;
    Ok(names)
}

/// The name with this stem and ending.
fn name_of(rt: &HostRuntime, stem: &str, ending: &str) -> io::Result<String> {
    let mut name = String::from_str(rt.alloc(), stem)?;
    name.push_str(ending)?;
    Ok(name)
}

/// Replays the script of this stem, prints what came of it in one line, and answers whether its journal is the one that
/// stands beside it.
fn compare(rt: &HostRuntime, stem: &str) -> io::Result<bool> {
    let script = fs::read(rt, name_of(rt, stem, ".txt")?.as_str())?;
    let (sink, status) = replayed(rt.alloc(), script.as_slice()).map_err(no_memory)?;
    let written = sink.text().as_slice();
    let Ok(journal) = fs::read(rt, name_of(rt, stem, ".journal")?.as_str()) else {
        println!(rt; "{stem}: there is no journal to compare with")?;
        return Ok(false);
    };
    let same = journal.as_slice() == written;
    if same {
        println!(rt; "{stem}: as it should be, with status {}", status.code())?;
    } else {
        let line = first_other_line(journal.as_slice(), written);
        println!(rt; "{stem}: another line {line} than in its journal")?;
    }
    Ok(same)
}

/// Replays this case of this file, and answers whether what is written and how the run ends is as it should be. If not it
/// prints what isn't, in one line.
fn compare_case(rt: &HostRuntime, name: &str, case: &Case) -> io::Result<bool> {
    let shows = case.shows.as_str();
    let (sink, status) = replayed(rt.alloc(), case.script.as_bytes()).map_err(no_memory)?;
    let part = part_of(rt.alloc(), case, sink.text().as_slice())?;
    let wanted = case.wanted.as_bytes();
    if part.as_slice() != wanted {
        let line = first_other_line(wanted, part.as_slice());
        println!(rt; "{name}: another line {line} than in `{shows}`")?;
        return Ok(false);
    }
    if status != case.status {
        println!(rt;
            "{name}: status {} in place of {} in `{shows}`",
            status.code(),
            case.status.code()
        )?;
        return Ok(false);
    }
    Ok(true)
}

/// Replays the cases of this file, prints how many are as they should be, and answers whether all are.
fn compare_cases(rt: &HostRuntime, name: &str) -> io::Result<bool> {
    let text = fs::read_to_string(rt, name)?;
    let cases = match read_cases(rt.alloc(), text.as_str())? {
        Ok(cases) => cases,
        Err(line) => {
            println!(rt; "{name}: it has another form than a file of cases, from line {line} on")?;
            return Ok(false);
        }
    };
    let mut others = 0u64;
    for case in &cases {
        if !compare_case(rt, name, case)? {
            others = others.saturating_add(1);
        }
    }
    let all = cases.len() as u64;
    println!(rt;
        "{name}: {} of {all} cases are as they should be",
        all.saturating_sub(others)
    )?;
    Ok(others == 0)
}

/// Compares each script and each case, and answers whether all are as they should be. Each journal has its script.
fn compare_all(rt: &HostRuntime) -> io::Result<bool> {
    let names = names(rt)?;
    let mut same = true;
    for name in &names {
        if let Some(stem) = name.strip_suffix(".txt") {
            same = compare(rt, stem)? && same;
        } else if name.ends_with(".cases") {
            same = compare_cases(rt, name.as_str())? && same;
        } else {
            let stem = name.strip_suffix(".journal").unwrap_or("");
            if !names.contains(&name_of(rt, stem, ".txt")?) {
                println!(rt; "{name}: there is no script for it")?;
                same = false;
            }
        }
    }
    Ok(same)
}

fn main(rt: HostRuntime) -> io::Result<ExitCode> {
    let same = compare_all(&rt)?;
    Ok(ExitCode::from(if same { 0 } else { 1 }))
}
