// What is written for a script, compared with what is wanted.
use crate::cases::{Case, Part};
use std::alloc::Global;
use std::io;
use wx_bytes::{MemSink, MemSource};
use wx_replay::{Status, replay};
use wx_text::Memory;

/// What is written for a script, and how its run ends.
pub fn replayed(alloc: Global, script: &[u8]) -> Result<(MemSink, Status), Memory> {
    let mut source = MemSource::new(alloc, script)?;
    let mut sink = MemSink::new(alloc);
    let status = replay(alloc, &mut source, &mut sink);
    Ok((sink, status))
}

/// The number of the first line in which two texts differ, counted from 1.
pub fn first_other_line(text: &[u8], other: &[u8]) -> u64 {
    let mut line = 1u64;
    for (a, b) in text.iter().zip(other.iter()) {
        if a != b {
            return line;
        }
        if *a == b'\n' {
            line = line.saturating_add(1);
        }
    }
    line
}

/// Whether this line is one of these.
fn is_among(line: &[u8], lines: &[String]) -> bool {
    for one in lines {
        if one.as_bytes() == line {
            return true;
        }
    }
    false
}

/// Of so many lines that are written, how many stand before the part that is wanted.
fn lines_before(case: &Case, written: usize) -> usize {
    match case.part {
        Some(Part::Journal) => 1,
        Some(Part::End) => written.saturating_sub(case.wanted.split('\n').count()),
        _ => 0,
    }
}

/// The part of what is written that the case wants, without the lines that are left out.
pub fn part_of(alloc: Global, case: &Case, written: &[u8]) -> io::Result<Vec<u8>> {
    let mut lines = Vec::new(alloc);
    // behind the last line feed there is an empty line
    for line in written.split(|byte| *byte == b'\n') {
        if !is_among(line, case.left_out.as_slice()) {
            lines.push(line)?;
        }
    }
    let mut part = Vec::new(alloc);
    for line in lines.iter().skip(lines_before(case, lines.len())) {
        part.extend_from_slice(line)?;
        part.push(b'\n')?;
    }
    part.pop();
    Ok(part)
}
