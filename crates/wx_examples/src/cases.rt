// Files of cases: each case is a script, with what is written for it and how its run ends.
use std::alloc::Global;
use std::io;
use wx_replay::Status;

/// Which part of what is written stands in a case.
#[derive(Clone, Copy, Debug, PartialEq, Eq)]
pub enum Part {
    /// All of it.
    Text,
    /// What comes behind the first line.
    Journal,
    /// Its last lines.
    End,
}

/// A script, and what is to come of it. While a file is read, what comes behind the line that it was read to is absent.
#[derive(Drop)]
pub struct Case {
    /// What the case shows, in words.
    pub shows: String,
    /// How the run ends.
    pub status: Status,
    /// The lines of the script.
    pub script: String,
    /// Lines of what is written that aren't compared.
    pub left_out: Vec<String>,
    /// Which part of what is written is wanted.
    pub part: Option<Part>,
    /// This part.
    pub wanted: String,
}

/// Appends a line.
fn push_line(text: &mut String, line: &str) -> io::Result<()> {
    text.push_str(line)?;
    text.push('\n')?;
    Ok(())
}

/// Whether this line says nothing, outside a script.
fn is_silent(line: &str) -> bool {
    line.is_empty() || line.starts_with('#')
}

/// The status of this name.
fn status_of(name: &str) -> Option<Status> {
    match name {
        "done" => Some(Status::Done),
        "critical" => Some(Status::Critical),
        "noscript" => Some(Status::NoScript),
        "memory" => Some(Status::Memory),
        _ => None,
    }
}

/// The part of this name.
fn part_of(name: &str) -> Option<Part> {
    match name {
        "text" => Some(Part::Text),
        "journal" => Some(Part::Journal),
        "end" => Some(Part::End),
        _ => None,
    }
}

impl Case {
    /// Whether all of it was read. Nothing is an end of every text, so some lines are wanted but where the whole text is.
    fn is_whole(&self) -> bool {
        match self.part {
            Some(Part::Text) => true,
            Some(_) => !self.wanted.is_empty(),
            None => false,
        }
    }

    /// Takes a line that begins with `--`, which stand behind the script. Answers whether it has a form.
    fn divide(&mut self, alloc: Global, line: &str) -> io::Result<bool> {
        let Some(words) = line.strip_prefix("-- ") else {
            return Ok(false);
        };
        if let Some(left_out) = words.strip_prefix("without ") {
            self.left_out.push(String::from_str(alloc, left_out)?)?;
            return Ok(true);
        }
        self.part = part_of(words);
        Ok(self.part.is_some())
    }

    /// Takes the next line of its file, and answers whether such a line may stand there.
    fn take(&mut self, alloc: Global, line: &str) -> io::Result<bool> {
        let divides = line.starts_with("--");
        match self.part {
            None if divides => self.divide(alloc, line),
            None if self.left_out.is_empty() => {
                push_line(&mut self.script, line)?;
                Ok(true)
            }
            Some(_) if !divides && !is_silent(line) => {
                push_line(&mut self.wanted, line)?;
                Ok(true)
            }
            _ => Ok(is_silent(line)),
        }
    }
}

/// Begins another case by its heading, and answers whether one may begin there.
fn begin(alloc: Global, cases: &mut Vec<Case>, heading: &str) -> io::Result<bool> {
    if let Some(case) = cases.last() {
        if !case.is_whole() {
            return Ok(false);
        }
    }
    let Some((name, shows)) = heading.split_once(": ") else {
        return Ok(false);
    };
    let Some(status) = status_of(name) else {
        return Ok(false);
    };
    cases.push(Case {
        shows: String::from_str(alloc, shows)?,
        status,
        script: String::new(alloc),
        left_out: Vec::new(alloc),
        part: None,
        wanted: String::new(alloc),
    })?;
    Ok(true)
}

/// Takes the next line of a file behind these cases, and answers whether such a line may stand there.
fn take(alloc: Global, cases: &mut Vec<Case>, line: &str) -> io::Result<bool> {
    if let Some(heading) = line.strip_prefix("== ") {
        return begin(alloc, cases, heading);
    }
    match cases.last_mut() {
        Some(case) => case.take(alloc, line),
        None => Ok(is_silent(line)),
    }
}

/// The cases of a file with this text, at least one. `Err` has the number of the first line that may not stand where it
/// does, or of the one behind the last where the file breaks off.
pub fn read_cases(alloc: Global, text: &str) -> io::Result<Result<Vec<Case>, u64>> {
    let mut cases = Vec::new(alloc);
    let mut number = 0u64;
    for line in text.split('\n') {
        number = number.saturating_add(1);
        if !take(alloc, &mut cases, line)? {
            return Ok(Err(number));
        }
    }
    let is_whole = match cases.last() {
        Some(case) => case.is_whole(),
        None => false,
    };
    Ok(if is_whole { Ok(cases) } else { Err(number) })
}
