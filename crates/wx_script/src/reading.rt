// A script from its lines.
ghost use Rattle.std.specs.Prelude.{◌≡◌, ◌==◌, ◌&&◌, true, false, [], ◌∷◌, ◌++◌, Some, None, Ok, Err, ℕ, length, IfOk, MatchBool, MatchOption, MatchResult};
ghost use Rattle.wx_machine.specs.Start.{is_absolute};
ghost use Rattle.wx_script.specs.Follows.{IsScript};
ghost use Rattle.wx_script.specs.declared.script.Script.{Script};
ghost use Rattle.wx_script.specs.declared.lines.Line.TheVariants.{Size, ErrorSize, Folder, Path, Send, Turn as Turned, Fault as Failed, Edit};
ghost use Rattle.wx_script.specs.Scripts.{is_early, is_placed, edited_path, accepts, step, start, IsScriptOf, IsFirstBad};

use crate::lines::{Line, line_in};
use crate::script::{Script, ScriptTurn, TreeEdit};
use std::alloc::Global;
use wx_events::{Event, Priority};
use wx_journal::Turn;
use wx_paths::normalize;
use wx_text::{List, Memory};
use wx_watch::{WatchedPath, Watcher};
use wx_words::{TextPath, cut};

/// The number of the first bad line, counted from 1.
#[derive(Clone, Copy, Debug, PartialEq, Eq)]
pub struct BadLine(pub u64);

/// Whether settings can still stand here.
fn is_early(script: &Script) -> bool
    ensures { result ≡ is_early script.now }
{
    script.sends.is_empty() && script.turns.is_empty()
}

/// Sets a value, where settings can still stand here.
fn set_early<T: Drop>(early: bool, field: &mut T, value: T) -> bool
    ensures same { result ≡ early }
    ensures set { early ≡ true → field.new ≡ value }
    ensures kept { early ≡ false → field.new ≡ field.old }
{
    if early {
        *field = value;
    } else {
        drop(value);
    }
    early
}

/// Whether a path is absolute.
fn is_absolute(path: &TextPath) -> bool
    ensures { result ≡ is_absolute path.now }
{
    path.text().as_slice().first() == Some(&47)
}

/// Sets the folder, where that can stand here.
fn set_folder(script: &mut Script, folder: TextPath) -> bool
    ensures { MatchBool result (accepts script.old (Folder folder) ≡ Some script.new) (accepts script.old (Folder folder) ≡ None) }
{
    let fits = is_early(script) && is_absolute(&folder);
    if fits {
        script.folder = Some(folder);
    } else {
        drop(folder);
    }
    fits
}

/// Adds a path that is watched, where it can stand here.
fn add_path(script: &mut Script, path: WatchedPath) -> Result<bool, Memory>
    ensures { IfOk result (λ fits. MatchBool fits (accepts script.old (Path path) ≡ Some script.new) (accepts script.old (Path path) ≡ None)) }
{
    let fits = is_early(script);
    if fits {
        script.paths.push(path)?;
    } else {
        drop(path);
    }
    Ok(fits)
}

/// Sets the size, where that can stand here.
fn set_size(script: &mut Script, size: u32) -> bool
    ensures { MatchBool result (accepts script.old (Size size) ≡ Some script.new) (accepts script.old (Size size) ≡ None) }
{
    let fits = is_early(script) && 1 <= size && size <= 65_536;
    if fits {
        script.size = size;
    }
    fits
}

/// Sets the size of the channel of errors, where that can stand here.
fn set_error_size(script: &mut Script, size: u32) -> bool
    ensures { MatchBool result (accepts script.old (ErrorSize size) ≡ Some script.new) (accepts script.old (ErrorSize size) ≡ None) }
{
    let fits = is_early(script) && 1 <= size && size <= 65_536;
    if fits {
        script.error_size = size;
    }
    fits
}

/// Adds an event that is sent before the run, where it can stand here.
fn add_send(script: &mut Script, event: Event, priority: Priority) -> Result<bool, Memory>
    ensures { IfOk result (λ fits. MatchBool fits (accepts script.old (Send event priority) ≡ Some script.new) (accepts script.old (Send event priority) ≡ None)) }
{
    let fits = script.turns.is_empty() && (script.sends.len() as u64) < script.size as u64;
    if fits {
        script.sends.push((event, priority))?;
    }
    Ok(fits)
}

/// Adds a turn, where it can stand here.
fn add_turn(alloc: Global, script: &mut Script, turn: Turn) -> Result<bool, Memory>
    ensures { IfOk result (λ fits. MatchBool fits (accepts script.old (Turned turn) ≡ Some script.new) (accepts script.old (Turned turn) ≡ None)) }
{
    let fits = script.last <= turn.at;
    if fits {
        script.last = turn.at;
        script.give(alloc, ScriptTurn::Turn(turn))?;
    }
    Ok(fits)
}

/// Adds a fault in the place of a turn.
fn add_fault(alloc: Global, script: &mut Script, code: u32) -> Result<bool, Memory>
    ensures { IfOk result (λ fits. (fits ≡ true) × (accepts script.old (Failed code) ≡ Some script.new)) }
{
    script.give(alloc, ScriptTurn::Fault(code))?;
    Ok(true)
}

/// Whether a path is absolute and as `normalize` makes it.
fn is_placed(alloc: Global, path: &TextPath) -> Result<bool, Memory>
    ensures { IfOk result (λ placed. placed ≡ is_placed path.now) }
{
    let normal = normalize(alloc, path)?;
    Ok(is_absolute(path) && normal == *path)
}

/// The path that is edited.
fn edited_path(edit: &TreeEdit) -> &TextPath
    ensures { result.now ≡ edited_path edit.now }
{
    match edit {
        TreeEdit::Node(path, _) => path,
        TreeEdit::Gone(path) => path,
    }
}

/// Adds a change of the tree, where its path is one.
fn add_edit(alloc: Global, script: &mut Script, edit: TreeEdit) -> Result<bool, Memory>
    ensures { IfOk result (λ fits. MatchBool fits (accepts script.old (Edit edit) ≡ Some script.new) (accepts script.old (Edit edit) ≡ None)) }
{
    let fits = is_placed(alloc, edited_path(&edit))?;
    if fits {
        script.pending.push(edit)?;
    } else {
        drop(edit);
    }
    Ok(fits)
}

/// Adds a value at the end of a list, where it can always stand.
fn added<T: Drop>(list: &mut List<T>, value: T) -> Result<bool, Memory>
    ensures { IfOk result (λ fits. (fits ≡ true) × (list.new ≡ list.old ++ value ∷ [])) }
{
    list.push(value)?;
    Ok(true)
}

/// Adds what a line says, where it can stand here.
fn add(alloc: Global, script: &mut Script, said: Line) -> Result<bool, Memory>
    ensures { IfOk result (λ fits. MatchBool fits (accepts script.old said ≡ Some script.new) (accepts script.old said ≡ None)) }
{
    match said {
        Line::Nothing => Ok(true),
        Line::Throttle(ns) => Ok(set_early(is_early(script), &mut script.throttle, ns)),
        Line::Size(size) => Ok(set_size(script, size)),
        Line::ErrorSize(size) => Ok(set_error_size(script, size)),
        Line::Keyboard(on) => Ok(set_early(is_early(script), &mut script.keyboard, on)),
        Line::Follow(on) => Ok(set_early(is_early(script), &mut script.follow, on)),
        Line::JobSignals(on) => Ok(set_early(is_early(script), &mut script.job_signals, on)),
        Line::Watcher(watcher) => Ok(set_early(is_early(script), &mut script.watcher, watcher)),
        Line::Folder(folder) => Ok(set_folder(script, folder)),
        Line::Path(path) => add_path(script, path),
        Line::Send(event, priority) => add_send(script, event, priority),
        Line::Turn(turn) => add_turn(alloc, script, turn),
        Line::Fault(code) => add_fault(alloc, script, code),
        Line::Acts(acts) => added(&mut script.actions, acts),
        Line::Filter(answer) => added(&mut script.filters, answer),
        Line::Dir(answer) => added(&mut script.dirs, answer),
        Line::Ignore(pattern) => added(&mut script.ignores, pattern),
        Line::Wishes(wish) => added(&mut script.errors, wish),
        Line::Poll(ready) => added(&mut script.polls, ready),
        Line::Hook(words) => added(&mut script.hooks, words),
        Line::Spawn(answer) => added(&mut script.answers.spawns, answer),
        Line::Signal(answer) => added(&mut script.answers.signals, answer),
        Line::Kill(answer) => added(&mut script.answers.kills, answer),
        Line::Wait(answer) => added(&mut script.answers.waits, answer),
        Line::Edit(edit) => add_edit(alloc, script, edit),
        Line::Make(answer) => added(&mut script.answers.makes, answer),
        Line::FailScan(failing) => added(&mut script.failing_looks, failing),
        Line::FailWatch(failing) => added(&mut script.failing_watches, failing),
    }
}

/// Adds a line, where it can stand here.
fn add_line(alloc: Global, script: &mut Script, line: &[u8]) -> Result<bool, Memory>
    ensures { IfOk result (λ fits. MatchBool fits (step script.old line.now ≡ Some script.new) (step script.old line.now ≡ None)) }
{
    match line_in(alloc, line)? {
        None => Ok(false),
        Some(said) => add(alloc, script, said),
    }
}

/// Adds the lines one by one to the script of none, and answers the first bad one.
fn scan_into(alloc: Global, script: &mut Script, bytes: &[u8]) -> Result<Option<BadLine>, Memory>
    requires { script.old ≡ start }
    ensures { IfOk result (λ bad. MatchOption bad (IsScriptOf bytes.now script.new) (λ b. IsFirstBad bytes.now b.0)) }
{
    let mut rest = bytes;
    let mut number = 1;
    while let Some((line, after)) = cut(rest, 10) {
        if !add_line(alloc, script, line)? {
            return Ok(Some(BadLine(number)));
        }
        rest = after;
        number += 1;
    }
    if rest.is_empty() {
        Ok(None)
    } else {
        Ok(Some(BadLine(number)))
    }
}

/// The script, where no line was bad.
fn unless_bad<T: Drop>(script: T, bad: Option<BadLine>) -> Result<T, BadLine>
    ensures { MatchOption bad (result ≡ Ok script) (λ b. result ≡ Err b) }
{
    match bad {
        None => Ok(script),
        Some(bad) => Err(bad),
    }
}

/// Reads the lines one by one.
fn scan(alloc: Global, bytes: &[u8]) -> Result<Result<Script, BadLine>, Memory>
    ensures { IfOk result (λ r. MatchResult r (λ s. IsScriptOf bytes.now s) (λ bad. IsFirstBad bytes.now bad.0)) }
{
    let mut script = Script::new(alloc);
    match scan_into(alloc, &mut script, bytes) {
        Ok(bad) => Ok(unless_bad(script, bad)),
        Err(memory) => {
            drop(script);
            Err(memory)
        }
    }
}

/// The script that the bytes are, or its first bad line.
///
/// `Memory` comes where there was no memory for the script.
#[tactic(auto, using(crate::proofs::ScriptLaws::lawful))]
pub fn read_script(alloc: Global, bytes: &[u8]) -> Result<Result<Script, BadLine>, Memory>
    ensures exact { IfOk result (λ r. MatchResult r (λ s. IsScriptOf bytes.now s) (λ bad. IsFirstBad bytes.now bad.0)) }
    ensures lawful { IfOk result (λ r. IfOk r IsScript) }
    ensures only { (s : Script) → IsScriptOf bytes.now s → IfOk result (λ r. r ≡ Ok s) }
    ensures only_bad { (n : ℕ) → IsFirstBad bytes.now n → IfOk result (λ r. r ≡ Err (record { 0 = n })) }
{
    scan(alloc, bytes)
}
