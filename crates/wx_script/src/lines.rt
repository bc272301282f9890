// What one line of a script says.
ghost use Rattle.std.specs.Prelude.{◌≡◌, if◌then◌else◌, None, IfOk};
ghost use Rattle.wx_words.specs.Line.{Reads};
ghost use Rattle.wx_words.specs.Combine.{read_as};
ghost use Rattle.wx_words.specs.Parts.{list_of, text};
ghost use Rattle.wx_script.specs.declared.lines.Line.TheVariants.{Hook};
ghost use Rattle.wx_script.specs.Lines.{can_bring, is_scripted, if_scripted, read_set, read_node, read_fail, read_form, said_in, line_in};

use crate::script::{FailingCall, ScriptAct, TreeEdit};
use std::alloc::Global;
use wx_error::RuntimeError;
use wx_events::{Event, Priority, ProcessEnd};
use wx_journal::{HostFault, Turn, TurnKind, Wish, read_backed, read_ready, read_verdict};
use wx_keys::fits_read;
use wx_patterns::is_pattern;
use wx_text::{List, Memory, Text};
use wx_tree::Node;
use wx_watch::{NotifyFault, WatchedPath, Watcher};
use wx_words::{Spelled, TextPath, Words, read_result, read_rows, read_to_end};

/// What a line of a script says.
#[derive(Drop)]
pub enum Line {
    /// Nothing, as an empty line and one that begins with `#`.
    Nothing,
    /// How long events are collected, in nanoseconds.
    Throttle(u64),
    /// How many events the queue holds.
    Size(u32),
    /// The size of the channel of errors in the settings.
    ErrorSize(u32),
    /// Whether keys are heard.
    Keyboard(bool),
    /// Whether links are followed.
    Follow(bool),
    /// Whether a stop and a continue of the terminal are heard.
    JobSignals(bool),
    /// How files are watched.
    Watcher(Watcher),
    /// The folder of the engine.
    Folder(TextPath),
    /// One path more is watched.
    Path(WatchedPath),
    /// An event is sent before the run.
    Send(Event, Priority),
    /// The world gives a turn.
    Turn(Turn),
    /// The world has no turn to give, and this is the code of its fault.
    Fault(u32),
    /// The action handler asks for this in one call.
    Acts(List<ScriptAct>),
    /// The filter answers this about an event.
    Filter(Result<bool, RuntimeError>),
    /// The filter answers this about a directory.
    Dir(Result<bool, RuntimeError>),
    /// The filter ignores what this pattern says, where no answer is left.
    Ignore(Text),
    /// The error handler wishes this.
    Wishes(Wish),
    /// Whether a begun function is ready in one poll.
    Poll(bool),
    /// A spawn hook appends these words in one call.
    Hook(List<Text>),
    /// The host answers this to a spawn.
    Spawn(Result<(), HostFault>),
    /// The host answers this to a signal.
    Signal(Result<(), HostFault>),
    /// The host answers this to a kill.
    Kill(Result<(), HostFault>),
    /// The host answers this to a wait.
    Wait(Result<ProcessEnd, HostFault>),
    /// The tree of files is changed.
    Edit(TreeEdit),
    /// The maker of backends answers this.
    Make(Result<(), NotifyFault>),
    /// A call on the scanner fails.
    FailScan(FailingCall),
    /// A call on each backend fails.
    FailWatch(FailingCall),
}

/// Whether a script can say that a turn brings this: all but a last turn, and but more bytes than a read from the keyboard takes.
fn can_bring(kind: &TurnKind) -> bool
    ensures { result ≡ can_bring kind.now }
{
    match kind {
        TurnKind::Last => false,
        TurnKind::Keys(bytes) => fits_read(bytes.as_slice()),
        _ => true,
    }
}

/// Whether a script can say this.
fn is_scripted(said: &Line) -> bool
    ensures { result ≡ is_scripted said.now }
{
    match said {
        Line::Turn(turn) => can_bring(&turn.kind),
        Line::Ignore(pattern) => is_pattern(pattern.as_slice()),
        _ => true,
    }
}

/// Takes a setting, or loses the place.
#[tactic(auto, unfolding(crate::specs::Lines::read_set))]
fn take_set(alloc: Global, line: &mut Words) -> Result<Option<Line>, Memory>
    ensures { IfOk result (λ said. Reads line.new said (read_set line.old)) }
{
    read_rows!(alloc, line;
        b"throttle" (throttle) => Line::Throttle(throttle),
        b"size" (size) => Line::Size(size),
        b"errors" (size) => Line::ErrorSize(size),
        b"keyboard" (on) => Line::Keyboard(on),
        b"follow" (on) => Line::Follow(on),
        b"jobsignals" (on) => Line::JobSignals(on),
        b"watcher" (watcher) => Line::Watcher(watcher),
        b"cwd" (folder) => Line::Folder(folder),
        b"path" (path) => Line::Path(path),
    )
}

/// Takes the words that a spawn hook appends, or loses the place.
fn take_words(alloc: Global, line: &mut Words) -> Result<Option<Line>, Memory>
    ensures { IfOk result (λ said. Reads line.new said (read_as Hook (list_of text).read line.old)) }
{
    match List::read(alloc, line)? {
        Some(words) => Ok(Some(Line::Hook(words))),
        None => Ok(None),
    }
}

/// Takes what stands at a path of the tree, or loses the place.
#[tactic(auto, unfolding(crate::specs::Lines::read_node))]
fn take_node(alloc: Global, line: &mut Words) -> Result<Option<Line>, Memory>
    ensures { IfOk result (λ said. Reads line.new said (read_node line.old)) }
{
    read_rows!(alloc, line;
        b"dir" (path) => Line::Edit(TreeEdit::Node(path, Node::Dir)),
        b"file" (path, stamp) => Line::Edit(TreeEdit::Node(path, Node::File(stamp))),
        b"link" (path, target) => Line::Edit(TreeEdit::Node(path, Node::Link(target))),
    )
}

/// Takes which call is to fail, or loses the place.
#[tactic(auto, unfolding(crate::specs::Lines::read_fail))]
fn take_fail(alloc: Global, line: &mut Words) -> Result<Option<Line>, Memory>
    ensures { IfOk result (λ said. Reads line.new said (read_fail line.old)) }
{
    read_rows!(alloc, line;
        b"scan" (call, code) => Line::FailScan(FailingCall { call, code }),
        b"watch" (call, code) => Line::FailWatch(FailingCall { call, code }),
    )
}

/// Takes what the first word calls for, or loses the place.
#[tactic(auto, using(crate::specs::Wishes::script_act_has_word), unfolding(crate::specs::Lines::read_form))]
fn take_form(alloc: Global, line: &mut Words) -> Result<Option<Line>, Memory>
    ensures { IfOk result (λ said. Reads line.new said (read_form line.old)) }
{
    read_rows!(alloc, line;
        b"action" (acts = read_to_end) => Line::Acts(acts),
        b"set" (said = take_set) => said,
        b"send" (priority, event) => Line::Send(event, priority),
        b"turn" (turn) => Line::Turn(turn),
        b"turnfault" (code) => Line::Fault(code),
        b"filter" (answer = read_verdict) => Line::Filter(answer),
        b"dir" (answer = read_verdict) => Line::Dir(answer),
        b"ignore" (pattern) => Line::Ignore(pattern),
        b"error" (wish) => Line::Wishes(wish),
        b"poll" (ready = read_ready) => Line::Poll(ready),
        b"hook" (said = take_words) => said,
        b"spawn" (answer = read_result) => Line::Spawn(answer),
        b"signal" (answer = read_result) => Line::Signal(answer),
        b"kill" (answer = read_result) => Line::Kill(answer),
        b"wait" (answer = read_result) => Line::Wait(answer),
        b"node" (said = take_node) => said,
        b"gone" (path) => Line::Edit(TreeEdit::Gone(path)),
        b"make" (answer = read_backed) => Line::Make(answer),
        b"fail" (said = take_fail) => said,
    )
}

/// What is said, where it was said to the end of the line and a script can say it.
fn if_scripted(is_done: bool, said: Line) -> Option<Line>
    ensures { result ≡ (if is_done then if_scripted said else None) }
{
    if is_done && is_scripted(&said) {
        return Some(said);
    }
    drop(said);
    None
}

/// What the words of a line say.
fn said_by(alloc: Global, words: &mut Words) -> Result<Option<Line>, Memory>
    ensures { IfOk result (λ said. said ≡ said_in words.old) }
{
    match take_form(alloc, words)? {
        None => Ok(None),
        Some(said) => Ok(if_scripted(words.is_done(), said)),
    }
}

/// What a line says, without its line feed.
pub fn line_in(alloc: Global, line: &[u8]) -> Result<Option<Line>, Memory>
    ensures { IfOk result (λ said. said ≡ line_in line.now) }
{
    if line.is_empty() || line[0] == 35 {
        return Ok(Some(Line::Nothing));
    }
    said_by(alloc, &mut Words::new(line))
}
