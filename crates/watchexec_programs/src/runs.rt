// What the programs share: a page that a handler writes on, and the run of an engine in a world that follows a script.
ghost use Rattle.std.specs.Prelude.{◌≡◌, ◌∷◌, [], IfOk};
ghost use Rattle.wx_script.specs.Follows.{IsScript};

use std::alloc::Global;
use std::cell::RefCell;
use std::rc::Rc;
use std::test::Fail;
use watchexec::Watchexec;
use wx_engine::{ScriptHooks, ScriptWorld};
use wx_hooks::{Hooks, World};
use wx_journal::Journal;
use wx_print::print_journal;
use wx_script::{Script, read_script};
use wx_text::{Copies, Memory, Text};
use wx_words::TextPath;

/// A page that its copies share. Whoever keeps one reads what was written on another.
#[derive(Drop)]
pub(crate) struct Page {
    alloc: Global,
    text: Rc<RefCell<Text>>,
}

impl Page {
    /// An empty page.
    pub(crate) fn new(alloc: Global) -> Result<Page, Memory> {
        let text = Rc::new(alloc, RefCell::new(Text::new(alloc)))?;
        Ok(Page { alloc, text })
    }

    /// The same page once more.
    pub(crate) fn share(&self) -> Result<Page, Memory> {
        let text = Rc::clone(&self.text)?;
        let alloc = self.alloc;
        Ok(Page { alloc, text })
    }

    /// Writes a line, where there is memory for it.
    pub(crate) fn print(&self, line: &[u8]) {
        if let Ok(mut text) = self.text.try_borrow_mut() {
            let _written = text.append(line);
            let _ended = text.push(10);
        }
    }

    /// What was written so far.
    pub(crate) fn read(&self) -> Result<Text, Fail> {
        match self.text.try_borrow() {
            Ok(text) => Ok(text.copy(self.alloc)?),
            Err(_) => Err(Fail::new("the page is lent")),
        }
    }
}

/// The topmost folder.
pub(crate) fn folder(alloc: Global) -> Result<TextPath, Memory>
    ensures { IfOk result (λ folder. folder ≡ 47 ∷ []) }
{
    Ok(TextPath::new(Text::from_slice(alloc, b"/")?))
}

/// The script of these lines.
fn script(alloc: Global, lines: &[u8]) -> Result<Script, Fail>
    ensures { IfOk result IsScript }
{
    match read_script(alloc, lines)? {
        Ok(script) => Ok(script),
        Err(_) => Err(Fail::new("no script")),
    }
}

/// A world that follows these lines.
pub(crate) fn world(alloc: Global, lines: &[u8]) -> Result<ScriptWorld, Fail> {
    let script = script(alloc, lines)?;
    let world = ScriptWorld::new(alloc, &script);
    drop(script);
    Ok(world?)
}

/// Hooks that follow these lines.
pub(crate) fn hooks(alloc: Global, lines: &[u8]) -> Result<ScriptHooks, Fail> {
    let script = script(alloc, lines)?;
    let hooks = ScriptHooks::new(alloc, &script);
    drop(script);
    Ok(hooks?)
}

/// The journal of a run, as text.
fn run<W: World, H: Hooks>(
    alloc: Global,
    engine: Watchexec,
    world: &mut W,
    hooks: &mut H,
) -> Result<Text, Memory> {
    let mut journal = Journal::new(alloc)?;
    let answer = engine.main(alloc, world, hooks, &mut journal);
    let text = print_journal(alloc, &journal, &answer);
    drop(answer);
    drop(journal);
    text
}

/// The journal of a run of this engine with these hooks, in a world that follows these lines.
pub(crate) fn journal_of<H: Hooks>(
    alloc: Global,
    engine: Watchexec,
    hooks: &mut H,
    lines: &[u8],
) -> Result<Text, Fail> {
    let mut world = world(alloc, lines)?;
    let text = run(alloc, engine, &mut world, hooks);
    drop(world);
    Ok(text?)
}
