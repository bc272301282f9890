// Worlds and hooks that follow the script of some lines.
ghost use Rattle.std.specs.Prelude.{◌≡◌, ◌∷◌, [], IfOk};
ghost use Rattle.wx_script.specs.Follows.{IsScript};

use std::alloc::Global;
use std::test::Fail;
use wx_follow::{ScriptHooks, ScriptWorld};
use wx_script::{Script, read_script};
use wx_text::{Memory, Text};
use wx_words::TextPath;

/// The script of these lines.
fn script_of(alloc: Global, lines: &[u8]) -> Result<Script, Fail>
    ensures { IfOk result IsScript }
{
    match read_script(alloc, lines)? {
        Ok(script) => Ok(script),
        Err(_) => Err(Fail::new("no script")),
    }
}

/// The topmost folder.
pub fn root(alloc: Global) -> Result<TextPath, Memory>
    ensures { IfOk result (λ folder. folder ≡ 47 ∷ []) }
{
    Ok(TextPath::new(Text::from_slice(alloc, b"/")?))
}

/// A world that follows the script of these lines.
pub fn world_of(alloc: Global, lines: &[u8]) -> Result<ScriptWorld, Fail> {
    let script = script_of(alloc, lines)?;
    let world = ScriptWorld::new(alloc, &script);
    drop(script);
    Ok(world?)
}

/// Hooks that follow the script of these lines.
pub fn hooks_of(alloc: Global, lines: &[u8]) -> Result<ScriptHooks, Fail> {
    let script = script_of(alloc, lines)?;
    let hooks = ScriptHooks::new(alloc, &script);
    drop(script);
    Ok(hooks?)
}
