// Shells.
ghost use Rattle.std.specs.Prelude.{◌≡◌, true, IfOk};
ghost use Rattle.wx_command.specs.Shells.{shell_of};

use std::alloc::Global;
use wx_text::{Copies, List, Memory, Text};

/// How a shell is called that runs the text of a command.
#[derive(Drop, Debug, PartialEq, Eq, Hash)]
pub struct Shell {
    pub prog: Text,
    /// What stands before the program option.
    pub options: List<Text>,
    /// What stands before the text of the command, as `-c`.
    pub program_option: Option<Text>,
    /// Whether the text is to be quoted. It changes nothing here.
    pub quote: bool,
}

impl Shell {
    /// The shell of this name, with no options, whose program option is `-c`. It fails only for want of memory.
    pub fn with_quoting(alloc: Global, name: &Text, quote: bool) -> Result<Shell, Memory>
        ensures { IfOk result (λ shell. shell ≡ shell_of name.now quote) }
    {
        let prog = name.copy(alloc)?;
        Ok(Shell {
            prog,
            options: List::new(alloc),
            program_option: Some(Text::from_slice(alloc, b"-c")?),
            quote,
        })
    }

    /// The same with quoting. It fails only for want of memory.
    pub fn new(alloc: Global, name: &Text) -> Result<Shell, Memory>
        ensures { IfOk result (λ shell. shell ≡ shell_of name.now true) }
    {
        Shell::with_quoting(alloc, name, true)
    }
}

impl Copies for Shell {
    fn copy(&self, alloc: Global) -> Result<Shell, Memory> {
        let program_option = match &self.program_option {
            Some(text) => Some(text.copy(alloc)?),
            None => None,
        };
        let prog = self.prog.copy(alloc)?;
        let options = self.options.copy(alloc)?;
        Ok(Shell {
            prog,
            options,
            program_option,
            quote: self.quote,
        })
    }
}
