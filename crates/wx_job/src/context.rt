// What is shown of a job to what it calls.

use wx_command::Command;
use wx_machine::CommandState;

/// A job as it is shown to what it calls: its command, how far this is, and how far it was before the last spawn.
#[derive(Drop, Debug)]
pub struct JobTaskContext<'a> {
    pub command: &'a Command,
    pub current: &'a CommandState,
    pub previous: Option<&'a CommandState>,
}
