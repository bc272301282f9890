//! Scripts of events: what one is, what its lines say, and reading it.
#![tactic(auto)]

mod answers;
mod lines;
mod reading;
mod script;

pub use answers::{Answers, Used};
pub use lines::{Line, line_in};
pub use reading::{BadLine, read_script};
pub use script::{FailingCall, Script, ScriptAct, ScriptTurn, TreeEdit, Wanted};
