use crate::runs::{Page, folder, journal_of};
use std::alloc::Global;
use std::test::Fail;
use watchexec::Watchexec;
use watchexec::action::ActionHandler;
use wx_engine::{BoxedHooks, OnAction};
use wx_text::{List, Text};

/// Prints what changed.
#[derive(Drop)]
struct Prints(Page);

impl OnAction for Prints {
    fn act(&mut self, handler: &mut ActionHandler<'_>) {
        for (path, _) in handler.paths() {
            self.0.print(path.text().as_slice());
        }
    }
}

/// The journal of a run that follows these lines.
pub(crate) fn run(alloc: Global, page: Page, lines: &[u8]) -> Result<Text, Fail> {
    let mut actions: List<Box<dyn OnAction + Drop>> = List::new(alloc);
    actions.push(Box::new(alloc, Prints(page))?)?;
    let (filters, errors, functions) = (List::new(alloc), List::new(alloc), List::new(alloc));
    let (hooks, faults) = (List::new(alloc), List::new(alloc));
    let mut hooks = BoxedHooks::new(alloc, filters, actions, errors, functions, hooks, faults);
    let engine = Watchexec::new(alloc, 0, folder(alloc)?)?;
    journal_of(alloc, engine, &mut hooks, lines)
}
