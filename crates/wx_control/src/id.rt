// Names of jobs.
use std::alloc::Global;
use wx_text::{Memory, Text};
use wx_words::{Spelled, Words};

/// The name of a job, which is its number.
#[derive(Clone, Copy, Debug, PartialEq, Eq, PartialOrd, Ord, Hash)]
pub struct Id(pub u32);

#[tactic(auto, unfolding(crate::specs::Ids::id))]
impl Spelled for Id {
    ghost use Rattle.wx_control.specs.Ids.{id};

    ghost spelling = { id };

    fn put_after(&self, out: &mut Text) -> Result<(), Memory> {
        self.0.put_after(out)
    }

    fn read(alloc: Global, line: &mut Words) -> Result<Option<Id>, Memory> {
        Ok(u32::read(alloc, line)?.map(Id))
    }
}
