// The ids of jobs, of which there are 2^32 - 1.
ghost use Rattle.std.specs.Prelude.{◌≡◌, ◌+◌, ◌-◌, ◌^◌, ◌<◌, min, IfSome, IfNone};

use wx_control::Id;

/// The id of the next new job, which is above each that was given. There are 2^32 - 1 ids, so it goes no further.
#[derive(Clone, Copy, PartialEq, Eq)]
pub struct IdCount(u32);

impl IdCount {
    /// This id, and 2^32 - 1 where it is greater.
    pub fn new(next: u64) -> IdCount
        ensures { result.0 ≡ min next (2 ^ 32 - 1) }
    {
        if next < u32::MAX as u64 {
            IdCount(next as u32)
        } else {
            IdCount(u32::MAX)
        }
    }

    /// Gives the next id, which is the number of those that were given before. It answers None exactly where 2^32 - 1
    /// were given, and the count stays then.
    pub fn next(&mut self) -> Option<Id>
        ensures left { IfSome result (λ _. self.old.0 < 2 ^ 32 - 1) }
        ensures id { IfSome result (λ id. id.0 ≡ self.old.0) }
        ensures counted { IfSome result (λ _. self.new.0 ≡ self.old.0 + 1) }
        ensures spent { IfNone result (self.old.0 ≡ 2 ^ 32 - 1) }
        ensures same { IfNone result (self.new.0 ≡ self.old.0) }
    {
        if self.0 == u32::MAX {
            return None;
        }
        let id = Id(self.0);
        self.0 += 1;
        Some(id)
    }
}
