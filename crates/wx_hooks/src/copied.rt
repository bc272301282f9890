// Values beside copies of them.
ghost use Rattle.std.specs.Prelude.{◌≡◌, IfOk};

use std::alloc::Global;
use wx_text::{Copies, Memory};

/// A value and a copy of it. It fails only for want of memory.
pub fn with_copy<T: Copies + Drop>(alloc: Global, value: T) -> Result<(T, T), Memory>
    ensures { IfOk result (λ both. (both.0 ≡ value) × (both.1 ≡ value)) }
{
    let copy = value.copy(alloc)?;
    Ok((value, copy))
}

/// A value and two copies of it. It fails only for want of memory.
pub(crate) fn with_copies<T: Copies + Drop>(alloc: Global, value: T) -> Result<(T, T, T), Memory>
    ensures { IfOk result (λ all. (all.0 ≡ value) × (all.1 ≡ value) × (all.2 ≡ value)) }
{
    let first = value.copy(alloc)?;
    let second = value.copy(alloc)?;
    Ok((value, first, second))
}
