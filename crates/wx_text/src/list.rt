ghost use Rattle.std.specs.Prelude.{◌≡◌, ◌+◌, ◌<◌, [], ◌∷◌, ◌++◌, length, IfOk, OnOk, OnErr, ◌==◌, slice_get, remove, Some, IfSome, IfNone};
ghost use Rattle.std.specs.Cmp.Lexicographic.{pointwise, lists_per, lists_equiv};
ghost use Rattle.std.specs.Hash.{slice, items_Alike};

use std::alloc::Global;
use std::hash::{Hash, Hasher};
use std::marker::Model;

/// Want of memory.
#[derive(Clone, Copy, Debug, PartialEq, Eq)]
pub struct Memory;

impl From<std::alloc::AllocError> for Memory {
    fn from(_error: std::alloc::AllocError) -> Self {
        Memory
    }
}

impl<T: Drop> From<std::alloc::AllocFailed<T>> for Memory {
    fn from(_error: std::alloc::AllocFailed<T>) -> Self {
        Memory
    }
}

/// A value that owns memory, and can be copied.
pub trait Copies {
    /// An equal value. It fails only for want of memory.
    fn copy(&self, alloc: Global) -> Result<Self, Memory>
        ensures { IfOk result (λ copied. copied ≡ self.now) };
}

impl Copies for bool {
    fn copy(&self, _alloc: Global) -> Result<bool, Memory> {
        Ok(*self)
    }
}

impl<T: Copies + Drop, E: Copies + Drop> Copies for Result<T, E> {
    fn copy(&self, alloc: Global) -> Result<Result<T, E>, Memory> {
        match self {
            Ok(value) => Ok(Ok(value.copy(alloc)?)),
            Err(error) => Ok(Err(error.copy(alloc)?)),
        }
    }
}

/// Two values that equal this one. It fails only for want of memory.
pub fn copy_twice<T: Copies + Drop>(alloc: Global, value: &T) -> Result<(T, T), Memory>
    ensures { IfOk result (λ both. (both.0 ≡ value.now) × (both.1 ≡ value.now)) }
{
    let first = value.copy(alloc)?;
    Ok((first, value.copy(alloc)?))
}

/// A list.
#[derive(Drop, Debug)]
pub struct List<T> {
    items: Vec<T>,
}

impl<T> Model for List<T> {
    ghost use Rattle.std.specs.Prelude.{List};

    ghost Value = { List T };

    ghost view = { λ l. l.items.items };
}

impl<T> List<T> {
    /// The empty list. It takes no memory.
    pub fn new(alloc: Global) -> Self
        ensures { result ≡ [] }
    {
        List {
            items: Vec::new(alloc),
        }
    }

    /// How many items there are.
    pub fn len(&self) -> usize
        ensures { result ≡ length self.now }
    {
        self.items.len()
    }

    /// Whether there is no item.
    pub fn is_empty(&self) -> bool
        ensures { result ≡ (length self.now == 0) }
    {
        self.items.is_empty()
    }

    /// The items, in order.
    pub fn as_slice(&self) -> &[T]
        ensures { result.now ≡ self.now }
    {
        self.items.as_slice()
    }

    /// Adds an item at the end. It fails only for want of memory. Then it drops the item, and the list is as it was.
    pub fn push(&mut self, x: T) -> Result<(), Memory>
    where
        T: Drop,
        ensures ok { OnOk result (self.new ≡ self.old ++ x ∷ []) }
        ensures err { OnErr result (self.new ≡ self.old) }
    {
        self.items.push(x)?;
        Ok(())
    }

    /// Takes the item at this index out.
    pub fn remove(&mut self, index: usize) -> T
        requires { index < length self.old }
        ensures value { slice_get self.old index ≡ Some result }
        ensures rest { self.new ≡ remove self.old index }
    {
        self.items.remove(index)
    }

    /// The first item.
    pub fn first(&self) -> Option<&T>
        ensures none { IfNone result (self.now ≡ []) }
        ensures some { IfSome result (λ x. slice_get self.now 0 ≡ Some x.now) }
    {
        self.items.first()
    }

    /// Drops the items.
    pub fn clear(&mut self)
    where
        T: Drop,
        ensures { self.new ≡ [] }
    {
        self.items.clear();
    }

    /// Takes the first item out.
    pub fn take_first(&mut self) -> Option<T>
        ensures none { IfNone result (self.old ≡ []) }
        ensures same { IfNone result (self.new ≡ []) }
        ensures some { IfSome result (λ x. self.old ≡ x ∷ self.new) }
    {
        if self.items.is_empty() {
            None
        } else {
            Some(self.items.remove(0))
        }
    }

    /// These items as a list.
    pub fn from_vec(items: Vec<T>) -> Self
        ensures { result ≡ items.items }
    {
        List { items }
    }

    /// The items of this list.
    pub fn into_vec(self) -> Vec<T>
        ensures { result.items ≡ self }
    {
        self.items
    }
}

impl<T: Copies + Drop> Copies for List<T> {
    fn copy(&self, alloc: Global) -> Result<Self, Memory> {
        // Room for just these: a list that grows has room for four at least.
        let mut items = Vec::with_capacity(alloc, self.items.len())?;
        for x in &self.items {
            let y = x.copy(alloc)?;
            items.push(y)?;
        }
        Ok(List { items })
    }
}

impl<T: PartialEq> PartialEq for List<T> {
    ghost eq = { pointwise T.eq };

    ghost laws = { lists_per T.laws };

    fn eq(&self, other: &List<T>) -> bool {
        self.items.as_slice() == other.items.as_slice()
    }
}

impl<T: Eq> Eq for List<T> {
    ghost laws = { lists_equiv T.Eq.laws };
}

impl<T: Hash> Hash for List<T> {
    ghost hash_input = { slice T.hash_input };

    ghost respects_eq = { (items_Alike (record { fed = T.respects_eq })).fed };

    fn hash<H: Hasher>(&self, state: &mut H) {
        self.items.as_slice().hash(state);
    }
}
