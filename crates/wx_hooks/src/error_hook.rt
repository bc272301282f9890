// The hook that is lent to an error handler: it shows an error, and holds a wish.
ghost use Rattle.std.specs.Prelude.{◌≡◌, false, true, is_none, Some, None, if◌then◌else◌, IfOk, OnOk, OnErr};
ghost use Rattle.wx_journal.specs.declared.wish.Wish.TheVariants.{Nothing, Elevate, Critical};
ghost use Rattle.wx_journal.specs.declared.entry.Entry.TheVariants.{Show};
ghost use Rattle.wx_hooks.specs.ErrorHooks.{first_wish, IsKeptWish, wish_in, copy_in, without_copy};

use std::alloc::Global;
use std::marker::Model;
use wx_error::{CriticalError, RuntimeError};
use wx_journal::{Entry, Wish};
use wx_text::{Boxed, Copies, Memory};

/// A value twice: one stays, and one is moved out.
#[derive(Drop, Debug)]
pub(crate) struct Twice<T> {
    kept: T,
    copy: Option<T>,
}

/// A value twice. It fails only for want of memory.
fn make_twice<T: Copies + Drop>(alloc: Global, value: T) -> Result<Twice<T>, Memory>
    ensures { IfOk result (λ both. (both.kept ≡ value) × (both.copy ≡ Some value)) }
{
    let copy = value.copy(alloc)?;
    Ok(Twice {
        kept: value,
        copy: Some(copy),
    })
}

/// The value that stays. The other is let go.
fn into_kept<T: Drop>(both: Twice<T>) -> T
    ensures { result ≡ both.kept }
{
    both.kept
}

/// Puts a value where none is.
fn set_once<T: Drop>(slot: &mut Option<T>, value: T)
    ensures { slot.new ≡ (if is_none slot.old then Some value else slot.old) }
{
    if slot.is_none() {
        *slot = Some(value);
    }
}

/// The wish that is kept, or none.
fn kept_of(wish: Option<Twice<Wish>>) -> Wish
    ensures { result ≡ wish_in wish }
{
    match wish {
        Some(both) => into_kept(both),
        None => Wish::Nothing,
    }
}

/// Moves out the copy of a value, where there is one.
fn take_copy<T: Drop>(slot: &mut Option<Twice<T>>) -> Option<T>
    ensures copy { result ≡ copy_in slot.old }
    ensures kept { slot.new ≡ without_copy slot.old }
{
    match slot {
        Some(both) => both.copy.take(),
        None => None,
    }
}

/// Moves out the copy of a wish, which is there where a wish is.
fn copy_of(wish: &mut Option<Twice<Wish>>) -> Wish
    requires { IsKeptWish true wish.old }
    ensures copy { result ≡ wish_in wish.old }
    ensures wish { wish_in wish.new ≡ wish_in wish.old }
    ensures kept { IsKeptWish false wish.new }
{
    match take_copy(wish) {
        Some(copy) => copy,
        None => Wish::Nothing,
    }
}

/// Shows an error to an error handler, and holds what it wishes. The first wish stands. Contracts see the error, the wish
/// so far, and whether `shown` was called.
#[derive(Drop, Debug)]
pub struct ErrorHook {
    error: Twice<RuntimeError>,
    wish: Option<Twice<Wish>>,
}

impl Model for ErrorHook {
    ghost use Rattle.std.specs.Prelude.{is_none};
    ghost use Rattle.wx_hooks.specs.ErrorHooks.{ShownError, AreKept, wish_in};

    ghost Value = { ShownError };

    ghost view = { λ h. record { error = h.error.kept; wish = wish_in h.wish; told = is_none h.error.copy } };

    ghost invariant = { λ h. AreKept h.error h.wish };
}

impl ErrorHook {
    /// A hook that shows this error, and holds no wish. It fails only for want of memory.
    pub fn new(alloc: Global, error: RuntimeError) -> Result<ErrorHook, Memory>
        ensures { IfOk result (λ hook. hook ≡ record { error = error; wish = Nothing; told = false }) }
    {
        Ok(ErrorHook {
            error: make_twice(alloc, error)?,
            wish: None,
        })
    }

    /// The error that is shown.
    pub fn error(&self) -> &RuntimeError
        ensures { result.now ≡ self.now.error }
    {
        &self.error.kept
    }

    /// Wishes that the run ends with this error, where nothing was wished before. `CriticalError::Exit` is to end it without
    /// one. It fails only for want of memory; then nothing was wished.
    pub fn critical(&mut self, alloc: Global, error: CriticalError) -> Result<(), Memory>
        ensures wish { OnOk result (self.new ≡ record self.old { wish = first_wish self.old.wish (Critical error) }) }
        ensures refused { OnErr result (self.new ≡ self.old) }
    {
        let wish = make_twice(alloc, Wish::Critical(Boxed::new(alloc, error)?))?;
        set_once(&mut self.wish, wish);
        Ok(())
    }

    /// Wishes that the run ends with the error that is shown, where nothing was wished before. It takes no memory.
    pub fn elevate(&mut self)
        ensures { self.new ≡ record self.old { wish = first_wish self.old.wish Elevate } }
    {
        let wish = Twice {
            kept: Wish::Elevate,
            copy: Some(Wish::Elevate),
        };
        set_once(&mut self.wish, wish);
    }

    /// Moves out the entry of this call: the number of the handler, the error, and the wish so far. It takes no memory.
    pub fn shown(&mut self, n: u32) -> Entry
        requires { self.old.told ≡ false }
        ensures entry { result ≡ Show n self.old.error self.old.wish }
        ensures told { self.new ≡ record self.old { told = true } }
    {
        let Some(error) = self.error.copy.take() else {
            unreachable!()
        };
        Entry::Show {
            n,
            error,
            wish: copy_of(&mut self.wish),
        }
    }

    /// The error and the wish.
    pub fn into_parts(self) -> (RuntimeError, Wish)
        ensures error { result.0 ≡ self.error }
        ensures wish { result.1 ≡ self.wish }
    {
        let ErrorHook { error, wish } = self;
        (into_kept(error), kept_of(wish))
    }
}
