// A backend of the tests.
ghost use Rattle.std.specs.Prelude.{◌≡◌, [], false, IfErr, OnOk};
ghost use Rattle.wx_scan.specs.Backings.{is_registered, register, unregister};

use std::alloc::Global;
use wx_notify::Notify;
use wx_scan::{Backend, Scanner};
use wx_text::{Copies, List, Memory, Text};
use wx_watch::{NotifyFault, NotifyFaultKind};
use wx_words::TextPath;

/// A call on the backend that is to fail: which one, counted from 0, and how.
#[derive(Drop)]
struct FailingCall {
    call: u64,
    kind: NotifyFaultKind,
}

/// Watches what it is told to, and brings nothing. Its calls fail where they are told to. It keeps what it was told to watch no
/// more, in order.
#[derive(Drop)]
pub struct FailingBackend {
    alloc: Global,
    pub registered: Vec<TextPath>,
    pub unwatched: Vec<TextPath>,
    failing: Vec<FailingCall>,
    pub calls: u64,
    faults: u64,
}

fn is_registered(path: &TextPath, registered: &[TextPath]) -> bool
    ensures { result ≡ is_registered path.now registered.now }
{
    let mut rest = registered;
    while let [first, after @ ..] = rest {
        if first == path {
            return true;
        }
        rest = after;
    }
    false
}

fn register(alloc: Global, path: &TextPath, registered: &mut Vec<TextPath>) -> Result<(), Memory>
    ensures done { OnOk result (registered.new.items ≡ register path.now registered.old.items) }
    ensures failed { IfErr result (λ _. registered.new.items ≡ registered.old.items) }
{
    let copied = path.copy(alloc)?;
    if is_registered(path, registered.as_slice()) {
        return Ok(());
    }
    registered.push(copied)?;
    Ok(())
}

fn unregister(path: &TextPath, registered: &mut Vec<TextPath>)
    ensures { registered.new.items ≡ unregister path.now registered.old.items }
{
    registered.retain(|q| q != path);
}

/// How a call fails that fails as this word says.
fn fault_kind(alloc: Global, word: &str) -> Result<NotifyFaultKind, Memory> {
    Ok(match word {
        "io" => NotifyFaultKind::Io(5),
        "handles" => NotifyFaultKind::Io(24),
        "space" => NotifyFaultKind::Io(28),
        "nopath" => NotifyFaultKind::PathNotFound,
        "nowatch" => NotifyFaultKind::WatchNotFound,
        "maxwatches" => NotifyFaultKind::MaxFilesWatch,
        "memory" => NotifyFaultKind::Memory,
        _ => NotifyFaultKind::Generic(Text::from_slice(alloc, b"no")?),
    })
}

fn fault(alloc: Global, kind: NotifyFaultKind) -> NotifyFault
    ensures { result.kind ≡ kind }
{
    NotifyFault {
        kind,
        paths: List::new(alloc),
    }
}

impl FailingBackend {
    pub fn new(alloc: Global) -> FailingBackend
        ensures { result.registered.items ≡ [] }
    {
        FailingBackend {
            alloc,
            registered: Vec::new(alloc),
            unwatched: Vec::new(alloc),
            failing: Vec::new(alloc),
            calls: 0,
            faults: 0,
        }
    }

    /// The call of this number, counted from 0, is to fail as the word says.
    pub fn fail(&mut self, call: u64, word: &str) -> Result<(), Memory>
        ensures { self.new.registered ≡ self.old.registered }
    {
        let kind = fault_kind(self.alloc, word)?;
        self.failing.push(FailingCall { call, kind })?;
        Ok(())
    }

    fn note(&mut self, path: &TextPath) -> Result<(), Memory>
        ensures registered { self.new.registered ≡ self.old.registered }
        ensures faults { self.new.faults ≡ self.old.faults }
    {
        self.unwatched.push(path.copy(self.alloc)?)?;
        Ok(())
    }

    /// How this call is to fail, where it is.
    fn failing_now(&self) -> Result<Option<NotifyFaultKind>, Memory> {
        for failing in self.failing.as_slice() {
            if failing.call == self.calls {
                return Ok(Some(failing.kind.copy(self.alloc)?));
            }
        }
        Ok(None)
    }
}

impl Backend for FailingBackend {
    ghost backing = { λ b. record { registrations = b.registered.items; brought = []; faults = b.faults; exact = false } };

    fn watch<S: Scanner>(&mut self, _scan: &mut S, path: &TextPath) -> Result<(), NotifyFault> {
        let failing = self.failing_now();
        self.calls = self.calls.saturating_add(1);
        self.faults = self.faults.saturating_add(1);
        match failing {
            Ok(Some(kind)) => Err(fault(self.alloc, kind)),
            Ok(None) => match register(self.alloc, path, &mut self.registered) {
                Ok(()) => Ok(()),
                Err(Memory) => Err(fault(self.alloc, NotifyFaultKind::Memory)),
            },
            Err(Memory) => Err(fault(self.alloc, NotifyFaultKind::Memory)),
        }
    }

    fn unwatch<S: Scanner>(&mut self, _scan: &mut S, path: &TextPath) -> Result<(), NotifyFault> {
        if let Err(Memory) = self.note(path) {
            return Err(fault(self.alloc, NotifyFaultKind::Memory));
        }
        let failing = self.failing_now();
        self.calls = self.calls.saturating_add(1);
        self.faults = self.faults.saturating_add(1);
        match failing {
            Ok(Some(kind)) => Err(fault(self.alloc, kind)),
            Ok(None) => {
                unregister(path, &mut self.registered);
                Ok(())
            }
            Err(Memory) => Err(fault(self.alloc, NotifyFaultKind::Memory)),
        }
    }

    fn next<S: Scanner>(&mut self, _scan: &mut S) -> Option<Result<Notify, NotifyFault>> {
        None
    }
}
