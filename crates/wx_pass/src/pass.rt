// Handles, each for one thread.
ghost use Rattle.std.specs.Prelude.{◌≡◌, ◌≤◌, ◌∷◌, ◌++◌, [], length, OnErr, OnOk, IfOk};
ghost use Rattle.wx_control.specs.Sent.{sent as after_send};
ghost use Rattle.wx_queue.specs.Ends.{sent_item};
ghost use Rattle.wx_pass.specs.declared.item.Item.TheVariants.{Ask as AnAsk, Keys as TheKeys};
ghost use Rattle.wx_pass.specs.Asked.{Handle, HandleRest, fulls_after, sink_of};

use crate::item::Item;
use crate::parcels::{ask_parcel, keys_item, keys_parcel, new_ticket};
use std::alloc::Global;
use std::marker::Model;
use std::sync::Wait;
use wx_control::{Ask, Controls, Flag, Job, Refused, Ticket};
use wx_queue::{HoldsPass, Parcel, QueuePass};

/// The queue by which the handles of a world send.
pub type Items<R> = wx_queue::PassQueue<R, Item, Option<Flag>>;

/// What all handles of a world sent, what was given of it, and what was left.
pub type Given = wx_queue::Given<Item>;

/// A handle, for one thread. It sends into the queue of its world. Contracts see its number, what it sent, and how often the queue was
/// full.
#[derive(Drop)]
pub struct HandlePass<R: Wait + Copy> {
    pass: QueuePass<R, Item, Option<Flag>>,
    fulls: u64,
}

impl<R: Wait + Copy> Model for HandlePass<R> {
    ghost use Rattle.wx_pass.specs.Asked.{Handle};

    ghost Value = { Handle };

    ghost view = { λ p. record { pass = p.pass; fulls = p.fulls } };
}

impl<R: Wait + Copy> HandlePass<R> {
    /// A handle over this pass of a queue.
    pub fn new(pass: QueuePass<R, Item, Option<Flag>>) -> HandlePass<R>
        ensures { result ≡ record { pass = pass; fulls = 0 } }
    {
        HandlePass { pass, fulls: 0 }
    }

    /// Sends an item. `Full` comes only where the queue was full at a step of this call.
    fn post(&mut self, item: Item, parcel: Parcel<Item, Option<Flag>>) -> Result<(), Refused>
        requires same { parcel.item ≡ item }
        ensures ok { OnOk result (self.new.pass.sent ≡ self.old.pass.sent ++ sent_item self.old.pass.number (length self.old.pass.sent) item ∷ []) }
        ensures err { OnErr result (self.new.pass.sent ≡ self.old.pass.sent) }
        ensures fulls { self.new.fulls ≡ fulls_after result self.old.fulls }
        ensures kept { (self.new.pass.number ≡ self.old.pass.number) × (self.new.pass.queue ≡ self.old.pass.queue) }
    {
        match self.pass.send(item, parcel) {
            Ok(()) => Ok(()),
            Err(wx_queue::Refused::Memory) => Err(Refused::Memory),
            Err(wx_queue::Refused::Full) => {
                self.fulls = self.fulls.saturating_add(1);
                Err(Refused::Full)
            }
        }
    }

    /// Sends bytes of the keyboard. All memory is taken before anything is sent, and a refused send leaves what was sent as it was. `Full`
    /// comes only where the queue was full at a step of this call.
    pub fn keys(&mut self, alloc: Global, bytes: &[u8]) -> Result<(), Refused>
        requires few { length bytes.now ≤ 10 }
        ensures ok { OnOk result (self.new.pass.sent ≡ self.old.pass.sent ++ sent_item self.old.pass.number (length self.old.pass.sent) (TheKeys bytes.now) ∷ []) }
        ensures err { OnErr result (self.new.pass.sent ≡ self.old.pass.sent) }
        ensures fulls { self.new.fulls ≡ fulls_after result self.old.fulls }
        ensures kept { (self.new.pass.number ≡ self.old.pass.number) × (self.new.pass.queue ≡ self.old.pass.queue) }
    {
        let item = keys_item(alloc, bytes)?;
        let parcel = keys_parcel(alloc, bytes)?;
        self.post(item, parcel)
    }
}

impl<R: Wait + Copy> HoldsPass<R, Item, Option<Flag>> for HandlePass<R> {
    ghost pass = { λ p. p.pass };

    fn into_pass(self) -> QueuePass<R, Item, Option<Flag>> {
        let HandlePass { pass, fulls: _ } = self;
        pass
    }
}

impl<R: Wait + Copy> Controls for HandlePass<R> {
    ghost Rest = { HandleRest };

    ghost sink = { sink_of };

    /// Sends this ask of the job. All memory is taken before anything is sent, and a refused send leaves what was sent as it was. `Full`
    /// comes only where the queue was full at a step of this call.
    #[tactic(auto, using(crate::proofs::Asks::asks_one))]
    fn send(&mut self, alloc: Global, job: &Job, ask: Ask) -> Result<Ticket, Refused>
        ensures sink { sink_of self.new ≡ after_send result job.now.id ask (sink_of self.old) }
        ensures sent { OnOk result (self.new.pass.sent ≡ self.old.pass.sent ++ sent_item self.old.pass.number (length self.old.pass.sent) (AnAsk job.now.id ask) ∷ []) }
        ensures err { OnErr result (self.new.pass.sent ≡ self.old.pass.sent) }
        ensures gone { IfOk result (λ ticket. ticket.gone ≡ job.now.gone) }
    {
        let id = job.id();
        let (ticket, done) = new_ticket(alloc, job)?;
        match self.post(Item::Ask(id, ask), ask_parcel(id, ask, done)) {
            Ok(()) => Ok(ticket),
            Err(refused) => Err(refused),
        }
    }
}
