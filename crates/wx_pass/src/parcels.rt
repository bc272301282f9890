// What handles send, made before it is sent.
ghost use Rattle.std.specs.Prelude.{◌≡◌, IfOk};
ghost use Rattle.wx_pass.specs.declared.item.Item.TheVariants.{Ask as AnAsk, Keys as TheKeys};

use crate::item::Item;
use std::alloc::Global;
use wx_control::{Ask, Flag, Id, Job, Ticket};
use wx_queue::Parcel;
use wx_text::{Copies, List, Memory};

/// These bytes, as an item. It fails only for want of memory.
pub(crate) fn keys_item(alloc: Global, bytes: &[u8]) -> Result<Item, Memory>
    ensures { IfOk result (λ item. item ≡ TheKeys bytes.now) }
{
    Ok(Item::Keys(List::from_vec(Vec::from_slice(alloc, bytes)?)))
}

/// Bytes three times, to be sent. It fails only for want of memory.
pub(crate) fn keys_parcel(alloc: Global, bytes: &[u8]) -> Result<Parcel<Item, Option<Flag>>, Memory>
    ensures { IfOk result (λ parcel. parcel.item ≡ TheKeys bytes.now) }
{
    let item = keys_item(alloc, bytes)?;
    let second = keys_item(alloc, bytes)?;
    let third = keys_item(alloc, bytes)?;
    Ok(Parcel {
        item,
        second,
        third,
        done: None,
    })
}

/// An ask three times, to be sent with its flag.
pub(crate) fn ask_parcel(id: Id, ask: Ask, done: Flag) -> Parcel<Item, Option<Flag>>
    ensures { result.item ≡ AnAsk id ask }
{
    Parcel {
        item: Item::Ask(id, ask),
        second: Item::Ask(id, ask),
        third: Item::Ask(id, ask),
        done: Some(done),
    }
}

/// The ticket of an ask of this job, and a copy of its flag. It fails only for want of memory.
pub(crate) fn new_ticket(alloc: Global, job: &Job) -> Result<(Ticket, Flag), Memory>
    ensures { IfOk result (λ made. (made.0.gone ≡ job.now.gone) × (made.0.done ≡ made.1)) }
{
    let gone = job.gone().copy(alloc)?;
    let done = Flag::new(alloc, false)?;
    let copy = done.copy(alloc)?;
    Ok((Ticket { gone, done }, copy))
}
