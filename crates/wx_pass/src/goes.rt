// What goes to another thread.
use crate::item::Item;
use crate::pass::HandlePass;
use std::sync::Wait;
use std::thread::{Threads, join};
use wx_control::Flag;
use wx_queue::{Parcel, Sent};

fn drop_there<R: Threads, T: Send + Drop>(rt: &R, x: T) {
    let _ = join(rt, move || drop(x), || ());
}

/// A handle goes to another thread.
pub(crate) fn pass_goes<R: Threads + Wait + Copy + Send + Sync>(rt: &R, pass: HandlePass<R>) {
    drop_there(rt, pass);
}

/// What is sent goes too.
pub(crate) fn parcel_goes<R: Threads>(rt: &R, parcel: Parcel<Item, Option<Flag>>) {
    drop_there(rt, parcel);
}

/// And what was sent.
pub(crate) fn sent_goes<R: Threads>(rt: &R, sent: Sent<Item>) {
    drop_there(rt, sent);
}
