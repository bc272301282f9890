// What a handle sends.
use wx_control::{Ask, Id};
use wx_text::List;

/// What a handle sends: an ask of the job of this name, or bytes of the keyboard.
#[derive(Drop, Debug)]
pub enum Item {
    Ask(Id, Ask),
    Keys(List<u8>),
}
