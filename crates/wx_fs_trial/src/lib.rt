//! What the tests of several crates watch with: a backend and a judge of directories, whose calls fail where they are told to, and
//! a tree that changes between two looks; and what the words of their runs name.
#![tactic(auto)]

mod backend;
mod changing;
mod judge;
mod reading;

pub use backend::FailingBackend;
pub use changing::Changing;
pub use judge::Refusing;
pub use reading::{
    count_words, has_word, has_words, is_found, path, place, put_node, put_path, put_place, root,
    shown_paths,
};
