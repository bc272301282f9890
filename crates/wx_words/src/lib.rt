//! The words in which values are written. It offers want of memory again.
#![tactic(auto, unfolding(crate::specs::Line::behind))]

mod boxes;
mod cursor;
mod done;
mod dotted;
mod lists;
mod non_zero;
mod numbers;
mod optional;
mod path;
mod results;
mod rows;
mod signed;
mod spelled;
mod switches;
mod texts;
mod tuples;

pub use cursor::{Words, cut};
pub use dotted::{Dotted, read_dotted};
pub use lists::{put_items, read_to_end};
pub use numbers::number_of;
pub use path::TextPath;
pub use results::{ResultRef, read_result};
pub use rows::{Fields, NamedFields, begin_row, is_word, put_row, put_word, take_literal};
pub use spelled::Spelled;
pub use texts::{Escaped, text_in};
pub use wx_text::Memory;
