//! What tests of words share: values that are read from lines and written again, and tables of cases.
#![tactic(auto)]

mod lines;
mod tables;

pub use lines::{
    begins, equals_its_copy, has_fields, is_read, is_read_again, is_refused, is_shown, is_written,
    line_of, read_line,
};
pub use tables::{
    first_accepted, first_misread, first_wrong_line, first_wrong_pair, first_wrong_value,
    is_spelled,
};
