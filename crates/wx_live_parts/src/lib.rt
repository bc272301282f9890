//! A live outside over the system: it runs children, looks at files, and reads a clock.
#![tactic(auto)]

mod child;
mod children;
mod codes;
mod ends;
mod file_scanner;
mod folder;
mod live_parts;
mod looking;
mod moments;
mod resting;
mod round;

pub use file_scanner::FileScanner;
pub use folder::current_folder;
pub use live_parts::LiveParts;
