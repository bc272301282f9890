// What stands at a path of a tree.
use wx_words::TextPath;

/// What stands at a path.
#[derive(Drop)]
pub enum Node {
    Dir,
    /// A file, with a stamp that is another one where the file was changed.
    File(u64),
    /// A link, and where it leads.
    Link(TextPath),
}
