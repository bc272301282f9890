// What the words of a run name, and what is found, as words.
use std::alloc::Global;
use wx_mem_tree::{MemTree, Node};
use wx_text::{Memory, Text};
use wx_tree::{Place, Root};
use wx_words::{Escaped, TextPath};

pub fn path(alloc: Global, word: &str) -> Result<TextPath, Memory> {
    Ok(TextPath::new(Text::from_slice(alloc, word.as_bytes())?))
}

pub fn place(alloc: Global, word: &str) -> Result<Place, Memory> {
    Place::new(alloc, &path(alloc, word)?)
}

/// A root, recursive where the kind is `r`.
pub fn root(alloc: Global, kind: &str, at: &str) -> Result<Root, Memory> {
    Ok(Root {
        path: place(alloc, at)?,
        recursive: kind == "r",
    })
}

/// Puts a node into a tree: `d` a directory; `f` a file, with its stamp behind the path, or 1; `l` a link, with its target behind
/// the path, or `/`. No where it is none of these.
pub fn put_node(
    alloc: Global,
    tree: &mut MemTree,
    kind: &str,
    words: &str,
) -> Result<bool, Memory> {
    let (at, more) = words.split_once(" ").unwrap_or((words, ""));
    let node = match kind {
        "d" => Node::Dir,
        "f" => Node::File(more.parse::<u64>().unwrap_or(1)),
        "l" if more.is_empty() => Node::Link(path(alloc, "/")?),
        "l" => Node::Link(path(alloc, more)?),
        _ => return Ok(false),
    };
    tree.node(path(alloc, at)?, node)?;
    Ok(true)
}

/// Appends a path, with a space before it.
pub fn put_path(alloc: Global, path: &TextPath, out: &mut String) -> Result<(), Memory> {
    let shown = format!(in alloc; " {}", Escaped(path.text()))?;
    out.push_str(shown.as_str())?;
    Ok(())
}

/// Appends a place, with a space before it.
pub fn put_place(alloc: Global, place: &Place, out: &mut String) -> Result<(), Memory> {
    put_path(alloc, &place.path(alloc)?, out)
}

/// These paths in order, with a space before each.
pub fn shown_paths(alloc: Global, paths: &[TextPath]) -> Result<String, Memory> {
    let mut out = String::new(alloc);
    for path in paths {
        put_path(alloc, path, &mut out)?;
    }
    Ok(out)
}

/// Whether just this is found: words in order, or `none`.
pub fn is_found(found: &str, wanted: &str) -> bool {
    let found = found.trim();
    found == wanted || (found.is_empty() && wanted == "none")
}

/// Whether the word stands among these.
pub fn has_word(words: &str, word: &str) -> bool {
    words.split(" ").any(|one| one == word)
}

/// Whether each of these words stands among those.
pub fn has_words(words: &str, wanted: &str) -> bool {
    wanted
        .split(" ")
        .all(|word| word.is_empty() || has_word(words, word))
}

/// How many words stand in the text.
pub fn count_words(text: &str) -> usize {
    text.split(" ").filter(|word| !word.is_empty()).count()
}
