// The components of a path.
ghost use Rattle.std.specs.Prelude.{◌≡◌, ◌<◌, ◌∷◌, length, if◌then◌else◌, IfOk, option_map};
ghost use Rattle.wx_paths.specs.Paths.{is_named, path_parts, is_absolute, front, components};

use std::alloc::Global;
use std::marker::Model;
use wx_text::{List, Memory, Text};
use wx_words::{TextPath, cut};

/// The components of a path, or its parts alone, one after the other. Contracts see those that are left.
#[derive(Drop, Debug)]
pub struct Parts<'a> {
    front: Option<&'a [u8]>,
    parts: &'a [u8],
}

impl<'a> Model for Parts<'a> {
    ghost use Rattle.std.specs.Prelude.{List, ℕ, option_map};
    ghost use Rattle.std.specs.List.{cons_option};
    ghost use Rattle.wx_paths.specs.Paths.{path_parts};

    ghost Value = { List (List ℕ) };

    ghost view = { λ p. cons_option (option_map (λ x. x.now) p.front) (path_parts p.parts.now) };
}

/// Whether this piece of a path names something.
fn is_named(piece: &[u8]) -> bool
    ensures { result ≡ is_named piece.now }
{
    !(piece.is_empty() || piece == b".".as_slice())
}

/// Whether this path is absolute: it begins with a slash. It takes no memory.
pub fn is_absolute(path: &[u8]) -> bool
    ensures { result ≡ is_absolute path.now }
{
    matches!(path, [b'/', ..])
}

/// The piece before the first slash, and what stands behind that.
fn first_piece(path: &[u8]) -> (&[u8], &[u8])
    requires { 0 < length path.now }
    ensures shorter { length result.1.now < length path.now }
    ensures parts { path_parts path.now ≡ (if is_named result.0.now then result.0.now ∷ path_parts result.1.now else path_parts result.1.now) }
{
    match cut(path, b'/') {
        Some((piece, rest)) => (piece, rest),
        None => (path, &path[path.len()..]),
    }
}

/// What stands before the parts of a path.
fn front(path: &[u8]) -> Option<&'static [u8]>
    ensures { option_map (λ x. x.now) result ≡ front path.now }
{
    if is_absolute(path) {
        return Some(b"/");
    }
    let first = match cut(path, b'/') {
        Some((piece, _)) => piece,
        None => path,
    };
    if first == b".".as_slice() {
        Some(b".")
    } else {
        None
    }
}

/// The parts of a path alone, in order. It takes no memory.
pub fn parts_in(path: &TextPath) -> Parts<'_>
    ensures { result ≡ path_parts path.now }
{
    Parts {
        front: None,
        parts: path.text().as_slice(),
    }
}

/// The components of a path, in order. It takes no memory.
pub fn components_in(path: &TextPath) -> Parts<'_>
    ensures { result ≡ components path.now }
{
    let bytes = path.text().as_slice();
    Parts {
        front: front(bytes),
        parts: bytes,
    }
}

impl<'a> Iterator for Parts<'a> {
    type Item = &'a [u8];

    ghost use Rattle.std.specs.Iterator.{item_count, YieldsFirstRef};

    ghost next_gives = { YieldsFirstRef (λ rest. rest) };

    ghost remaining = { item_count (λ rest. rest) };

    fn next(&mut self) -> Option<&'a [u8]> {
        if let Some(front) = self.front {
            self.front = None;
            return Some(front);
        }
        while !self.parts.is_empty() {
            let (piece, rest) = first_piece(self.parts);
            self.parts = rest;
            if is_named(piece) {
                return Some(piece);
            }
        }
        None
    }
}

/// The components of a path: `/` where the path is absolute, and then its parts, which stand between slashes. Empty ones
/// and `.` are left out, but for a `.` at the front of a relative path. It fails only for want of memory.
pub fn components(alloc: Global, path: &TextPath) -> Result<List<Text>, Memory>
    ensures { IfOk result (λ parts. parts ≡ components path.now) }
{
    let mut parts = List::new(alloc);
    for part in components_in(path) {
        parts.push(Text::from_slice(alloc, part)?)?;
    }
    Ok(parts)
}
