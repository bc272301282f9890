// Absolute paths, by their parts.
ghost use Rattle.std.specs.Prelude.{◌≡◌, ◌≤◌, ◌++◌, drop, length, take, IfOk, OnOk};
ghost use Rattle.wx_tree.specs.Paths.{has_entry, holds, holds_below, same};
ghost use Rattle.wx_tree.specs.Places.{parts_spelled, place, push_part, spelled};

use std::alloc::Global;
use std::marker::Model;
use wx_text::{Copies, Memory, Text};
use wx_words::TextPath;

/// An absolute path, which contracts see as its parts, the last one first.
#[derive(Drop)]
pub struct Place {
    parts: Vec<Text>,
}

impl Model for Place {
    ghost use Rattle.wx_tree.specs.Paths.{Path};
    ghost use Rattle.wx_tree.specs.Places.{AreParts};

    ghost Value = { Path };

    ghost view = { λ p. p.parts.items };

    ghost invariant = { λ p. AreParts p.parts.items };
}

impl Place {
    /// The place that this path names. It fails only for want of memory.
    pub fn new(alloc: Global, path: &TextPath) -> Result<Place, Memory>
        ensures { IfOk result (λ p. p ≡ place path.now) }
    {
        let mut parts = Vec::new(alloc);
        let mut part = Text::new(alloc);
        let mut rest = path.text().as_slice();
        while let [byte, after @ ..] = rest {
            if *byte == b'/' {
                put_part(part, &mut parts)?;
                part = Text::new(alloc);
            } else {
                part.push(*byte)?;
            }
            rest = after;
        }
        put_part(part, &mut parts)?;
        Ok(Place { parts })
    }

    /// The path that names this place, and leads back to it. It fails only for want of memory.
    pub fn path(&self, alloc: Global) -> Result<TextPath, Memory>
        ensures spelled { IfOk result (λ path. path ≡ spelled self.now) }
        ensures back { IfOk result (λ path. place path ≡ self.now) }
    {
        let mut text = Text::new(alloc);
        put_parts(self.parts.as_slice(), &mut text)?;
        if self.parts.is_empty() {
            text.push(b'/')?;
        }
        Ok(TextPath::new(text))
    }

    /// Appends the last parts, so many of them, each behind a slash. It fails only for want of memory.
    pub fn put_last(&self, levels: usize, out: &mut Text) -> Result<(), Memory>
        requires { levels ≤ length self.now }
        ensures { OnOk result (out.new ≡ out.old ++ parts_spelled (take levels self.now)) }
    {
        put_parts(&self.parts.as_slice()[..levels], out)
    }

    /// Whether both are the same.
    pub fn is_same(&self, other: &Place) -> bool
        ensures { result ≡ same self.now other.now }
    {
        self.parts.as_slice() == other.parts.as_slice()
    }

    /// Whether the other is this place, or lies below it.
    pub fn holds(&self, other: &Place) -> bool
        ensures { result ≡ holds self.now other.now }
    {
        begins(self.parts.as_slice(), other.parts.as_slice())
    }

    /// Whether the other lies strictly below this place.
    pub fn holds_below(&self, other: &Place) -> bool
        ensures { result ≡ holds_below self.now other.now }
    {
        match other.parts.as_slice() {
            [] => false,
            [_, above @ ..] => begins(self.parts.as_slice(), above),
        }
    }

    /// Whether the other is a direct entry of this place.
    pub fn has_entry(&self, other: &Place) -> bool
        ensures { result ≡ has_entry self.now other.now }
    {
        match other.parts.as_slice() {
            [] => false,
            [_, above @ ..] => self.parts.as_slice() == above,
        }
    }

    /// Its parts, the last one first.
    pub fn parts(&self) -> &[Text]
        ensures { result.now ≡ self.now }
    {
        self.parts.as_slice()
    }

    /// How many parts it has.
    pub fn depth(&self) -> usize
        ensures { result ≡ length self.now }
    {
        self.parts.len()
    }

    /// The place so many levels up. It fails only for want of memory.
    pub fn up(&self, alloc: Global, levels: usize) -> Result<Place, Memory>
        requires { levels ≤ length self.now }
        ensures { IfOk result (λ p. p ≡ drop levels self.now) }
    {
        let parts = copy_parts(alloc, &self.parts.as_slice()[levels..])?;
        Ok(Place { parts })
    }
}

impl Copies for Place {
    fn copy(&self, alloc: Global) -> Result<Place, Memory> {
        let parts = copy_parts(alloc, self.parts.as_slice())?;
        Ok(Place { parts })
    }
}

/// Whether the second path begins with the first, each given by its parts with the last one first.
fn begins(parts: &[Text], other: &[Text]) -> bool
    ensures { result ≡ holds parts.now other.now }
{
    let mut rest = other;
    while parts != rest {
        match rest {
            [] => return false,
            [_, above @ ..] => rest = above,
        }
    }
    true
}

/// Copies of these parts.
fn copy_parts(alloc: Global, parts: &[Text]) -> Result<Vec<Text>, Memory>
    ensures { IfOk result (λ copied. copied.items ≡ parts.now) }
{
    let mut copied = Vec::new(alloc);
    for part in parts {
        copied.push(part.copy(alloc)?)?;
    }
    Ok(copied)
}

/// Puts a part before the others, where it isn't empty.
fn put_part(part: Text, parts: &mut Vec<Text>) -> Result<(), Memory>
    ensures { OnOk result (parts.new.items ≡ push_part part parts.old.items) }
{
    if part.len() > 0 {
        parts.insert(0, part)?;
    }
    Ok(())
}

/// Appends the parts, the first one last, each behind a slash.
fn put_parts(parts: &[Text], out: &mut Text) -> Result<(), Memory>
    ensures { OnOk result (out.new ≡ out.old ++ parts_spelled parts.now) }
{
    let mut left = parts.len();
    while left > 0 {
        left -= 1;
        out.push(b'/')?;
        out.append(parts[left].as_slice())?;
    }
    Ok(())
}
