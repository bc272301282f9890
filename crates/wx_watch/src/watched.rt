// What is watched, and how.
ghost use Rattle.std.specs.Prelude.{◌≡◌, true, false};

use std::alloc::Global;
use std::fmt;
use wx_text::{Copies, Memory, Text};
use wx_words::{Spelled, TextPath, Words, put_row, put_word, read_rows};

/// How files are watched.
#[derive(Clone, Copy, Debug, Default, PartialEq, Eq)]
pub enum Watcher {
    #[default]
    Native,
    /// By polling. The interval in nanoseconds has no effect.
    Poll(u64),
}

/// A path that is watched, with all below it where it is recursive.
#[derive(Drop, Debug, PartialEq, Eq, PartialOrd, Ord, Hash)]
pub struct WatchedPath {
    pub path: TextPath,
    pub recursive: bool,
}

impl WatchedPath {
    /// This path and all below it.
    pub fn recursive(path: TextPath) -> WatchedPath
        ensures { result ≡ record { path = path; recursive = true } }
    {
        WatchedPath {
            path,
            recursive: true,
        }
    }

    /// This path and its direct entries.
    pub fn non_recursive(path: TextPath) -> WatchedPath
        ensures { result ≡ record { path = path; recursive = false } }
    {
        WatchedPath {
            path,
            recursive: false,
        }
    }

    /// The path.
    pub fn as_ref(&self) -> &TextPath
        ensures { result.now ≡ self.now.path }
    {
        &self.path
    }
}

impl From<TextPath> for WatchedPath {
    ghost from_gives = { λ path watched. watched ≡ record { path = path; recursive = true } };

    fn from(path: TextPath) -> WatchedPath {
        WatchedPath::recursive(path)
    }
}

impl From<Text> for WatchedPath {
    ghost from_gives = { λ text watched. watched ≡ record { path = text; recursive = true } };

    fn from(text: Text) -> WatchedPath {
        WatchedPath::recursive(TextPath::new(text))
    }
}

impl From<WatchedPath> for TextPath {
    ghost from_gives = { λ watched path. path ≡ watched.path };

    fn from(watched: WatchedPath) -> TextPath {
        watched.path
    }
}

impl fmt::Display for Watcher {
    fn fmt<W: fmt::Write>(&self, f: &mut fmt::Formatter<W>) -> fmt::Result {
        match self {
            Watcher::Native => f.write_str("native"),
            Watcher::Poll(interval) => write!(f, "poll {interval}"),
        }
    }
}

impl Copies for WatchedPath {
    fn copy(&self, alloc: Global) -> Result<WatchedPath, Memory> {
        Ok(WatchedPath {
            path: self.path.copy(alloc)?,
            recursive: self.recursive,
        })
    }
}

#[tactic(auto, using(wx_words::specs::LineLaws::behinds), unfolding(crate::specs::Watched::watcher))]
impl Spelled for Watcher {
    ghost use Rattle.wx_watch.specs.Watched.{watcher};

    ghost spelling = { watcher };

    fn put_after(&self, out: &mut Text) -> Result<(), Memory> {
        match self {
            Watcher::Native => put_word(b"native", out),
            Watcher::Poll(interval) => put_row(b"poll", &interval, out),
        }
    }

    fn read(alloc: Global, line: &mut Words) -> Result<Option<Watcher>, Memory> {
        read_rows!(alloc, line;
            b"native" => Watcher::Native,
            b"poll" (interval) => Watcher::Poll(interval),
        )
    }
}

#[tactic(auto, using(wx_words::specs::LineLaws::behinds), unfolding(crate::specs::Watched::watched))]
impl Spelled for WatchedPath {
    ghost use Rattle.wx_watch.specs.Watched.{watched};

    ghost spelling = { watched };

    fn put_after(&self, out: &mut Text) -> Result<(), Memory> {
        let word = if self.recursive { b"r" } else { b"n" };
        put_row(word, &&self.path, out)
    }

    fn read(alloc: Global, line: &mut Words) -> Result<Option<WatchedPath>, Memory> {
        read_rows!(alloc, line;
            b"r" (path) => WatchedPath::recursive(path),
            b"n" (path) => WatchedPath::non_recursive(path),
        )
    }
}
