// What the tags of events hold.
ghost use Rattle.std.specs.Prelude.{◌≡◌, [], ◌∷◌, MatchOption};
ghost use Rattle.wx_keys.specs.Tags.{all_tags, signals, paths, completions};

use std::marker::Model;
use wx_events::{Event, FileType, ProcessEnd, Signal, Tag};
use wx_text::List;
use wx_words::TextPath;

/// The tags of an event, or of several one after the other. Contracts see those that are left.
#[derive(Drop, Debug)]
struct Tags<'a> {
    tags: &'a [Tag],
    events: &'a [Event],
}

impl<'a> Model for Tags<'a> {
    ghost use Rattle.std.specs.Prelude.{List, ◌++◌};
    ghost use Rattle.wx_events.specs.declared.event.Tag.{Tag};
    ghost use Rattle.wx_keys.specs.Tags.{all_tags};

    ghost Value = { List Tag };

    ghost view = { λ t. t.tags.now ++ all_tags t.events.now };
}

impl<'a> Tags<'a> {
    /// Takes the next tag.
    fn next(&mut self) -> Option<&'a Tag>
        ensures { MatchOption result ((self.old ≡ []) × (self.new ≡ [])) (λ tag. self.old ≡ tag.now ∷ self.new) }
    {
        while self.tags.is_empty() {
            let (event, events) = self.events.split_first()?;
            self.tags = event.tags.as_slice();
            self.events = events;
        }
        let (tag, tags) = self.tags.split_first()?;
        self.tags = tags;
        Some(tag)
    }
}

/// The signals that the tags hold, in order. Contracts see those that are left.
#[derive(Drop, Debug)]
pub struct Signals<'a> {
    tags: Tags<'a>,
}

impl<'a> Model for Signals<'a> {
    ghost use Rattle.std.specs.Prelude.{List};
    ghost use Rattle.wx_events.specs.declared.process.Signal.{Signal};
    ghost use Rattle.wx_keys.specs.Tags.{signals};

    ghost Value = { List Signal };

    ghost view = { λ s. signals s.tags };
}

impl<'a> Iterator for Signals<'a> {
    type Item = Signal;

    ghost use Rattle.std.specs.Iterator.{item_count, YieldsFirst};

    ghost next_gives = { YieldsFirst (λ rest. rest) };

    ghost remaining = { item_count (λ rest. rest) };

    fn next(&mut self) -> Option<Signal> {
        while let Some(tag) = self.tags.next() {
            if let Tag::Signal(signal) = tag {
                return Some(*signal);
            }
        }
        None
    }
}

/// The paths that the tags hold, in order, each with what it leads to. Contracts see those that are left.
#[derive(Drop, Debug)]
pub struct Paths<'a> {
    tags: Tags<'a>,
}

impl<'a> Model for Paths<'a> {
    ghost use Rattle.std.specs.Prelude.{List, ℕ, Option};
    ghost use Rattle.wx_events.specs.declared.file_type.FileType.{FileType};
    ghost use Rattle.wx_keys.specs.Tags.{paths};

    ghost Value = { List (List ℕ × Option FileType) };

    ghost view = { λ p. paths p.tags };
}

impl<'a> Iterator for Paths<'a> {
    type Item = (&'a TextPath, Option<FileType>);

    ghost use Rattle.std.specs.Iterator.{item_count, YieldsFirstBy};

    ghost next_gives = { YieldsFirstBy (λ item. (item.0.now, item.1)) (λ rest. rest) };

    ghost remaining = { item_count (λ rest. rest) };

    fn next(&mut self) -> Option<(&'a TextPath, Option<FileType>)> {
        while let Some(tag) = self.tags.next() {
            if let Tag::Path { path, file_type } = tag {
                return Some((path, *file_type));
            }
        }
        None
    }
}

/// The ends of processes that the tags hold, in order, each where it is known. Contracts see those that are left.
#[derive(Drop, Debug)]
pub struct Completions<'a> {
    tags: Tags<'a>,
}

impl<'a> Model for Completions<'a> {
    ghost use Rattle.std.specs.Prelude.{List, Option};
    ghost use Rattle.wx_events.specs.declared.process.ProcessEnd.{ProcessEnd};
    ghost use Rattle.wx_keys.specs.Tags.{completions};

    ghost Value = { List (Option ProcessEnd) };

    ghost view = { λ c. completions c.tags };
}

impl<'a> Iterator for Completions<'a> {
    type Item = Option<ProcessEnd>;

    ghost use Rattle.std.specs.Iterator.{item_count, YieldsFirst};

    ghost next_gives = { YieldsFirst (λ rest. rest) };

    ghost remaining = { item_count (λ rest. rest) };

    fn next(&mut self) -> Option<Option<ProcessEnd>> {
        while let Some(tag) = self.tags.next() {
            if let Tag::ProcessCompletion(end) = tag {
                return Some(*end);
            }
        }
        None
    }
}

/// What has tags: an event, or the events of a batch, one after the other. `Event` stands in a crate below, so what reads
/// its tags is a trait here. None of it takes memory.
pub trait Tagged {
    ghost use Rattle.std.specs.Prelude.{List};
    ghost use Rattle.wx_events.specs.declared.event.Tag.{Tag};

    ghost tags: { Self → List Tag };

    /// The signals that the tags hold, in order.
    fn signals(&self) -> Signals<'_>
        ensures { result ≡ signals (tags self.now) };

    /// The paths that the tags hold, in order, each with what it leads to.
    fn paths(&self) -> Paths<'_>
        ensures { result ≡ paths (tags self.now) };

    /// The ends of processes that the tags hold, in order, each where it is known.
    fn completions(&self) -> Completions<'_>
        ensures { result ≡ completions (tags self.now) };
}

/// The tags of one event.
fn tags_of(event: &Event) -> Tags<'_>
    ensures { result ≡ event.now.tags }
{
    Tags {
        tags: event.tags.as_slice(),
        events: &[],
    }
}

/// The tags of all these events.
fn all_tags(events: &List<Event>) -> Tags<'_>
    ensures { result ≡ all_tags events.now }
{
    Tags {
        tags: &[],
        events: events.as_slice(),
    }
}

impl Tagged for Event {
    ghost tags = { λ event. event.tags };

    fn signals(&self) -> Signals<'_> {
        Signals {
            tags: tags_of(self),
        }
    }

    fn paths(&self) -> Paths<'_> {
        Paths {
            tags: tags_of(self),
        }
    }

    fn completions(&self) -> Completions<'_> {
        Completions {
            tags: tags_of(self),
        }
    }
}

impl Tagged for List<Event> {
    ghost tags = { all_tags };

    fn signals(&self) -> Signals<'_> {
        Signals {
            tags: all_tags(self),
        }
    }

    fn paths(&self) -> Paths<'_> {
        Paths {
            tags: all_tags(self),
        }
    }

    fn completions(&self) -> Completions<'_> {
        Completions {
            tags: all_tags(self),
        }
    }
}
