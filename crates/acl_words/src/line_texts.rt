ghost use Rattle.std.specs.Prelude.{◌≡◌, ◌<◌, ◌+◌, ◌^◌, List, [], ◌∷◌, ◌++◌, length, map, OnOk, OnErr};
ghost use Rattle.acl_text.specs.Cursors.{lines_of};
ghost use Rattle.acl_words.specs.FileLines.{lines_from, with_end};
ghost use Rattle.acl_words.specs.LineTexts.{HasNoFeed, HaveNoFeeds, text_of};
ghost use Rattle.acl_words.specs.Stretches.{places_from, places_of};

use crate::file_texts::{is_ended, line_count};
use crate::line_places::{push_file_places, push_place};
use crate::stretches::Stretch;
use acl_text::{Memory, Place};
use std::alloc::Global;
use std::marker::Model;

/// A list of lines, kept as one text with a line feed behind each line, and the stretches that tell their
/// places. A contract sees the list of the lines.
#[derive(Drop)]
pub struct Lines {
    text: Vec<u8>,
    stretches: Vec<Stretch>,
}

impl Model for Lines {
    ghost use Rattle.std.specs.Prelude.{List};
    ghost use Rattle.acl_text.specs.declared.file_lines.Line.{Line};
    ghost use Rattle.acl_words.specs.LineTexts.{lines_at, AreKept};
    ghost use Rattle.acl_words.specs.Stretches.{places_of};

    ghost Value = { List Line };

    ghost view = { λ s. lines_at (places_of s.stretches.items) s.text.items };

    ghost invariant = { λ s. AreKept (lines_at (places_of s.stretches.items) s.text.items)
        (places_of s.stretches.items) s.text.items };
}

impl Lines {
    /// No lines.
    pub fn new(alloc: Global) -> Lines
        ensures { result ≡ [] }
    {
        Lines {
            text: Vec::new(alloc),
            stretches: Vec::new(alloc),
        }
    }

    /// Makes room for so many bytes more. The lines stay.
    pub(crate) fn make_room(&mut self, bytes: usize) -> Result<(), Memory>
        ensures { self.new ≡ self.old }
    {
        self.text.reserve(bytes)?;
        Ok(())
    }

    /// Adds a line at the end. Where memory is wanted no line is left.
    pub fn push(&mut self, place: Place, text: &[u8]) -> Result<(), Memory>
        requires { HasNoFeed text.now }
        ensures ok { OnOk result (self.new
            ≡ self.old ++ record { place = place; text = text.now } ∷ []) }
        ensures err { OnErr result (self.new ≡ []) }
    {
        match push_line(&mut self.text, &mut self.stretches, place, text) {
            Ok(()) => Ok(()),
            Err(memory) => {
                self.text.clear();
                self.stretches.clear();
                Err(memory)
            }
        }
    }

    /// Adds all lines of a file at the end. Where memory is wanted no line is left.
    pub(crate) fn push_file(&mut self, file: u32, bytes: &[u8]) -> Result<(), Memory>
        requires { length bytes.now + 2 < 2 ^ 32 }
        ensures ok { OnOk result (self.new
            ≡ self.old ++ lines_from file 1 (lines_of bytes.now)) }
        ensures err { OnErr result (self.new ≡ []) }
    {
        match push_file(&mut self.text, &mut self.stretches, file, bytes) {
            Ok(()) => Ok(()),
            Err(memory) => {
                self.text.clear();
                self.stretches.clear();
                Err(memory)
            }
        }
    }

    /// The lines as one text: each with a line feed behind it.
    pub fn text(&self) -> &[u8]
        ensures text { result.now ≡ text_of self.now }
        ensures no_feeds { HaveNoFeeds self.now }
    {
        self.text.as_slice()
    }

    /// The places of the lines.
    pub fn stretches(&self) -> &[Stretch]
        ensures { places_of result.now ≡ map (λ l. l.place) self.now }
    {
        self.stretches.as_slice()
    }
}

fn push_line(
    all: &mut Vec<u8>,
    stretches: &mut Vec<Stretch>,
    place: Place,
    text: &[u8],
) -> Result<(), Memory>
    ensures text { OnOk result (all.new.items ≡ all.old.items ++ text.now ++ 10 ∷ []) }
    ensures places { OnOk result (places_of stretches.new.items
        ≡ places_of stretches.old.items ++ place ∷ []) }
{
    all.extend_from_slice(text)?;
    all.push(b'\n')?;
    push_place(stretches, place)
}

fn push_file(
    all: &mut Vec<u8>,
    stretches: &mut Vec<Stretch>,
    file: u32,
    bytes: &[u8],
) -> Result<(), Memory>
    requires { length bytes.now + 2 < 2 ^ 32 }
    ensures text { OnOk result (all.new.items ≡ all.old.items ++ with_end bytes.now) }
    ensures places { OnOk result (places_of stretches.new.items
        ≡ places_of stretches.old.items ++ places_from file 1 (length (lines_of bytes.now))) }
{
    all.extend_from_slice(bytes)?;
    if !is_ended(bytes) {
        all.push(b'\n')?;
    }
    push_file_places(stretches, file, line_count(bytes))
}
