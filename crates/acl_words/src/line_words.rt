ghost use Rattle.std.specs.Prelude.{◌≡◌, ◌≤◌, ◌<◌, true, false, [], ◌∷◌, ◌++◌, IfOk, length, map};
ghost use Rattle.acl_text.specs.Cursors.{lines_of};
ghost use Rattle.acl_words.specs.LineTexts.{HasNoFeed};

use crate::place_lists::{MOST_REPEATED, PlaceList, PlacesLeft};
use crate::short_texts::{self, FEW, MANY, ShortText};
use crate::word_lists::WordsLeft;
use crate::word_texts::WordText;
use acl_text::{Memory, Place};
use std::alloc::Global;
use std::marker::Model;

/// A few words without line feeds, all of one line: most lists of a term have no others. They stand in their
/// place, as one short text with a line feed behind each word, of at most so many bytes. A contract sees the
/// list of the words.
#[derive(Drop)]
pub(crate) struct LineWords<const ROOM: usize> {
    place: Place,
    count: u8,
    text: ShortText<ROOM>,
}

impl<const ROOM: usize> Model for LineWords<ROOM> {
    ghost use Rattle.std.specs.Prelude.{List, ◌≤◌};
    ghost use Rattle.std.proofs.Math.ListN.{replicate};
    ghost use Rattle.acl_words.specs.declared.word_lists.Word.{Word};
    ghost use Rattle.acl_words.specs.WordTextSteps.{AreKept, words_at};

    ghost Value = { List Word };

    ghost view = { λ s. words_at (replicate s.count s.place) s.text };

    ghost invariant = { λ s. (s.count ≤ 32) × AreKept (words_at (replicate s.count s.place) s.text)
        (replicate s.count s.place) s.text };
}

impl<const ROOM: usize> LineWords<ROOM> {
    /// No words so far. All are to stand at the place.
    pub(crate) fn starting_at(place: Place) -> LineWords<ROOM>
        ensures { result ≡ [] }
    {
        LineWords {
            place,
            count: 0,
            text: ShortText::new(),
        }
    }

    /// The one word, for which there is room.
    #[inline(always)]
    pub(crate) fn of_one(place: Place, text: &[u8]) -> LineWords<ROOM>
        requires line { HasNoFeed text.now }
        requires fits { length text.now < ROOM }
        requires small { ROOM ≤ 255 }
        ensures { result ≡ record { place = place; text = text.now } ∷ [] }
    {
        let mut short = ShortText::new();
        short.push_line(text);
        LineWords {
            place,
            count: 1,
            text: short,
        }
    }

    /// Adds the word at the end, where it stands at the place of the others and there is room for it.
    pub(crate) fn push(&mut self, place: Place, text: &[u8]) -> bool
        requires line { HasNoFeed text.now }
        requires small { ROOM ≤ 255 }
        ensures added { result ≡ true → self.new
            ≡ self.old ++ record { place = place; text = text.now } ∷ [] }
        ensures same { result ≡ false → self.new ≡ self.old }
    {
        if place != self.place || self.count >= MOST_REPEATED || text.len() >= self.text.room() {
            return false;
        }
        self.text.push_line(text);
        self.count += 1;
        true
    }

    /// The same words, with memory for more of them.
    pub(crate) fn to_text(&self, alloc: Global) -> Result<WordText, Memory>
        ensures { IfOk result (λ t. t ≡ self.now) }
    {
        let places = PlaceList::repeated(alloc, self.place, self.count)?;
        let short = self.text.as_slice();
        let mut text = Vec::with_capacity(alloc, short.len().saturating_mul(2))?;
        text.extend_from_slice(short)?;
        Ok(WordText { text, places })
    }

    pub(crate) fn iter(&self) -> WordsLeft<'_>
        ensures { result ≡ self.now }
    {
        WordsLeft {
            rest: self.text.as_slice(),
            places: PlacesLeft::repeated(self.place, self.count),
        }
    }

    /// The words as one text, each with a line feed behind it.
    pub(crate) fn text(&self) -> &[u8]
        ensures { lines_of result.now ≡ map (λ w. w.text) self.now }
    {
        self.text.as_slice()
    }
}

/// The same words, with room for more of them.
pub(crate) fn widened(words: &LineWords<FEW>) -> LineWords<MANY>
    ensures { result ≡ words.now }
{
    LineWords {
        place: words.place,
        count: words.count,
        text: short_texts::widened(&words.text),
    }
}
