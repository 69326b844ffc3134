ghost use Rattle.std.specs.Prelude.{◌≡◌, [], ◌∷◌, ◌++◌, OnOk, OnErr, length, map, take};
ghost use Rattle.acl_text.specs.Cursors.{lines_of};
ghost use Rattle.acl_words.specs.LineTexts.{HasNoFeed};

use crate::place_lists::PlaceList;
use crate::word_lists::WordsLeft;
use acl_text::{Memory, Place};
use std::marker::Model;

/// Words without line feeds, kept as one text with a line feed behind each word, and the steps that tell
/// their places: some three bytes a word beside its own. A contract sees the list of the words.
#[derive(Drop)]
pub(crate) struct WordText {
    pub(crate) text: Vec<u8>,
    pub(crate) places: PlaceList,
}

impl Model for WordText {
    ghost use Rattle.std.specs.Prelude.{List};
    ghost use Rattle.acl_words.specs.declared.word_lists.Word.{Word};
    ghost use Rattle.acl_words.specs.WordTextSteps.{AreKept, words_at};

    ghost Value = { List Word };

    ghost view = { λ s. words_at s.places s.text.items };

    ghost invariant = { λ s. AreKept (words_at s.places s.text.items) s.places s.text.items };
}

/// Adds the word to the text and the places. Where memory is wanted some of it may stand at the end of the text.
fn push_word(
    all: &mut Vec<u8>,
    places: &mut PlaceList,
    place: Place,
    text: &[u8],
) -> Result<(), Memory>
    ensures text { OnOk result (all.new.items ≡ all.old.items ++ text.now ++ 10 ∷ []) }
    ensures places { OnOk result (places.new ≡ places.old ++ place ∷ []) }
    ensures old_text { OnErr result (take (length all.old.items) all.new.items ≡ all.old.items) }
    ensures old_places { OnErr result (places.new ≡ places.old) }
{
    all.reserve(text.len().saturating_add(1))?;
    all.extend_from_slice(text)?;
    all.push(b'\n')?;
    places.push(place)
}

impl WordText {
    /// Adds a word at the end. Where memory is wanted the words are as they were.
    pub(crate) fn push(&mut self, place: Place, text: &[u8]) -> Result<(), Memory>
        requires { HasNoFeed text.now }
        ensures ok { OnOk result (self.new
            ≡ self.old ++ record { place = place; text = text.now } ∷ []) }
        ensures err { OnErr result (self.new ≡ self.old) }
    {
        let length = self.text.len();
        match push_word(&mut self.text, &mut self.places, place, text) {
            Ok(()) => Ok(()),
            Err(memory) => {
                self.text.truncate(length);
                Err(memory)
            }
        }
    }

    pub(crate) fn iter(&self) -> WordsLeft<'_>
        ensures { result ≡ self.now }
    {
        WordsLeft {
            rest: self.text.as_slice(),
            places: self.places.iter(),
        }
    }

    /// The words as one text, each with a line feed behind it.
    pub(crate) fn text(&self) -> &[u8]
        ensures { lines_of result.now ≡ map (λ w. w.text) self.now }
    {
        self.text.as_slice()
    }
}
