ghost use Rattle.std.specs.Prelude.{◌≡◌, ◌≢◌, true, false, [], ◌∷◌, ◌++◌, IfOk, IfSome, IfNone, OnOk, OnErr, drop, map};
ghost use Rattle.acl_text.specs.Cursors.{lines_of};
ghost use Rattle.acl_words.specs.KeptWords.{IsFull, words_in};
ghost use Rattle.acl_words.specs.LineTexts.{HasNoFeed};

use crate::line_words::{LineWords, widened};
use crate::place_lists::PlacesLeft;
use crate::short_texts::{FEW, MANY};
use crate::word_bytes::WordBytes;
use crate::word_texts::WordText;
use acl_text::{Memory, Place, split_at_byte};
use std::alloc::Global;
use std::marker::Model;

/// A word of a policy, or the bytes of a string, and where it stands.
#[derive(Drop)]
pub struct Word {
    pub place: Place,
    pub text: WordBytes,
}

/// The same, with bytes that another holds.
#[derive(Drop)]
pub struct WordRef<'a> {
    place: Place,
    text: &'a [u8],
}

impl<'a> Model for WordRef<'a> {
    ghost use Rattle.acl_words.specs.declared.word_lists.Word.{Word};

    ghost Value = { Word };

    ghost view = { λ w. record { place = w.place; text = w.text.now } };
}

impl Word {
    /// The same word, whose bytes stay here.
    pub fn borrowed(&self) -> WordRef<'_>
        ensures { result ≡ self.now }
    {
        WordRef {
            place: self.place,
            text: self.text.as_slice(),
        }
    }
}

impl<'a> WordRef<'a> {
    /// The place of the line where the word begins.
    pub fn place(&self) -> Place
        ensures { result ≡ self.now.place }
    {
        self.place
    }

    pub fn text(&self) -> &'a [u8]
        ensures { result.now ≡ self.now.text }
    {
        self.text
    }
}

/// Where the words of a list are kept.
#[derive(Drop)]
pub(crate) enum KeptWords {
    /// There are none.
    Nowhere,
    Here(LineWords<FEW>),
    Line(Box<LineWords<MANY>>),
    Text(Box<WordText>),
}

impl KeptWords {
    fn iter(&self) -> WordsLeft<'_>
        ensures { result ≡ words_in self.now }
    {
        match self {
            KeptWords::Nowhere => WordsLeft {
                rest: &[],
                places: PlacesLeft::none(),
            },
            KeptWords::Here(words) => words.iter(),
            KeptWords::Line(words) => words.iter(),
            KeptWords::Text(words) => words.iter(),
        }
    }

    fn text(&self) -> &[u8]
        ensures { lines_of result.now ≡ map (λ w. w.text) (words_in self.now) }
    {
        match self {
            KeptWords::Nowhere => &[],
            KeptWords::Here(words) => words.text(),
            KeptWords::Line(words) => words.text(),
            KeptWords::Text(words) => words.text(),
        }
    }

    // Adds a word at the end. Where memory is wanted the words are as they were.
    fn push(&mut self, alloc: Global, place: Place, text: &[u8]) -> Result<(), Memory>
        requires { HasNoFeed text.now }
        ensures ok { OnOk result (words_in self.new
            ≡ words_in self.old ++ record { place = place; text = text.now } ∷ []) }
        ensures err { OnErr result (words_in self.new ≡ words_in self.old) }
        ensures full { IsFull self.old → IsFull self.new }
    {
        match self {
            KeptWords::Nowhere => *self = first_word(alloc, place, text)?,
            KeptWords::Here(words) => {
                if !words.push(place, text) {
                    *self = in_line(alloc, words, place, text)?;
                }
            }
            KeptWords::Line(words) => {
                if !words.push(place, text) {
                    *self = in_text(alloc, words, place, text)?;
                }
            }
            KeptWords::Text(words) => words.push(place, text)?,
        }
        Ok(())
    }
}

// The one word of a list.
fn first_word(alloc: Global, place: Place, text: &[u8]) -> Result<KeptWords, Memory>
    requires { HasNoFeed text.now }
    ensures { IfOk result (λ k. words_in k ≡ record { place = place; text = text.now } ∷ []) }
{
    if text.len() < FEW {
        return Ok(KeptWords::Here(LineWords::of_one(place, text)));
    }
    in_line(alloc, &LineWords::starting_at(place), place, text)
}

// The words and one more, which have memory.
fn in_line(
    alloc: Global,
    words: &LineWords<FEW>,
    place: Place,
    text: &[u8],
) -> Result<KeptWords, Memory>
    requires { HasNoFeed text.now }
    ensures { IfOk result (λ k. words_in k
        ≡ words.now ++ record { place = place; text = text.now } ∷ []) }
{
    let mut line = Box::new(alloc, widened(words))?;
    if line.push(place, text) {
        Ok(KeptWords::Line(line))
    } else {
        in_text(alloc, &line, place, text)
    }
}

// The words and one more, with memory for any words.
fn in_text(
    alloc: Global,
    words: &LineWords<MANY>,
    place: Place,
    text: &[u8],
) -> Result<KeptWords, Memory>
    requires { HasNoFeed text.now }
    ensures { IfOk result (λ k. words_in k
        ≡ words.now ++ record { place = place; text = text.now } ∷ []) }
{
    let mut all = words.to_text(alloc)?;
    all.push(place, text)?;
    Ok(KeptWords::Text(Box::new(alloc, all)?))
}

/// A list of words without line feeds. One without words, as most lists of a term are, takes no memory, and
/// neither does one of a few short words. A contract sees the list of the words.
#[derive(Drop)]
pub struct WordList {
    alloc: Global,
    kept: KeptWords,
}

impl Model for WordList {
    ghost use Rattle.std.specs.Prelude.{List};
    ghost use Rattle.acl_words.specs.declared.word_lists.Word.{Word};

    ghost Value = { List Word };

    ghost use Rattle.acl_words.specs.KeptWords.{IsFull, words_in};

    ghost view = { λ s. words_in s.kept };

    ghost invariant = { λ s. IsFull s.kept };
}

impl WordList {
    /// No words.
    pub fn new(alloc: Global) -> WordList
        ensures { result ≡ [] }
    {
        WordList {
            alloc,
            kept: KeptWords::Nowhere,
        }
    }

    /// Adds a word at the end. Where memory is wanted the list is as it was.
    pub fn push(&mut self, place: Place, text: &[u8]) -> Result<(), Memory>
        requires { HasNoFeed text.now }
        ensures ok { OnOk result (self.new
            ≡ self.old ++ record { place = place; text = text.now } ∷ []) }
        ensures err { OnErr result (self.new ≡ self.old) }
    {
        self.kept.push(self.alloc, place, text)
    }

    /// The words in order.
    pub fn iter(&self) -> WordsLeft<'_>
        ensures { result ≡ self.now }
    {
        self.kept.iter()
    }

    /// Whether there are no words.
    pub fn is_empty(&self) -> bool
        ensures none { result ≡ true → self.now ≡ [] }
        ensures some { result ≡ false → self.now ≢ [] }
    {
        matches!(&self.kept, KeptWords::Nowhere)
    }

    /// The words as one text, each with a line feed behind it.
    ///
    /// The lines of the text are the texts of the words. So where two lists have the same text, they have the same words in
    /// the same order, whatever their places.
    pub fn text(&self) -> &[u8]
        ensures { lines_of result.now ≡ map (λ w. w.text) self.now }
    {
        self.kept.text()
    }

    /// The first word. `None` exactly where there is none.
    pub fn first(&self) -> Option<WordRef<'_>>
        ensures some { IfSome result (λ w. self.now ≡ w ∷ drop 1 self.now) }
        ensures none { IfNone result (self.now ≡ []) }
    {
        self.iter().next()
    }
}

/// The words of a list that are not yet given. A contract sees their list.
#[derive(Drop)]
pub struct WordsLeft<'a> {
    pub(crate) rest: &'a [u8],
    pub(crate) places: PlacesLeft<'a>,
}

impl<'a> Model for WordsLeft<'a> {
    ghost use Rattle.std.specs.Prelude.{List};
    ghost use Rattle.acl_words.specs.declared.word_lists.Word.{Word};
    ghost use Rattle.acl_words.specs.WordTextSteps.{words_at};

    ghost Value = { List Word };

    ghost view = { λ s. words_at s.places s.rest.now };
}

impl<'a> Iterator for WordsLeft<'a> {
    type Item = WordRef<'a>;

    ghost use Rattle.std.specs.Iterator.{YieldsFirst, item_count};

    ghost next_gives = { YieldsFirst (λ s. s) };

    ghost remaining = { item_count (λ s. s) };

    #[tactic(auto, using(crate::proofs::WordTextLaws::front_left, crate::proofs::WordTextLaws::nothing_left))]
    fn next(&mut self) -> Option<WordRef<'a>> {
        let (text, rest) = split_at_byte(self.rest, b'\n')?;
        self.rest = rest;
        let place = self.places.next()?;
        Some(WordRef { place, text })
    }
}
