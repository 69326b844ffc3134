ghost use Rattle.std.specs.Prelude.{◌≡◌, ◌∷◌, [], IfNone, IfOk, IfSome, drop};
ghost use Rattle.std.specs.List.{join_with_byte};
ghost use Rattle.acl_text.specs.Cuts.{views};
ghost use Rattle.acl_rows.specs.RowSteps.{begins_with, few_in};
ghost use Rattle.acl_rows.specs.Rows.{words_in};

use acl_text::{Memory, split_at_byte};
use std::alloc::{AllocError, Global};
use std::marker::Model;

/// The words of a row that have not been taken. They are cut from its text one by one, so that a row
/// of many words takes no memory.
///
/// A contract sees the list of the words.
#[derive(Drop)]
pub struct RowWords<'a> {
    text: Option<&'a [u8]>,
}

impl<'a> Model for RowWords<'a> {
    ghost use Rattle.std.specs.Prelude.{ℕ, List};
    ghost use Rattle.acl_rows.specs.RowSteps.{words_left};

    ghost Value = { List (List ℕ) };

    ghost view = { λ w. words_left w.text };
}

impl<'a> RowWords<'a> {
    /// The words of the text.
    pub fn new(text: &'a [u8]) -> RowWords<'a>
        ensures { result ≡ words_in text.now }
    {
        RowWords { text: Some(text) }
    }

    /// The same words once more.
    pub fn copy(&self) -> RowWords<'a>
        ensures { result ≡ self.now }
    {
        RowWords { text: self.text }
    }

    /// Takes the next word. `None` exactly where there is none.
    #[tactic(auto, using(crate::proofs::RowLaws::first_word, crate::proofs::RowLaws::last_word))]
    pub fn next(&mut self) -> Option<&'a [u8]>
        ensures some { IfSome result (λ word. self.old ≡ word.now ∷ self.new) }
        ensures none { IfNone result ((self.old ≡ []) × (self.new ≡ [])) }
    {
        let text = self.text?;
        match split_at_byte(text, b' ') {
            Some((word, rest)) => {
                self.text = Some(rest);
                Some(word)
            }
            None => {
                self.text = None;
                Some(text)
            }
        }
    }

    /// The first few words, more than a row can have whose meaning lies in their number.
    pub fn few(&self, alloc: Global) -> Result<Vec<&'a [u8]>, Memory>
        ensures { IfOk result (λ few. views few.items ≡ few_in self.now) }
    {
        match self.text {
            Some(text) => Ok(few_of(alloc, text)?),
            None => Ok(Vec::new(alloc)),
        }
    }

    /// Whether the first word is that one.
    pub fn begins_with(&self, word: &[u8]) -> bool
        ensures { result ≡ begins_with word.now self.now }
    {
        let mut rest = self.copy();
        match rest.next() {
            Some(first) => first == word,
            None => false,
        }
    }

    /// The words behind the first one.
    pub fn behind_first(self) -> RowWords<'a>
        ensures { result ≡ drop 1 self.entry }
    {
        let mut rest = self;
        rest.next();
        rest
    }

    /// The words with one space between.
    #[tactic(auto, using(crate::proofs::RowLaws::text_of_words))]
    pub fn text(&self) -> &'a [u8]
        ensures { result.now ≡ join_with_byte 32 self.now }
    {
        match self.text {
            Some(text) => text,
            None => &[],
        }
    }
}

fn few_of<'a>(alloc: Global, text: &'a [u8]) -> Result<Vec<&'a [u8]>, AllocError>
    ensures { IfOk result (λ few. views few.items ≡ few_in (words_in text.now)) }
{
    text.split(|b| *b == b' ').take(9).collect(alloc)
}
