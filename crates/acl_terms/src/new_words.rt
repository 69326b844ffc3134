ghost use Rattle.std.specs.Prelude.{◌≡◌, [], ◌∷◌, IfNone, IfOk, IfSome, not};
ghost use Rattle.std.specs.List.{list_any};
ghost use Rattle.indexmap.specs.IndexSet.{insert_key};
ghost use Rattle.acl_terms.specs.DistinctSteps.{new_words, same_key};

use acl_policy::{WordList, WordRef, WordsLeft};
use acl_text::{Memory, TextKey};
use indexmap::IndexSet;
use std::alloc::Global;
use std::marker::Model;

/// Most lists have no more words.
const MOST_OFTEN: usize = 16;

/// The one word of a list.
pub(crate) fn only_word(words: &WordList) -> Option<WordRef<'_>>
    ensures { IfSome result (λ w. words.now ≡ w ∷ []) }
{
    let mut left = words.iter();
    let first = left.next()?;
    if left.next().is_some() {
        return None;
    }
    Some(first)
}

/// The words of a list that are not yet given. Where a text stands more than once, only its first word is
/// given. A contract sees the list of the words to come.
pub(crate) struct NewWords<'a> {
    seen: IndexSet<TextKey<'a>>,
    ahead: Option<WordRef<'a>>,
    words: WordsLeft<'a>,
}

impl<'a> Model for NewWords<'a> {
    ghost use Rattle.std.specs.Prelude.{◌≡◌, List, [], ◌++◌, None, option_to_list};
    ghost use Rattle.acl_words.specs.declared.word_lists.Word.{Word};
    ghost use Rattle.acl_terms.specs.DistinctSteps.{new_words, texts_in};

    ghost Value = { List Word };

    ghost view = { λ s. new_words (texts_in s.seen.keys) (option_to_list s.ahead ++ s.words) };

    ghost invariant = { λ s. s.ahead ≡ None → s.words ≡ [] };
}

// Where they are let go, that is one step, whatever they hold.
impl<'a> Drop for NewWords<'a> {
    fn drop(self) {
        let NewWords { seen, ahead, words } = self;
        drop(seen);
        drop(ahead);
        drop(words);
    }
}

// Takes the text, and says whether it is new. Room is made at once for as many texts as most lists have.
fn see<'a>(seen: &mut IndexSet<TextKey<'a>>, text: &'a [u8]) -> Result<bool, Memory>
    ensures added { IfOk result (λ r. r ≡ not (list_any (same_key (record { text = text.entry })) seen.old.keys)) }
    ensures keys { IfOk result (λ r. seen.new.keys ≡ insert_key same_key seen.old.keys (record { text = text.entry })) }
{
    if seen.is_empty() {
        seen.reserve(MOST_OFTEN)?;
    }
    Ok(seen.insert(TextKey { text })?)
}

impl<'a> NewWords<'a> {
    pub(crate) fn new(alloc: Global, words: &'a WordList) -> NewWords<'a>
        ensures { result ≡ new_words [] words.now }
    {
        let mut words = words.iter();
        NewWords {
            seen: IndexSet::new(alloc),
            ahead: words.next(),
            words,
        }
    }

    /// The next word whose text was not given before. A word that stands alone, as most do, is compared with none.
    pub(crate) fn next(&mut self) -> Result<Option<WordRef<'a>>, Memory>
        ensures some { IfOk result (λ o. IfSome o (λ w. self.old ≡ w ∷ self.new)) }
        ensures none { IfOk result (λ o. IfNone o (self.old ≡ [])) }
    {
        while let Some(word) = self.ahead.take() {
            self.ahead = self.words.next();
            if self.ahead.is_none() && self.seen.is_empty() {
                return Ok(Some(word));
            }
            if see(&mut self.seen, word.text())? {
                return Ok(Some(word));
            }
        }
        Ok(None)
    }
}
