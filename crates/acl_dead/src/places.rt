ghost use Rattle.std.specs.Prelude.{◌≡◌, ℕ, ◌+◌, ◌*◌, ◌<◌, ◌&&◌, ◌||◌, ◌==◌, nat_lt, true, false, IsTrue, ◌↔◌, IfOk, List, length, slice_index, EachIndex};
ghost use Rattle.acl_dead.specs.PlaceSteps.{has, Shared, NoneIn, words_for};

use acl_text::Memory;
use std::alloc::Global;
use std::marker::Model;

/// A set of places, 64 to a word. A contract sees the words.
#[derive(Drop)]
pub struct Places {
    words: Vec<u64>,
}

impl Model for Places {
    ghost Value = { List ℕ };

    ghost view = { λ s. s.words.items };
}

fn all_zero(words: &[u64]) -> bool
    ensures { IsTrue result ↔ EachIndex words.now (λ k. slice_index words.now k ≡ 0) }
{
    words.iter().all(|word| *word == 0)
}

fn is_empty(words: &[u64]) -> bool
    ensures { IsTrue result ↔ NoneIn words.now }
{
    all_zero(words)
}

/// Whether a place is in all three sets.
fn share(words: &[u64], others: &[u64], thirds: &[u64]) -> bool
    requires others { length others.now ≡ length words.now }
    requires thirds { length thirds.now ≡ length words.now }
    ensures { result ≡ true → Shared words.now others.now thirds.now }
{
    for (i, word) in words.iter().enumerate() {
        if word & others[i] & thirds[i] != 0 {
            return true;
        }
    }
    false
}

fn meet(alloc: Global, words: &[u64], others: &[u64]) -> Result<Vec<u64>, Memory>
    requires { length others.now ≡ length words.now }
    ensures length { IfOk result (λ v. length v.items ≡ length words.now) }
    ensures exact { IfOk result (λ v. (b : ℕ) →
        has v.items b ≡ has words.now b && has others.now b) }
{
    let mut out = Vec::with_capacity(alloc, words.len())?;
    for (i, word) in words.iter().enumerate() {
        out.push(word & others[i])?;
    }
    Ok(out)
}

impl Places {
    /// No place, with room for so many.
    pub fn empty(alloc: Global, count: usize) -> Result<Places, Memory>
        ensures length { IfOk result (λ s. length s ≡ words_for count) }
        ensures exact { IfOk result (λ s. (b : ℕ) → has s b ≡ false) }
    {
        Ok(Places {
            words: vec![in alloc; 0; count.div_ceil(64)]?,
        })
    }

    /// The places up to, not with, a number.
    pub fn below(alloc: Global, count: usize) -> Result<Places, Memory>
        ensures length { IfOk result (λ s. length s ≡ words_for count) }
        ensures exact { IfOk result (λ s. (b : ℕ) → has s b ≡ nat_lt b count) }
    {
        let mut out = Places::empty(alloc, count)?;
        for place in 0..count {
            out.insert(place);
        }
        Ok(out)
    }

    /// The same set again.
    pub fn copy(&self, alloc: Global) -> Result<Places, Memory>
        ensures { IfOk result (λ s. s ≡ self.now) }
    {
        Ok(Places {
            words: Vec::from_slice(alloc, &self.words)?,
        })
    }

    /// Puts a place into the set.
    pub fn insert(&mut self, place: usize)
        requires { place < 64 * length self.old }
        ensures length { length self.new ≡ length self.old }
        ensures exact { (b : ℕ) → has self.new b ≡ (b == place) || has self.old b }
    {
        self.words[place / 64] |= 1 << (place % 64);
    }

    /// Whether no place is in the set.
    pub fn is_empty(&self) -> bool
        ensures { IsTrue result ↔ NoneIn self.now }
    {
        is_empty(&self.words)
    }

    /// The places of both sets.
    pub fn meet(&self, alloc: Global, other: &Places) -> Result<Places, Memory>
        requires { length other.now ≡ length self.now }
        ensures length { IfOk result (λ s. length s ≡ length self.now) }
        ensures exact { IfOk result (λ s. (b : ℕ) → has s b ≡ has self.now b && has other.now b) }
    {
        Ok(Places {
            words: meet(alloc, &self.words, &other.words)?,
        })
    }

    /// Whether a place is in all three sets.
    pub fn share(&self, other: &Places, third: &Places) -> bool
        requires other { length other.now ≡ length self.now }
        requires third { length third.now ≡ length self.now }
        ensures { result ≡ true → Shared self.now other.now third.now }
    {
        share(&self.words, &other.words, &third.words)
    }
}
