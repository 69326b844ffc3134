//! Words at the front of a text, with what stands behind them at hand.
ghost use Rattle.std.specs.Prelude.{◌≡◌, ◌≤◌, ◌<◌, ◌∷◌, [], take, drop, length, IfNone, IfSome};
ghost use Rattle.acl_text.specs.AddressTexts.{IsPrefixText};
ghost use Rattle.acl_text.specs.Cursors.{words_of};
ghost use Rattle.acl_naming.specs.Fronts.{shown};

use crate::byte_runs::{LANES, ink_run, white_front};
use crate::fronts::Front;
use acl_packet::Prefix;
use acl_text::{is_white, next_word, prefix_front};

impl<'a> Front<'a> {
    /// So many bytes of the text.
    #[inline(always)]
    pub fn new(text: &'a [u8], size: usize) -> Front<'a>
        requires { size ≤ length text.now }
        ensures { shown result ≡ take size text.now }
    {
        Front { text, size }
    }

    /// All of the text.
    pub fn whole(text: &'a [u8]) -> Front<'a>
        ensures { shown result ≡ text.now }
    {
        Front {
            text,
            size: text.len(),
        }
    }

    #[inline(always)]
    pub fn as_slice(self) -> &'a [u8]
        ensures { result.now ≡ shown self.entry }
    {
        &self.text[..self.size]
    }

    /// All of the text that it begins.
    #[inline(always)]
    pub fn text(self) -> &'a [u8]
        ensures { take (length (shown self.entry)) result.now ≡ shown self.entry }
    {
        self.text
    }

    #[inline(always)]
    pub fn len(self) -> usize
        ensures { result ≡ length (shown self.entry) }
    {
        self.size
    }

    #[inline(always)]
    fn until(self, end: usize) -> Front<'a>
        requires { end ≤ length (shown self) }
        ensures { shown result ≡ take end (shown self.entry) }
    {
        Front {
            text: self.text,
            size: end,
        }
    }

    #[inline(always)]
    fn behind(self, start: usize) -> Front<'a>
        requires { start ≤ length (shown self) }
        ensures { shown result ≡ drop start (shown self.entry) }
    {
        Front {
            text: &self.text[start..],
            size: self.size - start,
        }
    }

    // Where the word ends that it begins with, as one look tells it. `None` says nothing.
    #[inline(always)]
    fn word_end(self) -> Option<usize>
        ensures { IfSome result (λ n. (0 < n) × (n ≤ length (shown self.entry))
            × (words_of (shown self.entry) ≡ take n (shown self.entry) ∷ words_of (drop n (shown self.entry)))) }
    {
        if self.text.len() < LANES {
            return None;
        }
        let end = ink_run(self.text);
        if end == 0 || end == LANES || end > self.size {
            return None;
        }
        if end == self.size || is_white(self.text[end]) {
            Some(end)
        } else {
            None
        }
    }

    /// The next word, and what stands behind it.
    #[inline(never)]
    pub fn next_word(self) -> Option<(Front<'a>, Front<'a>)>
        ensures some { IfSome result
            (λ p. words_of (shown self.entry) ≡ shown p.0 ∷ words_of (shown p.1)) }
        ensures shorter { IfSome result (λ p. length (shown p.1) < length (shown self.entry)) }
        ensures none { IfNone result (words_of (shown self.entry) ≡ []) }
    {
        match next_word(self.as_slice(), 0) {
            Some((start, end)) => Some((self.until(end).behind(start), self.behind(end))),
            None => None,
        }
    }

    /// The next word and what stands behind it, where one look tells it. `None` says nothing.
    #[inline(always)]
    pub fn quick_word(self) -> Option<(Front<'a>, Front<'a>)>
        ensures some { IfSome result
            (λ p. words_of (shown self.entry) ≡ shown p.0 ∷ words_of (shown p.1)) }
        ensures shorter { IfSome result (λ p. length (shown p.1) < length (shown self.entry)) }
    {
        let rest = self.behind(white_front(self.as_slice()));
        if rest.size == 0 {
            return None;
        }
        match rest.word_end() {
            Some(end) => Some((rest.until(end), rest.behind(end))),
            None => None,
        }
    }

    /// Whether it begins with a digit or `:`, as most prefixes do. No contract says so.
    #[inline(always)]
    pub fn begins_with_number(self) -> bool {
        matches!(self.text, [b'0'..=b':', ..])
    }

    /// The prefix that it spells, where it can be told at once. `None` says nothing.
    #[inline(always)]
    pub fn prefix(self) -> Option<Prefix>
        ensures { IfSome result (λ p. IsPrefixText (shown self.entry) p) }
    {
        let (prefix, rest) = prefix_front(self.text)?;
        if rest.len() == self.text.len() - self.size {
            Some(prefix)
        } else {
            None
        }
    }
}
