ghost use Rattle.std.specs.Prelude.{◌≡◌, ◌≤◌, [], ◌∷◌, true, length, take, option_map};
ghost use Rattle.std.specs.List.{list_all};
ghost use Rattle.acl_words.specs.Bytes.{is_mark, in_run, is_printed, first_bad, ends_in_colon};
ghost use Rattle.acl_words.specs.ReadingSteps.{first_part, is_inner};
ghost use Rattle.acl_words.specs.Words.{part_word};

use crate::forms::Form;
use crate::tokens::Token;
use acl_text::{Place, is_white};

fn is_mark(byte: u8) -> bool
    ensures { result ≡ is_mark byte }
{
    byte == b'"' || byte == b'#' || byte == b'{' || byte == b'}'
}

/// Whether the byte stands in a word.
fn in_run(byte: u8) -> bool
    ensures { result ≡ in_run byte }
{
    !(is_white(byte) || byte == b'\n') && !is_mark(byte)
}

fn is_printed(byte: u8) -> bool
    ensures { result ≡ is_printed byte }
{
    33 <= byte && byte <= 126
}

/// The first byte that no word may have.
fn first_bad(text: &[u8]) -> Option<&[u8]>
    ensures { option_map (λ bad. bad.now) result
        ≡ option_map (λ b. b ∷ []) (first_bad text.now) }
{
    for (i, byte) in text.iter().enumerate() {
        if !is_printed(*byte) {
            return Some(&text[i..i + 1]);
        }
    }
    None
}

/// The first byte that no word may have. The text begins with so many inner bytes, which are not looked at again.
fn first_bad_behind(inner: usize, text: &[u8]) -> Option<&[u8]>
    requires within { inner ≤ length text.now }
    requires inner { list_all is_inner (take inner text.now) ≡ true }
    ensures { option_map (λ bad. bad.now) result
        ≡ option_map (λ b. b ∷ []) (first_bad text.now) }
{
    first_bad(&text[inner..])
}

fn ends_in_colon(text: &[u8]) -> bool
    ensures { result ≡ ends_in_colon text.now }
{
    text.ends_with(b":")
}

/// The word of a part of a run, which begins with so many inner bytes.
#[tactic(auto, using(crate::proofs::RunLaws::printed_is_run))]
fn part_word<'a>(place: Place, form: Form, text: &'a [u8], inner: usize) -> Token<'a>
    requires within { inner ≤ length text.now }
    requires inner { list_all is_inner (take inner text.now) ≡ true }
    ensures { result ≡ part_word place form text.now }
{
    match first_bad_behind(inner, text) {
        Some(bad) => Token::new(place, Form::Bad, bad),
        None => Token::new(place, form, text),
    }
}

/// The first part of the run that the text begins with, its form, and the text behind it.
///
/// The text begins with so many inner bytes, which are not looked at again.
#[tactic(auto, using(crate::proofs::InnerLaws::behind_inner))]
fn first_part(text: &[u8], inner: usize) -> (Form, &[u8], &[u8])
    requires within { inner ≤ length text.now }
    requires inner { list_all is_inner (take inner text.now) ≡ true }
    ensures parts { (result.0, result.1.now, result.2.now) ≡ first_part [] text.now }
    ensures within { inner ≤ length result.1.now }
    ensures inner { take inner result.1.now ≡ take inner text.now }
{
    for i in inner..text.len() {
        let byte = &text[i];
        if !in_run(*byte) {
            return (Form::Plain, &text[..i], &text[i..]);
        }
        if *byte == b':' && ends_in_colon(&text[..i]) {
            return (Form::Keyword, &text[..i + 1], &text[i + 1..]);
        }
    }
    (Form::Plain, text, &[])
}

/// The word of the first part of the run that the text begins with, and the text behind it.
///
/// The text begins with so many inner bytes. It is apart, since most words are seen at once.
#[inline(never)]
pub(crate) fn first_word<'a>(place: Place, text: &'a [u8], inner: usize) -> (Token<'a>, &'a [u8])
    requires within { inner ≤ length text.now }
    requires inner { list_all is_inner (take inner text.now) ≡ true }
    ensures word { result.0 ≡ part_word place (first_part [] text.now).0 (first_part [] text.now).1 }
    ensures rest { result.1.now ≡ (first_part [] text.now).2 }
{
    let (form, part, behind) = first_part(text, inner);
    (part_word(place, form, part, inner), behind)
}
