ghost use Rattle.std.specs.Prelude.{◌≡◌, ◌++◌, IfOk, OnOk, map};
ghost use Rattle.std.specs.Str.{bytes_eq};
ghost use Rattle.acl_text.specs.Answers.{Gives, slip_told};
ghost use Rattle.acl_policy.specs.Values.{
  is_action,
  is_option,
  is_logging,
  is_icmp_type,
  is_icmp_code,
  is_plain,
  is_quoted,
  text_fits,
  form_fits,
  is_value,
  ArePlain,
  word_of,
  all_values,
  some_values,
  one_value,
};

use crate::clauses::Clause;
use crate::word_slips::{refusal_at, refusal_for};
use acl_host::read_day;
use acl_packet::{Family, icmp_number, protocol_number, read_u8};
use acl_text::{Code, Memory, Refusal, is_name};
use acl_words::{Form, Token, Word, WordBytes, WordList};
use std::alloc::Global;

/// What the values of a keyword are: but for the first two, words of some kind.
#[derive(Clone, Copy, PartialEq, Eq)]
pub enum Takes {
    /// A string.
    String,
    /// A word or a string.
    Any,
    Name,
    Action,
    Protocol,
    IcmpType,
    IcmpCode,
    Opt,
    Logging,
    Day,
}

/// Whether the word has that text.
pub(crate) fn is_text(word: &Token<'_>, text: &[u8]) -> bool
    ensures { result ≡ bytes_eq word.now.text text.now }
{
    word.text() == text
}

fn is_action(text: &[u8]) -> bool
    ensures { result ≡ is_action text.now }
{
    if text == b"accept".as_slice() || text == b"deny".as_slice() {
        return true;
    }
    text == b"reject".as_slice() || text == b"reject-with-tcp-rst".as_slice()
}

fn is_option(text: &[u8]) -> bool
    ensures { result ≡ is_option text.now }
{
    if text == b"established".as_slice() || text == b"tcp-established".as_slice() {
        return true;
    }
    text == b"tcp-initial".as_slice() || text == b"rst".as_slice()
}

fn is_logging(text: &[u8]) -> bool
    ensures { result ≡ is_logging text.now }
{
    text == b"true".as_slice() || text == b"True".as_slice() || text == b"syslog".as_slice()
}

fn is_icmp_type(text: &[u8]) -> bool
    ensures { result ≡ is_icmp_type text.now }
{
    icmp_number(Family::V4, text).is_some() || icmp_number(Family::V6, text).is_some()
}

fn is_icmp_code(text: &[u8]) -> bool
    ensures { result ≡ is_icmp_code text.now }
{
    read_u8(text, u8::MAX).is_some()
}

fn text_fits(kind: Takes, text: &[u8]) -> bool
    ensures { result ≡ text_fits kind text.now }
{
    match kind {
        Takes::String => true,
        Takes::Any => true,
        Takes::Name => is_name(text),
        Takes::Action => is_action(text),
        Takes::Protocol => protocol_number(text).is_some(),
        Takes::IcmpType => is_icmp_type(text),
        Takes::IcmpCode => is_icmp_code(text),
        Takes::Opt => is_option(text),
        Takes::Logging => is_logging(text),
        Takes::Day => read_day(text).is_some(),
    }
}

pub(crate) fn is_plain(form: Form) -> bool
    ensures { result ≡ is_plain form }
{
    matches!(form, Form::Plain)
}

fn is_quoted(form: Form) -> bool
    ensures { result ≡ is_quoted form }
{
    matches!(form, Form::Quoted)
}

fn form_fits(kind: Takes, form: Form) -> bool
    ensures { result ≡ form_fits kind form }
{
    match kind {
        Takes::String => is_quoted(form),
        Takes::Any => is_plain(form) || is_quoted(form),
        _ => is_plain(form),
    }
}

/// Whether a keyword of these values takes the word.
pub(crate) fn is_value(kind: Takes, word: &Token<'_>) -> bool
    ensures { result ≡ is_value kind word.now }
{
    form_fits(kind, word.form()) && text_fits(kind, word.text())
}

/// A copy of the word.
pub(crate) fn word_of(alloc: Global, word: &Token<'_>) -> Result<Word, Memory>
    ensures { IfOk result (λ w. w ≡ word_of word.now) }
{
    Ok(Word {
        place: word.place(),
        text: WordBytes::from_slice(alloc, word.text())?,
    })
}

fn check_all(alloc: Global, kind: Takes, values: &[Token<'_>]) -> Result<(), Refusal>
    ensures { Gives slip_told result (all_values kind values.now) }
{
    for value in values {
        if !is_value(kind, value) {
            return Err(refusal_for(alloc, Code::Value, value));
        }
    }
    Ok(())
}

/// Checks that the keyword has values, and that each of them is one that it takes.
pub(crate) fn check_values(alloc: Global, kind: Takes, clause: &Clause<'_>) -> Result<(), Refusal>
    ensures { Gives slip_told result
        (some_values kind clause.now.keyword.now clause.now.values.now) }
{
    match clause.values {
        [] => Err(refusal_at(alloc, Code::Missing, clause.keyword)),
        [_, ..] => check_all(alloc, kind, clause.values),
    }
}

/// Checks that the keyword has one value, which is one that it takes.
pub(crate) fn check_one(alloc: Global, kind: Takes, clause: &Clause<'_>) -> Result<(), Refusal>
    ensures { Gives slip_told result (one_value kind clause.now.keyword.now clause.now.values.now) }
{
    match clause.values {
        [] => Err(refusal_at(alloc, Code::Missing, clause.keyword)),
        [value, ..] if !is_value(kind, value) => { Err(refusal_for(alloc, Code::Value, value)) }
        [_] => Ok(()),
        [_, second, ..] => Err(refusal_for(alloc, Code::Value, second)),
    }
}

/// Adds values that are no strings.
pub(crate) fn push_all(words: &mut WordList, values: &[Token<'_>]) -> Result<(), Memory>
    requires { ArePlain values.now }
    ensures { OnOk result (words.new ≡ words.old ++ map word_of values.now) }
{
    for value in values {
        words.push(value.place(), value.text())?;
    }
    Ok(())
}
