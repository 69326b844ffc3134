ghost use Rattle.std.specs.Prelude.{◌≡◌, ◌<◌, ◌∷◌, [], length, option_map, IfNone, IfSome};
ghost use Rattle.acl_naming.specs.LineSteps.{IsOfForm, IsSeenLine};
ghost use Rattle.acl_text.specs.Cursors.{first_line, lines_of};
ghost use Rattle.acl_naming.specs.NamingFiles.{bad_byte, is_bad, trimmed, without_comment, without_end};

use crate::byte_runs::{ink_front, plain_front, white_front};
use crate::fronts::Front;
use acl_packet::Prefix;
use acl_text::{is_white, prefix_front, skip_white, split_at_byte};

/// What a line holds, where a first look tells it. A plain line has no comment, no `=` and no bad byte.
#[derive(Clone, Copy)]
pub enum LineForm<'a> {
    /// One word alone, as most lines have; the line is plain.
    Lone(Front<'a>),
    /// The same, where the word is that of a prefix, which is told as well.
    LonePrefix(&'a [u8], Prefix),
    /// The name of a definition, and the text of its items, which is plain.
    Named(Front<'a>, Front<'a>),
    /// Any number of words; the line is plain.
    Plain,
    /// What takes a second look.
    Other,
}

/// The line before its comment.
pub fn without_comment(line: &[u8]) -> &[u8]
    ensures { result.now ≡ without_comment line.now }
{
    match split_at_byte(line, b'#') {
        Some((front, _)) => front,
        None => line,
    }
}

fn is_bad(byte: u8) -> bool
    ensures { result ≡ is_bad byte }
{
    !(33 <= byte && byte <= 126) && !is_white(byte)
}

/// The first byte that neither is white space nor prints.
pub fn bad_byte(text: &[u8]) -> Option<u8>
    ensures { result ≡ bad_byte text.now }
{
    for byte in text {
        if is_bad(*byte) {
            return Some(*byte);
        }
    }
    None
}

fn without_end(text: &[u8]) -> &[u8]
    ensures { result.now ≡ without_end text.now }
{
    let mut end = 0;
    for (i, byte) in text.iter().enumerate() {
        if !is_white(*byte) {
            end = i + 1;
        }
    }
    &text[..end]
}

/// The text without white space at its ends.
pub fn trimmed(text: &[u8]) -> &[u8]
    ensures { result.now ≡ trimmed text.now }
{
    without_end(skip_white(text))
}

// What stands behind the byte, where the text begins with it.
fn behind_byte(text: &[u8], byte: u8) -> Option<&[u8]>
    ensures { IfSome result (λ rest. text.now ≡ byte ∷ rest.now) }
{
    match text {
        [first, rest @ ..] if *first == byte => Some(rest),
        _ => None,
    }
}

// The first line, its form, and the bytes behind it, where it is one prefix alone. `None` says nothing.
//
// Most lines of long lists are such, and each of their bytes is looked at once.
fn prefix_line(bytes: &[u8]) -> Option<(&[u8], LineForm<'_>, &[u8])>
    ensures { IfSome result (λ p. IsSeenLine bytes.now p.0.now p.1 p.2.now) }
{
    let (front, text) = bytes.split_at(white_front(bytes));
    let (prefix, behind) = prefix_front(text)?;
    let (word, behind) = text.split_at(text.len() - behind.len());
    let (blank, behind) = behind.split_at(white_front(behind));
    let rest = behind_byte(behind, b'\n')?;
    let size = front.len() + word.len() + blank.len();
    Some((&bytes[..size], LineForm::LonePrefix(word, prefix), rest))
}

// The same, where it is one word alone or begins a definition.
fn headed_line(bytes: &[u8]) -> Option<(&[u8], LineForm<'_>, &[u8])>
    ensures { IfSome result (λ p. IsSeenLine bytes.now p.0.now p.1 p.2.now) }
{
    let (front, text) = bytes.split_at(white_front(bytes));
    let end = ink_front(text);
    if end == 0 {
        return None;
    }
    let word = Front::new(text, end);
    let behind = &text[end..];
    let (blank, behind) = behind.split_at(white_front(behind));
    let size = front.len() + end + blank.len();
    if let Some(rest) = behind_byte(behind, b'\n') {
        return Some((&bytes[..size], LineForm::Lone(word), rest));
    }
    let text = behind_byte(behind, b'=')?;
    let end = plain_front(text);
    let rest = behind_byte(&text[end..], b'\n')?;
    let line = &bytes[..size + 1 + end];
    Some((line, LineForm::Named(word, Front::new(text, end)), rest))
}

// The same, where the line is plain.
fn plain_line(bytes: &[u8]) -> Option<(&[u8], LineForm<'_>, &[u8])>
    ensures { IfSome result (λ p. IsSeenLine bytes.now p.0.now p.1 p.2.now) }
{
    let (line, behind) = bytes.split_at(plain_front(bytes));
    let rest = behind_byte(behind, b'\n')?;
    Some((line, LineForm::Plain, rest))
}

fn seen_line(bytes: &[u8]) -> Option<(&[u8], LineForm<'_>, &[u8])>
    ensures { IfSome result (λ p. IsSeenLine bytes.now p.0.now p.1 p.2.now) }
{
    if let Some(seen) = prefix_line(bytes) {
        return Some(seen);
    }
    match headed_line(bytes) {
        Some(seen) => Some(seen),
        None => plain_line(bytes),
    }
}

fn any_line(bytes: &[u8]) -> Option<(&[u8], &[u8])>
    ensures exact { option_map (λ p. (p.0.now, p.1.now)) result ≡ first_line bytes.now }
    ensures shorter { IfSome result (λ p. length p.1.now < length bytes.now) }
{
    match split_at_byte(bytes, b'\n') {
        Some((line, rest)) => Some((line, rest)),
        None if bytes.is_empty() => None,
        None => Some((bytes, &[])),
    }
}

/// The first line, its form, and the bytes behind it.
pub fn next_line(bytes: &[u8]) -> Option<(&[u8], LineForm<'_>, &[u8])>
    ensures some { IfSome result (λ p. lines_of bytes.now ≡ p.0.now ∷ lines_of p.2.now) }
    ensures shorter { IfSome result (λ p. length p.2.now < length bytes.now) }
    ensures form { IfSome result (λ p. IsOfForm p.0.now p.1) }
    ensures none { IfNone result (lines_of bytes.now ≡ []) }
{
    if let Some((line, form, rest)) = seen_line(bytes) {
        return Some((line, form, rest));
    }
    let (line, rest) = any_line(bytes)?;
    Some((line, LineForm::Other, rest))
}
