ghost use Rattle.std.specs.Prelude.{◌≡◌, ◌++◌, ◌∷◌, ℕ, List, true, take, IfOk};
ghost use Rattle.acl_text.specs.Notes.{is_note, note_of, safe_byte, safe_words, without_end_space};
ghost use Rattle.acl_text.specs.NoteSteps.{has_begun, is_gap, text_left};

use crate::names::is_safe_byte;
use crate::texts::{Bytes, Memory};
use crate::words::is_white;
use std::alloc::{AllocError, Global};

/// The bytes that a note has at most.
const LONGEST: usize = 80;

/// The note of a term, from its comments: their words with one space between, each byte that is not safe
/// made `_`, cut to 80 bytes, less a space at the end.
#[tactic(auto, using(crate::proofs::NoteLaws::note_is_safe), unfolding(crate::specs::Notes::note_of))]
pub fn note(alloc: Global, comments: &[u8]) -> Result<Bytes, Memory>
    ensures exact { IfOk result (λ n. n ≡ note_of comments.now) }
    ensures safe { IfOk result (λ n. is_note n ≡ true) }
{
    let text = safe_front(alloc, comments)?;
    let front = front_of(&text);
    Bytes::from_slice(alloc, without_end_space(front))
}

fn front_of(text: &[u8]) -> &[u8]
    ensures { result.now ≡ take 80 text.now }
{
    if text.len() < LONGEST {
        text
    } else {
        &text[..LONGEST]
    }
}

#[tactic(auto, using(crate::proofs::NoteLaws::end_space))]
fn without_end_space(text: &[u8]) -> &[u8]
    ensures { result.now ≡ without_end_space text.now }
{
    match text.split_last() {
        None => text,
        Some((last, front)) => { if *last == b' ' { front } else { text } }
    }
}

// The safe words, or as much of them as a note can have.
fn safe_front(alloc: Global, comments: &[u8]) -> Result<Vec<u8>, AllocError>
    ensures { IfOk result (λ v. take 80 v.items ≡ take 80 (safe_words comments.now)) }
{
    let mut text = Vec::new(alloc);
    let mut owed = false;
    for byte in comments {
        owed = push_byte(&mut text, owed, *byte)?;
        if LONGEST <= text.len() {
            return Ok(text);
        }
    }
    Ok(text)
}

// Adds a byte of a word, behind the space that is owed. Answers whether a space is owed then: where the byte
// parts words, and some word has begun.
fn push_byte(text: &mut Vec<u8>, owed: bool, byte: u8) -> Result<bool, AllocError>
    ensures { IfOk result (λ o. (rest : List ℕ) →
        text.new.items ++ text_left o (has_begun text.new.items) rest
        ≡ text.old.items ++ text_left owed (has_begun text.old.items) (byte ∷ rest)) }
{
    if is_gap(byte) {
        return Ok(!text.is_empty());
    }
    if owed {
        text.push(b' ')?;
    }
    text.push(safe_byte(byte))?;
    Ok(false)
}

fn is_gap(byte: u8) -> bool
    ensures { result ≡ is_gap byte }
{
    byte == b'\n' || is_white(byte)
}

fn safe_byte(byte: u8) -> u8
    ensures { result ≡ safe_byte byte }
{
    if is_safe_byte(byte) { byte } else { b'_' }
}
