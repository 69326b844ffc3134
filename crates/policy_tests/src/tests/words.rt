ghost use Rattle.acl_words.specs.LineTexts.{HasNoFeed};

use crate::tests::files::text;
use acl_text::{Memory, Place};
use acl_words::{Form, Lines, PolicyWords, Token, WordBytes, WordList};
use std::alloc::Global;

fn shown(alloc: Global, word: &Token<'_>) -> Result<String, Memory> {
    let form = match word.form() {
        Form::Plain => "w",
        Form::Keyword => "k",
        Form::Begin => "b",
        Form::End => "e",
        Form::Quoted => "q",
        Form::Unclosed => "u",
        Form::Bad => "x",
    };
    Ok(format!(in alloc; "{}{form}{};", word.place().line, text(word.text()))?)
}

// The words of two lines, each with its line and form.
fn words_of(alloc: Global, first: &[u8], second: &[u8]) -> Result<String, Memory>
    requires first { HasNoFeed first.now }
    requires second { HasNoFeed second.now }
{
    let mut lines = Lines::new(alloc);
    lines.push(Place { file: 0, line: 1 }, first)?;
    lines.push(Place { file: 0, line: 2 }, second)?;
    let mut words = PolicyWords::new(&lines);
    let mut all = String::new(alloc);
    while let Some(word) = words.next() {
        let part = shown(alloc, &word)?;
        all.push_str(part.as_str())?;
    }
    Ok(all)
}

fn are_words(alloc: Global, first: &[u8], second: &[u8], words: &str) -> Result<bool, Memory>
    requires first { HasNoFeed first.now }
    requires second { HasNoFeed second.now }
{
    Ok(words_of(alloc, first, second)?.as_str() == words)
}

// Two lines, and their words.
static LINES: [(&[u8], &[u8], &str); 4] = [
    (
        b":: ::: a:::b a:b",
        b"2001:db8::1",
        "1k::;1k::;1w:;1ka::;1w:b;1wa:b;2k2001:db8::;2w1;",
    ),
    (b"a{b}# \x01\"", b"c#\"", "1wa;1b{;1wb;1e};2wc;"),
    (b"x\"a # b\r", b"c\"d \"e", "1wx;1qa # b\r\nc;2wd;2u\";"),
    (b"x::\x01y a\x02::", b"\"\"", "1kx::;1x\x01;1x\x02;2q;"),
];

#[test]
fn words_have_forms_and_places(rt: HostRuntime) {
    for (first, second, words) in &LINES {
        assert!(rt;
            are_words(rt.alloc(), first, second, words) == Ok(true),
            "{words}"
        );
    }
}

fn is_kept(alloc: Global, text: &[u8]) -> Result<bool, Memory> {
    Ok(WordBytes::from_slice(alloc, text)?.as_slice() == text)
}

// The last two words have 24 and 25 bytes.
static KEPT: [&[u8]; 4] = [
    b"",
    b"w",
    b"of-24-bytes-and-not-more",
    b"of-25-bytes-and-no-more..",
];

#[test]
fn bytes_of_words_are_kept(rt: HostRuntime) {
    for text in &KEPT {
        assert!(rt; is_kept(rt.alloc(), text) == Ok(true));
    }
    assert!(rt; WordBytes::new(rt.alloc()).as_slice().is_empty());
}

fn is_filled(alloc: Global, text: &[u8]) -> Result<bool, Memory>
    requires { HasNoFeed text.now }
{
    let mut words = WordList::new(alloc);
    let was_empty = words.is_empty();
    words.push(Place { file: 0, line: 1 }, text)?;
    Ok(was_empty && !words.is_empty())
}

#[test]
fn a_list_is_empty_until_a_word_comes(rt: HostRuntime) {
    assert!(rt; is_filled(rt.alloc(), b"w") == Ok(true));
}
