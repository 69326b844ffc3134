ghost use Rattle.std.specs.Prelude.{◌≡◌, ◌≢◌, ◌∷◌, ◌++◌, ◌<◌, ◌≤◌, [], true, false, length, take, IfSome, IfNone};
ghost use Rattle.std.specs.List.{list_all};
ghost use Rattle.acl_words.specs.Stretches.{places_of};
ghost use Rattle.acl_words.specs.Bytes.{in_run};
ghost use Rattle.acl_words.specs.ReadingSteps.{begins_run, is_blank, is_inner, reached, words_on};
ghost use Rattle.acl_words.specs.ScanSteps.{words_left};
ghost use Rattle.acl_words.specs.Tokens.{IsRun};
ghost use Rattle.acl_words.specs.Words.{Between, word};

use crate::forms::Form;
use crate::inner_runs::{inner_count, is_inner};
use crate::places::Places;
use crate::runs::first_word;
use crate::stretches::Stretch;
use crate::tokens::Token;
use acl_text::{is_white, split_at_byte};

/// The text that is left, and the places of its lines.
#[derive(Drop)]
pub(crate) struct Scan<'a> {
    rest: &'a [u8],
    places: Places<'a>,
}

fn is_blank(byte: u8) -> bool
    ensures { result ≡ is_blank byte }
{
    is_white(byte) || byte == b'\n'
}

impl<'a> Scan<'a> {
    pub(crate) fn new(text: &'a [u8], stretches: &'a [Stretch]) -> Scan<'a>
        ensures { words_left result ≡ words_on Between (reached (places_of stretches.now)) text.now }
    {
        Scan {
            rest: text,
            places: Places::new(stretches),
        }
    }

    /// Passes a byte between words.
    #[inline(always)]
    #[tactic(auto, using(crate::proofs::ReadingLaws::blank_read))]
    fn pass_blank(&mut self, byte: u8, behind: &'a [u8])
        requires text { self.old.rest.now ≡ byte ∷ behind.now }
        requires blank { is_blank byte ≡ true }
        ensures words { words_left self.new ≡ words_left self.old }
        ensures less { length self.new.rest.now < length self.old.rest.now }
    {
        self.places.pass(byte);
        self.rest = behind;
    }

    /// Passes the byte behind a brace or a string, where it is a space or a line feed, as most are.
    #[inline(always)]
    fn pass_end(&mut self)
        ensures { words_left self.new ≡ words_left self.old }
    {
        let rest = self.rest;
        match rest {
            [b' ', behind @ ..] => self.pass_blank(b' ', behind),
            [b'\n', behind @ ..] => self.pass_blank(b'\n', behind),
            _ => {}
        }
    }

    /// Passes a comment with the end of its line.
    #[tactic(auto, using(crate::proofs::ReadingLaws::comment_read, crate::proofs::ReadingLaws::last_comment_read, acl_text::proofs::CursorLaws::cut_shorter))]
    fn pass_comment(&mut self, behind: &'a [u8])
        requires { self.old.rest.now ≡ 35 ∷ behind.now }
        ensures words { words_left self.new ≡ words_left self.old }
        ensures less { length self.new.rest.now < length self.old.rest.now }
    {
        match split_at_byte(behind, b'\n') {
            Some((_, next_line)) => {
                self.places.pass(b'\n');
                self.rest = next_line;
            }
            None => self.rest = &[],
        }
    }

    /// The word of one byte.
    #[inline(always)]
    fn byte_word(&mut self, form: Form, behind: &'a [u8]) -> Token<'a>
        requires some { 0 < length self.old.rest.now }
        requires run { IsRun form (take 1 self.old.rest.now) }
        ensures word { result ≡ word self.old.places.place form (take 1 self.old.rest.now) }
        ensures rest { self.new.rest.now ≡ behind.now }
        ensures places { self.new.places ≡ self.old.places }
    {
        let byte = &self.rest[..1];
        self.rest = behind;
        Token::new(self.places.here(), form, byte)
    }

    /// The string whose first quote is passed.
    #[tactic(auto, using(crate::proofs::ReadingLaws::string_read, crate::proofs::ReadingLaws::open_string_read))]
    fn string(&mut self, behind: &'a [u8]) -> Token<'a>
        requires { self.old.rest.now ≡ 34 ∷ behind.now }
        ensures { words_left self.old ≡ result ∷ words_left self.new }
    {
        match split_at_byte(behind, b'"') {
            Some((text, next)) => {
                let place = self.places.here();
                self.places.pass_all(text);
                self.rest = next;
                Token::new(place, Form::Quoted, text)
            }
            None => self.byte_word(Form::Unclosed, &[]),
        }
    }

    /// The word of the inner bytes, behind which their run ends.
    #[inline(always)]
    #[tactic(auto, using(crate::proofs::InnerParts::plain_read, crate::proofs::InnerParts::inner_has_no_feed))]
    fn plain_word(&mut self, inner: &'a [u8], next: &'a [u8]) -> Token<'a>
        requires begins { begins_run self.old.rest.now ≡ true }
        requires text { self.old.rest.now ≡ inner.now ++ next.now }
        requires inner { list_all is_inner inner.now ≡ true }
        requires ends { begins_run next.now ≡ false }
        ensures words { words_left self.old ≡ result ∷ words_left self.new }
        ensures rest { self.new.rest.now ≡ next.now }
    {
        self.rest = next;
        Token::new(self.places.here(), Form::Plain, inner)
    }

    /// The keyword of the inner bytes and the two colons behind them.
    #[inline(always)]
    #[tactic(auto, using(crate::proofs::InnerParts::keyword_read))]
    fn keyword(&mut self, inner: &'a [u8], next: &'a [u8]) -> Token<'a>
        requires text { self.old.rest.now ≡ inner.now ++ 58 ∷ 58 ∷ next.now }
        requires inner { list_all is_inner inner.now ≡ true }
        ensures words { words_left self.old ≡ result ∷ words_left self.new }
        ensures rest { self.new.rest.now ≡ next.now }
    {
        let text = &self.rest[..inner.len() + 2];
        self.rest = next;
        Token::new(self.places.here(), Form::Keyword, text)
    }

    /// The first part of a run that begins with so many inner bytes.
    #[tactic(auto, using(crate::proofs::ReadingLaws::part_read))]
    fn any_part(&mut self, byte: u8, behind: &'a [u8], inner: usize) -> Token<'a>
        requires text { self.old.rest.now ≡ byte ∷ behind.now }
        requires run { in_run byte ≡ true }
        requires within { inner ≤ length self.old.rest.now }
        requires inner { list_all is_inner (take inner self.old.rest.now) ≡ true }
        ensures { words_left self.old ≡ result ∷ words_left self.new }
    {
        let (word, next) = first_word(self.places.here(), self.rest, inner);
        self.rest = next;
        word
    }

    /// The first part of a run. Where it is a usual word with a usual blank behind it, that is passed with it.
    ///
    /// Of most words all bytes are inner ones, or all but a keyword's colons.
    #[inline(always)]
    fn part(&mut self, byte: u8, behind: &'a [u8]) -> Token<'a>
        requires text { self.old.rest.now ≡ byte ∷ behind.now }
        requires run { in_run byte ≡ true }
        ensures { words_left self.old ≡ result ∷ words_left self.new }
    {
        let (inner, next) = self.rest.split_at(inner_count(self.rest));
        match next {
            [b' ', line @ ..] => {
                let word = self.plain_word(inner, next);
                self.pass_blank(b' ', line);
                word
            }
            [b'\n', next_line @ ..] => {
                let word = self.plain_word(inner, next);
                self.pass_blank(b'\n', next_line);
                word
            }
            [b':', b':', b' ', line @ ..] => {
                let word = self.keyword(inner, &next[2..]);
                self.pass_blank(b' ', line);
                word
            }
            _ => self.any_part(byte, behind, inner.len()),
        }
    }

    /// The word that begins with the byte.
    #[inline(always)]
    #[tactic(auto, using(crate::proofs::ReadingLaws::in_run_is))]
    fn word(&mut self, byte: u8, behind: &'a [u8]) -> Token<'a>
        requires text { self.old.rest.now ≡ byte ∷ behind.now }
        requires word { is_blank byte ≡ false }
        requires no_comment { byte ≢ 35 }
        ensures { words_left self.old ≡ result ∷ words_left self.new }
    {
        match byte {
            b'{' => self.byte_word(Form::Begin, behind),
            b'}' => self.byte_word(Form::End, behind),
            b'"' => self.string(behind),
            _ => self.any_part(byte, behind, 0),
        }
    }

    /// The next word.
    #[inline(always)]
    #[tactic(auto, using(crate::proofs::InnerLaws::inner_runs))]
    pub(crate) fn next(&mut self) -> Option<Token<'a>>
        ensures some { IfSome result (λ t. words_left self.old ≡ t ∷ words_left self.new) }
        ensures none { IfNone result ((words_left self.old ≡ []) × (words_left self.new ≡ [])) }
    {
        while let Some((byte, behind)) = self.rest.split_first() {
            if *byte == b' ' {
                self.pass_blank(*byte, behind);
            } else if is_inner(*byte) {
                return Some(self.part(*byte, behind));
            } else if is_blank(*byte) {
                self.pass_blank(*byte, behind);
            } else if *byte == b'#' {
                self.pass_comment(behind);
            } else {
                let word = self.word(*byte, behind);
                self.pass_end();
                return Some(word);
            }
        }
        None
    }
}
