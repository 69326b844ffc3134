ghost use Rattle.std.specs.Prelude.{◌≡◌};
ghost use Rattle.acl_words.specs.Tokens.{IsRun};
ghost use Rattle.acl_words.specs.Words.{word};

use crate::forms::Form;
use acl_text::Place;
use std::marker::Model;

/// A word of a policy: where it stands, how it is meant, and its bytes, which are those of the policy's text.
#[derive(Drop)]
pub struct Token<'a> {
    place: Place,
    form: Form,
    text: &'a [u8],
}

impl<'a> Model for Token<'a> {
    ghost use Rattle.acl_words.specs.Tokens as spec;

    ghost Value = { spec.Token };

    ghost view = { λ t. record { place = t.place; form = t.form; text = t.text.now } };

    ghost invariant = { λ t. spec.IsRun t.form t.text.now };
}

impl<'a> Token<'a> {
    pub(crate) fn new(place: Place, form: Form, text: &'a [u8]) -> Token<'a>
        requires { IsRun form text.now }
        ensures { result ≡ word place form text.now }
    {
        Token { place, form, text }
    }

    /// The place of the line where the word begins.
    pub fn place(&self) -> Place
        ensures { result ≡ self.now.place }
    {
        self.place
    }

    pub fn form(&self) -> Form
        ensures { result ≡ self.now.form }
    {
        self.form
    }

    pub fn text(&self) -> &'a [u8]
        ensures exact { result.now ≡ self.now.text }
        ensures run { IsRun self.now.form self.now.text }
    {
        self.text
    }
}
