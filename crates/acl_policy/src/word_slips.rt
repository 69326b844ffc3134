ghost use Rattle.acl_text.specs.Refusals.{IsRefusalBy};
ghost use Rattle.acl_policy.specs.Slips.{slip_of, slip_for};

use acl_text::{Code, Refusal};
use acl_words::{Form, Token};
use std::alloc::Global;

/// The refusal by the slip of the code at the word.
pub(crate) fn refusal_at(alloc: Global, code: Code, word: &Token<'_>) -> Refusal
    ensures { IsRefusalBy (slip_of code word.now) result }
{
    Refusal::at(alloc, code, word.place(), word.text())
}

/// The refusal at a word that is not taken: by the code, or by what is wrong with the word itself.
pub(crate) fn refusal_for(alloc: Global, code: Code, word: &Token<'_>) -> Refusal
    ensures { IsRefusalBy (slip_for code word.now) result }
{
    match word.form() {
        Form::Bad => refusal_at(alloc, Code::BadByte, word),
        Form::Unclosed => refusal_at(alloc, Code::Syntax, word),
        _ => refusal_at(alloc, code, word),
    }
}
