ghost use Rattle.std.specs.Prelude.{◌≡◌, [], ◌∷◌, None, OnOk, option_map, false, true, length, ◌≤◌};
ghost use Rattle.acl_text.specs.Answers.{Leaves, slip_told};
ghost use Rattle.acl_policy.specs.Policies.{is_mark};
ghost use Rattle.acl_policy.specs.JudgingSteps.{behind_open, still_open, rest_of, KeepsReading};

use crate::clauses::Clause;
use crate::judging::{judge_mark, judge_words};
use crate::states::PolicyState;
use acl_text::Refusal;
use acl_words::{Form, Token};
use std::alloc::Global;

/// As many words are held behind a keyword or brace.
///
/// More of them are judged in parts. A keyword that takes a list goes on with the further words, and each
/// other one is at fault before so many words.
const MOST_HELD: usize = 64;

/// What was read of a policy so far, and the last words of it, which are not judged yet.
pub(crate) struct Judge<'a> {
    pub(crate) state: PolicyState,
    /// The keyword or brace behind which the words stand, where there is one.
    pub(crate) mark: Option<Token<'a>>,
    pub(crate) held: Vec<Token<'a>>,
}

// Where a judge is let go, that is one step, whatever it holds.
impl Drop for Judge<'_> {
    fn drop(self) {
        let Judge { state, mark, held } = self;
        drop(state);
        drop(mark);
        drop(held);
    }
}

/// Whether the form is that of a keyword or a brace.
fn is_mark(form: Form) -> bool
    ensures { result ≡ is_mark form }
{
    matches!(form, Form::Keyword | Form::Begin | Form::End)
}

fn judge_open(
    alloc: Global,
    state: &mut PolicyState,
    mark: Option<&Token<'_>>,
    words: &[Token<'_>],
) -> Result<(), Refusal>
    ensures { Leaves slip_told state.new result
        (behind_open (option_map (λ m. m.now) mark.entry) state.old words.now) }
{
    match mark {
        None => judge_words(alloc, state, words),
        Some(keyword) => {
            let clause = Clause {
                keyword,
                values: words,
            };
            judge_mark(alloc, state, &clause)
        }
    }
}

/// What further words stand behind is left of the mark: the same keyword, and no brace.
fn close_brace(mark: &mut Option<Token<'_>>)
    ensures { mark.new ≡ still_open mark.old }
{
    if let Some(open) = mark {
        if !matches!(open.form(), Form::Keyword) {
            *mark = None;
        }
    }
}

impl<'a> Judge<'a> {
    /// A judge of the words that come behind what was read.
    pub(crate) fn new(alloc: Global, state: PolicyState) -> Judge<'a>
        ensures state { result.state ≡ state }
        ensures mark { result.mark ≡ None }
        ensures held { result.held.items ≡ [] }
    {
        Judge {
            state,
            mark: None,
            held: Vec::new(alloc),
        }
    }

    /// Judges the words that are held.
    pub(crate) fn judge_held(&mut self, alloc: Global) -> Result<(), Refusal>
        ensures state { Leaves slip_told self.new.state result
            (behind_open self.old.mark self.old.state self.old.held.items) }
        ensures mark { OnOk result (self.new.mark ≡ still_open self.old.mark) }
        ensures held { OnOk result (self.new.held.items ≡ []) }
    {
        judge_open(
            alloc,
            &mut self.state,
            self.mark.as_ref(),
            self.held.as_slice(),
        )?;
        close_brace(&mut self.mark);
        self.held.clear();
        Ok(())
    }

    /// Judges the words that are held, of which there are many, where another comes.
    fn judge_many(&mut self, alloc: Global, word: &Token<'a>) -> Result<(), Refusal>
        requires many { 8 ≤ length self.old.held.items }
        requires value { is_mark word.now.form ≡ false }
        ensures { KeepsReading (λ ws. rest_of self.old (word.now ∷ ws))
            (λ ws. rest_of self.new (word.now ∷ ws)) result }
    {
        self.judge_held(alloc)?;
        Ok(())
    }

    /// Judges the words that are held, where there are as many as may be and another comes.
    fn make_room(&mut self, alloc: Global, word: &Token<'a>) -> Result<(), Refusal>
        requires { is_mark word.now.form ≡ false }
        ensures { KeepsReading (λ ws. rest_of self.old (word.now ∷ ws))
            (λ ws. rest_of self.new (word.now ∷ ws)) result }
    {
        if self.held.len() >= MOST_HELD {
            self.judge_many(alloc, word)
        } else {
            Ok(())
        }
    }

    fn take_value(&mut self, alloc: Global, word: Token<'a>) -> Result<(), Refusal>
        requires { is_mark word.form ≡ false }
        ensures { KeepsReading (λ ws. rest_of self.old (word.entry ∷ ws)) (λ ws. rest_of self.new ws) result }
    {
        self.make_room(alloc, &word)?;
        self.held.push(word)?;
        Ok(())
    }

    fn take_mark(&mut self, alloc: Global, word: Token<'a>) -> Result<(), Refusal>
        requires { is_mark word.form ≡ true }
        ensures { KeepsReading (λ ws. rest_of self.old (word.entry ∷ ws)) (λ ws. rest_of self.new ws) result }
    {
        self.judge_held(alloc)?;
        self.mark = Some(word);
        Ok(())
    }

    /// Takes the next word.
    pub(crate) fn take(&mut self, alloc: Global, word: Token<'a>) -> Result<(), Refusal>
        ensures { KeepsReading (λ ws. rest_of self.old (word.entry ∷ ws)) (λ ws. rest_of self.new ws) result }
    {
        if is_mark(word.form()) {
            self.take_mark(alloc, word)
        } else {
            self.take_value(alloc, word)
        }
    }
}
