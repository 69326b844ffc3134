ghost use Rattle.std.specs.Prelude.{◌≡◌, ◌<◌, ◌≤◌, Some, IsTrue, length, take, flat_map};
ghost use Rattle.std.specs.List.{All};
ghost use Rattle.acl_text.specs.Puts.{Puts};
ghost use Rattle.acl_rows.specs.Rows.{text_of_rows};
ghost use Rattle.acl_platform.specs.Combinations.{IsSized};

use crate::kept_texts::KeptText;
use crate::rule_rows::{RuleForm, put_rules};
use crate::rules::Rule;
use acl_rows::{Piece, Rows};
use acl_text::{Out, PutFault};
use std::alloc::Global;

/// Rules in a form, and the text of those in front, where it is kept.
#[derive(Drop)]
pub struct RuleTexts<'a, F: RuleForm + Drop> {
    pub form: F,
    pub rules: &'a [Rule],
    front: Option<Front>,
    ghost sized: { All IsSized rules.now },
    ghost within: { (f : _) → front ≡ Some f → f.count ≤ length rules.now },
    ghost kept: { (f : _) → front ≡ Some f
        → f.text.bytes.items ≡ text_of_rows (flat_map (F.rule_rows form) (take f.count rules.now)) },
}

// The text of so many rules, from the first on.
#[derive(Drop)]
struct Front {
    text: KeptText,
    count: usize,
}

impl<'a, F: RuleForm + Drop> RuleTexts<'a, F> {
    /// The rules, and no text of them.
    pub fn new(form: F, rules: &'a [Rule]) -> RuleTexts<'a, F>
        requires { All IsSized rules.now }
        ensures form { result.form ≡ form }
        ensures rules { result.rules.now ≡ rules.now }
    {
        RuleTexts {
            form,
            rules,
            front: None,
        }
    }

    /// Other rules, and no text of them.
    pub fn turn_to(&mut self, rules: &'a [Rule])
        requires { All IsSized rules.now }
        ensures form { self.new.form ≡ self.old.form }
        ensures rules { self.new.rules.now ≡ rules.now }
    {
        self.rules = rules;
        self.front = None;
    }

    /// Keeps the text of the rules in front, as far as there is room and memory for it.
    pub fn keep(&mut self, alloc: Global)
        ensures form { self.new.form ≡ self.old.form }
        ensures rules { self.new.rules.now ≡ self.old.rules.now }
    {
        if self.front.is_none() {
            self.front = Some(front_of(alloc, self.rules, &self.form));
        }
    }
}

impl<'a, F: RuleForm + Drop> Rows for RuleTexts<'a, F> {
    ghost rows = { λ t. flat_map (F.rule_rows t.form) t.rules.now };

    fn put_rows<O: Out>(&self, out: &mut O) -> Result<(), PutFault> {
        match &self.front {
            Some(front) => {
                front.text.put_into(out)?;
                put_rules(&self.rules[front.count..], &self.form, out)
            }
            None => put_rules(self.rules, &self.form, out),
        }
    }
}

// The text of the rules in front: of all, or of those for which there is room and memory.
fn front_of<F: RuleForm>(alloc: Global, rules: &[Rule], form: &F) -> Front
    requires { All IsSized rules.now }
    ensures within { result.count ≤ length rules.now }
    ensures kept { result.text.bytes.items
        ≡ text_of_rows (flat_map (F.rule_rows form.now) (take result.count rules.now)) }
{
    let mut text = KeptText::new(alloc);
    for (i, rule) in rules.iter().enumerate() {
        let end = text.end();
        if form.put_rule(rule, &mut text).is_err() {
            text.cut_back(end);
            return Front { text, count: i };
        }
    }
    Front {
        text,
        count: rules.len(),
    }
}
