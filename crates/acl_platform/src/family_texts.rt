ghost use Rattle.std.specs.Prelude.{◌≡◌};
ghost use Rattle.std.specs.List.{All};
ghost use Rattle.acl_platform.specs.Combinations.{IsSized};

use crate::rule_rows::RuleForm;
use crate::rule_texts::RuleTexts;
use crate::rules::Rule;
use crate::same_rules::are_same;
use acl_packet::{Families, Family};
use std::alloc::Global;

/// The rules of a filter in the form of each family, for filters in a row: where the next filter has
/// the same rules, their text is kept.
#[derive(Drop)]
pub struct FamilyTexts<'a, F: RuleForm + Drop> {
    pub v4: RuleTexts<'a, F>,
    pub v6: RuleTexts<'a, F>,
    pub ghost same: { v6.rules.now ≡ v4.rules.now },
}

impl<'a, F: RuleForm + Drop> FamilyTexts<'a, F> {
    /// The rules of the first filter, in the form of each family.
    pub fn new(v4: F, v6: F, rules: &'a [Rule]) -> FamilyTexts<'a, F>
        requires { All IsSized rules.now }
        ensures v4 { result.v4.form ≡ v4 }
        ensures v6 { result.v6.form ≡ v6 }
        ensures rules { result.v4.rules.now ≡ rules.now }
    {
        FamilyTexts {
            v4: RuleTexts::new(v4, rules),
            v6: RuleTexts::new(v6, rules),
        }
    }

    /// Turns to the rules of the next filter, which is for the families.
    pub fn turn_to(&mut self, alloc: Global, families: Families, rules: &'a [Rule])
        requires { All IsSized rules.now }
        ensures v4 { self.new.v4.form ≡ self.old.v4.form }
        ensures v6 { self.new.v6.form ≡ self.old.v6.form }
        ensures rules { self.new.v4.rules.now ≡ rules.now }
    {
        if are_same(self.v4.rules, rules) {
            self.keep(alloc, families);
        } else {
            self.v4.turn_to(rules);
            self.v6.turn_to(rules);
        }
    }

    fn keep(&mut self, alloc: Global, families: Families)
        ensures v4 { self.new.v4.form ≡ self.old.v4.form }
        ensures v6 { self.new.v6.form ≡ self.old.v6.form }
        ensures rules { self.new.v4.rules.now ≡ self.old.v4.rules.now }
    {
        if families.covers(Family::V4) {
            self.v4.keep(alloc);
        }
        if families.covers(Family::V6) {
            self.v6.keep(alloc);
        }
    }
}
