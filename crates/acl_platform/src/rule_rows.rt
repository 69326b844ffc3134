ghost use Rattle.std.specs.Prelude.{◌≡◌, List, IsTrue, flat_map};
ghost use Rattle.std.specs.List.{All};
ghost use Rattle.acl_text.specs.Puts.{Puts};
ghost use Rattle.acl_rows.specs.Rows.{Row, text_of_rows};
ghost use Rattle.acl_platform.specs.declared.rules.Rule.{Rule};
ghost use Rattle.acl_platform.specs.Combinations.{IsSized};

use crate::rules::Rule;
use acl_text::{Out, PutFault};

/// How rules are written as rows, for rules whose sets have the tops of their kind.
pub trait RuleForm {
    ghost rule_rows: { Self → Rule → List Row };

    /// Puts the lines of the rule's rows.
    fn put_rule<O: Out>(&self, rule: &Rule, out: &mut O) -> Result<(), PutFault>
        requires open { IsTrue (O.is_open out.old) }
        requires sized { IsSized rule.now }
        ensures { Puts O.Out out.old out.new (text_of_rows (rule_rows self.now rule.now)) result };
}

/// Puts the lines of each rule in the form, in order.
pub fn put_rules<F: RuleForm, O: Out>(rules: &[Rule], form: &F, out: &mut O) -> Result<(), PutFault>
    requires open { IsTrue (O.is_open out.old) }
    requires sized { All IsSized rules.now }
    ensures { Puts O.Out out.old out.new
        (text_of_rows (flat_map (F.rule_rows form.now) rules.now)) result }
{
    for rule in rules {
        form.put_rule(rule, out)?;
    }
    Ok(())
}
