ghost use Rattle.std.specs.Prelude.{◌≡◌, ◌∷◌, [], IsTrue, flat_map};
ghost use Rattle.std.specs.List.{All};
ghost use Rattle.acl_text.specs.Puts.{Puts};
ghost use Rattle.acl_platform.specs.Combinations.{IsSized};
ghost use Rattle.ipt_lang.specs.Texts.{remark_rows};
ghost use Rattle.ipr_lang.specs.Texts.{chain_rows, declared_rows, text_of};
ghost use Rattle.gen_iptables.specs.Sections.{chain_of, section_of};

use acl_packet::{Family, Hook};
use acl_platform::{Filter, RemarkForm, RemarkRows, Rule, RuleForm, put_rules};
use acl_rows::{Each, RowForm, Rows};
use acl_text::{Out, PutFault};
use gen_iptables::{ChainRules, policy_of};
use ipr_lang::{ChainDeclaration, CommitRow, SectionHead};
use ipt_lang::{JumpRow, RemarkRow};

/// Puts the text of the section that the filter becomes.
pub(crate) fn put_section<O: Out>(filter: &Filter, out: &mut O) -> Result<(), PutFault>
    requires open { IsTrue (O.is_open out.old) }
    requires sized { All IsSized filter.now.rules }
    ensures { Puts O.Out out.old out.new (text_of (section_of filter.now ∷ [])) result }
{
    let hook = filter.hook;
    let family = filter.families.first_family();
    let rules = filter.rules.as_slice();
    let head = SectionHead {
        hook,
        family,
        accept: policy_of(filter.ending),
    };
    let declared = Each {
        items: rules,
        form: Declared { hook },
    };
    let chains = ChainsRows {
        hook,
        family,
        rules,
    };
    (head, (declared, (chains, CommitRow))).put_rows(out)
}

// The chains of a hook, as they are declared.
#[derive(Drop)]
struct Declared {
    hook: Hook,
}

impl RowForm<Rule> for Declared {
    ghost item_rows = { λ f rule. declared_rows f.hook rule.name };

    fn put_item<O: Out>(&self, rule: &Rule, out: &mut O) -> Result<(), PutFault> {
        let row = ChainDeclaration {
            hook: self.hook,
            name: rule.name.as_slice(),
        };
        row.put_rows(out)
    }
}

// The chains of rules.
#[derive(Drop)]
struct ChainsRows<'a> {
    hook: Hook,
    family: Family,
    rules: &'a [Rule],
    ghost sized: { All IsSized rules.now },
}

impl<'a> Rows for ChainsRows<'a> {
    ghost rows = { λ c. flat_map (λ r. chain_rows c.hook c.family (chain_of r)) c.rules.now };

    fn put_rows<O: Out>(&self, out: &mut O) -> Result<(), PutFault> {
        let form = OfHook {
            hook: self.hook,
            family: self.family,
        };
        put_rules(self.rules, &form, out)
    }
}

// A rule of the filter, as a chain of the hook.
#[derive(Drop)]
struct OfHook {
    hook: Hook,
    family: Family,
}

impl RuleForm for OfHook {
    ghost rule_rows = { λ f rule. chain_rows f.hook f.family (chain_of rule) };

    fn put_rule<O: Out>(&self, rule: &Rule, out: &mut O) -> Result<(), PutFault> {
        let hook = self.hook;
        let remarks = RemarkRows { rule, form: self };
        let rules = ChainRules {
            hook,
            family: self.family,
            rule,
        };
        let jump = JumpRow {
            hook,
            name: rule.name.as_slice(),
        };
        (remarks, (rules, jump)).put_rows(out)
    }
}

impl RemarkForm for OfHook {
    ghost remark_rows = { λ f text. remark_rows text };

    fn put_remark<O: Out>(&self, text: &[u8], out: &mut O) -> Result<(), PutFault> {
        RemarkRow { text }.put_rows(out)
    }
}
