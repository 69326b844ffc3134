ghost use Rattle.std.specs.Prelude.{◌≡◌, ◌∷◌, [], IsTrue, flat_map};
ghost use Rattle.std.specs.List.{All};
ghost use Rattle.acl_text.specs.Puts.{Puts};
ghost use Rattle.acl_platform.specs.Combinations.{IsSized};
ghost use Rattle.acl_packet.specs.Addresses.{first_family};
ghost use Rattle.ipt_lang.specs.Texts.{chain_rows, remark_rows, text_of};
ghost use Rattle.gen_iptables.specs.ChainRowSteps.{head_of};
ghost use Rattle.gen_iptables.specs.Sections.{chain_of, policy_of, section_of};

use crate::rule_rows::ChainRules;
use acl_packet::{Family, Hook};
use acl_platform::{Filter, RemarkForm, RemarkRows, Rule, RuleForm, put_rules};
use acl_rows::Rows;
use acl_target::Ending;
use acl_text::{Out, PutFault};
use ipt_lang::{ChainHead, JumpRow, RemarkRow, SectionHead};

/// Puts the text of the section that the filter becomes.
pub(crate) fn put_section<O: Out>(filter: &Filter, out: &mut O) -> Result<(), PutFault>
    requires open { IsTrue (O.is_open out.old) }
    requires sized { All IsSized filter.now.rules }
    ensures { Puts O.Out out.old out.new (text_of (section_of filter.now ∷ [])) result }
{
    let chains = ChainsRows {
        hook: filter.hook,
        family: filter.families.first_family(),
        rules: filter.rules.as_slice(),
    };
    (head_of(filter), chains).put_rows(out)
}

fn head_of(filter: &Filter) -> SectionHead
    ensures { result ≡ head_of filter.now }
{
    SectionHead {
        hook: filter.hook,
        family: filter.families.first_family(),
        accept: policy_of(filter.ending),
    }
}

/// Whether the hook's policy is to accept, where that is what a filter does at its end, or to drop.
/// `None` where the filter says no policy.
pub fn policy_of(ending: Ending) -> Option<bool>
    ensures { result ≡ policy_of ending }
{
    match ending {
        Ending::Accept => Some(true),
        Ending::Deny => Some(false),
        Ending::Left | Ending::Neighbours => None,
    }
}

// The chains of rules.
#[derive(Drop)]
struct ChainsRows<'a> {
    hook: Hook,
    family: Family,
    rules: &'a [Rule],
    ghost sized: { All IsSized rules.now },
}

impl<'a> Rows for ChainsRows<'a> {
    ghost rows = { λ c. flat_map (λ r. chain_rows c.hook c.family (chain_of r)) c.rules.now };

    fn put_rows<O: Out>(&self, out: &mut O) -> Result<(), PutFault> {
        let form = OfHook {
            hook: self.hook,
            family: self.family,
        };
        put_rules(self.rules, &form, out)
    }
}

// A rule of the filter, as a chain of the hook.
#[derive(Drop)]
struct OfHook {
    hook: Hook,
    family: Family,
}

impl RuleForm for OfHook {
    ghost rule_rows = { λ f rule. chain_rows f.hook f.family (chain_of rule) };

    fn put_rule<O: Out>(&self, rule: &Rule, out: &mut O) -> Result<(), PutFault> {
        let hook = self.hook;
        let name = rule.name.as_slice();
        let remarks = RemarkRows { rule, form: self };
        let rules = ChainRules {
            hook,
            family: self.family,
            rule,
        };
        let jump = JumpRow { hook, name };
        let chain = (ChainHead { hook, name }, (rules, jump));
        (remarks, chain).put_rows(out)
    }
}

impl RemarkForm for OfHook {
    ghost remark_rows = { λ f text. remark_rows text };

    fn put_remark<O: Out>(&self, text: &[u8], out: &mut O) -> Result<(), PutFault> {
        RemarkRow { text }.put_rows(out)
    }
}
