ghost use Rattle.gen_iptables.specs.Limits.{rule_limit};
ghost use Rattle.gen_iptables.specs.Sections.{entry_count, section_of};
ghost use Rattle.gen_acltool.specs.RestoredFilters.{is_for_speedway};

use crate::restored_rows::put_section;
use acl_platform::{Earlier, Filter, Limit, Platform, Rule, RuleLimits};
use acl_text::{Out, PutFault};
use gen_iptables::Iptables;
use ipr_lang::Restore;

/// The platform of iptables-restore and ip6tables-restore, for filters of iptables that decide all
/// packets. A filter has the section, the entries and the limits that it has on iptables.
pub struct Speedway;

impl RuleLimits for Speedway {
    ghost limit = { rule_limit };

    fn rule_limit(&self, earlier: &Earlier<'_>, rule: &Rule) -> Option<Limit> {
        Iptables.rule_limit(earlier, rule)
    }
}

impl Platform for Speedway {
    type Language = Restore;

    ghost handles = { λ _. is_for_speedway };

    ghost count = { entry_count };

    fn entry_count(&self, filter: &Filter) -> u64 {
        Iptables.entry_count(filter)
    }

    ghost section = { λ _. section_of };

    #[tactic(auto, using(acl_platform::proofs::SoundRules::all_sized))]
    fn put_section<O: Out>(&self, filter: &Filter, out: &mut O) -> Result<(), PutFault> {
        put_section(filter, out)
    }

    #[tactic(auto, using(crate::proofs::RestoredSections::section_is_spelled))]
    fn a_section_is_spelled() {}

    #[tactic(auto, using(crate::proofs::RestoredSections::restored_decides))]
    fn a_section_decides() {}
}
