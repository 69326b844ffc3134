ghost use Rattle.gen_iptables.specs.Limits.{is_for_iptables};
ghost use Rattle.gen_iptables.specs.Sections.{entry_count, section_of};

use crate::section_rows::put_section;
use acl_platform::{Filter, Platform, count_rules};
use acl_text::{Out, PutFault};

/// The platform of iptables and ip6tables: a chain for each rule, to which the hook's chain jumps.
pub struct Iptables;

impl Platform for Iptables {
    type Language = ipt_lang::Iptables;

    ghost handles = { λ _. is_for_iptables };

    ghost count = { entry_count };

    fn entry_count(&self, filter: &Filter) -> u64 {
        count_rules(filter.rules.as_slice(), self)
    }

    ghost section = { λ _. section_of };

    #[tactic(auto, using(acl_platform::proofs::SoundRules::all_sized))]
    fn put_section<O: Out>(&self, filter: &Filter, out: &mut O) -> Result<(), PutFault> {
        put_section(filter, out)
    }

    #[tactic(auto, using(crate::proofs::SectionLaws::section_is_spelled))]
    fn a_section_is_spelled() {}

    #[tactic(auto, using(crate::proofs::DecisionLaws::section_decides))]
    fn a_section_decides() {}
}
