ghost use Rattle.gen_junos.specs.Limits.{is_for_junos};
ghost use Rattle.gen_junos.specs.Sections.{entry_count, section_of};

use crate::section_rows::InFamily;
use acl_platform::{Filter, Platform, count_rules, put_section_by, put_sections_by};
use acl_text::{Out, PutFault};
use std::alloc::Global;

/// The platform of Junos firewall filters, of IPv4 or of IPv6.
pub struct Junos;

impl Platform for Junos {
    type Language = junos_lang::Junos;

    ghost handles = { λ _. is_for_junos };

    ghost count = { entry_count };

    fn entry_count(&self, filter: &Filter) -> u64 {
        let rules = filter.rules.as_slice();
        if rules.is_empty() {
            1
        } else {
            count_rules(rules, self)
        }
    }

    ghost section = { λ _. section_of };

    fn put_section<O: Out>(&self, filter: &Filter, out: &mut O) -> Result<(), PutFault> {
        put_section_by::<InFamily, O>(filter, out)
    }

    fn put_sections<O: Out>(
        &self,
        alloc: Global,
        filters: &[Filter],
        out: &mut O,
    ) -> Result<(), PutFault> {
        put_sections_by::<InFamily, O>(alloc, filters, out)
    }

    #[tactic(auto, using(crate::proofs::SectionLaws::section_is_spelled))]
    fn a_section_is_spelled() {}

    #[tactic(auto, using(crate::proofs::DecisionLaws::section_decides))]
    fn a_section_decides() {}
}
