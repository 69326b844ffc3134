ghost use Rattle.gen_cisco.specs.Limits.{is_for_cisco};
ghost use Rattle.gen_cisco.specs.Sections.{entry_count, section_of};

use crate::counts::list_count;
use crate::section_rows::InFamily;
use acl_packet::{Families, Family};
use acl_platform::{Filter, Platform, put_section_by, put_sections_by};
use acl_text::{Out, PutFault};
use std::alloc::Global;

/// The platform of Cisco IOS extended access lists, of IPv4 and of IPv6.
pub struct Cisco;

impl Platform for Cisco {
    type Language = cisco_lang::Cisco;

    ghost handles = { λ _. is_for_cisco };

    ghost count = { entry_count };

    fn entry_count(&self, filter: &Filter) -> u64 {
        let rules = filter.rules.as_slice();
        match filter.families {
            Families::Inet => list_count(Family::V4, rules),
            Families::Inet6 => list_count(Family::V6, rules),
            Families::Mixed => {
                list_count(Family::V4, rules).saturating_add(list_count(Family::V6, rules))
            }
        }
    }

    ghost section = { λ _. section_of };

    fn put_section<O: Out>(&self, filter: &Filter, out: &mut O) -> Result<(), PutFault> {
        put_section_by::<InFamily, O>(filter, out)
    }

    fn put_sections<O: Out>(
        &self,
        alloc: Global,
        filters: &[Filter],
        out: &mut O,
    ) -> Result<(), PutFault> {
        put_sections_by::<InFamily, O>(alloc, filters, out)
    }

    #[tactic(auto, using(crate::proofs::SectionLaws::section_is_spelled))]
    fn a_section_is_spelled() {}

    #[tactic(auto, using(crate::proofs::DecisionLaws::section_decides))]
    fn a_section_decides() {}
}
