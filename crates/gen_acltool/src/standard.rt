ghost use Rattle.gen_acltool.specs.Limits.{is_for_standard};
ghost use Rattle.gen_acltool.specs.Sections.{entry_count, section_of};

use crate::counts::list_count;
use crate::list_rows::put_section;
use acl_platform::{Filter, Platform};
use acl_text::{Out, PutFault};

/// The platform of standard access lists of Cisco IOS, for its filters of IPv4. They are numbered as
/// their targets are, from a first number on.
#[derive(Clone, Copy)]
pub struct Standard {
    /// The number of the first list, 1 to 99.
    pub first: u8,
}

impl Platform for Standard {
    type Language = std_lang::Standard;

    ghost handles = { λ s. is_for_standard s.first };

    ghost count = { entry_count };

    fn entry_count(&self, filter: &Filter) -> u64 {
        list_count(filter.rules.as_slice())
    }

    ghost section = { λ s. section_of s.first };

    fn put_section<O: Out>(&self, filter: &Filter, out: &mut O) -> Result<(), PutFault> {
        put_section(self.first, filter, out)
    }

    #[tactic(auto, using(crate::proofs::SectionLaws::section_is_spelled))]
    fn a_section_is_spelled() {}

    #[tactic(auto, using(crate::proofs::DecisionLaws::section_decides))]
    fn a_section_decides() {}
}
