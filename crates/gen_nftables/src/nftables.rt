ghost use Rattle.gen_nftables.specs.Limits.{is_for_nftables};
ghost use Rattle.gen_nftables.specs.Sections.{entry_count, section_of};

use crate::section_rows::{ChainItems, head_of};
use acl_platform::{Filter, Platform, count_rules};
use acl_rows::Rows;
use acl_text::{Out, PutFault};
use nft_lang::SectionEnd;

/// The platform of nftables: a table with one base chain for each target.
pub struct Nftables;

impl Platform for Nftables {
    type Language = nft_lang::Nftables;

    ghost handles = { λ _. is_for_nftables };

    ghost count = { entry_count };

    fn entry_count(&self, filter: &Filter) -> u64 {
        count_rules(filter.rules.as_slice(), self)
    }

    ghost section = { λ _. section_of };

    #[tactic(auto, using(acl_platform::proofs::SoundRules::all_sized))]
    fn put_section<O: Out>(&self, filter: &Filter, out: &mut O) -> Result<(), PutFault> {
        let items = ChainItems {
            families: filter.families,
            verbose: filter.verbose,
            rules: filter.rules.as_slice(),
        };
        (head_of(filter), (items, SectionEnd)).put_rows(out)
    }

    fn a_section_is_spelled() {}

    #[tactic(auto, using(crate::proofs::DecisionLaws::section_decides))]
    fn a_section_decides() {}
}
