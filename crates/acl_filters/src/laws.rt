ghost use Rattle.acl_filters.specs.FewerRules.{FewerRulesFit};
ghost use Rattle.acl_filters.specs.MeantTexts.{MeantTextsAreOfSections};
ghost use Rattle.acl_filters.specs.PlatformLanguages.{OneDocument};
ghost use Rattle.acl_filters.specs.ShortLists.{TakenFiltersAreShort};

use acl_rows::a_text_has_one_document as has_one_document;
use cisco_lang::Cisco;
use ipt_lang::Iptables;
use junos_lang::Junos;
use nft_lang::Nftables;

/// A law: where a platform takes a filter, it takes the filter with some of its rules taken out, as
/// long as a rule of each family stays that had one.
pub fn fewer_rules_fit()
    ensures { FewerRulesFit }
{}

/// A law: of a filter that a platform takes, no rule's sources or destinations can be said by fewer
/// prefixes, and it has at most 100,000 entries there.
pub fn taken_filters_are_short()
    ensures { TakenFiltersAreShort }
{}

/// A law: a text has at most one document of a platform's language.
pub fn a_text_has_one_document()
    ensures { OneDocument }
{
    has_one_document::<Cisco>();
    has_one_document::<Junos>();
    has_one_document::<Iptables>();
    has_one_document::<Nftables>();
}

/// A law: the text that is put for filters spells one document of the platform's language, and that is
/// the sections which the filters become.
pub fn a_meant_text_is_that_of_the_sections()
    ensures { MeantTextsAreOfSections }
{
    a_text_has_one_document();
}
