ghost use Rattle.std.specs.Prelude.{◌≡◌, ◌∷◌, [], decimal, map};
ghost use Rattle.std.specs.List.{All};
ghost use Rattle.acl_rows.specs.Rows.{spaced};
ghost use Rattle.acl_sets.specs.Ranges.{IsRange};
ghost use Rattle.acl_platform.specs.Choices.{numbers_of};
ghost use Rattle.acl_platform.specs.Combinations.{IsSized};
ghost use Rattle.junos_lang.specs.Texts.{condition_rows, from_rows, range_word};
ghost use Rattle.gen_junos.specs.Sections.{term_of, test_of};

use acl_packet::Family;
use acl_platform::{ListedPrefixes, NumberForm, Rule, Test, put_numbers, range_elements};
use acl_rows::{EachWord, Number, OneWord, Piece, Rows, WordForm, Words};
use acl_sets::Range;
use acl_text::{Out, PutFault};
use junos_lang::{FromPart, JTest, PortSpan, Values};

/// The conditions of a rule's term in their block, or nothing where it has none.
#[derive(Drop)]
pub(crate) struct RuleConditions<'a> {
    pub(crate) family: Family,
    pub(crate) rule: &'a Rule,
    pub(crate) ghost sized: { IsSized rule.now },
}

impl<'a> Rows for RuleConditions<'a> {
    ghost rows = { λ c. from_rows (condition_rows c.family (term_of c.rule.now)) };

    #[tactic(auto, using(acl_platform::proofs::SoundRules::protocols_small, acl_platform::proofs::SoundRules::source_ports_small, acl_platform::proofs::SoundRules::destination_ports_small, acl_platform::proofs::SoundRules::types_small, acl_platform::proofs::SoundRules::codes_small))]
    fn put_rows<O: Out>(&self, out: &mut O) -> Result<(), PutFault> {
        let rule = self.rule;
        let conditions = FromPart {
            family: self.family,
            src: ListedPrefixes::written(&rule.src),
            dst: ListedPrefixes::written(&rule.dst),
            protos: NumberWords {
                ranges: range_elements(&rule.protos),
            },
            sports: EachWord {
                items: range_elements(&rule.sports),
                form: AsRange,
            },
            dports: EachWord {
                items: range_elements(&rule.dports),
                form: AsRange,
            },
            itypes: NumberWords {
                ranges: range_elements(&rule.itypes),
            },
            icodes: NumberWords {
                ranges: range_elements(&rule.icodes),
            },
            test: test_of(rule.test),
        };
        conditions.put_rows(out)
    }
}

fn test_of(test: Test) -> Option<JTest>
    ensures { result ≡ test_of test }
{
    match test {
        Test::Plain => None,
        Test::AckOrRst => Some(JTest::Established),
        Test::SynNotAck => Some(JTest::Initial),
        Test::Rst => Some(JTest::Rst),
        Test::State => None,
    }
}

// The numbers of ranges, each as a word.
#[derive(Clone, Copy)]
struct NumberWords<'a> {
    ranges: &'a [Range],
    ghost small: { All (λ r. IsRange 255 r) ranges.now },
}

impl<'a> Words for NumberWords<'a> {
    ghost words = { λ n. map decimal (numbers_of n.ranges.now) };

    fn put_spaced<O: Out>(&self, out: &mut O) -> Result<(), PutFault> {
        put_numbers(self.ranges, &BehindSpace, out)
    }
}

impl<'a> Values for NumberWords<'a> {
    fn are_none(&self) -> bool {
        self.ranges.is_empty()
    }
}

struct BehindSpace;

impl NumberForm for BehindSpace {
    ghost number_text = { λ f number. spaced (decimal number ∷ []) };

    fn put_number<O: Out>(&self, number: u8, out: &mut O) -> Result<(), PutFault> {
        let number = u128::from(number);
        let word = OneWord {
            piece: Number { number },
        };
        word.put_spaced(out)
    }
}

#[derive(Clone, Copy)]
struct AsRange;

impl WordForm<Range> for AsRange {
    ghost item_text = { λ f r. range_word (r.low, r.high) };

    fn put_item_into<O: Out>(&self, range: &Range, out: &mut O) -> Result<(), PutFault> {
        let range = PortSpan {
            low: range.low,
            high: range.high,
        };
        range.put_into(out)
    }
}
