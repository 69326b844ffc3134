ghost use Rattle.std.specs.Prelude.{◌≡◌};
ghost use Rattle.acl_platform.specs.Combinations.{IsSized};
ghost use Rattle.nft_lang.specs.Texts.{rule_words};
ghost use Rattle.gen_nftables.specs.Sections.{asks_state, chain_rule, flags_of};

use crate::icmp_sets::IcmpSet;
use crate::sets::{AddressSet, PortSet};
use acl_packet::Families;
use acl_platform::{Rule, Test};
use acl_rows::Words;
use acl_text::{Out, PutFault};
use nft_lang::{FlagTest, Flags, PacketFamily, Protocol, RuleEnding, SetKey};

/// The words of a rule of a chain: a rule of a filter, for one of its protocols or for all of them.
#[derive(Drop)]
pub(crate) struct RuleWords<'a> {
    pub(crate) families: Families,
    pub(crate) proto: Option<u8>,
    pub(crate) rule: &'a Rule,
    pub(crate) ghost sized: { IsSized rule.now },
}

impl<'a> Words for RuleWords<'a> {
    ghost words = { λ w. rule_words w.families (chain_rule w.rule.now w.proto) };

    #[tactic(auto, unfolding(nft_lang::specs::Texts::rule_words, nft_lang::specs::Texts::addresses_words, nft_lang::specs::Texts::ports_words, nft_lang::specs::Texts::icmp_words), using(acl_platform::proofs::SoundRules::source_ports_small, acl_platform::proofs::SoundRules::destination_ports_small, acl_platform::proofs::SoundRules::types_small, acl_platform::proofs::SoundRules::codes_small))]
    fn put_spaced<O: Out>(&self, out: &mut O) -> Result<(), PutFault> {
        let rule = self.rule;
        let proto = self.proto;
        let family = rule.family;
        let packet_family = PacketFamily {
            families: self.families,
            family,
        };
        let addresses = (
            AddressSet {
                key: SetKey::Source(family),
                prefixes: &rule.src,
            },
            AddressSet {
                key: SetKey::Destination(family),
                prefixes: &rule.dst,
            },
        );
        let ports = (
            PortSet {
                key: SetKey::SourcePort(proto),
                set: &rule.sports,
            },
            PortSet {
                key: SetKey::DestinationPort(proto),
                set: &rule.dports,
            },
        );
        let itype: &[u8] = b"type";
        let icode: &[u8] = b"code";
        let icmp = (
            IcmpSet {
                family,
                key: itype,
                set: &rule.itypes,
            },
            IcmpSet {
                family,
                key: icode,
                set: &rule.icodes,
            },
        );
        let flags = FlagTest {
            flags: flags_of(rule.test),
        };
        let ending = RuleEnding {
            state: asks_state(rule.test),
            log: rule.log,
            verdict: rule.verdict,
        };
        let tests = (icmp, (flags, ending));
        let matches = (addresses, (ports, tests));
        (packet_family, (Protocol { number: proto }, matches)).put_spaced(out)
    }
}

fn flags_of(test: Test) -> Option<Flags>
    ensures { result ≡ flags_of test }
{
    match test {
        Test::Plain | Test::AckOrRst | Test::State => None,
        Test::SynNotAck => Some(Flags::SynNotAck),
        Test::Rst => Some(Flags::Rst),
    }
}

fn asks_state(test: Test) -> bool
    ensures { result ≡ asks_state test }
{
    matches!(test, Test::State)
}
