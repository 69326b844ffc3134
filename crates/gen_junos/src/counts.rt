ghost use Rattle.std.specs.Prelude.{◌≡◌, ◌+◌, length, min};
ghost use Rattle.acl_text.specs.Output.{COUNT_END};
ghost use Rattle.acl_platform.specs.Combinations.{IsSized};
ghost use Rattle.acl_platform.specs.Elements.{
  address_elements,
  number_elements,
  port_elements,
};
ghost use Rattle.gen_junos.specs.Sections.{term_count, term_of};

use crate::junos::Junos;
use acl_platform::{Rule, RuleCount, count_numbers, count_written, range_elements};

impl RuleCount for Junos {
    ghost entries = { λ j rule. term_count (term_of rule) };

    fn count_rule(&self, rule: &Rule) -> u64 {
        let addresses = address_count(rule);
        let numbers = number_count(rule);
        let ports = port_count(rule);
        let elements = addresses.saturating_add(numbers).saturating_add(ports);
        elements.saturating_add(1)
    }
}

fn address_count(rule: &Rule) -> u64
    ensures { result ≡ min (length (address_elements rule.now.src)
        + length (address_elements rule.now.dst)) COUNT_END }
{
    let sources = count_written(&rule.src);
    let destinations = count_written(&rule.dst);
    sources.saturating_add(destinations)
}

#[tactic(auto, using(acl_platform::proofs::SoundRules::protocols_small, acl_platform::proofs::SoundRules::types_small, acl_platform::proofs::SoundRules::codes_small))]
fn number_count(rule: &Rule) -> u64
    requires { IsSized rule.now }
    ensures { result ≡ min (length (number_elements rule.now.protos)
        + length (number_elements rule.now.itypes) + length (number_elements rule.now.icodes))
        COUNT_END }
{
    let protocols = count_numbers(range_elements(&rule.protos));
    let types = count_numbers(range_elements(&rule.itypes));
    let codes = count_numbers(range_elements(&rule.icodes));
    protocols.saturating_add(types).saturating_add(codes)
}

#[tactic(auto, using(acl_platform::proofs::SoundRules::source_ports_small, acl_platform::proofs::SoundRules::destination_ports_small))]
fn port_count(rule: &Rule) -> u64
    requires { IsSized rule.now }
    ensures { result ≡ min (length (port_elements rule.now.sports)
        + length (port_elements rule.now.dports)) COUNT_END }
{
    let sources = range_elements(&rule.sports).len() as u64;
    let destinations = range_elements(&rule.dports).len() as u64;
    sources.saturating_add(destinations)
}
