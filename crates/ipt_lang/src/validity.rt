ghost use Rattle.std.specs.Prelude.{◌≡◌, ◌∷◌, ◌++◌, ◌&&◌, IfOk};
ghost use Rattle.std.specs.List.{list_all};
ghost use Rattle.acl_rows.specs.ApartSteps.{are_apart};
ghost use Rattle.acl_rows.specs.RuleParts.{has_port_proto, is_proto};
ghost use Rattle.ipt_lang.specs.Documents.{act_fits, chain_names, code_fits, family_word, flags_fit, hook_word, is_chain_name, name_of, parts_fit, ports_fit, type_fits, weight_of};
ghost use Rattle.ipt_lang.specs.ValiditySteps.{are_addresses, are_numbers, are_ports, are_remarks, has_room, is_address, is_chain, is_port_list, is_rule, is_section};

use crate::documents::{Act, Chain, Rule, Section};
use acl_packet::{Family, Hook, Prefix, Verdict};
use acl_rows::{
    Named, are_port_ranges, has_port_proto, have_distinct_names, is_addresses, is_proto,
    number_fits,
};
use acl_text::{Bytes, Memory, is_name, is_safe_text};
use std::alloc::Global;

impl Named for Section {
    ghost name = { name_of };

    fn name(&self) -> &[u8] {
        target_words(self.hook, self.family)
    }
}

/// The words of a section's target, which are its name.
pub(crate) fn target_words(hook: Hook, family: Family) -> &'static [u8]
    ensures { result.now ≡ hook_word hook ++ 32 ∷ family_word family }
{
    match (hook, family) {
        (Hook::Input, Family::V4) => b"INPUT inet",
        (Hook::Input, Family::V6) => b"INPUT inet6",
        (Hook::Output, Family::V4) => b"OUTPUT inet",
        (Hook::Output, Family::V6) => b"OUTPUT inet6",
        (Hook::Forward, Family::V4) => b"FORWARD inet",
        (Hook::Forward, Family::V6) => b"FORWARD inet6",
    }
}

/// Whether the section is valid.
pub(crate) fn is_section(alloc: Global, section: &Section) -> Result<bool, Memory>
    ensures { IfOk result (λ b. b ≡ is_section section.now) }
{
    let chains = section.chains.as_slice();
    Ok(are_chains(section.family, chains) && have_distinct_names(alloc, chains)?)
}

impl Named for Chain {
    ghost name = { λ c. c.name };

    fn name(&self) -> &[u8] {
        self.name.as_slice()
    }
}

fn are_chains(family: Family, chains: &[Chain]) -> bool
    ensures { result ≡ list_all (is_chain family) chains.now }
{
    chains.iter().all(|chain| is_chain(family, chain))
}

fn is_chain(family: Family, chain: &Chain) -> bool
    ensures { result ≡ is_chain family chain.now }
{
    are_remarks(chain.remarks.as_slice())
        && is_chain_name(chain.name.as_slice())
        && are_rules(family, chain.rules.as_slice())
}

fn are_remarks(texts: &[Bytes]) -> bool
    ensures { result ≡ are_remarks texts.now }
{
    texts.iter().all(|text| is_safe_text(text.as_slice()))
}

pub(crate) fn is_chain_name(name: &[u8]) -> bool
    ensures { result ≡ is_chain_name name.now }
{
    is_name(name) && name.len() <= 24
}

fn are_rules(family: Family, rules: &[Rule]) -> bool
    ensures { result ≡ list_all (is_rule family) rules.now }
{
    rules.iter().all(|rule| is_rule(family, rule))
}

pub(crate) fn is_rule(family: Family, rule: &Rule) -> bool
    ensures { result ≡ is_rule family rule.now }
{
    if !are_numbers(rule) || !are_addresses(family, rule) {
        return false;
    }
    are_ports(rule) && parts_fit(family, rule)
}

fn are_numbers(rule: &Rule) -> bool
    ensures { result ≡ are_numbers rule.now }
{
    number_fits(1, 255, rule.proto)
        && number_fits(0, 254, rule.itype)
        && number_fits(0, 255, rule.icode)
}

fn are_addresses(family: Family, rule: &Rule) -> bool
    ensures { result ≡ are_addresses family rule.now }
{
    is_address(family, &rule.src) && is_address(family, &rule.dst)
}

fn is_address(family: Family, address: &Option<Prefix>) -> bool
    ensures { result ≡ is_address family address.now }
{
    match address {
        Some(prefix) => is_addresses(family, prefix),
        None => true,
    }
}

fn are_ports(rule: &Rule) -> bool
    ensures { result ≡ are_ports rule.now }
{
    is_port_list(rule.sports.as_slice()) && is_port_list(rule.dports.as_slice())
}

fn is_port_list(ranges: &[(u16, u16)]) -> bool
    ensures { result ≡ is_port_list ranges.now }
{
    are_port_ranges(ranges) && has_room(15, ranges)
}

// Whether the ranges have no more than that weight.
#[tactic(auto, unfolding(crate::specs::ValiditySteps::has_room))]
fn has_room(room: usize, ranges: &[(u16, u16)]) -> bool
    ensures { result ≡ has_room room ranges.now }
{
    let mut left = room;
    for ports in ranges {
        let weight = weight_of(*ports);
        if weight > left {
            return false;
        }
        left -= weight;
    }
    true
}

fn weight_of(ports: (u16, u16)) -> usize
    ensures { result ≡ weight_of ports }
{
    if ports.0 == ports.1 { 1 } else { 2 }
}

fn parts_fit(family: Family, rule: &Rule) -> bool
    ensures { result ≡ parts_fit family rule.now }
{
    ports_fit(rule)
        && type_fits(family, rule)
        && code_fits(rule)
        && flags_fit(rule)
        && act_fits(rule.proto, rule.act)
}

fn ports_fit(rule: &Rule) -> bool
    ensures { result ≡ ports_fit rule.now }
{
    rule.sports.as_slice().is_empty() && rule.dports.as_slice().is_empty()
        || has_port_proto(rule.proto)
}

fn type_fits(family: Family, rule: &Rule) -> bool
    ensures { result ≡ type_fits family rule.now }
{
    rule.itype.is_none() || is_proto(rule.proto, family.icmp_number())
}

fn code_fits(rule: &Rule) -> bool
    ensures { result ≡ code_fits rule.now }
{
    rule.icode.is_none() || rule.itype.is_some()
}

fn flags_fit(rule: &Rule) -> bool
    ensures { result ≡ flags_fit rule.now }
{
    rule.flags.is_none() || is_proto(rule.proto, 6)
}

fn act_fits(proto: Option<u8>, act: Act) -> bool
    ensures { result ≡ act_fits proto act }
{
    match act {
        Act::Decide(Verdict::Reset) => is_proto(proto, 6),
        Act::Decide(Verdict::Left) => false,
        _ => true,
    }
}
