ghost use Rattle.std.specs.Prelude.{◌≡◌, ◌&&◌, ◌^◌, IfOk, map, nat_le, nat_lt};
ghost use Rattle.std.specs.List.{list_all};
ghost use Rattle.acl_rows.specs.PrefixCheckSteps.{is_addresses};
ghost use Rattle.acl_rows.specs.RuleParts.{has_port_proto, is_empty, is_proto};
ghost use Rattle.nft_lang.specs.Documents.{codes_fit, fits_i32, flags_fit, icmp_fits, is_single, parts_fit, ports_fit, types_fit, verdict_fits};
ghost use Rattle.nft_lang.specs.ValiditySteps.{are_addresses, are_numbers, are_ports, has_addresses, has_icmp, has_ports, has_sets, is_item, is_rule, is_section};

use crate::documents::{Item, Rule, Section};
use crate::overlaps::are_apart;
use acl_packet::{Families, Family, Prefix, Verdict};
use acl_rows::{
    are_distinct, are_port_ranges, has_port_proto, is_addresses, is_empty, is_proto, number_fits,
};
use acl_text::{Memory, is_safe_text};
use std::alloc::Global;

/// The numbers of the sections' tables.
pub(crate) fn numbers_of(alloc: Global, sections: &[Section]) -> Result<Vec<u32>, Memory>
    ensures { IfOk result (λ v. v.items ≡ map (λ s. s.number) sections.now) }
{
    let mut numbers = Vec::with_capacity(alloc, sections.len())?;
    for section in sections {
        numbers.push(section.number)?;
    }
    Ok(numbers)
}

/// Whether the section is valid.
pub(crate) fn is_section(alloc: Global, section: &Section) -> Result<bool, Memory>
    ensures { IfOk result (λ b. b ≡ is_section section.now) }
{
    Ok(
        fits(section.number, section.priority)
            && are_items(alloc, section.families, section.items.as_slice())?,
    )
}

// Each number and each priority that the types have fits.
fn fits(number: u32, priority: i32) -> bool
    ensures { result ≡ (nat_lt number (2 ^ 32) && fits_i32 priority) }
{
    let _numbers = (number, priority);
    true
}

fn are_items(alloc: Global, families: Families, items: &[Item]) -> Result<bool, Memory>
    ensures { IfOk result (λ b. b ≡ list_all (is_item families) items.now) }
{
    for item in items {
        if !is_item(alloc, families, item)? {
            return Ok(false);
        }
    }
    Ok(true)
}

pub(crate) fn is_item(alloc: Global, families: Families, item: &Item) -> Result<bool, Memory>
    ensures { IfOk result (λ b. b ≡ is_item families item.now) }
{
    match item {
        Item::Remark(text) => Ok(is_safe_text(text.as_slice())),
        Item::Rule(rule) => is_rule(alloc, families, rule),
    }
}

fn is_rule(alloc: Global, families: Families, rule: &Rule) -> Result<bool, Memory>
    ensures { IfOk result (λ b. b ≡ is_rule families rule.now) }
{
    if !families.covers(rule.family) || !number_fits(1, 255, rule.proto) {
        return Ok(false);
    }
    Ok(has_sets(alloc, rule)? && parts_fit(rule))
}

fn has_sets(alloc: Global, rule: &Rule) -> Result<bool, Memory>
    ensures { IfOk result (λ b. b ≡ has_sets rule.now) }
{
    Ok(has_addresses(alloc, rule)? && has_ports(alloc, rule)? && has_icmp(alloc, rule)?)
}

fn has_addresses(alloc: Global, rule: &Rule) -> Result<bool, Memory>
    ensures { IfOk result (λ b. b ≡ has_addresses rule.now) }
{
    Ok(
        are_addresses(alloc, rule.family, rule.src.as_slice())?
            && are_addresses(alloc, rule.family, rule.dst.as_slice())?,
    )
}

fn has_ports(alloc: Global, rule: &Rule) -> Result<bool, Memory>
    ensures { IfOk result (λ b. b ≡ has_ports rule.now) }
{
    Ok(are_ports(alloc, rule.sports.as_slice())? && are_ports(alloc, rule.dports.as_slice())?)
}

#[tactic(auto, using(acl_rows::proofs::ApartLaws::all_true))]
fn are_addresses(alloc: Global, family: Family, prefixes: &[Prefix]) -> Result<bool, Memory>
    ensures { IfOk result (λ b. b ≡ are_addresses family prefixes.now) }
{
    Ok(all_addresses(family, prefixes) && are_apart(alloc, prefixes)?)
}

fn all_addresses(family: Family, prefixes: &[Prefix]) -> bool
    ensures { result ≡ list_all (is_addresses family) prefixes.now }
{
    prefixes.iter().all(|prefix| is_addresses(family, prefix))
}

fn are_ports(alloc: Global, ranges: &[(u16, u16)]) -> Result<bool, Memory>
    ensures { IfOk result (λ b. b ≡ are_ports ranges.now) }
{
    Ok(are_port_ranges(ranges) && are_apart(alloc, ranges)?)
}

// Any byte is a code.
fn has_icmp(alloc: Global, rule: &Rule) -> Result<bool, Memory>
    ensures { IfOk result (λ b. b ≡ has_icmp rule.now) }
{
    Ok(
        are_numbers(alloc, 254, rule.itypes.as_slice())?
            && are_numbers(alloc, 255, rule.icodes.as_slice())?,
    )
}

#[tactic(auto, using(crate::proofs::ValidityLaws::numbers_apart))]
fn are_numbers(alloc: Global, most: u8, numbers: &[u8]) -> Result<bool, Memory>
    ensures { IfOk result (λ b. b ≡ are_numbers most numbers.now) }
{
    Ok(are_small(most, numbers) && are_distinct(Vec::from_slice(alloc, numbers)?))
}

fn are_small(most: u8, numbers: &[u8]) -> bool
    ensures { result ≡ list_all (λ n. nat_le n most) numbers.now }
{
    numbers.iter().all(|number| *number <= most)
}

fn parts_fit(rule: &Rule) -> bool
    ensures { result ≡ parts_fit rule.now }
{
    ports_fit(rule) && icmp_fits(rule) && flags_fit(rule) && verdict_fits(rule.proto, rule.verdict)
}

fn ports_fit(rule: &Rule) -> bool
    ensures { result ≡ ports_fit rule.now }
{
    is_empty(rule.sports.as_slice()) && is_empty(rule.dports.as_slice())
        || has_port_proto(rule.proto)
}

fn icmp_fits(rule: &Rule) -> bool
    ensures { result ≡ icmp_fits rule.now }
{
    types_fit(rule) && codes_fit(rule)
}

fn codes_fit(rule: &Rule) -> bool
    ensures { result ≡ codes_fit rule.now }
{
    is_empty(rule.icodes.as_slice()) || is_single(rule.itypes.as_slice())
}

fn is_single(numbers: &[u8]) -> bool
    ensures { result ≡ is_single numbers.now }
{
    matches!(numbers, [_])
}

fn types_fit(rule: &Rule) -> bool
    ensures { result ≡ types_fit rule.now }
{
    is_empty(rule.itypes.as_slice()) || is_proto(rule.proto, rule.family.icmp_number())
}

fn flags_fit(rule: &Rule) -> bool
    ensures { result ≡ flags_fit rule.now }
{
    rule.flags.is_none() || is_proto(rule.proto, 6)
}

fn verdict_fits(proto: Option<u8>, verdict: Verdict) -> bool
    ensures { result ≡ verdict_fits proto verdict }
{
    match verdict {
        Verdict::Reset => is_proto(proto, 6),
        Verdict::Left => false,
        Verdict::Accept | Verdict::Deny | Verdict::Reject => true,
    }
}
