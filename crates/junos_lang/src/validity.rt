ghost use Rattle.std.specs.Prelude.{◌≡◌, ◌==◌, ◌||◌, IfOk, map, nat_le, nat_lt};
ghost use Rattle.std.specs.List.{list_all};
ghost use Rattle.std.specs.Str.{bytes_eq};
ghost use Rattle.acl_rows.specs.ApartSteps.{are_apart};
ghost use Rattle.acl_rows.specs.PrefixCheckSteps.{is_addresses};
ghost use Rattle.junos_lang.specs.Documents.{are_tcp_or_udp, codes_fit, is_alone, name_of, parts_fit, ports_fit, test_fits, types_fit, verdict_fits};
ghost use Rattle.junos_lang.specs.ValiditySteps.{are_addresses, are_named, are_numbers, are_ports, filter_name, is_note, is_section, is_term};

use crate::documents::{JTerm, Section};
use acl_packet::{Family, Prefix, Verdict};
use acl_rows::{Named, are_distinct, are_port_ranges, have_distinct_names, is_addresses};
use acl_text::{Bytes, Memory, is_filter_name, is_name, is_safe_text};
use std::alloc::Global;

/// Whether no two of the sections have the same family and name.

pub(crate) fn have_distinct_filters(alloc: Global, sections: &[Section]) -> Result<bool, Memory>
    ensures { IfOk result (λ b. b ≡ are_apart bytes_eq (map name_of sections.now)) }
{
    Ok(are_distinct(filters_of(alloc, sections)?))
}

// Of each section whether it is of IPv6, and its name.
fn filters_of<'a>(alloc: Global, sections: &'a [Section]) -> Result<Vec<(bool, &'a [u8])>, Memory>
    ensures { IfOk result (λ filters. map filter_name filters.items ≡ map name_of sections.now) }
{
    let mut filters = Vec::with_capacity(alloc, sections.len())?;
    for section in sections {
        filters.push(filter_of(section))?;
    }
    Ok(filters)
}

fn filter_of(section: &Section) -> (bool, &[u8])
    ensures { filter_name result ≡ name_of section.now }
{
    match section.family {
        Family::V4 => (false, section.name.as_slice()),
        Family::V6 => (true, section.name.as_slice()),
    }
}

impl Named for JTerm {
    ghost name = { λ t. t.name };

    fn name(&self) -> &[u8] {
        self.name.as_slice()
    }
}

/// Whether the section is valid.
pub(crate) fn is_section(alloc: Global, section: &Section) -> Result<bool, Memory>
    ensures { IfOk result (λ b. b ≡ is_section section.now) }
{
    let terms = section.terms.as_slice();
    if !is_filter_name(section.name.as_slice()) || terms.is_empty() {
        return Ok(false);
    }
    Ok(are_terms(section.family, terms) && have_distinct_names(alloc, terms)?)
}

fn are_terms(family: Family, terms: &[JTerm]) -> bool
    ensures { result ≡ list_all (is_term family) terms.now }
{
    terms.iter().all(|term| is_term(family, term))
}

pub(crate) fn is_term(family: Family, term: &JTerm) -> bool
    ensures { result ≡ is_term family term.now }
{
    if !are_named(term) || !are_addresses(family, term) {
        return false;
    }
    are_ports(term) && are_numbers(term) && parts_fit(family, term)
}

fn are_named(term: &JTerm) -> bool
    ensures { result ≡ are_named term.now }
{
    is_note(&term.note) && is_name(term.name.as_slice())
}

fn is_note(note: &Option<Bytes>) -> bool
    ensures { result ≡ is_note note.now }
{
    match note {
        Some(text) => is_safe_text(text.as_slice()),
        None => true,
    }
}

fn are_addresses(family: Family, term: &JTerm) -> bool
    ensures { result ≡ are_addresses family term.now }
{
    are_listed(family, term.src.as_slice()) && are_listed(family, term.dst.as_slice())
}

fn are_listed(family: Family, prefixes: &[Prefix]) -> bool
    ensures { result ≡ list_all (is_addresses family) prefixes.now }
{
    prefixes.iter().all(|prefix| is_addresses(family, prefix))
}

fn are_ports(term: &JTerm) -> bool
    ensures { result ≡ are_ports term.now }
{
    are_port_ranges(term.sports.as_slice()) && are_port_ranges(term.dports.as_slice())
}

fn are_numbers(term: &JTerm) -> bool
    ensures { result ≡ are_numbers term.now }
{
    are_bytes(term.protos.as_slice())
        && are_types(term.itypes.as_slice())
        && are_bytes(term.icodes.as_slice())
}

fn are_bytes(numbers: &[u8]) -> bool
    ensures { result ≡ list_all (λ n. nat_lt n 256) numbers.now }
{
    numbers.iter().all(|number| is_byte(*number))
}

fn is_byte(number: u8) -> bool
    ensures { result ≡ nat_lt number 256 }
{
    number <= u8::MAX
}

fn are_types(numbers: &[u8]) -> bool
    ensures { result ≡ list_all (λ n. nat_le n 254) numbers.now }
{
    numbers.iter().all(|number| *number <= 254)
}

fn parts_fit(family: Family, term: &JTerm) -> bool
    ensures { result ≡ parts_fit family term.now }
{
    ports_fit(term)
        && types_fit(family, term)
        && codes_fit(term)
        && test_fits(term)
        && verdict_fits(term.verdict, term.protos.as_slice())
}

fn ports_fit(term: &JTerm) -> bool
    ensures { result ≡ ports_fit term.now }
{
    term.sports.as_slice().is_empty() && term.dports.as_slice().is_empty()
        || are_tcp_or_udp(term.protos.as_slice())
}

fn are_tcp_or_udp(protos: &[u8]) -> bool
    ensures { result ≡ are_tcp_or_udp protos.now }
{
    !protos.is_empty() && all_have_ports(protos)
}

fn all_have_ports(protos: &[u8]) -> bool
    ensures { result ≡ list_all (λ n. n == 6 || n == 17) protos.now }
{
    protos.iter().all(|proto| *proto == 6 || *proto == 17)
}

fn types_fit(family: Family, term: &JTerm) -> bool
    ensures { result ≡ types_fit family term.now }
{
    term.itypes.as_slice().is_empty() || is_alone(term.protos.as_slice(), family.icmp_number())
}

fn codes_fit(term: &JTerm) -> bool
    ensures { result ≡ codes_fit term.now }
{
    term.icodes.as_slice().is_empty() || term.itypes.as_slice().len() == 1
}

fn test_fits(term: &JTerm) -> bool
    ensures { result ≡ test_fits term.now }
{
    term.test.is_none() || is_alone(term.protos.as_slice(), 6)
}

fn verdict_fits(verdict: Verdict, protos: &[u8]) -> bool
    ensures { result ≡ verdict_fits verdict protos.now }
{
    match verdict {
        Verdict::Reset => is_alone(protos, 6),
        Verdict::Left => false,
        _ => true,
    }
}

fn is_alone(numbers: &[u8], number: u8) -> bool
    ensures { result ≡ is_alone numbers.now number }
{
    match numbers {
        [alone] => *alone == number,
        _ => false,
    }
}
