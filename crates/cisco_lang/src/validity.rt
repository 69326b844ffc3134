ghost use Rattle.std.specs.Prelude.{◌≡◌, ◌++◌, IfOk, OnOk, bytes_eq, codes, flat_map};
ghost use Rattle.std.specs.List.{list_all};
ghost use Rattle.acl_text.specs.Cuts.{views};
ghost use Rattle.acl_rows.specs.RuleParts.{is_proto};
ghost use Rattle.cisco_lang.specs.Documents.{code_fits, flags_fit, icmp_fits, list_names, match_all_fits, parts_fit, ports_fit, type_fits};
ghost use Rattle.cisco_lang.specs.ValiditySteps.{are_headed, are_numbers, are_ports, is_end, is_entry, is_headed, is_item, is_list, is_section};

use crate::documents::{AccessList, Entry, Flags, Item, Section};
use acl_packet::{Families, Family, Prefix};
use acl_rows::{is_port_range, is_prefix_of, is_proto, number_fits};
use acl_text::{Memory, behind, is_filter_name, is_safe_text};
use std::alloc::Global;

/// The names of the lists, in order.
pub(crate) fn list_names_of<'a>(
    alloc: Global,
    sections: &'a [Section],
) -> Result<Vec<&'a [u8]>, Memory>
    ensures { IfOk result (λ names. views names.items ≡ flat_map list_names sections.now) }
{
    let mut names = Vec::new(alloc);
    for section in sections {
        push_list_names(&mut names, section)?;
    }
    Ok(names)
}

fn push_list_names<'a>(names: &mut Vec<&'a [u8]>, section: &'a Section) -> Result<(), Memory>
    ensures { OnOk result (views names.new.items
        ≡ views names.old.items ++ list_names section.now) }
{
    for list in section.lists.as_slice() {
        names.push(list.name.as_slice())?;
    }
    Ok(())
}

/// Whether the section is valid.
pub(crate) fn is_section(section: &Section) -> bool
    ensures { result ≡ is_section section.now }
{
    let name = section.name.as_slice();
    let lists = section.lists.as_slice();
    is_filter_name(name) && are_headed(lists, section.families, name) && are_lists(lists)
}

fn are_lists(lists: &[AccessList]) -> bool
    ensures { result ≡ list_all is_list lists.now }
{
    lists.iter().all(|list| is_list(list))
}

fn is_list(list: &AccessList) -> bool
    ensures { result ≡ is_list list.now }
{
    are_items(list.family, list.items.as_slice())
}

fn are_items(family: Family, items: &[Item]) -> bool
    ensures { result ≡ list_all (is_item family) items.now }
{
    items.iter().all(|item| is_item(family, item))
}

// Whether the lists are of these families, under their names.
fn are_headed(lists: &[AccessList], families: Families, name: &[u8]) -> bool
    ensures { result ≡ are_headed lists.now families name.now }
{
    match (lists, families) {
        ([list], Families::Inet) => is_headed(list, Family::V4, name),
        ([list], Families::Inet6) => is_headed(list, Family::V6, name),
        ([first, second], Families::Mixed) => {
            is_headed(first, Family::V4, name) && is_second(second, name)
        }
        _ => false,
    }
}

fn is_headed(list: &AccessList, family: Family, name: &[u8]) -> bool
    ensures { result ≡ is_headed list.now family name.now }
{
    list.family == family && list.name.as_slice() == name
}

// Whether it is the IPv6 list of a mixed section of the name.
fn is_second(list: &AccessList, name: &[u8]) -> bool
    ensures { result ≡ is_headed list.now Family.V6 (codes "ipv6-" ++ name.now) }
{
    list.family == Family::V6 && is_front_and_name(list.name.as_slice(), b"ipv6-", name)
}

#[tactic(auto, using(crate::proofs::ValidityLaws::front_some, crate::proofs::ValidityLaws::front_none))]
pub(crate) fn is_front_and_name(word: &[u8], front: &[u8], name: &[u8]) -> bool
    ensures { result ≡ bytes_eq word.now (front.now ++ name.now) }
{
    match behind(word, front) {
        Some(rest) => rest == name,
        None => false,
    }
}

fn is_item(family: Family, item: &Item) -> bool
    ensures { result ≡ is_item family item.now }
{
    match item {
        Item::Remark(text) => is_safe_text(text.as_slice()),
        Item::Entry(entry) => is_entry(family, entry),
    }
}

pub(crate) fn is_entry(family: Family, entry: &Entry) -> bool
    ensures { result ≡ is_entry family entry.now }
{
    if !is_end(family, &entry.src, entry.sport) || !is_end(family, &entry.dst, entry.dport) {
        return false;
    }
    are_numbers(entry) && parts_fit(family, entry)
}

fn are_numbers(entry: &Entry) -> bool
    ensures { result ≡ are_numbers entry.now }
{
    number_fits(1, 255, entry.proto)
        && number_fits(0, 254, entry.itype)
        && number_fits(0, 255, entry.icode)
}

fn is_end(family: Family, place: &Prefix, ports: Option<(u16, u16)>) -> bool
    ensures { result ≡ is_end family place.now ports }
{
    is_prefix_of(family, place) && are_ports(ports)
}

fn are_ports(ports: Option<(u16, u16)>) -> bool
    ensures { result ≡ are_ports ports }
{
    match ports {
        Some(ports) => is_port_range(ports),
        None => true,
    }
}

fn parts_fit(family: Family, entry: &Entry) -> bool
    ensures { result ≡ parts_fit family entry.now }
{
    ports_fit(entry) && icmp_fits(family, entry) && flags_fit(family, entry)
}

fn ports_fit(entry: &Entry) -> bool
    ensures { result ≡ ports_fit entry.now }
{
    entry.sport.is_none() && entry.dport.is_none()
        || is_proto(entry.proto, 6)
        || is_proto(entry.proto, 17)
}

fn type_fits(family: Family, entry: &Entry) -> bool
    ensures { result ≡ type_fits family entry.now }
{
    entry.itype.is_none() || is_proto(entry.proto, family.icmp_number())
}

fn code_fits(entry: &Entry) -> bool
    ensures { result ≡ code_fits entry.now }
{
    entry.icode.is_none() || entry.itype.is_some()
}

fn icmp_fits(family: Family, entry: &Entry) -> bool
    ensures { result ≡ icmp_fits family entry.now }
{
    type_fits(family, entry) && code_fits(entry)
}

fn flags_fit(family: Family, entry: &Entry) -> bool
    ensures { result ≡ flags_fit family entry.now }
{
    (entry.flags.is_none() || is_proto(entry.proto, 6)) && match_all_fits(family, entry.flags)
}

fn match_all_fits(family: Family, flags: Option<Flags>) -> bool
    ensures { result ≡ match_all_fits family flags }
{
    match (family, flags) {
        (Family::V6, Some(Flags::SynNotAck)) => false,
        _ => true,
    }
}
