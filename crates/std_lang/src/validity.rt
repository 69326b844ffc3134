ghost use Rattle.std.specs.Prelude.{◌≡◌, IfOk, map};
ghost use Rattle.std.specs.List.{list_all};
ghost use Rattle.std_lang.specs.ValiditySteps.{is_item, is_section};

use crate::documents::{Item, Section};
use acl_packet::Family;
use acl_rows::is_prefix_of;
use acl_text::{Memory, is_safe_text};
use std::alloc::Global;

const FIRST_NUMBER: u8 = 1;

const LAST_NUMBER: u8 = 99;

/// Whether the section is valid.
pub(crate) fn is_section(section: &Section) -> bool
    ensures { result ≡ is_section section.now }
{
    let number = section.number;
    FIRST_NUMBER <= number && number <= LAST_NUMBER && are_items(section.items.as_slice())
}

fn are_items(items: &[Item]) -> bool
    ensures { result ≡ list_all is_item items.now }
{
    items.iter().all(|item| is_item(item))
}

fn is_item(item: &Item) -> bool
    ensures { result ≡ is_item item.now }
{
    match item {
        Item::Remark(text) => is_safe_text(text.as_slice()),
        Item::Entry(entry) => is_prefix_of(Family::V4, &entry.src),
    }
}

/// The numbers of the sections' lists.
pub(crate) fn numbers_of(alloc: Global, sections: &[Section]) -> Result<Vec<u8>, Memory>
    ensures { IfOk result (λ numbers. numbers.items ≡ map (λ s. s.number) sections.now) }
{
    let mut numbers = Vec::with_capacity(alloc, sections.len())?;
    for section in sections {
        numbers.push(section.number)?;
    }
    Ok(numbers)
}
