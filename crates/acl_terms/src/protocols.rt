ghost use Rattle.std.specs.Prelude.{◌≡◌, [], ◌∷◌, ◌++◌, OnOk, IfOk, IfSome, option_to_list, map};
ghost use Rattle.acl_sets.specs.Ranges.{IsRange};
ghost use Rattle.std.specs.List.{All};
ghost use Rattle.acl_terms.specs.Matching.{AnyOf, IsProtocol, protocols_of, type_in, types_of};
ghost use Rattle.acl_terms.specs.Sets.{IsSetOf};
ghost use Rattle.acl_terms.specs.SetSteps.{IsCode, IsType, codes_of, few_numbers, single};

use crate::checks::type_in;
use crate::distinct::{distinct, may_repeat};
use crate::known_protocols::KnownProtocols;
use acl_packet::{Family, protocol_number, read_u8};
use acl_policy::WordList;
use acl_sets::{Range, RangeSet};
use acl_text::Memory;
use std::alloc::Global;

// The greatest number of a protocol, of a type and of a code.
const TOP: u128 = 255;

fn push_some(out: &mut Vec<u8>, number: Option<u8>) -> Result<(), Memory>
    ensures { OnOk result (out.new.items ≡ out.old.items ++ option_to_list number) }
{
    if let Some(number) = number {
        out.push(number)?;
    }
    Ok(())
}

/// The numbers of the words of `protocol::`.
pub(crate) fn protocols_of(alloc: Global, words: &WordList) -> Result<Vec<u8>, Memory>
    ensures { IfOk result (λ v. v.items ≡ protocols_of words.now) }
{
    let mut out = Vec::new(alloc);
    for word in words.iter() {
        push_some(&mut out, protocol_number(word.text()))?;
    }
    Ok(out)
}

/// The number of one word of `protocol::`, or those of two.
#[derive(Clone, Copy)]
pub(crate) enum FewProtocols {
    One([u8; 1]),
    Two([u8; 2]),
}

impl FewProtocols {
    pub(crate) fn as_slice(&self) -> &[u8]
        ensures { result.now ≡ few_numbers self.now }
    {
        match self {
            FewProtocols::One(numbers) => numbers,
            FewProtocols::Two(numbers) => numbers,
        }
    }
}

/// The numbers of the words of `protocol::`, where there are one or two. They take no memory.
pub(crate) fn few_protocols(words: &WordList) -> Option<FewProtocols>
    ensures { IfSome result (λ few. protocols_of words.now ≡ few_numbers few) }
{
    let mut left = words.iter();
    let first = left.next()?;
    let number = protocol_number(first.text())?;
    let Some(second) = left.next() else {
        return Some(FewProtocols::One([number]));
    };
    if left.next().is_some() {
        return None;
    }
    let other = protocol_number(second.text())?;
    Some(FewProtocols::Two([number, other]))
}

/// The numbers of the words of `icmp-type::`.
pub(crate) fn types_of(
    alloc: Global,
    family: Option<Family>,
    words: &WordList,
) -> Result<Vec<u8>, Memory>
    ensures { IfOk result (λ v. v.items ≡ types_of family words.now) }
{
    let mut out = Vec::new(alloc);
    for word in words.iter() {
        push_some(&mut out, type_in(family, word.text()))?;
    }
    Ok(out)
}

fn codes_of(alloc: Global, words: &WordList) -> Result<Vec<u8>, Memory>
    ensures { IfOk result (λ v. v.items ≡ codes_of words.now) }
{
    let mut out = Vec::new(alloc);
    for word in words.iter() {
        push_some(&mut out, read_u8(word.text(), u8::MAX))?;
    }
    Ok(out)
}

fn singles(alloc: Global, numbers: &[u8]) -> Result<Vec<Range>, Memory>
    ensures same { IfOk result (λ v. v.items ≡ map single numbers.now) }
    ensures fit { IfOk result (λ v. All (λ r. IsRange TOP r) v.items) }
{
    let mut out = Vec::with_capacity(alloc, numbers.len())?;
    for number in numbers {
        let number = u128::from(*number);
        out.push(Range {
            low: number,
            high: number,
        })?;
    }
    Ok(out)
}

// The set of numbers of which each stands once.
fn set_of(alloc: Global, numbers: &[u8]) -> Result<RangeSet, Memory>
    ensures { IfOk result (λ s. IsSetOf (λ x. AnyOf (λ n. n ≡ x) numbers.now) TOP s) }
{
    let ranges = singles(alloc, numbers)?;
    RangeSet::from_vec(alloc, TOP, ranges)
}

/// The set of the numbers.
pub(crate) fn numbers_in(alloc: Global, numbers: &[u8]) -> Result<RangeSet, Memory>
    ensures { IfOk result (λ s. IsSetOf (λ x. AnyOf (λ n. n ≡ x) numbers.now) TOP s) }
{
    if !may_repeat(numbers) {
        return set_of(alloc, numbers);
    }
    let numbers = distinct(alloc, numbers)?;
    set_of(alloc, &numbers)
}

/// The protocols of a term: all where no word is written.
pub(crate) fn admitted_protocols(
    alloc: Global,
    words: &WordList,
    protos: &[u8],
    known: &mut KnownProtocols,
) -> Result<RangeSet, Memory>
    requires { protos.now ≡ protocols_of words.now }
    ensures { IfOk result (λ s. IsSetOf (IsProtocol words.now) TOP s) }
{
    if words.is_empty() {
        return RangeSet::all(alloc, TOP);
    }
    known.set_of(protos)
}

/// The ICMP types of a term: all where no word is written.
pub(crate) fn admitted_types(
    alloc: Global,
    family: Option<Family>,
    words: &WordList,
) -> Result<RangeSet, Memory>
    ensures { IfOk result (λ s. IsSetOf (IsType family words.now) TOP s) }
{
    if words.is_empty() {
        return RangeSet::all(alloc, TOP);
    }
    let numbers = types_of(alloc, family, words)?;
    numbers_in(alloc, &numbers)
}

/// The ICMP codes of a term: all where no word is written.
pub(crate) fn admitted_codes(alloc: Global, words: &WordList) -> Result<RangeSet, Memory>
    ensures { IfOk result (λ s. IsSetOf (IsCode words.now) TOP s) }
{
    if words.is_empty() {
        return RangeSet::all(alloc, TOP);
    }
    let numbers = codes_of(alloc, words)?;
    numbers_in(alloc, &numbers)
}
