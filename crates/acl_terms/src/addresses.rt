ghost use Rattle.std.specs.Prelude.{◌≡◌, List, [], ◌∷◌, IfOk, IfSome, OnOk};
ghost use Rattle.std.specs.List.{All};
ghost use Rattle.acl_packet.specs.declared.addresses.Family.TheVariants.{V4, V6};
ghost use Rattle.acl_packet.specs.Addresses.{top_address};
ghost use Rattle.acl_sets.specs.Ranges.{IsRange};
ghost use Rattle.acl_text.specs.Refusals.{Judges, first_in};
ghost use Rattle.acl_naming.specs.declared.reaching.Wanted.TheVariants as wanted;
ghost use Rattle.acl_naming.specs.LookupSteps.{AddsReach, AreAdded};
ghost use Rattle.acl_words.specs.declared.word_lists.Word.{Word};
ghost use Rattle.acl_terms.specs.Matching.{AnyOf, IsAddress, IsNamedAddress, NamesAddress};
ghost use Rattle.acl_terms.specs.Sets.{IsSetOf};
ghost use Rattle.acl_terms.specs.RangeSteps.{AreRangesOf, HoldsAll, HoldsSame, IsLess};
ghost use Rattle.acl_terms.specs.Slips.{network_slip};

use crate::checks::refusal_at;
use crate::new_words::only_word;
use acl_naming::{Checked, Lookup, Marks, add_networks, add_networks_once, begin_networks};
use acl_packet::Family;
use acl_policy::{WordList, WordRef};
use acl_sets::{Range, RangeSet};
use acl_text::{Code, Memory, Refusal};
use std::alloc::Global;

// Of more ranges than these it is worth to keep what was gathered.
const MANY: usize = 8;

// Most lists of several words have no more ranges.
const MOST_OFTEN: usize = 16;

/// Addresses of both families, and of how many ranges they were gathered.
#[derive(Drop)]
pub(crate) struct Addresses {
    pub(crate) v4: RangeSet,
    pub(crate) v6: RangeSet,
    gathered: usize,
}

impl Addresses {
    /// The same addresses, which are not copied.
    pub(crate) fn share(&self) -> Result<Addresses, Memory>
        ensures { IfOk result (λ a. a ≡ self.now) }
    {
        Ok(Addresses {
            v4: self.v4.share()?,
            v6: self.v6.share()?,
            gathered: self.gathered,
        })
    }

    // These addresses, less the excluded ones.
    fn without(&self, alloc: Global, excluded: &Addresses) -> Result<Addresses, Memory>
        requires v4 { self.now.v4.top ≡ excluded.now.v4.top }
        requires v6 { self.now.v6.top ≡ excluded.now.v6.top }
        ensures v4 { IfOk result (λ a. IsLess self.now.v4 excluded.now.v4 a.v4) }
        ensures v6 { IfOk result (λ a. IsLess self.now.v6 excluded.now.v6 a.v6) }
    {
        let v4 = self.v4.subtract(alloc, &excluded.v4)?;
        Ok(Addresses {
            v4,
            v6: self.v6.subtract(alloc, &excluded.v6)?,
            gathered: self.gathered.saturating_add(excluded.gathered),
        })
    }

    /// Whether they are dear to gather, and to hold more than once.
    pub(crate) fn are_many(&self) -> bool {
        self.gathered > MANY
    }
}

/// What look-ups of names leave to those that follow: marks of walks, and where the last name was found; and marks at the
/// networks whose addresses a list of names has so far, which are begun anew for each list.
#[derive(Drop)]
pub(crate) struct Lookups {
    marks: Marks,
    added: Marks,
}

impl Lookups {
    /// Nothing was looked up.
    pub(crate) fn new(alloc: Global) -> Lookups {
        Lookups {
            marks: Marks::new(alloc),
            added: Marks::new(alloc),
        }
    }
}

// Puts the addresses that the word's name reaches behind those of each family.
fn add_word(
    alloc: Global,
    base: &Checked,
    word: &WordRef<'_>,
    marks: &mut Marks,
    v4: &mut Vec<Range>,
    v6: &mut Vec<Range>,
) -> Result<(), Refusal>
    ensures judged { Judges result (network_slip base.now.networks word.now) }
    ensures v4 { OnOk result (AddsReach base.now.networks word.now.text (wanted.Addresses V4)
        v4.old.items v4.new.items) }
    ensures v6 { OnOk result (AddsReach base.now.networks word.now.text (wanted.Addresses V6)
        v6.old.items v6.new.items) }
{
    match add_networks(alloc, base, word.text(), marks, v4, v6) {
        Ok(()) => Ok(()),
        Err(Lookup::Unknown) => Err(refusal_at(alloc, Code::UnknownName, word)),
        Err(Lookup::Memory) => Err(Refusal::Memory),
        Err(Lookup::NoPort) => unreachable!(),
    }
}

// The same. Those of a name that came before are not put there again.
fn add_word_once(
    alloc: Global,
    base: &Checked,
    word: &WordRef<'_>,
    lookups: &mut Lookups,
    v4: &mut Vec<Range>,
    v6: &mut Vec<Range>,
) -> Result<(), Refusal>
    requires { AreAdded base.now.networks lookups.old.added v4.old.items v6.old.items }
    ensures judged { Judges result (network_slip base.now.networks word.now) }
    ensures v4 { OnOk result (AddsReach base.now.networks word.now.text (wanted.Addresses V4)
        v4.old.items v4.new.items) }
    ensures v6 { OnOk result (AddsReach base.now.networks word.now.text (wanted.Addresses V6)
        v6.old.items v6.new.items) }
    ensures added { OnOk result (AreAdded base.now.networks lookups.new.added v4.new.items v6.new.items) }
{
    let Lookups { marks, added } = lookups;
    match add_networks_once(alloc, base, word.text(), marks, added, v4, v6) {
        Ok(()) => Ok(()),
        Err(Lookup::Unknown) => Err(refusal_at(alloc, Code::UnknownName, word)),
        Err(Lookup::Memory) => Err(Refusal::Memory),
        Err(Lookup::NoPort) => unreachable!(),
    }
}

// Puts the addresses that some of the words reach into the ranges of each family, those of each name once.
fn add_each_word(
    alloc: Global,
    base: &Checked,
    words: &WordList,
    lookups: &mut Lookups,
    v4: &mut Vec<Range>,
    v6: &mut Vec<Range>,
) -> Result<(), Refusal>
    requires v4 { v4.old.items ≡ [] }
    requires v6 { v6.old.items ≡ [] }
    ensures judged { Judges result (first_in (network_slip base.now.networks) words.now) }
    ensures v4 { OnOk result (AreRangesOf (λ x. AnyOf (NamesAddress base.now V4 x) words.now)
        (top_address V4) v4.new.items) }
    ensures v6 { OnOk result (AreRangesOf (λ x. AnyOf (NamesAddress base.now V6 x) words.now)
        (top_address V6) v6.new.items) }
{
    begin_networks(base, &mut lookups.added)?;
    v4.reserve(MOST_OFTEN)?;
    for word in words.iter() {
        add_word_once(alloc, base, &word, lookups, v4, v6)?;
    }
    Ok(())
}

// The same. Of one word alone, as most lists have, nothing is marked.
fn add_words(
    alloc: Global,
    base: &Checked,
    words: &WordList,
    lookups: &mut Lookups,
    v4: &mut Vec<Range>,
    v6: &mut Vec<Range>,
) -> Result<(), Refusal>
    requires v4 { v4.old.items ≡ [] }
    requires v6 { v6.old.items ≡ [] }
    ensures judged { Judges result (first_in (network_slip base.now.networks) words.now) }
    ensures v4 { OnOk result (AreRangesOf (λ x. AnyOf (NamesAddress base.now V4 x) words.now)
        (top_address V4) v4.new.items) }
    ensures v6 { OnOk result (AreRangesOf (λ x. AnyOf (NamesAddress base.now V6 x) words.now)
        (top_address V6) v6.new.items) }
{
    match only_word(words) {
        Some(word) => add_word(alloc, base, &word, &mut lookups.marks, v4, v6),
        None => add_each_word(alloc, base, words, lookups, v4, v6),
    }
}

// The addresses in the ranges of each family.
fn addresses_in(alloc: Global, v4: Vec<Range>, v6: Vec<Range>) -> Result<Addresses, Memory>
    requires v4 { All (λ r. IsRange (top_address V4) r) v4.items }
    requires v6 { All (λ r. IsRange (top_address V6) r) v6.items }
    ensures v4 { IfOk result (λ a. HoldsSame (top_address V4) v4.items a.v4) }
    ensures v6 { IfOk result (λ a. HoldsSame (top_address V6) v6.items a.v6) }
{
    let gathered = v4.len().saturating_add(v6.len());
    let v4 = RangeSet::from_vec(alloc, Family::V4.top_address(), v4)?;
    let v6 = RangeSet::from_vec(alloc, Family::V6.top_address(), v6)?;
    Ok(Addresses { v4, v6, gathered })
}

/// The addresses that some of the words reach.
pub(crate) fn addresses_of_words(
    alloc: Global,
    base: &Checked,
    words: &WordList,
    lookups: &mut Lookups,
) -> Result<Addresses, Refusal>
    ensures judged { Judges result (first_in (network_slip base.now.networks) words.now) }
    ensures v4 { IfOk result (λ a. IsSetOf (λ x. AnyOf (NamesAddress base.now V4 x) words.now)
        (top_address V4) a.v4) }
    ensures v6 { IfOk result (λ a. IsSetOf (λ x. AnyOf (NamesAddress base.now V6 x) words.now)
        (top_address V6) a.v6) }
{
    let mut v4 = Vec::new(alloc);
    let mut v6 = Vec::new(alloc);
    add_words(alloc, base, words, lookups, &mut v4, &mut v6)?;
    Ok(addresses_in(alloc, v4, v6)?)
}

/// All addresses.
#[inline(always)]
pub(crate) fn all_addresses(alloc: Global) -> Result<Addresses, Memory>
    ensures v4 { IfOk result (λ a. HoldsAll (top_address V4) a.v4) }
    ensures v6 { IfOk result (λ a. HoldsAll (top_address V6) a.v6) }
{
    Ok(Addresses {
        v4: RangeSet::all(alloc, Family::V4.top_address())?,
        v6: RangeSet::all(alloc, Family::V6.top_address())?,
        gathered: 0,
    })
}

/// The addresses of an end: those that some words name, less those of the excluded words. Where none is excluded nothing
/// is copied.
pub(crate) fn end_of(
    alloc: Global,
    base: &Checked,
    named: Addresses,
    excludes: &WordList,
    lookups: &mut Lookups,
) -> Result<Addresses, Refusal>
    requires v4 { named.v4.top ≡ top_address V4 }
    requires v6 { named.v6.top ≡ top_address V6 }
    ensures judged { Judges result (first_in (network_slip base.now.networks) excludes.now) }
    ensures v4 { IfOk result (λ a. (words : List Word)
        → IsSetOf (IsNamedAddress base.now V4 words) (top_address V4) named.v4
        → IsSetOf (IsAddress base.now V4 words excludes.now) (top_address V4) a.v4) }
    ensures v6 { IfOk result (λ a. (words : List Word)
        → IsSetOf (IsNamedAddress base.now V6 words) (top_address V6) named.v6
        → IsSetOf (IsAddress base.now V6 words excludes.now) (top_address V6) a.v6) }
{
    if excludes.is_empty() {
        return Ok(named);
    }
    let excluded = addresses_of_words(alloc, base, excludes, lookups)?;
    Ok(named.without(alloc, &excluded)?)
}
