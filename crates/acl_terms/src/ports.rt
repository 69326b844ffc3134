ghost use Rattle.std.specs.Prelude.{◌≡◌, ◌≢◌, ◌||◌, ℕ, [], IfOk};
ghost use Rattle.acl_sets.specs.Ranges.{IsNormal, holds};
ghost use Rattle.acl_text.specs.Refusals.{Judges, first_in};
ghost use Rattle.acl_naming.specs.Ports.{top_port};
ghost use Rattle.acl_naming.specs.Reach.{ReachesPort};
ghost use Rattle.acl_terms.specs.Matching.{Admits, AnyOf, IsPort, NamesPort};
ghost use Rattle.acl_terms.specs.Sets.{IsSetOf};
ghost use Rattle.acl_terms.specs.SetSteps.{IsPortSet, protocol_slip};
ghost use Rattle.acl_terms.specs.Slips.{port_words, service_slip, services_slip};

use crate::checks::refusal_at;
use crate::distinct::{distinct, may_repeat};
use crate::new_words::{NewWords, only_word};
use acl_naming::{Checked, Lookup, ports_near};
use acl_policy::{RawTerm, WordList, WordRef};
use acl_sets::RangeSet;
use acl_text::{Code, Memory, Refusal};
use std::alloc::Global;

// The highest port.
const TOP: u128 = 65535;

/// The ports of a term, from which and to which, and those of either.
#[derive(Drop)]
pub(crate) struct TermPorts {
    pub(crate) sports: RangeSet,
    pub(crate) dports: RangeSet,
    pub(crate) ports: RangeSet,
}

// The ports that the word's name reaches with the protocol. Its definition is looked for at `near` first, and stands there
// then.
fn ports_at(
    alloc: Global,
    base: &Checked,
    proto: u8,
    word: &WordRef<'_>,
    near: &mut usize,
) -> Result<RangeSet, Refusal>
    ensures judged { Judges result (protocol_slip base.now.services proto word.now) }
    ensures set { IfOk result (λ s.
        IsSetOf (ReachesPort base.now.services word.now.text proto) top_port s) }
    ensures some { IfOk result (λ s. s.ranges ≢ []) }
{
    match ports_near(alloc, base, proto, word.text(), near) {
        Ok(set) => Ok(set),
        Err(Lookup::Unknown) => Err(refusal_at(alloc, Code::UnknownName, word)),
        Err(Lookup::NoPort) => Err(refusal_at(alloc, Code::NoPortForProtocol, word)),
        Err(Lookup::Memory) => Err(Refusal::Memory),
    }
}

// The numbers of both sets. Nothing is made where the first has none yet, nor where both have the same, as with a service
// that has its port over TCP and over UDP.
fn joined(alloc: Global, set: RangeSet, more: RangeSet) -> Result<RangeSet, Memory>
    requires { more.top ≡ set.top }
    ensures top { IfOk result (λ s. s.top ≡ set.top) }
    ensures normal { IfOk result (λ s. IsNormal 0 s.top s.ranges) }
    ensures exact { IfOk result (λ s. (x : ℕ) → holds s.ranges x
        ≡ (holds set.ranges x || holds more.ranges x)) }
{
    if set.is_empty() {
        return Ok(more);
    }
    if set.is_same(&more) {
        return Ok(set);
    }
    set.union(alloc, &more)
}

// The ports that it reaches with some of the protocols.
fn ports_by_each(
    alloc: Global,
    base: &Checked,
    protos: &[u8],
    word: &WordRef<'_>,
    near: &mut usize,
) -> Result<RangeSet, Refusal>
    requires { protos.now ≢ [] }
    ensures judged { Judges result (service_slip base.now.services protos.now word.now) }
    ensures set { IfOk result (λ s.
        IsSetOf (λ x. NamesPort base.now protos.now x word.now) top_port s) }
    ensures some { IfOk result (λ s. s.ranges ≢ []) }
{
    let mut out = RangeSet::empty(alloc, TOP);
    for proto in protos {
        let more = ports_at(alloc, base, *proto, word, near)?;
        out = joined(alloc, out, more)?;
    }
    Ok(out)
}

// The same. The next name is looked for behind it first. Most terms with ports have one protocol: its ports are the set.
fn ports_by(
    alloc: Global,
    base: &Checked,
    protos: &[u8],
    word: &WordRef<'_>,
    near: &mut usize,
) -> Result<RangeSet, Refusal>
    requires { protos.now ≢ [] }
    ensures judged { Judges result (service_slip base.now.services protos.now word.now) }
    ensures set { IfOk result (λ s.
        IsSetOf (λ x. NamesPort base.now protos.now x word.now) top_port s) }
    ensures some { IfOk result (λ s. s.ranges ≢ []) }
{
    let ports = match protos {
        [proto] => ports_at(alloc, base, *proto, word, near),
        _ => ports_by_each(alloc, base, protos, word, near),
    };
    *near = near.saturating_add(1);
    ports
}

// The ports that some of the words reach. A text that came before is not looked up again.
fn ports_of_each_word(
    alloc: Global,
    base: &Checked,
    protos: &[u8],
    words: &WordList,
    near: &mut usize,
) -> Result<RangeSet, Refusal>
    requires { protos.now ≢ [] }
    ensures judged { Judges result
        (first_in (service_slip base.now.services protos.now) words.now) }
    ensures set { IfOk result (λ s.
        IsSetOf (λ x. AnyOf (NamesPort base.now protos.now x) words.now) top_port s) }
    ensures some { IfOk result (λ s. words.now ≢ [] → s.ranges ≢ []) }
{
    let mut out = RangeSet::empty(alloc, TOP);
    let mut left = NewWords::new(alloc, words);
    while let Some(word) = left.next()? {
        let more = ports_by(alloc, base, protos, &word, near)?;
        out = joined(alloc, out, more)?;
    }
    Ok(out)
}

// The same. Of one word alone, as most lists have, the ports are the set.
fn ports_of_words(
    alloc: Global,
    base: &Checked,
    protos: &[u8],
    words: &WordList,
    near: &mut usize,
) -> Result<RangeSet, Refusal>
    requires some { words.now ≢ [] }
    requires protos { protos.now ≢ [] }
    ensures judged { Judges result
        (first_in (service_slip base.now.services protos.now) words.now) }
    ensures set { IfOk result (λ s.
        IsSetOf (λ x. AnyOf (NamesPort base.now protos.now x) words.now) top_port s) }
    ensures some { IfOk result (λ s. s.ranges ≢ []) }
{
    match only_word(words) {
        Some(word) => ports_by(alloc, base, protos, &word, near),
        None => ports_of_each_word(alloc, base, protos, words, near),
    }
}

// The same, or all where no word is written. A protocol that stands twice is not looked up again.
fn admitted_ports(
    alloc: Global,
    base: &Checked,
    protos: &[u8],
    words: &WordList,
    near: &mut usize,
) -> Result<RangeSet, Refusal>
    requires { words.now ≢ [] → protos.now ≢ [] }
    ensures judged { Judges result
        (first_in (service_slip base.now.services protos.now) words.now) }
    ensures set { IfOk result (λ s. IsSetOf (IsPort base.now protos.now words.now) top_port s) }
    ensures some { IfOk result (λ s. s.ranges ≢ []) }
{
    if words.is_empty() {
        return Ok(RangeSet::all(alloc, TOP)?);
    }
    if !may_repeat(protos) {
        return ports_of_words(alloc, base, protos, words, near);
    }
    let protos = distinct(alloc, protos)?;
    ports_of_words(alloc, base, &protos, words, near)
}

/// The ports of a term with its protocols, or the first slip at names of ports. Some protocol is named where
/// ports are. The first name is looked for at `near` first.
pub(crate) fn ports_of_term(
    alloc: Global,
    base: &Checked,
    protos: &[u8],
    raw: &RawTerm,
    near: &mut usize,
) -> Result<TermPorts, Refusal>
    requires { port_words raw.now ≢ [] → protos.now ≢ [] }
    ensures judged { Judges result (services_slip base.now.services protos.now raw.now) }
    ensures ports { IfOk result (λ p.
        IsPortSet base.now protos.now raw.now p.sports p.dports p.ports) }
{
    let sports = admitted_ports(alloc, base, protos, raw.source_ports(), near)?;
    let dports = admitted_ports(alloc, base, protos, raw.destination_ports(), near)?;
    let ports = admitted_ports(alloc, base, protos, raw.ports(), near)?;
    Ok(TermPorts {
        sports,
        dports,
        ports,
    })
}
