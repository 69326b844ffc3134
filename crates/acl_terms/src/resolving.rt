ghost use Rattle.std.specs.Prelude.{◌≡◌, ◌∷◌, true, None, IfOk};
ghost use Rattle.acl_text.specs.Notes.{is_note, note_of};
ghost use Rattle.acl_text.specs.Refusals.{Judges, first_some};
ghost use Rattle.acl_policy.specs.Conditions.{IsRawTerm};
ghost use Rattle.acl_terms.specs.ComputableTerms.{sets_of};
ghost use Rattle.acl_terms.specs.Matching.{IsProtocol, icmp_family, is_written, protocols_of};
ghost use Rattle.acl_terms.specs.Resolved.{AreFieldsOf, GivesValue, IsResolved, sets_in};
ghost use Rattle.acl_terms.specs.Sets.{AreSetsOf, IsSetOf};
ghost use Rattle.acl_terms.specs.SetSteps.{IsCode, IsPortSet, IsType};
ghost use Rattle.acl_terms.specs.Slips.{port_protocol_slip, services_slip, slip_of, words_slips};

use crate::checks::{check_port_protocol, check_words, icmp_family, option_of, verdict_of};
use crate::ends::{Ends, ends_of};
use crate::known_addresses::KnownAddresses;
use crate::living::{platforms_of, some_platforms};
use crate::ports::TermPorts;
use crate::protocols::{admitted_codes, admitted_types, few_protocols, protocols_of};
use crate::terms::Term;
use acl_naming::Checked;
use acl_policy::{RawTerm, WordList};
use acl_sets::RangeSet;
use acl_text::{Bytes, Memory, Refusal, note};
use acl_words::WordBytes;
use std::alloc::Global;

// The sets of a term that are none of addresses.
#[derive(Drop)]
struct NumberSets {
    protos: RangeSet,
    ports: TermPorts,
    itypes: RangeSet,
    icodes: RangeSet,
}

// The ports of the term, or the first slip that it has at words that are no names of addresses.
fn checked_ports(
    alloc: Global,
    protos: &[u8],
    raw: &RawTerm,
    known: &mut KnownAddresses<'_>,
) -> Result<TermPorts, Refusal>
    ensures judged { Judges result (first_some (port_protocol_slip protos.now raw.now
        ∷ services_slip known.old.services protos.now raw.now ∷ words_slips protos.now raw.now)) }
    ensures ports { IfOk result (λ p.
        IsPortSet known.old protos.now raw.now p.sports p.dports p.ports) }
    ensures same { known.new ≡ known.old }
{
    check_port_protocol(alloc, protos, raw)?;
    let ports = known.ports_of(alloc, protos, raw)?;
    check_words(alloc, protos, raw)?;
    Ok(ports)
}

// Its protocols, its ICMP types and its codes.
fn number_sets(
    alloc: Global,
    protos: &[u8],
    raw: &RawTerm,
    known: &mut KnownAddresses<'_>,
) -> Result<(RangeSet, RangeSet, RangeSet), Memory>
    requires { protos.now ≡ protocols_of raw.now.protocols }
    ensures protos { IfOk result (λ s. IsSetOf (IsProtocol raw.now.protocols) 255 s.0) }
    ensures types { IfOk result (λ s.
        IsSetOf (IsType (icmp_family protos.now) raw.now.icmp_types) 255 s.1) }
    ensures codes { IfOk result (λ s. IsSetOf (IsCode raw.now.icmp_codes) 255 s.2) }
    ensures same { known.new ≡ known.old }
{
    let admitted = known.protocols_of(alloc, raw.protocols(), protos)?;
    let itypes = admitted_types(alloc, icmp_family(protos), raw.icmp_types())?;
    Ok((admitted, itypes, admitted_codes(alloc, raw.icmp_codes())?))
}

// All of these.
fn numbers_of(
    alloc: Global,
    protos: &[u8],
    raw: &RawTerm,
    known: &mut KnownAddresses<'_>,
) -> Result<NumberSets, Refusal>
    requires { protos.now ≡ protocols_of raw.now.protocols }
    ensures judged { Judges result (first_some (port_protocol_slip protos.now raw.now
        ∷ services_slip known.old.services protos.now raw.now ∷ words_slips protos.now raw.now)) }
    ensures ports { IfOk result (λ s.
        IsPortSet known.old protos.now raw.now s.ports.sports s.ports.dports s.ports.ports) }
    ensures protos { IfOk result (λ s. IsSetOf (IsProtocol raw.now.protocols) 255 s.protos) }
    ensures types { IfOk result (λ s.
        IsSetOf (IsType (icmp_family protos.now) raw.now.icmp_types) 255 s.itypes) }
    ensures codes { IfOk result (λ s. IsSetOf (IsCode raw.now.icmp_codes) 255 s.icodes) }
    ensures same { known.new ≡ known.old }
{
    let ports = checked_ports(alloc, protos, raw, known)?;
    let (protos, itypes, icodes) = number_sets(alloc, protos, raw, known)?;
    Ok(NumberSets {
        protos,
        ports,
        itypes,
        icodes,
    })
}

fn is_written(words: &WordList) -> bool
    ensures { result ≡ is_written words.now }
{
    !words.is_empty()
}

// The note of a term with these comments. Most have none.
#[tactic(auto, unfolding(acl_text::specs::Notes::note_of, acl_text::specs::Notes::safe_words))]
fn note_with(alloc: Global, comments: &[u8]) -> Result<Bytes, Memory>
    ensures exact { IfOk result (λ n. n ≡ note_of comments.now) }
    ensures safe { IfOk result (λ n. is_note n ≡ true) }
{
    if comments.is_empty() {
        return Ok(Bytes::new(alloc));
    }
    note(alloc, comments)
}

// Its name and its note.
fn texts_of(alloc: Global, raw: &RawTerm) -> Result<(WordBytes, Bytes), Memory>
    ensures name { IfOk result (λ both. both.0 ≡ raw.now.name.text) }
    ensures note { IfOk result (λ both. both.1 ≡ note_of raw.now.comments) }
    ensures safe { IfOk result (λ both. is_note both.1 ≡ true) }
{
    let name = WordBytes::from_slice(alloc, raw.name().text.as_slice())?;
    Ok((name, note_with(alloc, raw.comments().as_slice())?))
}

// The term with its protocols, or its first slip. It is large, so it is made where its sets are gathered.
#[tactic(auto, unfolding(crate::specs::Slips::slip_of))]
fn term_with<'a>(
    alloc: Global,
    raw: &'a RawTerm,
    protos: &[u8],
    known: &mut KnownAddresses<'a>,
) -> Result<Term, Refusal>
    requires fits { IsRawTerm raw.now }
    requires protos { protos.now ≡ protocols_of raw.now.protocols }
    ensures judged { Judges result (slip_of known.old raw.now) }
    ensures sets { IfOk result (λ t. AreSetsOf known.old raw.now (sets_in t)) }
    ensures fields { IfOk result (AreFieldsOf raw.now) }
    ensures same { known.new ≡ known.old }
{
    let ends = ends_of(alloc, raw, known)?;
    let numbers = numbers_of(alloc, protos, raw, known)?;
    let (name, note) = texts_of(alloc, raw)?;
    let Ends { src, dst, either } = ends;
    let NumberSets {
        protos,
        ports,
        itypes,
        icodes,
    } = numbers;
    Ok(Term {
        name,
        place: raw.name().place,
        note,
        src4: src.v4,
        src6: src.v6,
        dst4: dst.v4,
        dst6: dst.v6,
        addr4: either.v4,
        addr6: either.v6,
        addr_named: is_written(raw.addresses()),
        protos,
        sports: ports.sports,
        dports: ports.dports,
        dport_named: is_written(raw.destination_ports()),
        ports: ports.ports,
        port_named: is_written(raw.ports()),
        itypes,
        icodes,
        option: option_of(raw.options()),
        verdict: verdict_of(raw.action().text.as_slice()),
        log: raw.logging(),
        expires: raw.expires(),
        only: some_platforms(raw.platforms()),
        never: platforms_of(raw.not_platforms()),
    })
}

// The term, or its first slip.
fn term_of<'a>(
    alloc: Global,
    raw: &'a RawTerm,
    known: &mut KnownAddresses<'a>,
) -> Result<Term, Refusal>
    requires { IsRawTerm raw.now }
    ensures judged { Judges result (slip_of known.old raw.now) }
    ensures sets { IfOk result (λ t. AreSetsOf known.old raw.now (sets_in t)) }
    ensures fields { IfOk result (AreFieldsOf raw.now) }
    ensures same { known.new ≡ known.old }
{
    if let Some(few) = few_protocols(raw.protocols()) {
        return term_with(alloc, raw, few.as_slice(), known);
    }
    let protos = protocols_of(alloc, raw.protocols())?;
    term_with(alloc, raw, &protos, known)
}

/// The term with its words read as numbers, or its first slip.
///
/// Slips, in this order: `UnknownName` at a name of addresses, `PortProtocol`, `UnknownName` and
/// `NoPortForProtocol` at names of ports word by word, `IcmpProtocol`, `IcmpCode`, `OptionClash`,
/// `OptionProtocol`, `ResetProtocol`.
pub fn resolve(alloc: Global, base: &Checked, raw: &RawTerm) -> Result<Term, Refusal>
    requires { IsRawTerm raw.now }
    ensures slip { Judges result (slip_of base.now raw.now) }
    ensures complete { slip_of base.now raw.now ≡ None → GivesValue result }
    ensures sets { IfOk result (λ t. AreSetsOf base.now raw.now (sets_in t)) }
    ensures fields { IfOk result (AreFieldsOf raw.now) }
    ensures computed { IfOk result (λ t. sets_in t ≡ sets_of base.now raw.now) }
    ensures resolved { IfOk result (IsResolved base.now raw.now) }
{
    let mut known = KnownAddresses::new(alloc, base);
    resolve_with(alloc, raw, &mut known)
}

/// The same, where the addresses that are known of other terms are shared. Those of this term are known from now on.
pub fn resolve_with<'a>(
    alloc: Global,
    raw: &'a RawTerm,
    known: &mut KnownAddresses<'a>,
) -> Result<Term, Refusal>
    requires { IsRawTerm raw.now }
    ensures slip { Judges result (slip_of known.old raw.now) }
    ensures complete { slip_of known.old raw.now ≡ None → GivesValue result }
    ensures sets { IfOk result (λ t. AreSetsOf known.old raw.now (sets_in t)) }
    ensures fields { IfOk result (AreFieldsOf raw.now) }
    ensures computed { IfOk result (λ t. sets_in t ≡ sets_of known.old raw.now) }
    ensures resolved { IfOk result (IsResolved known.old raw.now) }
    ensures same { known.new ≡ known.old }
{
    term_of(alloc, raw, known)
}
