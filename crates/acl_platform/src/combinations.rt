ghost use Rattle.std.specs.Prelude.{◌≡◌, ◌≤◌, ℕ, List, [], ◌∷◌, ◌++◌, Option, IfSome, IsTrue, min, length, flat_map};
ghost use Rattle.acl_text.specs.Output.{COUNT_END};
ghost use Rattle.acl_text.specs.Puts.{Puts};
ghost use Rattle.acl_rows.specs.Rows.{text_of_rows};
ghost use Rattle.acl_packet.specs.declared.addresses.Prefix.{Prefix};
ghost use Rattle.acl_platform.specs.declared.combinations.Combination.{Combination};
ghost use Rattle.acl_platform.specs.Choices.{range_choices};
ghost use Rattle.acl_platform.specs.ChoiceSteps.{tails_of, with_tail};
ghost use Rattle.acl_platform.specs.Combinations.{IsSized, combination_of, combinations, parts_of};

use crate::address_pairs::{AddressForm, put_address_pairs};
use crate::choices::{Choices, NumberChoices, RangeChoices, ends_of};
use crate::elements::ranges_of;
use crate::rules::Rule;
use acl_packet::Prefix;
use acl_rows::RowForm;
use acl_sets::{Prefixes, RangeSet};
use acl_text::{Out, PutFault};

/// A choice of each part of a rule; `None` is no condition.
#[derive(Clone, Copy)]
pub struct Combination {
    pub proto: Option<u8>,
    pub src: Prefix,
    pub dst: Prefix,
    /// From the low port to the high one.
    pub sport: Option<(u16, u16)>,
    pub dport: Option<(u16, u16)>,
    pub itype: Option<u8>,
    pub icode: Option<u8>,
}

/// Puts the lines of each combination of the rule in the form, the protocol outermost.
pub fn put_combinations<F: RowForm<Combination>, O: Out>(
    rule: &Rule,
    form: &F,
    out: &mut O,
) -> Result<(), PutFault>
    requires open { IsTrue (O.is_open out.old) }
    requires sized { IsSized rule.now }
    ensures { Puts O.Out out.old out.new
        (text_of_rows (flat_map (F.item_rows form.now) (combinations rule.now))) result }
{
    choices_of(rule).put_each(&InParts { form }, out)
}

/// How a combination is written as one line of three parts: what is the same for all addresses, behind
/// it what is said of the source, and then what is the same for all sources.
pub trait CombinationForm: RowForm<Combination> {
    ghost start: { Self → Option ℕ → List ℕ };

    ghost source: { Self → Prefix → Option (ℕ × ℕ) → List ℕ };

    ghost back: { Self → Prefix → Option (ℕ × ℕ) → Option ℕ → Option ℕ → List ℕ };

    /// Puts what the line begins with, up to the protocol.
    fn put_start<O: Out>(&self, proto: Option<u8>, out: &mut O) -> Result<(), PutFault>
        requires { IsTrue (O.is_open out.old) }
        ensures { Puts O.Out out.old out.new (start self.now proto) result };

    /// Puts what stands behind the start: the source and its ports.
    fn put_source<O: Out>(
        &self,
        src: &Prefix,
        sport: Option<(u16, u16)>,
        out: &mut O,
    ) -> Result<(), PutFault>
        requires { IsTrue (O.is_open out.old) }
        ensures { Puts O.Out out.old out.new (source self.now src.now sport) result };

    /// Puts what the line ends with: destination, destination ports, type and code.
    fn put_back<O: Out>(
        &self,
        dst: &Prefix,
        dport: Option<(u16, u16)>,
        itype: Option<u8>,
        icode: Option<u8>,
        out: &mut O,
    ) -> Result<(), PutFault>
        requires { IsTrue (O.is_open out.old) }
        ensures { Puts O.Out out.old out.new (back self.now dst.now dport itype icode) result };

    ghost is_parts: { (s : Self) (c : Combination) → text_of_rows (Self.item_rows s c)
        ≡ (start s c.proto ++ source s c.src c.sport) ++ back s c.dst c.dport c.itype c.icode };
}

/// Puts the line of each combination of the rule, the protocol outermost. Where the combinations
/// differ in protocols and addresses alone, each part of a line is put together once for many lines.
pub fn put_combinations_by_parts<F: CombinationForm, O: Out>(
    rule: &Rule,
    form: &F,
    out: &mut O,
) -> Result<(), PutFault>
    requires open { IsTrue (O.is_open out.old) }
    requires sized { IsSized rule.now }
    ensures { Puts O.Out out.old out.new
        (text_of_rows (flat_map (F.item_rows form.now) (combinations rule.now))) result }
{
    match one_tail(rule) {
        Some(tail) => put_with_tail(rule, tail, form, out),
        None => put_combinations(rule, form, out),
    }
}

/// The number of combinations of the rule; a number that does not fit stands at the greatest one
/// that does.
pub fn count_combinations(rule: &Rule) -> u64
    requires { IsSized rule.now }
    ensures { result ≡ min (length (combinations rule.now)) COUNT_END }
{
    choices_of(rule).count()
}

// Source ports, destination ports, type, and code.
type Tail = (
    Option<(u16, u16)>,
    (Option<(u16, u16)>, (Option<u8>, Option<u8>)),
);

// Protocol, source, and destination, with a tail.
type Parts = (Option<u8>, (Prefix, (Prefix, Tail)));

type PartChoices<'a> = (
    NumberChoices<'a>,
    (
        &'a Prefixes,
        (
            &'a Prefixes,
            (
                RangeChoices<'a>,
                (RangeChoices<'a>, (NumberChoices<'a>, NumberChoices<'a>)),
            ),
        ),
    ),
);

#[tactic(auto, using(crate::proofs::SoundRules::protocols_small, crate::proofs::SoundRules::source_ports_small, crate::proofs::SoundRules::destination_ports_small, crate::proofs::SoundRules::types_small, crate::proofs::SoundRules::codes_small))]
fn choices_of(rule: &Rule) -> PartChoices<'_>
    requires { IsSized rule.now }
    ensures { ⟦<PartChoices<'static> as Choices>⟧.items result ≡ parts_of rule.now }
{
    let icodes = NumberChoices { set: &rule.icodes };
    let itypes = NumberChoices { set: &rule.itypes };
    let dports = RangeChoices { set: &rule.dports };
    let sports = RangeChoices { set: &rule.sports };
    let protos = NumberChoices { set: &rule.protos };
    let ports = (sports, (dports, (itypes, icodes)));
    (protos, (&rule.src, (&rule.dst, ports)))
}

// The tail of all combinations of the rule, where they have the same.
#[tactic(auto, using(crate::proofs::SoundRules::source_ports_small, crate::proofs::SoundRules::destination_ports_small))]
fn one_tail(rule: &Rule) -> Option<Tail>
    requires { IsSized rule.now }
    ensures { IfSome result (λ tail. tails_of rule.now ≡ tail ∷ []) }
{
    if !rule.itypes.is_all() || !rule.icodes.is_all() {
        return None;
    }
    let sport = one_range(&rule.sports)?;
    let dport = one_range(&rule.dports)?;
    Some((sport, (dport, (None, None))))
}

// The choice of the set, where it has one.
fn one_range(set: &RangeSet) -> Option<Option<(u16, u16)>>
    requires { set.now.top ≤ 65535 }
    ensures { IfSome result (λ choice. range_choices set.now ≡ choice ∷ []) }
{
    if set.is_all() {
        return Some(None);
    }
    match ranges_of(set) {
        [range] => Some(Some(ends_of(range))),
        _ => None,
    }
}

// Parts, written as the combination that they are.
#[derive(Drop)]
struct InParts<'a, F> {
    form: &'a F,
}

impl<'a, F: RowForm<Combination>> RowForm<Parts> for InParts<'a, F> {
    ghost item_rows = { λ f parts. F.item_rows f.form.now (combination_of parts) };

    #[inline]
    fn put_item<O: Out>(&self, item: &Parts, out: &mut O) -> Result<(), PutFault> {
        self.form.put_item(&combination_of(*item), out)
    }
}

#[inline]
fn combination_of(parts: Parts) -> Combination
    ensures { result ≡ combination_of parts }
{
    let (proto, (src, (dst, (sport, (dport, (itype, icode)))))) = parts;
    Combination {
        proto,
        src,
        dst,
        sport,
        dport,
        itype,
        icode,
    }
}

// Puts the line of each combination of the rule, all of which have the tail.
fn put_with_tail<F: CombinationForm, O: Out>(
    rule: &Rule,
    tail: Tail,
    form: &F,
    out: &mut O,
) -> Result<(), PutFault>
    requires open { IsTrue (O.is_open out.old) }
    requires sized { IsSized rule.now }
    requires alone { tails_of rule.now ≡ tail ∷ [] }
    ensures { Puts O.Out out.old out.new
        (text_of_rows (flat_map (F.item_rows form.now) (combinations rule.now))) result }
{
    put_address_pairs(rule, &WithTail { tail, form }, out)
}

// A protocol and addresses, written with the tail.
#[derive(Drop)]
struct WithTail<'a, F> {
    tail: Tail,
    form: &'a F,
}

impl<'a, F: CombinationForm> AddressForm for WithTail<'a, F> {
    ghost rows = { λ w c. F.item_rows w.form.now (combination_of (with_tail w.tail c)) };

    ghost front = { λ w proto. F.start w.form.now proto };

    ghost source = { λ w proto src. F.source w.form.now src w.tail.0 };

    ghost back = { λ w dst. F.back w.form.now dst w.tail.1.0 w.tail.1.1.0 w.tail.1.1.1 };

    #[inline]
    fn put_front<O: Out>(&self, proto: Option<u8>, out: &mut O) -> Result<(), PutFault> {
        self.form.put_start(proto, out)
    }

    #[inline]
    fn put_source<O: Out>(
        &self,
        _proto: Option<u8>,
        src: &Prefix,
        out: &mut O,
    ) -> Result<(), PutFault> {
        let (sport, _) = self.tail;
        self.form.put_source(src, sport, out)
    }

    #[inline]
    fn put_back<O: Out>(&self, dst: &Prefix, out: &mut O) -> Result<(), PutFault> {
        let (_, (dport, (itype, icode))) = self.tail;
        self.form.put_back(dst, dport, itype, icode, out)
    }

    ghost is_parts = { λ w proto src dst.
        F.is_parts w.form.now (combination_of (with_tail w.tail (proto, (src, dst)))) };
}
