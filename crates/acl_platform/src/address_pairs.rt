ghost use Rattle.std.specs.Prelude.{◌≡◌, ℕ, List, [], ◌∷◌, ◌++◌, Some, Option, IsTrue, flat_map};
ghost use Rattle.acl_text.specs.Puts.{Puts};
ghost use Rattle.acl_rows.specs.Rows.{Row, text_of_rows};
ghost use Rattle.acl_packet.specs.declared.addresses.Prefix.{Prefix};
ghost use Rattle.acl_platform.specs.Choices.{number_choices, pairs};
ghost use Rattle.acl_platform.specs.Combinations.{IsSized};

use crate::choices::{Choices, NumberChoices};
use crate::prefix_lists::{ListedPrefixes, one_prefix};
use crate::rules::Rule;
use acl_packet::Prefix;
use acl_rows::{LineHalves, RowForm, put_pairs};
use acl_text::{Out, PutFault};

/// How a protocol, a source and a destination are written as one line of three parts: what is the same
/// for all addresses, behind it what is said of the source, and then what is the same for all sources.
pub trait AddressForm {
    ghost rows: { Self → Option ℕ × (Prefix × Prefix) → List Row };

    ghost front: { Self → Option ℕ → List ℕ };

    ghost source: { Self → Option ℕ → Prefix → List ℕ };

    ghost back: { Self → Prefix → List ℕ };

    /// Puts what the line begins with.
    fn put_front<O: Out>(&self, proto: Option<u8>, out: &mut O) -> Result<(), PutFault>
        requires { IsTrue (O.is_open out.old) }
        ensures { Puts O.Out out.old out.new (front self.now proto) result };

    /// Puts what stands behind the front, up to the source.
    fn put_source<O: Out>(
        &self,
        proto: Option<u8>,
        src: &Prefix,
        out: &mut O,
    ) -> Result<(), PutFault>
        requires { IsTrue (O.is_open out.old) }
        ensures { Puts O.Out out.old out.new (source self.now proto src.now) result };

    /// Puts what the line ends with, from the destination on, the line feed included.
    fn put_back<O: Out>(&self, dst: &Prefix, out: &mut O) -> Result<(), PutFault>
        requires { IsTrue (O.is_open out.old) }
        ensures { Puts O.Out out.old out.new (back self.now dst.now) result };

    ghost is_parts: { (s : Self) (proto : Option ℕ) (src dst : Prefix)
        → text_of_rows (rows s (proto, (src, dst)))
        ≡ (front s proto ++ source s proto src) ++ back s dst };
}

/// Puts the line of each protocol of the rule with each of its sources and each of its destinations,
/// the protocol outermost. What is the same in many lines is put together once for them.
#[tactic(auto, using(crate::proofs::SoundRules::protocols_small))]
pub fn put_address_pairs<F: AddressForm, O: Out>(
    rule: &Rule,
    form: &F,
    out: &mut O,
) -> Result<(), PutFault>
    requires open { IsTrue (O.is_open out.old) }
    requires sized { IsSized rule.now }
    ensures { Puts O.Out out.old out.new
        (text_of_rows (flat_map (F.rows form.now)
        (pairs (number_choices rule.now.protos) (pairs rule.now.src rule.now.dst)))) result }
{
    let only = one_prefix(&rule.dst);
    let each = OfProtocol { rule, only, form };
    NumberChoices { set: &rule.protos }.put_each(&each, out)
}

// A protocol, written with each pair of addresses.
#[derive(Drop)]
struct OfProtocol<'a, F> {
    rule: &'a Rule,
    // The only destination, where there is one.
    only: Option<Prefix>,
    form: &'a F,
    ghost alone: { (dst : _) → only ≡ Some dst → rule.now.dst ≡ dst ∷ [] },
}

impl<'a, F: AddressForm> RowForm<Option<u8>> for OfProtocol<'a, F> {
    ghost item_rows = { λ o proto. flat_map (λ addresses. F.rows o.form.now (proto, addresses))
        (pairs o.rule.now.src o.rule.now.dst) };

    fn put_item<O: Out>(&self, item: &Option<u8>, out: &mut O) -> Result<(), PutFault> {
        match self.only {
            Some(dst) => self.put_each_source(*item, dst, out),
            None => self.put_each_pair(*item, out),
        }
    }
}

impl<'a, F: AddressForm> OfProtocol<'a, F> {
    // Puts the line of each source with the one destination, behind one front.
    fn put_each_source<O: Out>(
        &self,
        proto: Option<u8>,
        dst: Prefix,
        out: &mut O,
    ) -> Result<(), PutFault>
        requires open { IsTrue (O.is_open out.old) }
        requires alone { self.now.rule.now.dst ≡ dst ∷ [] }
        ensures { Puts O.Out out.old out.new
            (text_of_rows (flat_map (λ addresses. F.rows self.now.form.now (proto, addresses))
            (pairs self.now.rule.now.src self.now.rule.now.dst))) result }
    {
        let fronts: &[Option<u8>] = &[proto];
        let halves = BehindFront {
            proto,
            dst,
            form: self.form,
        };
        let sources = ListedPrefixes::all(&self.rule.src);
        put_pairs(&fronts, &sources, false, &halves, out)
    }

    // Puts the line of each source with each destination.
    fn put_each_pair<O: Out>(&self, proto: Option<u8>, out: &mut O) -> Result<(), PutFault>
        requires { IsTrue (O.is_open out.old) }
        ensures { Puts O.Out out.old out.new
            (text_of_rows (flat_map (λ addresses. F.rows self.now.form.now (proto, addresses))
            (pairs self.now.rule.now.src self.now.rule.now.dst))) result }
    {
        let halves = AddressHalves {
            proto,
            form: self.form,
        };
        let firsts = ListedPrefixes::all(&self.rule.src);
        let seconds = ListedPrefixes::all(&self.rule.dst);
        put_pairs(&firsts, &seconds, pays_to_keep(self.rule), &halves, out)
    }
}

// From so many lines on it pays to keep backs, whose texts must be cleared first.
const MANY: u64 = 256;

// Whether the backs of so many lines are worth keeping. The lines are the same.
fn pays_to_keep(rule: &Rule) -> bool {
    let sources = rule.src.count();
    sources >= 2 && sources.saturating_mul(rule.dst.count()) >= MANY
}

// A source, written behind the front with the one destination.
#[derive(Drop)]
struct BehindFront<'a, F> {
    proto: Option<u8>,
    dst: Prefix,
    form: &'a F,
}

impl<'a, F: AddressForm> LineHalves<Option<u8>, Prefix> for BehindFront<'a, F> {
    ghost front = { λ b proto. F.front b.form.now proto };

    ghost back = { λ b src. F.source b.form.now b.proto src ++ F.back b.form.now b.dst };

    #[inline]
    fn put_front<O: Out>(&self, first: &Option<u8>, out: &mut O) -> Result<(), PutFault> {
        self.form.put_front(*first, out)
    }

    #[inline]
    fn put_back<O: Out>(&self, second: &Prefix, out: &mut O) -> Result<(), PutFault> {
        self.form.put_source(self.proto, second, out)?;
        self.form.put_back(&self.dst, out)
    }
}

// A source and a destination, written with the protocol.
#[derive(Drop)]
struct AddressHalves<'a, F> {
    proto: Option<u8>,
    form: &'a F,
}

impl<'a, F: AddressForm> LineHalves<Prefix, Prefix> for AddressHalves<'a, F> {
    ghost front = { λ h src. F.front h.form.now h.proto ++ F.source h.form.now h.proto src };

    ghost back = { λ h dst. F.back h.form.now dst };

    #[inline]
    fn put_front<O: Out>(&self, first: &Prefix, out: &mut O) -> Result<(), PutFault> {
        self.form.put_front(self.proto, out)?;
        self.form.put_source(self.proto, first, out)
    }

    #[inline]
    fn put_back<O: Out>(&self, second: &Prefix, out: &mut O) -> Result<(), PutFault> {
        self.form.put_back(second, out)
    }
}
