ghost use Rattle.std.specs.Prelude.{◌≡◌, ◌∷◌, ◌++◌, [], codes};
ghost use Rattle.acl_text.specs.AddressTexts.{prefix_text};
ghost use Rattle.acl_rows.specs.Rows.{row};
ghost use Rattle.acl_rows.specs.RuleParts.{is_empty};
ghost use Rattle.junos_lang.specs.ConditionSteps.{last_rows, value_rows};
ghost use Rattle.junos_lang.specs.declared.conditions.Condition.TheVariants.{SourcePort, DestinationPort, IcmpType, IcmpCode};
ghost use Rattle.junos_lang.specs.Texts.{address_rows, condition_word, from_rows, list_row, list_rows, range_word, test_rows};

use crate::conditions::Condition;
use crate::documents::JTest;
use crate::fixed_rows::FixedRow;
use acl_packet::{Family, Prefix};
use acl_rows::{
    EachWord, End, Listed, ListedRows, OneWord, Piece, Row, Rows, WordForm, Words, has_none,
};
use acl_text::{Out, PutFault, put_prefix_between};

/// The values of a condition, each of which is a word.
pub trait Values: Words {
    /// Whether there are none.
    fn are_none(&self) -> bool
        ensures { result ≡ is_empty (Self.words self.now) };
}

/// The items of a list.
impl<'a, T, F: WordForm<T>> Values for EachWord<'a, T, F> {
    fn are_none(&self) -> bool {
        self.items.is_empty()
    }
}

/// The conditions of a term in their block, or nothing where it has none.
///
/// A list without values is no condition.
#[derive(Drop)]
pub struct FromPart<A, N, P> {
    pub family: Family,
    pub src: A,
    pub dst: A,
    pub protos: N,
    pub sports: P,
    pub dports: P,
    pub itypes: N,
    pub icodes: N,
    pub test: Option<JTest>,
}

impl<A: Listed<Item = Prefix>, N: Values + Copy, P: Values + Copy> Rows for FromPart<A, N, P> {
    ghost rows = { λ f. from_rows (value_rows f.family (A.items f.src) (A.items f.dst) (N.words f.protos)
        (P.words f.sports) (P.words f.dports) (N.words f.itypes) (N.words f.icodes) f.test) };

    fn put_rows<O: Out>(&self, out: &mut O) -> Result<(), PutFault> {
        let sources = AddressRows {
            end: End::Source,
            prefixes: &self.src,
        };
        let destinations = AddressRows {
            end: End::Destination,
            prefixes: &self.dst,
        };
        let protocols = ListRows {
            condition: Condition::protocol_of(self.family),
            values: self.protos,
        };
        let last = LastConditions { part: self };
        let conditions = (sources, (destinations, (protocols, last)));
        ConditionBlock { conditions }.put_rows(out)
    }
}

// Rows of which there may be none. Those behind are looked at first: they are told sooner than addresses.
trait Conditions: Rows {
    fn is_none(&self) -> bool
        ensures { result ≡ is_empty (Self.rows self.now) };
}

impl<A: Conditions, B: Conditions> Conditions for (A, B) {
    fn is_none(&self) -> bool {
        self.1.is_none() && self.0.is_none()
    }
}

// The conditions behind those on addresses and protocols.
#[derive_where(Clone, Copy)]
struct LastConditions<'a, A, N, P> {
    part: &'a FromPart<A, N, P>,
}

// Of source ports, destination ports, types, codes, and flags.
type LastParts<N, P> = (
    ListRows<P>,
    (ListRows<P>, (ListRows<N>, (ListRows<N>, TestRows))),
);

impl<'a, A, N: Values + Copy, P: Values + Copy> LastConditions<'a, A, N, P> {
    fn parts(&self) -> LastParts<N, P>
        ensures { result ≡ (
          record { condition = SourcePort; values = self.now.part.now.sports },
          (
            record { condition = DestinationPort; values = self.now.part.now.dports },
            (
              record { condition = IcmpType; values = self.now.part.now.itypes },
              (
                record { condition = IcmpCode; values = self.now.part.now.icodes },
                record { test = self.now.part.now.test },
              ),
            ),
          ),
        ) }
    {
        let source_ports = ListRows {
            condition: Condition::SourcePort,
            values: self.part.sports,
        };
        let destination_ports = ListRows {
            condition: Condition::DestinationPort,
            values: self.part.dports,
        };
        let types = ListRows {
            condition: Condition::IcmpType,
            values: self.part.itypes,
        };
        let codes = ListRows {
            condition: Condition::IcmpCode,
            values: self.part.icodes,
        };
        let test = TestRows {
            test: self.part.test,
        };
        (source_ports, (destination_ports, (types, (codes, test))))
    }
}

impl<'a, A, N: Values + Copy, P: Values + Copy> Rows for LastConditions<'a, A, N, P> {
    ghost rows = { λ c. last_rows (P.words c.part.now.sports) (P.words c.part.now.dports)
        (N.words c.part.now.itypes) (N.words c.part.now.icodes) c.part.now.test };

    fn put_rows<O: Out>(&self, out: &mut O) -> Result<(), PutFault> {
        self.parts().put_rows(out)
    }
}

impl<'a, A, N: Values + Copy, P: Values + Copy> Conditions for LastConditions<'a, A, N, P> {
    fn is_none(&self) -> bool {
        self.parts().is_none()
    }
}

// Conditions in a block, or nothing where there are none.
#[derive(Drop)]
struct ConditionBlock<C> {
    conditions: C,
}

impl<C: Conditions + Copy> Rows for ConditionBlock<C> {
    ghost rows = { λ b. from_rows (C.rows b.conditions) };

    fn put_rows<O: Out>(&self, out: &mut O) -> Result<(), PutFault> {
        if self.conditions.is_none() {
            Ok(())
        } else {
            (FixedRow::FromHead, (self.conditions, FixedRow::PartEnd)).put_rows(out)
        }
    }
}

// The rows of the addresses of an end. None where there are no addresses.
#[derive_where(Clone, Copy)]
struct AddressRows<'a, A> {
    end: End,
    prefixes: &'a A,
}

impl<'a, A: Listed<Item = Prefix>> Rows for AddressRows<'a, A> {
    ghost rows = { λ a. address_rows a.end (A.items a.prefixes.now) };

    #[tactic(auto, unfolding(crate::specs::Texts::address_rows))]
    fn put_rows<O: Out>(&self, out: &mut O) -> Result<(), PutFault> {
        if has_none(self.prefixes) {
            return Ok(());
        }
        let head = FixedRow::head_of(self.end);
        let prefixes = ListedRows {
            indent: 24,
            items: self.prefixes.copy(),
            form: InBlock,
        };
        (head, (prefixes, FixedRow::AddressEnd)).put_rows(out)
    }
}

impl<'a, A: Listed<Item = Prefix>> Conditions for AddressRows<'a, A> {
    #[tactic(auto, using(crate::proofs::ConditionLaws::no_addresses))]
    fn is_none(&self) -> bool {
        has_none(self.prefixes)
    }
}

// A prefix of a block, as the word of its row.
#[derive(Drop)]
struct InBlock;

impl WordForm<Prefix> for InBlock {
    ghost item_text = { λ f p. prefix_text p ++ codes ";" };

    #[inline]
    fn put_item_into<O: Out>(&self, prefix: &Prefix, out: &mut O) -> Result<(), PutFault> {
        put_prefix_between(out, &[], prefix, b";")
    }

    #[inline]
    fn put_item_line<O: Out>(
        &self,
        front: &[u8],
        prefix: &Prefix,
        out: &mut O,
    ) -> Result<(), PutFault> {
        put_prefix_between(out, front, prefix, b";\n")
    }
}

// The row of a condition and its values. None where there are no values.
#[derive(Clone, Copy)]
struct ListRows<V> {
    condition: Condition,
    values: V,
}

impl<V: Values + Copy> Rows for ListRows<V> {
    ghost rows = { λ l. list_rows l.condition (V.words l.values) };

    fn put_rows<O: Out>(&self, out: &mut O) -> Result<(), PutFault> {
        if self.values.are_none() {
            Ok(())
        } else {
            let row = ListRow {
                condition: self.condition,
                values: self.values,
            };
            row.put_rows(out)
        }
    }
}

impl<V: Values + Copy> Conditions for ListRows<V> {
    #[tactic(auto, using(crate::proofs::ConditionLaws::no_values))]
    fn is_none(&self) -> bool {
        self.values.are_none()
    }
}

// The row of a condition and its values.
#[derive(Drop)]
struct ListRow<W> {
    condition: Condition,
    values: W,
}

impl<W: Words + Copy> Rows for ListRow<W> {
    ghost rows = { λ l. list_row l.condition (W.words l.values) ∷ [] };

    #[tactic(auto, unfolding(crate::specs::Texts::list_row))]
    fn put_rows<O: Out>(&self, out: &mut O) -> Result<(), PutFault> {
        let open = OneWord {
            piece: b"[".as_slice(),
        };
        let close = OneWord {
            piece: b"];".as_slice(),
        };
        let row = Row {
            indent: 20,
            first: condition_word(self.condition),
            rest: (open, (self.values, close)),
        };
        row.put_rows(out)
    }
}

fn condition_word(condition: Condition) -> &'static [u8]
    ensures { result.now ≡ condition_word condition }
{
    match condition {
        Condition::Protocol => b"protocol",
        Condition::NextHeader => b"next-header",
        Condition::SourcePort => b"source-port",
        Condition::DestinationPort => b"destination-port",
        Condition::IcmpType => b"icmp-type",
        Condition::IcmpCode => b"icmp-code",
    }
}

/// Ports from a low one to a high one: the one port where the two are the same.
#[derive(Clone, Copy)]
pub struct PortSpan {
    pub low: u128,
    pub high: u128,
}

impl Piece for PortSpan {
    ghost text = { λ r. range_word (r.low, r.high) };

    fn put_into<O: Out>(&self, out: &mut O) -> Result<(), PutFault> {
        let range = acl_rows::PortRange {
            low: self.low,
            high: self.high,
            separator: b'-',
        };
        range.put_into(out)
    }
}

// The row of a test of flags, where there is one.
#[derive(Clone, Copy)]
struct TestRows {
    test: Option<JTest>,
}

impl Rows for TestRows {
    ghost rows = { λ t. test_rows t.test };

    #[tactic(auto, unfolding(crate::specs::Texts::test_rows))]
    fn put_rows<O: Out>(&self, out: &mut O) -> Result<(), PutFault> {
        match self.test {
            Some(test) => FixedRow::of_test(test).put_rows(out),
            None => Ok(()),
        }
    }
}

impl Conditions for TestRows {
    #[tactic(auto, unfolding(crate::specs::Texts::test_rows))]
    fn is_none(&self) -> bool {
        self.test.is_none()
    }
}
