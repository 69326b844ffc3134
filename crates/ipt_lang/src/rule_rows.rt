ghost use Rattle.std.specs.Prelude.{◌∷◌, ◌++◌, []};
ghost use Rattle.ipt_lang.specs.RuleLines.{destination_words, rule_back, rule_front, source_words};
ghost use Rattle.ipt_lang.specs.Texts.{chain_name, proto_words, rule_row};

use crate::chain_rows::ChainName;
use crate::documents::{Act, Flags};
use crate::rule_words::{DestinationWords, Protocol, TestWords, put_keyed};
use acl_packet::{Family, Hook, Prefix};
use acl_rows::{OneWord, Piece, Row, RowBack, RowFront, Rows, Words};
use acl_text::{Out, PutFault};

/// The row of a rule of a chain. A part that is `None` or `false` is not written.
#[derive(Drop)]
pub struct RuleRow<'a, P> {
    pub front: RuleFront<'a>,
    pub source: RuleSource,
    pub back: RuleBack<P>,
}

impl<'a, P: Words + Copy> Rows for RuleRow<'a, P> {
    ghost rows = { λ r. rule_row r.front.hook r.front.name.now
        (proto_words r.front.family r.front.proto ++ (source_words r.source.address
        ++ destination_words r.back.family r.back.dst (P.words r.back.ports) r.back.itype
        r.back.icode r.back.flags r.back.state r.back.act)) ∷ [] };

    fn put_rows<O: Out>(&self, out: &mut O) -> Result<(), PutFault> {
        let front = FrontWords { front: &self.front };
        let back = BackWords { back: &self.back };
        let row = Row {
            indent: 0,
            first: b"-A".as_slice(),
            rest: (front, (self.source, back)),
        };
        row.put_rows(out)
    }
}

/// What the line of a rule begins with: its chain and its protocol.
#[derive(Clone, Copy)]
pub struct RuleFront<'a> {
    pub hook: Hook,
    /// The chain's name without the hook's letter and the `_` behind it.
    pub name: &'a [u8],
    pub family: Family,
    pub proto: Option<u8>,
}

impl<'a> Piece for RuleFront<'a> {
    ghost text = { λ f. rule_front f.hook f.name.now f.family f.proto };

    fn put_into<O: Out>(&self, out: &mut O) -> Result<(), PutFault> {
        let front = RowFront {
            indent: 0,
            first: b"-A".as_slice(),
            rest: FrontWords { front: self },
        };
        front.put_into(out)
    }
}

// The words of a front, behind the first one.
#[derive(Clone, Copy)]
struct FrontWords<'a, 'n> {
    front: &'a RuleFront<'n>,
}

impl<'a, 'n> Words for FrontWords<'a, 'n> {
    ghost words = { λ w. chain_name w.front.now.hook w.front.now.name.now
        ∷ proto_words w.front.now.family w.front.now.proto };

    fn put_spaced<O: Out>(&self, out: &mut O) -> Result<(), PutFault> {
        let chain = OneWord {
            piece: ChainName {
                hook: self.front.hook,
                name: self.front.name,
            },
        };
        let protocol = Protocol {
            family: self.front.family,
            number: self.front.proto,
        };
        (chain, protocol).put_spaced(out)
    }
}

/// What stands behind the front: the source, where the rule asks for some addresses.
#[derive(Clone, Copy)]
pub struct RuleSource {
    pub address: Option<Prefix>,
}

impl Words for RuleSource {
    ghost words = { λ s. source_words s.address };

    #[tactic(auto, unfolding(crate::specs::Texts::address_words))]
    #[inline]
    fn put_spaced<O: Out>(&self, out: &mut O) -> Result<(), PutFault> {
        match self.address {
            Some(prefix) => put_keyed(b" -s ", prefix, out),
            None => Ok(()),
        }
    }
}

/// What the line of a rule ends with: its destination, its ports, its tests and its act.
#[derive(Clone, Copy)]
pub struct RuleBack<P> {
    pub family: Family,
    pub dst: Option<Prefix>,
    /// The words of the ports.
    pub ports: P,
    pub itype: Option<u8>,
    pub icode: Option<u8>,
    pub flags: Option<Flags>,
    pub state: bool,
    pub act: Act,
}

impl<P: Words + Copy> Piece for RuleBack<P> {
    ghost text = { λ b. rule_back b.family b.dst (P.words b.ports) b.itype b.icode b.flags b.state
        b.act };

    #[inline]
    fn put_into<O: Out>(&self, out: &mut O) -> Result<(), PutFault> {
        let back = RowBack {
            rest: BackWords { back: self },
        };
        back.put_into(out)
    }
}

// The words of a back.
#[derive(Clone, Copy)]
struct BackWords<'a, P> {
    back: &'a RuleBack<P>,
}

impl<'a, P: Words + Copy> Words for BackWords<'a, P> {
    ghost words = { λ w. destination_words w.back.now.family w.back.now.dst
        (P.words w.back.now.ports) w.back.now.itype w.back.now.icode w.back.now.flags
        w.back.now.state w.back.now.act };

    #[tactic(auto, unfolding(crate::specs::RuleLines::destination_words))]
    #[inline]
    fn put_spaced<O: Out>(&self, out: &mut O) -> Result<(), PutFault> {
        let back = self.back;
        let destination = DestinationWords { address: back.dst };
        let tests = TestWords {
            family: back.family,
            itype: back.itype,
            icode: back.icode,
            flags: back.flags,
            state: back.state,
            act: back.act,
        };
        (destination, (back.ports, tests)).put_spaced(out)
    }
}
