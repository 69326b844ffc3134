ghost use Rattle.std.specs.Prelude.{◌≡◌, ◌∷◌, ◌++◌, [], codes, IsTrue};
ghost use Rattle.acl_text.specs.Cuts.{views};
ghost use Rattle.acl_text.specs.Puts.{Puts};
ghost use Rattle.acl_rows.specs.Rows.{row, spaced, text_of_rows, words_in};
ghost use Rattle.acl_rows.specs.RuleParts.{log_words};
ghost use Rattle.cisco_lang.specs.declared.documents.Item.TheVariants.{Entry as AnEntry};
ghost use Rattle.cisco_lang.specs.EntryHalves.{back_words, entry_back, entry_start, front_words};
ghost use Rattle.cisco_lang.specs.Texts.{action_word, any_word, families_word, proto_word, masked_words, address_words, ports_words, number_words, icmp_words, flags_words, end_words, entry_words, item_rows, head_rows, end_rows, list_rows, section_row, section_rows};

use crate::documents::{AccessList, Entry, Flags, Item, Section};
use acl_packet::{Families, Family, Prefix};
use acl_rows::{
    Address, AsRows, Each, FreeText, LogWord, Number, OneWord, Piece, Row, RowBack, RowForm,
    RowFront, Rows, Wildcard, Words, put_words,
};
use acl_text::{Out, PutFault};

/// The row of an entry of a list of the family.
#[derive(Drop)]
pub struct EntryRow {
    pub family: Family,
    pub entry: Entry,
}

impl Rows for EntryRow {
    ghost rows = { λ r. item_rows r.family (AnEntry r.entry) };

    #[tactic(auto, unfolding(crate::specs::Texts::item_rows, crate::specs::Texts::entry_words, crate::specs::EntryHalves::front_words, crate::specs::EntryHalves::back_words))]
    #[inline]
    fn put_rows<O: Out>(&self, out: &mut O) -> Result<(), PutFault> {
        let family = self.family;
        let entry = &self.entry;
        let front = EntryFront {
            family,
            permit: entry.permit,
            proto: entry.proto,
            src: &entry.src,
            sport: entry.sport,
        };
        let back = EntryBack {
            family,
            dst: &entry.dst,
            dport: entry.dport,
            itype: entry.itype,
            icode: entry.icode,
            flags: entry.flags,
            log: entry.log,
        };
        EntryHalves { front, back }.put_rows(out)
    }
}

/// What the line of an entry begins with, up to the source and its ports. The prefix is not copied:
/// a line is written for each pair of them.
#[derive(Clone, Copy)]
pub struct EntryFront<'a> {
    pub family: Family,
    pub permit: bool,
    pub proto: Option<u8>,
    pub src: &'a Prefix,
    pub sport: Option<(u16, u16)>,
}

/// What the line of an entry begins with, up to the protocol.
#[derive(Clone, Copy)]
pub struct EntryStart {
    pub family: Family,
    pub permit: bool,
    pub proto: Option<u8>,
}

impl Piece for EntryStart {
    ghost text = { λ s. entry_start s.family s.permit s.proto };

    #[inline]
    fn put_into<O: Out>(&self, out: &mut O) -> Result<(), PutFault> {
        let start = RowFront {
            indent: 1,
            first: action_word(self.permit),
            rest: OneWord {
                piece: Protocol {
                    family: self.family,
                    number: self.proto,
                },
            },
        };
        start.put_into(out)
    }
}

/// What the line of an entry ends with, from the destination on.
#[derive(Clone, Copy)]
pub struct EntryBack<'a> {
    pub family: Family,
    pub dst: &'a Prefix,
    pub dport: Option<(u16, u16)>,
    pub itype: Option<u8>,
    pub icode: Option<u8>,
    pub flags: Option<Flags>,
    pub log: bool,
}

impl<'a> Piece for EntryBack<'a> {
    ghost text = { λ b. entry_back b.family b.dst.now b.dport b.itype b.icode b.flags b.log };

    #[inline]
    fn put_into<O: Out>(&self, out: &mut O) -> Result<(), PutFault> {
        let back = RowBack {
            rest: BackWords { back: *self },
        };
        back.put_into(out)
    }
}

/// The row of an entry whose halves stand apart.
#[derive(Drop)]
pub struct EntryHalves<'a> {
    pub front: EntryFront<'a>,
    pub back: EntryBack<'a>,
}

impl<'a> Rows for EntryHalves<'a> {
    ghost rows = { λ h. row 1 (action_word h.front.permit
        ∷ (front_words h.front.family h.front.proto h.front.src.now h.front.sport
        ++ back_words h.back.family h.back.dst.now h.back.dport h.back.itype h.back.icode
        h.back.flags h.back.log)) ∷ [] };

    #[inline]
    fn put_rows<O: Out>(&self, out: &mut O) -> Result<(), PutFault> {
        let front = FrontWords { front: self.front };
        let back = BackWords { back: self.back };
        let row = Row {
            indent: 1,
            first: action_word(self.front.permit),
            rest: (front, back),
        };
        row.put_rows(out)
    }
}

// The words behind the action.
#[derive(Clone, Copy)]
struct FrontWords<'a> {
    front: EntryFront<'a>,
}

impl<'a> Words for FrontWords<'a> {
    ghost words = { λ w. front_words w.front.family w.front.proto w.front.src.now w.front.sport };

    #[tactic(auto, unfolding(crate::specs::EntryHalves::front_words))]
    #[inline]
    fn put_spaced<O: Out>(&self, out: &mut O) -> Result<(), PutFault> {
        let family = self.front.family;
        let protocol = OneWord {
            piece: Protocol {
                family,
                number: self.front.proto,
            },
        };
        let source = EndWords {
            family,
            place: self.front.src,
            ports: self.front.sport,
        };
        (protocol, source).put_spaced(out)
    }
}

// The words from the destination on.
#[derive(Clone, Copy)]
struct BackWords<'a> {
    back: EntryBack<'a>,
}

impl<'a> Words for BackWords<'a> {
    ghost words = { λ w. back_words w.back.family w.back.dst.now w.back.dport w.back.itype
        w.back.icode w.back.flags w.back.log };

    #[tactic(auto, unfolding(crate::specs::EntryHalves::back_words))]
    #[inline]
    fn put_spaced<O: Out>(&self, out: &mut O) -> Result<(), PutFault> {
        let back = &self.back;
        let destination = EndWords {
            family: back.family,
            place: back.dst,
            ports: back.dport,
        };
        let icmp = IcmpWords {
            itype: back.itype,
            icode: back.icode,
        };
        let flags = FlagWords { flags: back.flags };
        (destination, (icmp, (flags, LogWord { log: back.log }))).put_spaced(out)
    }
}

/// The row of a remark.
#[derive(Drop)]
pub struct RemarkRow<'a> {
    pub text: &'a [u8],
}

impl<'a> Rows for RemarkRow<'a> {
    ghost rows = { λ r. row 1 (codes "remark" ∷ words_in r.text.now) ∷ [] };

    #[inline]
    fn put_rows<O: Out>(&self, out: &mut O) -> Result<(), PutFault> {
        let row = Row {
            indent: 1,
            first: b"remark".as_slice(),
            rest: FreeText { text: self.text },
        };
        row.put_rows(out)
    }
}

/// The rows that begin a list, the first of which takes an older list of its name away.
#[derive(Drop)]
pub struct ListHead<'a> {
    pub family: Family,
    pub name: &'a [u8],
}

impl<'a> Rows for ListHead<'a> {
    ghost rows = { λ h. head_rows h.family h.name.now };

    #[inline]
    fn put_rows<O: Out>(&self, out: &mut O) -> Result<(), PutFault> {
        match self.family {
            Family::V4 => put_head(b"ip", &[b"access-list", b"extended", self.name], out),
            Family::V6 => put_head(b"ipv6", &[b"access-list", self.name], out),
        }
    }
}

fn put_head<O: Out>(first: &[u8], rest: &[&[u8]], out: &mut O) -> Result<(), PutFault>
    requires { IsTrue (O.is_open out.old) }
    ensures { Puts O.Out out.old out.new
        (text_of_rows (row 0 (codes "no" ∷ first.now ∷ views rest.now)
        ∷ row 0 (first.now ∷ views rest.now) ∷ [])) result }
{
    let removal = Row {
        indent: 0,
        first: b"no".as_slice(),
        rest: (OneWord { piece: first }, rest),
    };
    let head = Row {
        indent: 0,
        first,
        rest,
    };
    (removal, head).put_rows(out)
}

/// The row that ends a list.
#[derive(Drop)]
pub struct ListEnd;

impl Rows for ListEnd {
    ghost rows = { λ e. end_rows };

    #[inline]
    fn put_rows<O: Out>(&self, out: &mut O) -> Result<(), PutFault> {
        let none: &[&[u8]] = &[];
        let row = Row {
            indent: 0,
            first: b"exit".as_slice(),
            rest: none,
        };
        row.put_rows(out)
    }
}

/// The row that begins a section.
#[derive(Drop)]
pub struct SectionHead<'a> {
    pub name: &'a [u8],
    pub families: Families,
}

impl<'a> Rows for SectionHead<'a> {
    ghost rows = { λ h. section_row h.name.now h.families ∷ [] };

    #[inline]
    fn put_rows<O: Out>(&self, out: &mut O) -> Result<(), PutFault> {
        let row = Row {
            indent: 0,
            first: b"!".as_slice(),
            rest: (
                OneWord {
                    piece: b"cisco".as_slice(),
                },
                (
                    OneWord { piece: self.name },
                    OneWord {
                        piece: families_word(self.families),
                    },
                ),
            ),
        };
        row.put_rows(out)
    }
}

fn families_word(families: Families) -> &'static [u8]
    ensures { result.now ≡ families_word families }
{
    match families {
        Families::Inet => b"extended",
        Families::Inet6 => b"inet6",
        Families::Mixed => b"mixed",
    }
}

/// The word of what an entry does.
#[inline]
pub fn action_word(permit: bool) -> &'static [u8]
    ensures { result.now ≡ action_word permit }
{
    if permit { b"permit" } else { b"deny" }
}

#[inline]
fn any_word(family: Family) -> &'static [u8]
    ensures { result.now ≡ any_word family }
{
    match family {
        Family::V4 => b"ip",
        Family::V6 => b"ipv6",
    }
}

#[derive(Clone, Copy)]
struct Protocol {
    family: Family,
    number: Option<u8>,
}

impl Piece for Protocol {
    ghost text = { λ p. proto_word p.family p.number };

    #[tactic(auto, unfolding(crate::specs::Texts::proto_word))]
    #[inline]
    fn put_into<O: Out>(&self, out: &mut O) -> Result<(), PutFault> {
        match self.number {
            None => out.put(any_word(self.family)),
            Some(6) => out.put(b"tcp"),
            Some(17) => out.put(b"udp"),
            Some(number) => {
                if number == self.family.icmp_number() {
                    out.put(b"icmp")
                } else {
                    let number = u128::from(number);
                    Number { number }.put_into(out)
                }
            }
        }
    }
}

/// The words of an end of an entry: its address and its ports.
#[derive(Drop)]
pub struct EndWords<'a> {
    pub family: Family,
    pub place: &'a Prefix,
    pub ports: Option<(u16, u16)>,
}

impl<'a> Words for EndWords<'a> {
    ghost words = { λ e. end_words e.family e.place.now e.ports };

    #[inline(always)]
    fn put_spaced<O: Out>(&self, out: &mut O) -> Result<(), PutFault> {
        put_end(self.family, self.place, self.ports, out)
    }
}

#[inline(never)]
#[tactic(auto, unfolding(crate::specs::Texts::end_words))]
fn put_end<O: Out>(
    family: Family,
    place: &Prefix,
    ports: Option<(u16, u16)>,
    out: &mut O,
) -> Result<(), PutFault>
    requires { IsTrue (O.is_open out.old) }
    ensures { Puts O.Out out.old out.new (spaced (end_words family place.now ports)) result }
{
    let place = PlaceWords { family, place };
    (place, PortWords { ports }).put_spaced(out)
}

/// The words of an address of a list of the family.
#[derive(Drop)]
pub struct AddressWords {
    pub family: Family,
    pub place: Prefix,
}

impl Words for AddressWords {
    ghost words = { λ p. address_words p.family p.place };

    #[inline]
    fn put_spaced<O: Out>(&self, out: &mut O) -> Result<(), PutFault> {
        let words = PlaceWords {
            family: self.family,
            place: &self.place,
        };
        words.put_spaced(out)
    }
}

#[derive(Drop)]
struct PlaceWords<'a> {
    family: Family,
    place: &'a Prefix,
}

impl<'a> Words for PlaceWords<'a> {
    ghost words = { λ p. address_words p.family p.place.now };

    #[tactic(auto, unfolding(crate::specs::Texts::address_words))]
    #[inline]
    fn put_spaced<O: Out>(&self, out: &mut O) -> Result<(), PutFault> {
        if self.place.len == 0 {
            out.put(b" any")
        } else if self.place.len == self.family.width() {
            let address = Address {
                family: self.family,
                address: self.place.first,
            };
            put_keyed(b" host ", address, out)
        } else {
            put_masked(self.family, self.place, out)
        }
    }
}

fn put_masked<O: Out>(family: Family, place: &Prefix, out: &mut O) -> Result<(), PutFault>
    requires { IsTrue (O.is_open out.old) }
    ensures { Puts O.Out out.old out.new (spaced (masked_words family place.now)) result }
{
    match family {
        Family::V4 => {
            let address = Address {
                family,
                address: place.first,
            };
            let wildcard = Wildcard { len: place.len };
            (OneWord { piece: address }, OneWord { piece: wildcard }).put_spaced(out)
        }
        Family::V6 => OneWord { piece: *place }.put_spaced(out),
    }
}

// Puts a word and the one that it names, by two puts; the key is the first between two spaces.
#[inline]
fn put_keyed<P: Piece + Drop, O: Out>(key: &[u8], piece: P, out: &mut O) -> Result<(), PutFault>
    requires { IsTrue (O.is_open out.old) }
    ensures { Puts O.Out out.old out.new (key.now ++ (P.text piece ++ [])) result }
{
    (key, piece).put_into(out)
}

#[derive(Drop)]
struct PortWords {
    ports: Option<(u16, u16)>,
}

impl Words for PortWords {
    ghost words = { λ p. ports_words p.ports };

    #[tactic(auto, unfolding(crate::specs::Texts::ports_words))]
    #[inline]
    fn put_spaced<O: Out>(&self, out: &mut O) -> Result<(), PutFault> {
        match self.ports {
            None => Ok(()),
            Some((low, high)) => {
                if low == high {
                    put_keyed(b" eq ", port(low).piece, out)
                } else {
                    let range = OneWord {
                        piece: b"range".as_slice(),
                    };
                    (range, (port(low), port(high))).put_spaced(out)
                }
            }
        }
    }
}

#[inline]
fn port(number: u16) -> OneWord<Number>
    ensures { result ≡ record { piece = record { number = number } } }
{
    let number = u128::from(number);
    OneWord {
        piece: Number { number },
    }
}

#[derive(Drop)]
struct IcmpWords {
    itype: Option<u8>,
    icode: Option<u8>,
}

impl Words for IcmpWords {
    ghost words = { λ t. icmp_words t.itype t.icode };

    #[tactic(auto, unfolding(crate::specs::Texts::icmp_words))]
    #[inline]
    fn put_spaced<O: Out>(&self, out: &mut O) -> Result<(), PutFault> {
        let itype = NumberWord { number: self.itype };
        let icode = NumberWord { number: self.icode };
        (itype, icode).put_spaced(out)
    }
}

#[derive(Drop)]
struct NumberWord {
    number: Option<u8>,
}

impl Words for NumberWord {
    ghost words = { λ t. number_words t.number };

    #[tactic(auto, unfolding(crate::specs::Texts::number_words))]
    #[inline]
    fn put_spaced<O: Out>(&self, out: &mut O) -> Result<(), PutFault> {
        match self.number {
            None => Ok(()),
            Some(number) => port(u16::from(number)).put_spaced(out),
        }
    }
}

#[derive(Drop)]
struct FlagWords {
    flags: Option<Flags>,
}

impl Words for FlagWords {
    ghost words = { λ t. flags_words t.flags };

    #[tactic(auto, unfolding(crate::specs::Texts::flags_words))]
    #[inline]
    fn put_spaced<O: Out>(&self, out: &mut O) -> Result<(), PutFault> {
        match self.flags {
            None => Ok(()),
            Some(Flags::Established) => put_words(&[b"established"], out),
            Some(Flags::Rst) => put_words(&[b"rst"], out),
            Some(Flags::SynNotAck) => put_words(&[b"match-all", b"+syn", b"-ack"], out),
        }
    }
}

// The items of a list of the family.
#[derive(Drop)]
struct OfFamily {
    family: Family,
}

impl RowForm<Item> for OfFamily {
    ghost item_rows = { λ f i. item_rows f.family i };

    #[tactic(auto, unfolding(crate::specs::Texts::item_rows))]
    #[inline]
    fn put_item<O: Out>(&self, item: &Item, out: &mut O) -> Result<(), PutFault> {
        match item {
            Item::Remark(text) => RemarkRow {
                text: text.as_slice(),
            }
            .put_rows(out),
            Item::Entry(entry) => EntryRow {
                family: self.family,
                entry: *entry,
            }
            .put_rows(out),
        }
    }
}

impl Rows for AccessList {
    ghost rows = { list_rows };

    #[tactic(auto, unfolding(crate::specs::Texts::list_rows))]
    #[inline]
    fn put_rows<O: Out>(&self, out: &mut O) -> Result<(), PutFault> {
        let head = ListHead {
            family: self.family,
            name: self.name.as_slice(),
        };
        let items = Each {
            items: self.items.as_slice(),
            form: OfFamily {
                family: self.family,
            },
        };
        (head, (items, ListEnd)).put_rows(out)
    }
}

impl Rows for Section {
    ghost rows = { section_rows };

    #[tactic(auto, unfolding(crate::specs::Texts::section_rows))]
    #[inline]
    fn put_rows<O: Out>(&self, out: &mut O) -> Result<(), PutFault> {
        let head = SectionHead {
            name: self.name.as_slice(),
            families: self.families,
        };
        let lists = Each {
            items: self.lists.as_slice(),
            form: AsRows,
        };
        (head, lists).put_rows(out)
    }
}
