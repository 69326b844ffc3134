use acl_packet::{Family, Prefix};
use acl_rows::{
    Address, Each, EachWord, FreeText, Named, Number, OneWord, Piece, PortRange, Row, RowForm,
    RowWords, Rows, Wildcard, WordForm, are_distinct, are_distinct_names, are_port_ranges,
    have_distinct_names, is_port_range, is_prefix_of, is_text_of,
};
use acl_text::{Out, PutFault};
use std::alloc::Global;

// Numbers, a row each.
#[derive(Drop)]
struct Numbered;

impl RowForm<u8> for Numbered {
    ghost use Rattle.std.specs.Prelude.{decimal, codes, [], ◌∷◌};
    ghost use Rattle.acl_rows.specs.Rows.{row};

    ghost item_rows = { λ f n. row 2 (codes "number" ∷ decimal n ∷ []) ∷ [] };

    fn put_item<O: Out>(&self, item: &u8, out: &mut O) -> Result<(), PutFault> {
        let number = Number {
            number: u128::from(*item),
        };
        let row = Row {
            indent: 2,
            first: b"number".as_slice(),
            rest: OneWord { piece: number },
        };
        row.put_rows(out)
    }
}

// Numbers, a word each.
#[derive(Clone, Copy)]
struct InDecimal;

impl WordForm<u8> for InDecimal {
    ghost use Rattle.std.specs.Prelude.{decimal};

    ghost item_text = { λ f n. decimal n };

    fn put_item_into<O: Out>(&self, item: &u8, out: &mut O) -> Result<(), PutFault> {
        let number = u128::from(*item);
        Number { number }.put_into(out)
    }
}

#[derive(Drop)]
struct Titled<'a> {
    title: &'a [u8],
}

impl<'a> Named for Titled<'a> {
    ghost name = { λ t. t.title.now };

    fn name(&self) -> &[u8] {
        self.title
    }
}

// Whether the text is that of a row with each kind of piece, and a row for each of two numbers behind it.
fn is_text_of_rows(text: &str) -> bool {
    let address = Address {
        family: Family::V4,
        address: 0xc000_0200,
    };
    let prefix = Prefix {
        family: Family::V6,
        first: 0x2001_0db8 << 96,
        len: 32,
    };
    let literals: &[&[u8]] = &[b"x", b"y"];
    let numbers: &[u8] = &[7, 10];
    let head = Row {
        indent: 1,
        first: (b"a".as_slice(), b"b".as_slice()),
        rest: (
            (
                OneWord { piece: address },
                OneWord {
                    piece: Wildcard { len: 24 },
                },
            ),
            (
                Some(OneWord { piece: prefix }),
                (literals, FreeText { text: b"to all" }),
            ),
        ),
    };
    let each = Each {
        items: numbers,
        form: Numbered,
    };
    is_text_of(text.as_bytes(), &(head, each))
}

static TEXTS: [(&str, bool); 6] = [
    (
        " ab 192.0.2.0 0.0.0.255 2001:db8::/32 x y to all\n  number 7\n  number 10\n",
        true,
    ),
    (
        " ab 192.0.2.0 0.0.0.255 2001:db8::/32 x y to all\n  number 7\n  number 11\n",
        false,
    ),
    (
        " ab 192.0.2.0  0.0.0.255 2001:db8::/32 x y to all\n  number 7\n  number 10\n",
        false,
    ),
    (
        " ab 192.0.2.0 0.0.0.255 2001:db8::/32 x y to all\n  number 7\n  number 10",
        false,
    ),
    (
        " ab 192.0.2.0 0.0.0.255 2001:db8::/32 x y to all\n  number 7\n  number 10\n\n",
        false,
    ),
    ("", false),
];

#[test]
fn compares_rows_with_a_text(rt: HostRuntime) {
    for (text, same) in &TEXTS {
        assert!(rt; is_text_of_rows(text) == *same, "at {text}");
    }
}

// The words of the row `to  all` one after the other, and the text behind each.
static WORDS: [(Option<&[u8]>, &[u8]); 4] = [
    (Some(b"to"), b" all"),
    (Some(b""), b"all"),
    (Some(b"all"), b""),
    (None, b""),
];

#[test]
fn takes_words_of_a_row(rt: HostRuntime) {
    let mut words = RowWords::new(b"to  all");
    for (word, behind) in &WORDS {
        assert!(rt; words.next() == *word && words.text() == *behind);
    }
}

fn count_few(alloc: Global, text: &[u8]) -> Option<usize> {
    match RowWords::new(text).few(alloc) {
        Ok(few) => Some(few.len()),
        Err(_) => None,
    }
}

#[test]
fn tells_words_of_a_row(rt: HostRuntime) {
    let words = RowWords::new(b"to  all");
    assert!(rt; words.begins_with(b"to") && !words.begins_with(b"t"));
    assert!(rt; words.behind_first().text() == b" all".as_slice());
    assert!(rt; count_few(rt.alloc(), b"to  all") == Some(3));
}

fn differ(alloc: Global, names: &[&[u8]]) -> Option<bool> {
    match Vec::from_slice(alloc, names) {
        Ok(names) => Some(are_distinct_names(names)),
        Err(_) => None,
    }
}

fn numbers_differ(alloc: Global, numbers: &[u8]) -> Option<bool> {
    match Vec::from_slice(alloc, numbers) {
        Ok(numbers) => Some(are_distinct(numbers)),
        Err(_) => None,
    }
}

fn titles_differ(alloc: Global, one: &[u8], other: &[u8]) -> Option<bool> {
    have_distinct_names(alloc, &[Titled { title: one }, Titled { title: other }]).ok()
}

#[test]
fn tells_names(rt: HostRuntime) {
    let alloc = rt.alloc();
    assert!(rt; differ(alloc, &[b"b", b"a", b"ab"]) == Some(true));
    assert!(rt; differ(alloc, &[b"b", b"a", b"b"]) == Some(false));
    assert!(rt; numbers_differ(alloc, &[7, 2, 5]) == Some(true));
    assert!(rt; numbers_differ(alloc, &[7, 2, 7]) == Some(false));
    assert!(rt; titles_differ(alloc, b"b", b"ab") == Some(true));
    assert!(rt; titles_differ(alloc, b"b", b"b") == Some(false));
}

static PREFIXES: [(Family, u128, u8, bool); 8] = [
    (Family::V4, 0x0a00_0000, 8, true),
    (Family::V4, 0x0a00_0001, 8, false),
    (Family::V4, 0x0a00_0001, 32, true),
    (Family::V4, 0, 33, false),
    (Family::V4, 1 << 32, 32, false),
    (Family::V6, 0, 0, true),
    (Family::V6, 1, 0, false),
    (Family::V6, 1, 128, true),
];

#[test]
fn tells_prefixes(rt: HostRuntime) {
    for (family, first, len, is) in &PREFIXES {
        let prefix = Prefix {
            family: *family,
            first: *first,
            len: *len,
        };
        assert!(rt; is_prefix_of(*family, &prefix) == *is, "at {first} {len}");
    }
    let four = Prefix::everywhere(Family::V4);
    assert!(rt; !is_prefix_of(Family::V6, &four));
}

// Whether the text is a row with a word for each of two numbers.
fn is_row_of_numbers(text: &[u8]) -> bool {
    let numbers: &[u8] = &[7, 10];
    let rest = EachWord {
        items: numbers,
        form: InDecimal,
    };
    let row = Row {
        indent: 0,
        first: b"numbers".as_slice(),
        rest,
    };
    is_text_of(text, &row)
}

// Whether the text is a row with a range of ports, and a range of one port.
fn is_row_of_ports(text: &[u8]) -> bool {
    let first = PortRange {
        low: 22,
        high: 80,
        separator: b':',
    };
    let rest = OneWord {
        piece: PortRange { high: 22, ..first },
    };
    let row = Row {
        indent: 0,
        first,
        rest,
    };
    is_text_of(text, &row)
}

#[test]
fn tells_rows_of_words_and_port_ranges(rt: HostRuntime) {
    assert!(rt; is_row_of_numbers(b"numbers 7 10\n") && !is_row_of_numbers(b"numbers 7\n"));
    assert!(rt; is_row_of_ports(b"22:80 22\n"));
    assert!(rt; are_port_ranges(&[(22, 22), (0, 65535)]) && !are_port_ranges(&[(22, 22), (2, 1)]));
    assert!(rt; !is_port_range((2, 1)));
}
