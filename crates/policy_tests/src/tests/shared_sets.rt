use crate::tests::loads::loaded_of;
use crate::tests::range_lists::has_just;
use acl_load::Loaded;
use acl_sets::Range;
use acl_terms::Term;
use std::alloc::Global;

// Terms of two blocks that name the same networks: on either end, with excluded ones, in another order, and of either end.
static FILES: [(&str, &[u8]); 2] = [
    (
        "def/n.net",
        b"HOSTS = 10.0.0.1 10.0.0.3 10.0.0.5 10.0.0.7 10.0.0.9
  10.0.0.11 10.0.0.13 10.0.0.15 10.0.0.17 2001:db8::1
WEB = 192.0.2.10
PART = 10.0.0.3 10.0.0.9
",
    ),
    (
        "pol/a.pol",
        b"header { target:: cisco e mixed }
term from { source-address:: HOSTS WEB action:: accept }
term to { destination-address:: HOSTS WEB action:: accept }
term less { source-address:: HOSTS WEB source-exclude:: PART action:: accept }
header { target:: cisco f mixed }
term turned { source-address:: WEB HOSTS action:: accept }
term either { address:: HOSTS WEB action:: accept }
term again { source-address:: HOSTS WEB source-exclude:: PART action:: accept }
",
    ),
];

static ALL: [Range; 10] = [
    Range {
        low: 0x0a00_0001,
        high: 0x0a00_0001,
    },
    Range {
        low: 0x0a00_0003,
        high: 0x0a00_0003,
    },
    Range {
        low: 0x0a00_0005,
        high: 0x0a00_0005,
    },
    Range {
        low: 0x0a00_0007,
        high: 0x0a00_0007,
    },
    Range {
        low: 0x0a00_0009,
        high: 0x0a00_0009,
    },
    Range {
        low: 0x0a00_000b,
        high: 0x0a00_000b,
    },
    Range {
        low: 0x0a00_000d,
        high: 0x0a00_000d,
    },
    Range {
        low: 0x0a00_000f,
        high: 0x0a00_000f,
    },
    Range {
        low: 0x0a00_0011,
        high: 0x0a00_0011,
    },
    Range {
        low: 0xc000_020a,
        high: 0xc000_020a,
    },
];

// Without those of PART.
static LESS: [Range; 8] = [
    Range {
        low: 0x0a00_0001,
        high: 0x0a00_0001,
    },
    Range {
        low: 0x0a00_0005,
        high: 0x0a00_0005,
    },
    Range {
        low: 0x0a00_0007,
        high: 0x0a00_0007,
    },
    Range {
        low: 0x0a00_000b,
        high: 0x0a00_000b,
    },
    Range {
        low: 0x0a00_000d,
        high: 0x0a00_000d,
    },
    Range {
        low: 0x0a00_000f,
        high: 0x0a00_000f,
    },
    Range {
        low: 0x0a00_0011,
        high: 0x0a00_0011,
    },
    Range {
        low: 0xc000_020a,
        high: 0xc000_020a,
    },
];

static SIX: [Range; 1] = [Range {
    low: 0x2001_0db8_0000_0000_0000_0000_0000_0001,
    high: 0x2001_0db8_0000_0000_0000_0000_0000_0001,
}];

fn comes_from(term: &Term, v4: &[Range]) -> bool {
    has_just(&term.src4, v4) && has_just(&term.src6, &SIX) && term.dst4.is_all()
}

fn goes_to(term: &Term, v4: &[Range]) -> bool {
    has_just(&term.dst4, v4) && has_just(&term.dst6, &SIX) && term.src4.is_all()
}

fn has_either(term: &Term, v4: &[Range]) -> bool {
    has_just(&term.addr4, v4) && has_just(&term.addr6, &SIX) && term.src4.is_all()
}

fn are_first(terms: &[Term]) -> bool {
    let [from, to, less] = terms else {
        return false;
    };
    comes_from(from, &ALL) && goes_to(to, &ALL) && comes_from(less, &LESS)
}

fn are_second(terms: &[Term]) -> bool {
    let [turned, either, again] = terms else {
        return false;
    };
    comes_from(turned, &ALL) && has_either(either, &ALL) && comes_from(again, &LESS)
}

fn has_sets(loaded: &Loaded) -> bool {
    let [first, second] = loaded.terms.as_slice() else {
        return false;
    };
    are_first(first.as_slice()) && are_second(second.as_slice())
}

fn loads_sets(alloc: Global) -> Option<bool> {
    Some(has_sets(&loaded_of(alloc, &FILES)?))
}

#[test]
fn terms_of_the_same_names_have_the_same_sets(rt: HostRuntime) {
    assert!(rt; loads_sets(rt.alloc()) == Some(true));
}
