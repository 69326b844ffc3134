use acl_host::{Day, put_day, read_day};
use acl_text::{PutFault, Whole};
use std::alloc::Global;

// Days since 1970-01-01, as GNU date counts them.
static DAYS: [(&[u8], i32); 6] = [
    (b"0001-01-01", -719162),
    (b"1969-12-31", -1),
    (b"1970-01-01", 0),
    (b"2000-02-29", 11016),
    (b"2026-01-15", 20468),
    (b"9999-12-31", 2932896),
];

static NO_DAYS: [&[u8]; 8] = [
    b"0000-01-01",
    b"1900-02-29",
    b"2026-02-30",
    b"2026-13-01",
    b"2026-1-15",
    b"2026-01-15 ",
    b"2026/01/15",
    b"",
];

#[test]
fn dates_are_read(rt: HostRuntime) {
    for (word, number) in &DAYS {
        assert!(rt; read_day(word).map(|day| day.number) == Some(*number));
    }
    for word in &NO_DAYS {
        assert!(rt; read_day(word).is_none());
    }
}

fn is_put_as(alloc: Global, day: Day, text: &[u8]) -> Result<bool, PutFault> {
    let mut out = Whole::new(alloc);
    put_day(&mut out, day)?;
    Ok(out.as_slice() == text)
}

#[test]
fn a_date_is_put(rt: HostRuntime) {
    assert!(rt; is_put_as(rt.alloc(), Day { number: 20468 }, b"2026-01-15") == Ok(true));
}
