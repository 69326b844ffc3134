use crate::tests::files::tree_of;
use crate::tests::range_lists::has_just;
use acl_host::Tree;
use acl_load::load_definitions;
use acl_naming::{Checked, Lookup, networks_of, ports_of};
use acl_packet::Family;
use acl_sets::{Range, RangeSet};
use std::alloc::Global;

fn is_one(answer: &Result<RangeSet, Lookup>, number: u128) -> bool {
    let one = [Range {
        low: number,
        high: number,
    }];
    match answer {
        Ok(set) => has_just(set, &one),
        Err(_) => false,
    }
}

// Whether the networks WEB are 1.2.3.4, and the ports WEB are 80.
fn is_web(alloc: Global, checked: &Checked) -> bool {
    is_one(
        &networks_of(alloc, checked, Family::V4, b"WEB"),
        0x0102_0304,
    ) && is_one(&ports_of(alloc, checked, 6, b"WEB"), 80)
}

fn loads_web<T: Tree>(alloc: Global, tree: &mut T) -> Option<bool> {
    let checked = load_definitions(alloc, tree, "def").ok()?;
    Some(is_web(alloc, &checked))
}

// Naming files, and files that are none.
static FILES: [(&str, &[u8]); 7] = [
    ("def/b.net", b"DB = 1.2.3.4"),
    ("def/a.net", b"WEB = DB"),
    ("def/b.svc", b"DB = 80/tcp"),
    ("def/a.svc", b"WEB = DB"),
    ("def/x.NET", b"= !"),
    ("def/x.net.bak", b"= !"),
    ("def/sub/x.net", b"= !"),
];

fn files_have_web(alloc: Global) -> Option<bool> {
    loads_web(alloc, &mut tree_of(alloc, &FILES).ok()?)
}

#[test]
fn names_go_over_files(rt: HostRuntime) {
    assert!(rt; files_have_web(rt.alloc()) == Some(true));
}
