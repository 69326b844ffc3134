use crate::tests::files::{Files, tree_of};
use acl_host::Tree;
use acl_load::{LoadFault, Loaded, load, put_fault};
use acl_memory::{MemTree, Op};
use acl_packet::Verdict;
use acl_terms::Term;
use acl_text::{Fault, Memory, Out, PutFault, Whole};
use std::alloc::Global;

// The one call of the load of the policy `pol/a.pol` over the folder `def`, whatever the tree.
pub(crate) fn loaded<T: Tree>(alloc: Global, tree: &mut T) -> Result<Loaded, LoadFault> {
    load(alloc, tree, "def", "pol/a.pol")
}

fn text_line(alloc: Global, text: &[u8]) -> Result<Whole, PutFault> {
    let mut line = Whole::new(alloc);
    line.put(text)?;
    Ok(line)
}

fn fault_line(alloc: Global, fault: &Fault) -> Result<Whole, PutFault> {
    let mut line = Whole::new(alloc);
    put_fault(&mut line, fault)?;
    Ok(line)
}

// The line of the fault, or what else is answered.
fn answer_line(alloc: Global, refusal: &Option<LoadFault>) -> Result<Whole, PutFault> {
    match refusal {
        None => text_line(alloc, b"loaded"),
        Some(LoadFault::Fault(fault)) => fault_line(alloc, fault),
        Some(LoadFault::List) => text_line(alloc, b"list"),
        Some(LoadFault::Read) => text_line(alloc, b"read"),
        Some(LoadFault::Memory) => text_line(alloc, b"memory"),
    }
}

// Whether this is the line that is told of the load.
fn tells<T: Tree>(alloc: Global, tree: &mut T, line: &[u8]) -> Result<bool, PutFault> {
    Ok(answer_line(alloc, &loaded(alloc, tree).err())?.as_slice() == line)
}

const NETWORKS: (&str, &[u8]) = ("def/n.net", b"WEB = 192.0.2.10\n");

// Files, and the line of the fault that is told of the policy `pol/a.pol` over the folder `def`.
static FAULTS: [(Files, &[u8]); 15] = [
    // naming files come before the policy, and in byte order of their names
    (&[("pol/a.net", b"A = 10/8")], b"def: F20 NoFile\n"),
    (
        &[("def/n.net", b"A = B\nB = C\nC = A\nD = NOPE\n")],
        b"def/n.net:4: F17 Undefined NOPE\n",
    ),
    (
        &[("def/n.net", b"A = B\nB = C\nC = A\n")],
        b"def/n.net:1: F18 Cycle A\n",
    ),
    (
        &[
            ("def/a.svc", b"S = 0x/tcp"),
            ("def/b.net", b"\n# B\nB = !"),
            ("def/a.net", b"A = 1.2.3.4"),
        ],
        b"def/b.net:3: F14 BadValue !\n",
    ),
    (
        &[
            ("def/a.svc", b"S = 80/tcp\n\nS = 81/tcp"),
            ("def/a.net", b"S = 1.2.3.4"),
        ],
        b"def/a.svc:3: F15 Twice S\n",
    ),
    // a service has no name of a network as an item
    (
        &[
            ("def/a.net", b"WEB = 1.2.3.4"),
            ("def/a.svc", b"S = 80/tcp\n  WEB"),
        ],
        b"def/a.svc:2: F17 Undefined WEB\n",
    ),
    // a line does not go on with the definition of another file
    (
        &[("def/a.net", b"A ="), ("def/b.net", b"1.2.3.4")],
        b"def/b.net:1: F13 NoDefinition 1.2.3.4\n",
    ),
    (&[("def/.svc", b"= 80/tcp")], b"def/.svc:1: F12 BadName\n"),
    // the policy
    (&[NETWORKS], b"pol/a.pol: F20 NoFile\n"),
    (
        &[NETWORKS, ("pol/a.pol", b"\n#include 'gone.inc'\n")],
        b"pol/a.pol:2: F20 NoFile gone.inc\n",
    ),
    // the file that slips is not the policy
    (
        &[
            NETWORKS,
            (
                "pol/a.pol",
                b"header { target:: cisco e }\n#include 'b.inc'\n",
            ),
            (
                "pol/b.inc",
                b"term t {\n  source-address:: NOPE\n  verbatim:: x\n}\n",
            ),
        ],
        b"pol/b.inc:3: F24 Keyword verbatim::\n",
    ),
    (
        &[NETWORKS, ("pol/a.pol", b"\x01")],
        b"pol/a.pol:1: F11 BadByte ?\n",
    ),
    (
        &[NETWORKS, ("pol/a.pol", b"")],
        b"pol/a.pol: F27 Missing header\n",
    ),
    (
        &[
            NETWORKS,
            (
                "pol/a.pol",
                b"header { target:: cisco e }\nterm t { action:: deny }\n#include 'b.inc'\n",
            ),
            (
                "pol/b.inc",
                b"header { target:: cisco f }\nterm t { source-address:: WEB action:: deny }\nterm u {\n source-address:: WEB NOPE\n action:: deny }\n",
            ),
        ],
        b"pol/b.inc:4: F31 UnknownName NOPE\n",
    ),
    // a word of more than 64 bytes
    (
        &[
            NETWORKS,
            (
                "pol/a.pol",
                b"12345678901234567890123456789012345678901234567890123456789012345",
            ),
        ],
        b"pol/a.pol:1: F23 Syntax 1234567890123456789012345678901234567890123456789012345678901234\n",
    ),
];

fn tells_of(alloc: Global, files: &[(&str, &[u8])], line: &[u8]) -> Option<bool> {
    tells(alloc, &mut tree_of(alloc, files).ok()?, line).ok()
}

#[test]
fn first_faults_of_each_step(rt: HostRuntime) {
    for (place, (files, line)) in FAULTS.iter().enumerate() {
        assert!(rt;
            tells_of(rt.alloc(), files, line) == Some(true),
            "row {place}"
        );
    }
}

static TWO_BLOCKS: [(&str, &[u8]); 3] = [
    NETWORKS,
    (
        "pol/a.pol",
        b"header { target:: cisco e }\n#include 'inc/web.inc'\nterm rest { action:: deny }\nheader { target:: cisco f }\nterm all { action:: accept }\n",
    ),
    (
        "pol/inc/web.inc",
        b"\nterm web { source-address:: WEB action:: accept }\n",
    ),
];

fn is_term(term: &Term, name: &[u8], file: u32, line: u32, verdict: Verdict) -> bool {
    term.name.as_slice() == name
        && term.place.file == file
        && term.place.line == line
        && term.verdict == verdict
}

// Two blocks: `web`, which the included file has, and `rest`; then `all`.
fn is_two_blocks(loaded: &Loaded) -> bool {
    let [first, second] = loaded.terms.as_slice() else {
        return false;
    };
    let ([web, rest], [all]) = (first.as_slice(), second.as_slice()) else {
        return false;
    };
    is_term(web, b"web", 1, 2, Verdict::Accept)
        && web.src4.contains(0xc000_020a)
        && !web.src4.contains(0xc000_020b)
        && is_term(rest, b"rest", 0, 3, Verdict::Deny)
        && is_term(all, b"all", 0, 5, Verdict::Accept)
}

// What is loaded of the files. `None` where they are refused.
pub(crate) fn loaded_of(alloc: Global, files: &[(&str, &[u8])]) -> Option<Loaded> {
    let mut tree = tree_of(alloc, files).ok()?;
    loaded(alloc, &mut tree).ok()
}

fn has_two_blocks(alloc: Global) -> Option<bool> {
    Some(is_two_blocks(&loaded_of(alloc, &TWO_BLOCKS)?))
}

#[test]
fn terms_are_loaded_by_blocks(rt: HostRuntime) {
    assert!(rt; has_two_blocks(rt.alloc()) == Some(true));
}

// The first listing fails; then the naming file is read, the policy, and the included file, which fails.
fn failing_tree(alloc: Global) -> Result<MemTree, Memory> {
    let mut tree = tree_of(alloc, &TWO_BLOCKS)?;
    tree.fail(Op::List, 1)?;
    tree.fail(Op::Read, 3)?;
    Ok(tree)
}

fn tells_each_failure<T: Tree>(alloc: Global, tree: &mut T) -> Result<bool, PutFault> {
    Ok(
        tells(alloc, tree, b"list")?
            && tells(alloc, tree, b"read")?
            && tells(alloc, tree, b"loaded")?,
    )
}

fn failures_are_told(alloc: Global) -> Option<bool> {
    tells_each_failure(alloc, &mut failing_tree(alloc).ok()?).ok()
}

#[test]
fn failures_of_the_tree_are_told(rt: HostRuntime) {
    assert!(rt; failures_are_told(rt.alloc()) == Some(true));
}
