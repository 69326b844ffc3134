use crate::tests::files::{Files, text, tree_of};
use acl_host::Tree;
use acl_memory::Op;
use acl_text::{Fault, Memory};
use acl_words::{GatherFault, Lines, Sources, gather, label};
use std::alloc::Global;

// The labels, each with a space behind it.
fn shown_labels(alloc: Global, sources: &Sources) -> Result<String, Memory> {
    let mut shown = String::new(alloc);
    for file in 0..5u32 {
        if let Some(bytes) = label(sources, file) {
            shown.push_str(text(bytes))?;
            shown.push_str(" ")?;
        }
    }
    Ok(shown)
}

// The file, the first line and the number of lines of each stretch.
fn shown_stretches(alloc: Global, lines: &Lines) -> Result<String, Memory> {
    let mut shown = String::new(alloc);
    for stretch in lines.stretches() {
        let part = format!(in alloc; "{}:{}+{};", stretch.file, stretch.first, stretch.count)?;
        shown.push_str(part.as_str())?;
    }
    Ok(shown)
}

fn shown_splice(alloc: Global, sources: &Sources) -> Result<String, Memory> {
    let mut shown = shown_labels(alloc, sources)?;
    shown.push_str(shown_stretches(alloc, sources.lines())?.as_str())?;
    shown.push_str(text(sources.lines().text()))?;
    Ok(shown)
}

fn shown_fault(alloc: Global, fault: &Fault) -> Result<String, Memory> {
    let label = text(fault.label.as_slice());
    let word = text(fault.word.as_slice());
    Ok(format!(in alloc; "{:?} {label}:{} {word}", fault.code, fault.line)?)
}

// The splice with its labels and places, or what is wrong.
fn shown(alloc: Global, answer: &Result<Sources, GatherFault>) -> Result<String, Memory> {
    match answer {
        Ok(sources) => shown_splice(alloc, sources),
        Err(GatherFault::Fault(fault)) => shown_fault(alloc, fault),
        Err(GatherFault::Outside) => Ok(String::from_str(alloc, "outside")?),
        Err(GatherFault::Memory) => Err(Memory),
    }
}

fn gathered<T: Tree>(alloc: Global, tree: &mut T) -> Result<String, Memory> {
    shown(alloc, &gather(alloc, tree, "pol/a.pol"))
}

// The files of the folder, and what is gathered of them.
type Row = (Files, &'static str);

static SPLICES: [Row; 9] = [
    // the file stands in the place of its line
    (
        &[
            ("pol/a.pol", b"one\r\n #include \"inc/b.inc\" # b\ntwo"),
            ("pol/inc/b.inc", b"three"),
        ],
        "pol/a.pol pol/inc/b.inc 0:1+1;1:1+1;0:3+1;one\r\nthree\ntwo\n",
    ),
    // an inner path hangs on the folder of the policy
    (
        &[
            ("pol/a.pol", b"#include 'inc/b.inc'\n#include 'c.inc'\n"),
            ("pol/inc/b.inc", b"#include 'c.inc'\n"),
            ("pol/c.inc", b"x\n\n"),
        ],
        "pol/a.pol pol/inc/b.inc pol/c.inc pol/c.inc 2:1+2;3:1+2;x\n\nx\n\n",
    ),
    // an include line in a string is one too
    (
        &[
            (
                "pol/a.pol",
                b"comment:: \"\n#include 'b.inc'\n#include x\n\"\n",
            ),
            ("pol/b.inc", b"in\n"),
        ],
        "pol/a.pol pol/b.inc 0:1+1;1:1+1;0:3+2;comment:: \"\nin\n#include x\n\"\n",
    ),
    // a file that includes itself is too deep
    (
        &[("pol/a.pol", b"\n#include 'a.pol'\n")],
        "IncludeDepth pol/a.pol:2 a.pol",
    ),
    (
        &[("pol/a.pol", b"#include '../x'\n")],
        "IncludePath pol/a.pol:1 ../x",
    ),
    (
        &[("pol/a.pol", b"#include 'x\n")],
        "IncludePath pol/a.pol:1 ",
    ),
    (
        &[("pol/a.pol", b"#include 'x' y\n")],
        "IncludePath pol/a.pol:1 x",
    ),
    // a file that is not there is told by its include line
    (
        &[
            ("pol/a.pol", b"#include 'b.inc'\n"),
            ("pol/b.inc", b"\n\n#include 'gone'\n"),
        ],
        "NoFile pol/b.inc:3 gone",
    ),
    (&[], "NoFile pol/a.pol:0 "),
];

fn gathers(alloc: Global, row: &Row) -> Result<bool, Memory> {
    let mut tree = tree_of(alloc, row.0)?;
    Ok(gathered(alloc, &mut tree)?.as_str() == row.1)
}

#[test]
fn lines_are_spliced(rt: HostRuntime) {
    for row in &SPLICES {
        assert!(rt; gathers(rt.alloc(), row) == Ok(true), "{}", row.1);
    }
}

static INCLUDING: [(&str, &[u8]); 2] = [("pol/a.pol", b"#include 'b.inc'\n"), ("pol/b.inc", b"x")];

fn fails_outside(alloc: Global) -> Result<bool, Memory> {
    let mut tree = tree_of(alloc, &INCLUDING)?;
    tree.fail(Op::Read, 2)?;
    Ok(gathered(alloc, &mut tree)?.as_str() == "outside")
}

#[test]
fn a_reading_that_fails_is_outside(rt: HostRuntime) {
    assert!(rt; fails_outside(rt.alloc()) == Ok(true));
}
