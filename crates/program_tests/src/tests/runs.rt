ghost use Rattle.std.specs.Prelude.{◌≡◌, IfOk, None};
ghost use Rattle.acl_memory.specs.MemoryTrees.{contents};

use acl_host::{Clock, ClockFault, Day, Sink, Tree};
use acl_memory::{MemSink, MemTree, Op};
use acl_text::Memory;
use std::alloc::{AllocError, Global};

const NETWORKS: &[u8] =
    b"WEB = 192.0.2.10\nLOW = 10.0.0.0/25\nHIGH = 10.0.0.128/25\nSIX = 2001:db8::10\n";

const SERVICES: &[u8] =
    b"HTTP = 80/tcp\nPORTS = 80/tcp 8000-8080/tcp\nMANY = 1/tcp 3/tcp 5/tcp 7/tcp 9/tcp 11/tcp 13/tcp 15/tcp\n";

// The naming files that each run finds.
pub(crate) static DEFINITIONS: [(&str, &[u8]); 2] = [
    ("def/n.net", NETWORKS),
    ("def/s.svc", SERVICES),
];

// The words of a text, each behind the mark that the text begins with; two marks have an empty word between them.
pub(crate) fn words_of(alloc: Global, text: &str) -> Result<Vec<String>, AllocError> {
    let mut words = Vec::new(alloc);
    let mark = text.chars().next().unwrap_or(' ');
    for word in text.split(mark).skip(1) {
        words.push(String::from_str(alloc, word)?)?;
    }
    Ok(words)
}

// A tree of naming files and the policy `pol/a.pol`.
pub(crate) fn tree_of(alloc: Global, policy: &[u8]) -> Result<MemTree, Memory>
    ensures { IfOk result (λ t. (contents t).begun ≡ None) }
{
    let mut tree = MemTree::new(alloc);
    tree.put_file("def/n.net", NETWORKS)?;
    tree.put_file("def/s.svc", SERVICES)?;
    tree.put_file("pol/a.pol", policy)?;
    Ok(tree)
}

pub(crate) fn keeps_inputs(tree: &MemTree, policy: &[u8]) -> bool {
    tree.file("def/n.net") == Some(NETWORKS)
        && tree.file("def/s.svc") == Some(SERVICES)
        && tree.file("pol/a.pol") == Some(policy)
}

// Which calls fail: of the tree the one of this kind and number, and of the streams and the clock those of these
// numbers, counted from 1. Each other call succeeds, also the one behind it.
#[derive(Clone, Copy)]
pub(crate) struct Calls {
    pub(crate) tree: Option<(Op, u32)>,
    pub(crate) out: u32,
    pub(crate) err: u32,
    pub(crate) clock: u32,
}

pub(crate) const NONE: Calls = Calls {
    tree: None,
    out: 0,
    err: 0,
    clock: 0,
};

// A clock that fails at its call of this number, counted from 1, and tells the day 2026-01-15 at each other one.
#[derive(Drop)]
pub(crate) struct OnceClock {
    failing: u32,
    asked: u32,
    faults: u64,
}

impl Clock for OnceClock {
    ghost day = { λ c. None };

    ghost faults = { λ c. c.faults };

    fn today(&mut self) -> Result<Day, ClockFault> {
        self.asked = self.asked.saturating_add(1);
        if self.asked == self.failing {
            self.faults = self.faults.saturating_add(1);
            return Err(ClockFault::Failed);
        }
        Ok(Day { number: 20468 })
    }
}

// The tree, of which the call of that kind and number is to fail, where there is one.
fn failing(mut tree: MemTree, call: Option<(Op, u32)>) -> Result<MemTree, Memory>
    requires { (contents tree).begun ≡ None }
    ensures { IfOk result (λ t. (contents t).begun ≡ None) }
{
    if let Some((op, nth)) = call {
        tree.fail(op, nth)?;
    }
    Ok(tree)
}

pub(crate) fn sink_with(alloc: Global, failing: u32) -> Result<MemSink, Memory> {
    let mut sink = MemSink::new(alloc);
    sink.fail(failing)?;
    Ok(sink)
}

// Each program is called in one function alone: a function that calls it proves its whole contract again.
pub(crate) fn aclgen_status<T: Tree, O: Sink, E: Sink, C: Clock>(
    alloc: Global,
    words: &[String],
    tree: &mut T,
    out: &mut O,
    err: &mut E,
    clock: &mut C,
) -> u8
    requires { T.begun tree.old ≡ None }
{
    aclgen_core::run_status(alloc, words, tree, out, err, clock)
}

fn acltool_status<T: Tree, O: Sink, E: Sink, C: Clock>(
    alloc: Global,
    words: &[String],
    tree: &mut T,
    out: &mut O,
    err: &mut E,
    clock: &mut C,
) -> u8
    requires { T.begun tree.old ≡ None }
{
    acltool_core::run_status(alloc, words, tree, out, err, clock)
}

fn aclcheck_status<T: Tree, O: Sink, E: Sink, C: Clock>(
    alloc: Global,
    words: &[String],
    tree: &mut T,
    out: &mut O,
    err: &mut E,
    clock: &mut C,
) -> u8
    requires { T.begun tree.old ≡ None }
{
    aclcheck_core::run_status(alloc, words, tree, out, err, clock)
}

// What is run.
#[derive(Clone, Copy)]
pub(crate) enum Program {
    Aclgen,
    Acltool,
    Aclcheck,
}

// What a run left: its status, its files and what was written on the two streams.
#[derive(Drop)]
pub(crate) struct Left {
    pub(crate) status: u8,
    pub(crate) tree: MemTree,
    pub(crate) out: MemSink,
    pub(crate) err: MemSink,
}

fn status_of(
    program: Program,
    alloc: Global,
    words: &[String],
    tree: &mut MemTree,
    out: &mut MemSink,
    err: &mut MemSink,
    clock: &mut OnceClock,
) -> u8
    requires { (contents tree.old).begun ≡ None }
{
    match program {
        Program::Aclgen => aclgen_status(alloc, words, tree, out, err, clock),
        Program::Acltool => acltool_status(alloc, words, tree, out, err, clock),
        Program::Aclcheck => aclcheck_status(alloc, words, tree, out, err, clock),
    }
}

// What a run of the program over the tree leaves, where these calls fail.
pub(crate) fn left_by(
    program: Program,
    alloc: Global,
    tree: MemTree,
    words: &str,
    calls: &Calls,
) -> Result<Left, Memory>
    requires { (contents tree).begun ≡ None }
{
    let words = words_of(alloc, words)?;
    let mut tree = failing(tree, calls.tree)?;
    let mut out = sink_with(alloc, calls.out)?;
    let mut err = sink_with(alloc, calls.err)?;
    let mut clock = OnceClock {
        failing: calls.clock,
        asked: 0,
        faults: 0,
    };
    let status = status_of(
        program,
        alloc,
        words.as_slice(),
        &mut tree,
        &mut out,
        &mut err,
        &mut clock,
    );
    Ok(Left {
        status,
        tree,
        out,
        err,
    })
}

// What a run of aclgen over the policy leaves.
pub(crate) fn left_by_aclgen(
    alloc: Global,
    policy: &[u8],
    words: &str,
    calls: &Calls,
) -> Result<Left, Memory> {
    left_by(
        Program::Aclgen,
        alloc,
        tree_of(alloc, policy)?,
        words,
        calls,
    )
}

// The words of a run of aclgen with a day, of one without, and of one over a policy that is not there.
pub(crate) const DATED: &str =
    " --policy_file pol/a.pol --definitions_directory def --output_directory out --date 2026-01-15";

pub(crate) const UNDATED: &str =
    " --policy_file pol/a.pol --definitions_directory def --output_directory out";

pub(crate) const WITHOUT_POLICY: &str =
    " --policy_file pol/b.pol --definitions_directory def --output_directory out --date 2026-01-15";

// Words that are no command line of aclgen.
pub(crate) const WRONG: &str =
    " --policy_file pol/a.pol --definitions_directory def --output_directory out --exp_info x";

pub(crate) const USAGE: &[u8] =
    b"usage: aclgen --policy_file P --definitions_directory D --output_directory O [--date YYYY-MM-DD] [--exp_info N] [--shade_check]\n";
