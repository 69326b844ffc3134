ghost use Rattle.std.specs.Prelude.{◌≤◌, IfOk, length};
ghost use Rattle.std.specs.List.{All};
ghost use Rattle.acl_policy.specs.Conditions.{IsPolicy, IsRawTerm};

use crate::tests::files::{text, tree_of};
use acl_host::{Day, Tree};
use acl_naming::{Base, Checked, check_base, read_networks, read_services};
use acl_policy::{Policy, RawTerm, gather, parse};
use acl_terms::{Term, resolve};
use acl_text::{BoxedSlip, Items, Memory, Refusal};
use std::alloc::Global;

const NETWORKS: &[u8] = b"WEB = 192.0.2.10
DNS = 192.0.2.53
SERVERS = 192.0.2.10/32 192.0.2.11/32 2001:db8::10/128
ONE = 10.0.0.1
TEN = 10.0.0.0/8
LOW = 10.0.0.0/9
HIGH = 10.128.0.0/9
PIN = 10.128.0.1
FIRST = 10.0.1.0/24
SECOND = 10.0.2.0/24
BOGON = TEN 172.16.0.0/12 192.168.0.0/16 127.0.0.0/8 fc00::/7
SIX = 2001:db8::10
HALF = ::/1
BOTH = TEN 2001:db8::/32
ALL = 0.0.0.0/0 ::/0
";

const SERVICES: &[u8] = b"HTTP = 80/tcp
WEB = HTTP 443/tcp
BOTH = 80/tcp 53/udp
DNS = 53/tcp 53/udp
ANY = 0-65535/tcp 0-65535/udp
";

pub(crate) fn base(alloc: Global) -> Result<Checked, Refusal> {
    let base = read_networks(Base::new(alloc), 1, NETWORKS)?;
    check_base(read_services(base, 2, SERVICES)?)
}

// The policy at the path `pol/a.pol`, whatever the tree.
pub(crate) fn parsed<T: Tree>(alloc: Global, tree: &mut T) -> Result<Policy, Refusal>
    ensures { IfOk result IsPolicy }
{
    match gather(alloc, tree, "pol/a.pol") {
        Ok(sources) => parse(alloc, &sources),
        Err(_) => Err(Refusal::Memory),
    }
}

pub(crate) fn policy_of(alloc: Global, text: &[u8]) -> Result<Policy, Refusal>
    ensures { IfOk result IsPolicy }
{
    let mut tree = tree_of(alloc, &[("pol/a.pol", text)])?;
    parsed(alloc, &mut tree)
}

pub(crate) fn terms_of(
    alloc: Global,
    base: &Checked,
    raws: &[RawTerm],
) -> Result<Items<Term>, Refusal>
    requires { All IsRawTerm raws.now }
{
    let mut terms = Items::new(alloc);
    for raw in raws {
        let term = resolve(alloc, base, raw)?;
        terms.push(term)?;
    }
    Ok(terms)
}

// The day 2026-01-15, as GNU date counts it.
pub(crate) const TODAY: Day = Day { number: 20468 };

// The slip by its line, code and word.
pub(crate) fn shown_slip(alloc: Global, slip: &BoxedSlip) -> Result<String, Memory> {
    let slip = slip.as_slip();
    let word = text(slip.word.as_slice());
    Ok(format!(in alloc; "{} {:?} {word}", slip.place.line, slip.code)?)
}
