ghost use Rattle.std.specs.Prelude.{◌≡◌, ◌≤◌, ◌++◌, decimal, IfOk, OnOk};
ghost use Rattle.std.specs.String.{string_bytes};
ghost use Rattle.aclgen_core.specs.WorkloadTexts.{header_text, hexadecimal, network_line, service_line, term_text};

use acl_text::{Bytes, Memory};
use itoa::Buffer;
use std::alloc::{AllocError, Global};

// The port of the first service.
const FIRST_PORT: u32 = 1000;

/// The header of the policy, with a target of each platform.
pub(crate) const HEADER: &[u8] =
    b"header {\n  target:: cisco w mixed\n  target:: juniper w inet\n  target:: iptables FORWARD DROP\n  target:: nftables mixed forward\n}\n";

// The number in lower case hexadecimal.
fn hexadecimal(alloc: Global, n: u32) -> Result<String, AllocError>
    ensures { IfOk result (λ text. string_bytes text ≡ hexadecimal n) }
{
    format!(in alloc; "{n:x}")
}

// Adds the word and the number behind it.
fn push_number(text: &mut Bytes, word: &[u8], n: u32) -> Result<(), Memory>
    ensures { OnOk result (text.new ≡ text.old ++ word.now ++ decimal n) }
{
    let mut buffer = Buffer::new();
    text.push_all(word)?;
    text.push_all(buffer.format(n).as_bytes())
}

/// Adds the line of a network: two of IPv4, which are two halves of one, and one of IPv6.
#[tactic(auto, unfolding(crate::specs::WorkloadTexts::network_line))]
pub(crate) fn push_network_line(alloc: Global, text: &mut Bytes, i: u32) -> Result<(), Memory>
    ensures { OnOk result (text.new ≡ text.old ++ network_line i) }
{
    let a = i / 256;
    let b = i % 256;
    let x = hexadecimal(alloc, i)?;
    push_number(text, b"N", i)?;
    push_number(text, b" = 10.", a)?;
    push_number(text, b".", b)?;
    push_number(text, b".0/25 10.", a)?;
    push_number(text, b".", b)?;
    text.push_all(b".128/25 2001:db8:")?;
    text.push_all(x.as_bytes())?;
    text.push_all(b"::/48\n")
}

/// Adds the line of a service, of one port under two protocols.
#[tactic(auto, unfolding(crate::specs::WorkloadTexts::service_line))]
pub(crate) fn push_service_line(text: &mut Bytes, i: u32) -> Result<(), Memory>
    requires { i ≤ 1024 }
    ensures { OnOk result (text.new ≡ text.old ++ service_line i) }
{
    let port = FIRST_PORT + i;
    push_number(text, b"S", i)?;
    push_number(text, b" = ", port)?;
    push_number(text, b"/tcp ", port)?;
    text.push_all(b"/udp\n")
}

/// Adds the term on the network and the service of the same number.
#[tactic(auto, unfolding(crate::specs::WorkloadTexts::term_text))]
pub(crate) fn push_term(text: &mut Bytes, i: u32) -> Result<(), Memory>
    ensures { OnOk result (text.new ≡ text.old ++ term_text i) }
{
    push_number(text, b"term t", i)?;
    push_number(text, b" {\n  source-address:: N", i)?;
    push_number(text, b"\n  destination-port:: S", i)?;
    text.push_all(b"\n  protocol:: tcp udp\n  action:: accept\n}\n")
}
