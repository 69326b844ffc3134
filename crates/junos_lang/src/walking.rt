ghost use Rattle.std.specs.Prelude.{◌≡◌, ◌==◌, ◌&&◌};
ghost use Rattle.std.specs.List.{list_any};
ghost use Rattle.junos_lang.specs.Walks.{decided_by, headers_hold, number_holds, term_holds, test_holds, walk};

use crate::documents::{JTerm, JTest};
use acl_packet::{Outcome, Packet, Verdict, has_flag};
use acl_rows::{ACK, RST, SYN, admit_addresses, admit_ports};

#[tactic(auto, unfolding(crate::specs::Walks::walk))]
pub(crate) fn walk(terms: &[JTerm], packet: &Packet) -> Outcome
    ensures { result ≡ walk terms.now packet.now }
{
    for term in terms {
        if term_holds(term, packet) {
            return decided_by(term);
        }
    }
    Outcome::unlogged(Verdict::Deny)
}

pub(crate) fn decided_by(term: &JTerm) -> Outcome
    ensures { result ≡ decided_by term.now }
{
    Outcome {
        verdict: term.verdict,
        logged: term.syslog,
    }
}

pub(crate) fn term_holds(term: &JTerm, packet: &Packet) -> bool
    ensures { result ≡ term_holds term.now packet.now }
{
    admit_addresses(term.src.as_slice(), term.dst.as_slice(), packet)
        && admit_ports(term.sports.as_slice(), term.dports.as_slice(), packet)
        && headers_hold(term, packet)
}

fn headers_hold(term: &JTerm, packet: &Packet) -> bool
    ensures { result ≡ headers_hold term.now packet.now }
{
    number_holds(term.protos.as_slice(), packet.proto)
        && number_holds(term.itypes.as_slice(), packet.itype)
        && number_holds(term.icodes.as_slice(), packet.icode)
        && test_holds(term.test, packet.flags)
}

fn number_holds(numbers: &[u8], number: u8) -> bool
    ensures { result ≡ number_holds numbers.now number }
{
    numbers.is_empty() || have_number(numbers, number)
}

fn have_number(numbers: &[u8], number: u8) -> bool
    ensures { result ≡ list_any (λ n. n == number) numbers.now }
{
    numbers.iter().any(|wanted| *wanted == number)
}

fn test_holds(test: Option<JTest>, flags: u8) -> bool
    ensures { result ≡ test_holds test flags }
{
    match test {
        None => true,
        Some(JTest::Established) => has_flag(flags, ACK) || has_flag(flags, RST),
        Some(JTest::Initial) => has_flag(flags, SYN) && !has_flag(flags, ACK),
        Some(JTest::Rst) => has_flag(flags, RST),
    }
}
