ghost use Rattle.std.specs.Prelude.{◌≡◌, ℕ, ◌+◌, ◌*◌, ◌^◌, ◌<◌, ◌≤◌, ◌++◌, length};
ghost use Rattle.acl_text.specs.Ipv6.{hex_digit, group_text, groups_text, groups_of, zeros, longest_run, shortened, ipv6_text};

use crate::hex_digits::hex_pair;
use crate::short::ShortText;

/// Adds the text of the address.
#[tactic(auto, unfolding(crate::specs::Ipv6::ipv6_text))]
pub(crate) fn push_ipv6(text: &mut ShortText, address: u128)
    requires { length text.old + 40 ≤ 64 }
    ensures items { text.new ≡ text.old ++ ipv6_text address }
    ensures len { length text.new ≤ length text.old + 40 }
{
    let groups = groups_of(address);
    let longest = zero_runs(&groups);
    push_shortened(text, &groups, longest.before, longest.run);
}

/// Adds the texts of the groups, with `::` for a run of two or more of them.
fn push_shortened(text: &mut ShortText, groups: &[u16], before: usize, run: usize)
    requires within { before + run ≤ length groups.now }
    requires room { length text.old + 5 * length groups.now ≤ 64 }
    ensures items { text.new ≡ text.old ++ shortened groups.now (before, run) }
    ensures len { length text.new ≤ length text.old + 5 * length groups.now }
{
    if run >= 2 {
        push_groups(text, &groups[..before]);
        text.push(b':');
        text.push(b':');
        push_groups(text, &groups[before + run..]);
    } else {
        push_groups(text, groups);
    }
}

fn groups_of(address: u128) -> [u16; 8]
    ensures { result ≡ groups_of address }
{
    [
        (address >> 112) as u16,
        ((address >> 96) % 65536) as u16,
        ((address >> 80) % 65536) as u16,
        ((address >> 64) % 65536) as u16,
        ((address >> 48) % 65536) as u16,
        ((address >> 32) % 65536) as u16,
        ((address >> 16) % 65536) as u16,
        (address % 65536) as u16,
    ]
}

/// The zeros at the front of groups, and their longest run of zeros, the first among equals: how many
/// groups stand before it, and how many it has.
#[derive(Clone, Copy)]
struct ZeroRuns {
    front: usize,
    before: usize,
    run: usize,
}

fn zero_runs(groups: &[u16]) -> ZeroRuns
    ensures front { result.front ≡ zeros groups.now }
    ensures longest { (result.before, result.run) ≡ longest_run groups.now }
    ensures front_within { result.front ≤ length groups.now }
    ensures run_within { result.before + result.run ≤ length groups.now }
{
    let mut at = groups.len();
    let mut front = 0;
    let mut before = 0;
    let mut run = 0;
    while at > 0 {
        at -= 1;
        front = if groups[at] == 0 { front + 1 } else { 0 };
        if run <= front {
            before = 0;
            run = front;
        } else {
            before += 1;
        }
    }
    ZeroRuns { front, before, run }
}

/// Adds the texts of the groups, with `:` between.
fn push_groups(text: &mut ShortText, groups: &[u16])
    requires { length text.old + 5 * length groups.now ≤ 64 }
    ensures items { text.new ≡ text.old ++ groups_text groups.now }
    ensures len { length text.new ≤ length text.old + 5 * length groups.now }
{
    match groups {
        [] => {}
        [group] => push_group(text, *group),
        [group, rest @ ..] => {
            push_group(text, *group);
            text.push(b':');
            push_groups(text, rest);
        }
    }
}

// The bytes of the group, of which a first one that is 0 is left out.
fn push_group(text: &mut ShortText, group: u16)
    requires { length text.old + 4 ≤ 64 }
    ensures items { text.new ≡ text.old ++ group_text group }
    ensures len { length text.new ≤ length text.old + 4 }
{
    if group < 256 {
        push_byte(text, group as u8);
    } else {
        push_byte(text, (group / 256) as u8);
        text.push_all(hex_pair((group % 256) as u8));
    }
}

// One digit or two.
#[inline]
#[tactic(auto, using(crate::proofs::HexPairs::one_digit, crate::proofs::HexPairs::two_digits))]
fn push_byte(text: &mut ShortText, n: u8)
    requires { length text.old + 2 ≤ 64 }
    ensures items { text.new ≡ text.old ++ group_text n }
    ensures len { length text.new ≤ length text.old + 2 }
{
    if n < 16 {
        text.push(hex_digit(n));
    } else {
        text.push_all(hex_pair(n));
    }
}

fn hex_digit(d: u8) -> u8
    requires { d < 16 }
    ensures { result ≡ hex_digit d }
{
    if d < 10 { 48 + d } else { 87 + d }
}
