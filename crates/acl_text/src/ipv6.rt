ghost use Rattle.std.specs.Prelude.{◌≡◌, ℕ, ◌+◌, ◌-◌, ◌*◌, ◌^◌, ◌<◌, ◌≤◌, length, option_map, IfSome};
ghost use Rattle.acl_text.specs.Ipv6.{hex_worth, group_in, last_in, groups_in, side_in, gap_at, whole_in, short_in, ipv6_in};

use crate::cuts::split_at_byte;
use crate::hex_digits::hex_value;
use crate::ipv4::read_ipv4;

/// The address of the text, as a number.
#[tactic(auto, unfolding(crate::specs::Ipv6::ipv6_in))]
pub(crate) fn read_ipv6(text: &[u8]) -> Option<u128>
    ensures { result ≡ ipv6_in text.now }
{
    match gap(text) {
        Some((before, behind)) => read_short(before, behind),
        None => read_whole(text),
    }
}

/// The text before the first `::`, and the text behind it.
fn gap(text: &[u8]) -> Option<(&[u8], &[u8])>
    ensures { option_map (λ p. (p.0.now, p.1.now)) result ≡ gap_at text.now }
{
    for (i, b) in text.iter().enumerate() {
        if *b == b':' && i + 1 < text.len() && text[i + 1] == b':' {
            return Some((&text[..i], &text[i + 2..]));
        }
    }
    None
}

#[tactic(auto, unfolding(crate::specs::Ipv6::whole_in))]
fn read_whole(text: &[u8]) -> Option<u128>
    ensures { result ≡ whole_in text.now }
{
    let (left, value) = read_groups(8, true, 0, text)?;
    if left == 0 { Some(value) } else { None }
}

#[tactic(auto, unfolding(crate::specs::Ipv6::short_in))]
fn read_short(before: &[u8], behind: &[u8]) -> Option<u128>
    ensures { result ≡ short_in before.now behind.now }
{
    let (front_left, front) = read_side(false, before)?;
    let (back_left, back) = read_side(true, behind)?;
    if front_left + back_left < 9 {
        return None;
    }
    Some(join_sides(front_left, front, back_left, back))
}

/// The number of the groups before `::`, of which `front_left` are missing, and of those behind it.
pub(crate) fn join_sides(front_left: u8, front: u128, back_left: u8, back: u128) -> u128
    requires front_fits { (front_left ≤ 8) × (front < 65536 ^ (8 - front_left)) }
    requires back_fits { (back_left ≤ 8) × (back < 65536 ^ (8 - back_left)) }
    requires fewer { 9 ≤ front_left + back_left }
    ensures { result ≡ front * 65536 ^ front_left + back }
{
    if front_left == 8 {
        back
    } else {
        (front << (16 * front_left)) + back
    }
}

#[tactic(auto, unfolding(crate::specs::Ipv6::side_in))]
fn read_side(dotted: bool, text: &[u8]) -> Option<(u8, u128)>
    ensures exact { result ≡ side_in dotted text.now }
    ensures fits { IfSome result (λ r. (r.0 ≤ 8) × (r.1 < 65536 ^ (8 - r.0))) }
{
    if text.is_empty() {
        Some((8, 0))
    } else {
        read_groups(8, dotted, 0, text)
    }
}

/// Reads groups behind the number of those before them, where at most `left` may come.
#[tactic(auto, using(crate::proofs::GroupSteps::step_none, crate::proofs::GroupSteps::step_bad, crate::proofs::GroupSteps::step_more, crate::proofs::GroupSteps::step_last))]
fn read_groups(left: u8, dotted: bool, value: u128, text: &[u8]) -> Option<(u8, u128)>
    requires fits { (left ≤ 8) × (value < 65536 ^ (8 - left)) }
    ensures exact { result ≡ groups_in left dotted value text.now }
    ensures fits { IfSome result (λ r. (r.0 ≤ 8) × (r.1 < 65536 ^ (8 - r.0))) }
{
    if left == 0 {
        return None;
    }
    match split_at_byte(text, b':') {
        Some((front, rest)) => {
            let group = read_group(front)?;
            read_groups(
                left - 1,
                dotted,
                behind(left, value, u128::from(group)),
                rest,
            )
        }
        None => read_last(left - 1, dotted, value, text),
    }
}

/// The number of the groups with one more behind them.
pub(crate) fn behind(left: u8, value: u128, group: u128) -> u128
    requires some { (0 < left) × (left ≤ 8) }
    requires fits { value < 65536 ^ (8 - left) }
    requires small { group < 65536 }
    ensures exact { result ≡ value * 65536 + group }
    ensures fits { result < 65536 ^ (8 - (left - 1)) }
{
    value * 65536 + group
}

#[tactic(auto, unfolding(crate::specs::Ipv6::last_in))]
fn read_last(left: u8, dotted: bool, value: u128, text: &[u8]) -> Option<(u8, u128)>
    requires fits { (left < 8) × (value < 65536 ^ (8 - (left + 1))) }
    ensures exact { result ≡ last_in left dotted value text.now }
    ensures fits { IfSome result (λ r. (r.0 ≤ 8) × (r.1 < 65536 ^ (8 - r.0))) }
{
    if let Some(group) = read_group(text) {
        return Some((left, behind(left + 1, value, u128::from(group))));
    }
    if !dotted || left == 0 {
        return None;
    }
    let tail = read_ipv4(text)?;
    let high = behind(left + 1, value, tail / 65536);
    Some((left - 1, behind(left, high, tail % 65536)))
}

#[tactic(auto, unfolding(crate::specs::Ipv6::group_in))]
fn read_group(text: &[u8]) -> Option<u32>
    ensures exact { result ≡ group_in text.now }
    ensures small { IfSome result (λ g. g < 65536) }
{
    if text.is_empty() || text.len() > 4 {
        return None;
    }
    read_hex(text)
}

fn read_hex(text: &[u8]) -> Option<u32>
    requires { length text.now ≤ 4 }
    ensures exact { result ≡ hex_worth 0 text.now }
    ensures small { IfSome result (λ g. g < 65536) }
{
    let mut value: u32 = 0;
    for c in text {
        value = value * 16 + hex_value(*c)?;
    }
    Some(value)
}
