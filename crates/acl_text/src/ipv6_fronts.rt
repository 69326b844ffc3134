ghost use Rattle.std.specs.Prelude.{◌≡◌, ◌-◌, ◌^◌, ◌<◌, ◌≤◌, IfSome};
ghost use Rattle.acl_packet.specs.declared.addresses.Family.TheVariants.{V6};
ghost use Rattle.acl_text.specs.Fronts.{GroupsGoOn, IsAddressFront, IsGroupFront, IsNextGroup, IsSideFront};

use crate::hex_digits::hex_front;
use crate::ipv4_fronts::behind_byte;
use crate::ipv6::{behind, join_sides};

// The group that the text begins with, and what stands behind it.
#[inline(always)]
#[tactic(auto, using(crate::proofs::GroupFronts::one_hex, crate::proofs::GroupFronts::two_hex, crate::proofs::GroupFronts::three_hex, crate::proofs::GroupFronts::four_hex))]
fn group_front(text: &[u8]) -> Option<(u32, &[u8])>
    ensures front { IfSome result (λ r. IsGroupFront text.now r.1.now r.0) }
    ensures small { IfSome result (λ r. r.0 < 65536) }
{
    let (first, rest) = hex_front(text)?;
    let Some((second, behind)) = hex_front(rest) else {
        return Some((first, rest));
    };
    let Some((third, after)) = hex_front(behind) else {
        return Some((first * 16 + second, behind));
    };
    let Some((fourth, end)) = hex_front(after) else {
        return Some(((first * 16 + second) * 16 + third, after));
    };
    Some((((first * 16 + second) * 16 + third) * 16 + fourth, end))
}

// The group behind the `:` that the text begins with, and what stands behind the group.
#[inline(always)]
fn next_group(text: &[u8]) -> Option<(u32, &[u8])>
    ensures next { IfSome result (λ r. IsNextGroup text.now r.1.now r.0) }
    ensures small { IfSome result (λ r. r.0 < 65536) }
{
    group_front(behind_byte(text, b':')?)
}

// Groups that a text begins with: how many more there might have been, their number, and what stands behind them.
#[derive(Clone, Copy)]
struct Side<'a> {
    left: u8,
    value: u128,
    rest: &'a [u8],
}

// The groups with `:` before each that the text begins with, behind the number of those before them.
#[inline(always)]
#[tactic(auto, using(crate::proofs::GroupFronts::go_no_further))]
fn groups_behind(left: u8, value: u128, text: &[u8]) -> Side<'_>
    requires fits { (left ≤ 8) × (value < 65536 ^ (8 - left)) }
    ensures go_on { GroupsGoOn text.now result.rest.now left value result.left result.value }
    ensures fits { (result.left ≤ 8) × (result.value < 65536 ^ (8 - result.left)) }
{
    let mut left = left;
    let mut value = value;
    let mut rest = text;
    while left > 0 {
        let Some((group, behind_group)) = next_group(rest) else {
            break;
        };
        value = behind(left, value, u128::from(group));
        rest = behind_group;
        left -= 1;
    }
    Side { left, value, rest }
}

#[inline(always)]
#[tactic(auto, using(crate::proofs::GroupFronts::no_side, crate::proofs::GroupFronts::side_front))]
fn side_front(text: &[u8]) -> Side<'_>
    ensures side { IsSideFront text.now result.rest.now result.left result.value }
    ensures fits { (result.left ≤ 8) × (result.value < 65536 ^ (8 - result.left)) }
{
    match group_front(text) {
        Some((group, rest)) => groups_behind(7, u128::from(group), rest),
        None => Side {
            left: 8,
            value: 0,
            rest: text,
        },
    }
}

/// The IPv6 address that the text begins with, and what stands behind it, where no part of it is written as an IPv4
/// address. `None` says nothing.
pub(crate) fn ipv6_front(text: &[u8]) -> Option<(u128, &[u8])>
    ensures { IfSome result (λ r. IsAddressFront V6 text.now r.1.now r.0) }
{
    let front = side_front(text);
    if front.left == 0 {
        return Some((front.value, front.rest));
    }
    let back = side_front(behind_byte(behind_byte(front.rest, b':')?, b':')?);
    if front.left + back.left < 9 {
        return None;
    }
    let value = join_sides(front.left, front.value, back.left, back.value);
    Some((value, back.rest))
}
