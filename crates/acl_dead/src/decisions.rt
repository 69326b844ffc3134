ghost use Rattle.std.specs.Prelude.{◌≡◌, ◌<◌, true, length, IfOk};
ghost use Rattle.acl_dead.specs.Deciding.{Answers, Decides, is_live_on};
ghost use Rattle.acl_packet.specs.declared.addresses.Family.TheVariants.{V4, V6};
ghost use Rattle.acl_dead.specs.GridSteps.{IsSpaceIn};
ghost use Rattle.acl_dead.specs.QuestionSteps.{question};

use crate::blocking::Space;
use crate::grids::{first_in, grid_in, is_too_large, space_in};
use crate::questions::Asked;
use acl_host::Day;
use acl_packet::{Family, Packet};
use acl_target::Target;
use acl_terms::Term;
use acl_text::Memory;
use std::alloc::Global;

/// Whether a term decides a packet on a target.
#[derive(Clone, Copy, PartialEq, Eq)]
pub enum Decided {
    /// It decides this one.
    Packet(Packet),
    /// It decides none.
    Dead,
    /// There are too many boundary packets to look at.
    Undecided,
}

// Both grids are counted before either is walked.
fn decide_in(
    alloc: Global,
    asked: &Asked,
    ipv4: &Option<Space>,
    ipv6: &Option<Space>,
) -> Result<Decided, Memory>
    requires live { is_live_on asked.now.target.now asked.now.today asked.now.term.now ≡ true }
    requires ipv4 { IsSpaceIn V4 (question asked.now) ipv4.now }
    requires ipv6 { IsSpaceIn V6 (question asked.now) ipv6.now }
    ensures { IfOk result (λ d. Answers (question asked.now) d) }
{
    let grid4 = grid_in(alloc, Family::V4, asked, ipv4)?;
    let grid6 = grid_in(alloc, Family::V6, asked, ipv6)?;
    if is_too_large(Family::V4, asked, &grid4) || is_too_large(Family::V6, asked, &grid6) {
        return Ok(Decided::Undecided);
    }
    if let Some(packet) = first_in(alloc, Family::V4, asked, &grid4)? {
        return Ok(Decided::Packet(packet));
    }
    match first_in(alloc, Family::V6, asked, &grid6)? {
        Some(packet) => Ok(Decided::Packet(packet)),
        None => Ok(Decided::Dead),
    }
}

fn decide_asked(alloc: Global, asked: &Asked) -> Result<Decided, Memory>
    ensures { IfOk result (λ d. Answers (question asked.now) d) }
{
    if !asked.is_live() {
        return Ok(Decided::Dead);
    }
    let ipv4 = space_in(alloc, Family::V4, asked)?;
    let ipv6 = space_in(alloc, Family::V6, asked)?;
    decide_in(alloc, asked, &ipv4, &ipv6)
}

/// Whether the term at the place decides a packet on the target, where the terms before it come first.
///
/// The packet is the first one on the grid of boundary values that the term decides. Where that grid is past
/// 2,000,000 packets, in a family of the target in which the term is not empty, the answer is `Undecided`.
pub fn decide(
    alloc: Global,
    terms: &[Term],
    target: &Target,
    today: Day,
    place: usize,
) -> Result<Decided, Memory>
    requires { place < length terms.now }
    ensures { IfOk result (λ d. Decides terms.now target.now today place d) }
{
    let asked = Asked::new(alloc, &terms[..place], &terms[place], target, today)?;
    decide_asked(alloc, &asked)
}
