ghost use Rattle.std.specs.Prelude.{◌≡◌, ◌≤◌, IfOk};
ghost use Rattle.aclgen_core.specs.WorkloadTexts.{networks_text, policy_text, services_text};

use crate::workload_lines::{HEADER, push_network_line, push_service_line, push_term};
use crate::workload_texts::Workload;
use acl_text::{Bytes, Memory};
use std::alloc::Global;

#[tactic(auto, using(crate::proofs::CountedTexts::one_more_at_front))]
fn networks(alloc: Global, count: u32) -> Result<Bytes, Memory>
    ensures { IfOk result (λ text. text ≡ networks_text count) }
{
    let mut text = Bytes::new(alloc);
    for i in 0..count {
        push_network_line(alloc, &mut text, i)?;
    }
    Ok(text)
}

#[tactic(auto, using(crate::proofs::CountedTexts::one_more_at_front))]
fn services(alloc: Global, count: u32) -> Result<Bytes, Memory>
    requires { count ≤ 1024 }
    ensures { IfOk result (λ text. text ≡ services_text count) }
{
    let mut text = Bytes::new(alloc);
    for i in 0..count {
        push_service_line(&mut text, i)?;
    }
    Ok(text)
}

#[tactic(auto, using(crate::proofs::CountedTexts::one_more), unfolding(crate::specs::WorkloadTexts::header_text))]
fn policy(alloc: Global, count: u32) -> Result<Bytes, Memory>
    ensures { IfOk result (λ text. text ≡ policy_text count) }
{
    let mut text = Bytes::from_slice(alloc, HEADER)?;
    for i in 0..count {
        push_term(&mut text, i)?;
    }
    Ok(text)
}

/// The workload of so many networks, services and terms, which is a test load for the program.
///
/// The number is from 1 to 1024. It fails only where memory is wanted.
pub fn workload(alloc: Global, count: u32) -> Result<Workload, Memory>
    requires least { 1 ≤ count }
    requires most { count ≤ 1024 }
    ensures networks { IfOk result (λ w. w.networks ≡ networks_text count) }
    ensures services { IfOk result (λ w. w.services ≡ services_text count) }
    ensures policy { IfOk result (λ w. w.policy ≡ policy_text count) }
{
    Ok(Workload {
        networks: networks(alloc, count)?,
        services: services(alloc, count)?,
        policy: policy(alloc, count)?,
    })
}
