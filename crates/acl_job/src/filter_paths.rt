ghost use Rattle.std.specs.Prelude.{◌≡◌, ◌++◌, map, codes, IfOk, slice_index_or, length, ◌-◌, [], nat_eq};
ghost use Rattle.std.specs.List.{slice_split, ends_with};
ghost use Rattle.std.specs.String.{string_bytes};
ghost use Rattle.acl_host.specs.Files.{join_path};
ghost use Rattle.acl_job.specs.FilterPaths.{ending_of, parts_of, last_part, path_of, without_pol};

use acl_host::join_path;
use acl_policy::Kind;
use std::alloc::{AllocError, Global};

fn parts_of(alloc: Global, path: &str) -> Result<Vec<&str>, AllocError>
    ensures { IfOk result (λ parts. map (λ p. p.now) parts.items ≡ parts_of path.now) }
{
    path.split('/').collect(alloc)
}

fn last_of<'a>(parts: &[&'a str]) -> &'a str
    ensures { result.now ≡ slice_index_or (map (λ p. p.now) parts.now) (length parts.now - 1) [] }
{
    match parts.last() {
        Some(part) => part,
        None => "",
    }
}

fn without_pol(name: &str) -> &str
    ensures { result.now ≡ without_pol name.now }
{
    if name.as_bytes().ends_with(b".pol") && name.len() > 4 {
        &name[..name.len() - 4]
    } else {
        name
    }
}

fn ending_of(kind: Kind) -> &'static str
    ensures { result.now ≡ ending_of kind }
{
    match kind {
        Kind::Cisco => ".acl",
        Kind::Juniper => ".jcl",
        Kind::Iptables => ".ipt",
        Kind::Nftables => ".nft",
    }
}

/// The path of the file of the platform's filters: in the output folder, under the policy's own name with the
/// platform's ending.
#[tactic(auto, unfolding(crate::specs::FilterPaths::path_of))]
pub fn path_of(alloc: Global, kind: Kind, output: &str, policy: &str) -> Result<String, AllocError>
    ensures { IfOk result (λ path. string_bytes path ≡ path_of kind output.now policy.now) }
{
    let parts = parts_of(alloc, policy)?;
    let mut path = join_path(alloc, output, without_pol(last_of(parts.as_slice())))?;
    path.push_str(ending_of(kind))?;
    Ok(path)
}
