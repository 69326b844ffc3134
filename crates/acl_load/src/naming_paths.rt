ghost use Rattle.std.specs.Prelude.{◌≡◌, ◌≤◌, ◌++◌, OnOk, IfOk, map, filter, nat_eq, length, take, drop};
ghost use Rattle.std.specs.List.{ends_with};
ghost use Rattle.std.specs.String.{string_bytes};
ghost use Rattle.acl_host.specs.Files.{join_path};
ghost use Rattle.acl_load.specs.Loading.{naming_paths, net_paths, svc_paths};

use acl_host::join_path;
use std::alloc::{AllocError, Global};

/// The paths of a folder's naming files, and how many in front are those of networks.
#[derive(Drop)]
pub(crate) struct NamingPaths {
    pub(crate) all: Vec<String>,
    pub(crate) networks: usize,
}

/// The paths of the naming files among the names: networks before services, each in order.
pub(crate) fn naming_paths(
    alloc: Global,
    folder: &str,
    names: &[String],
) -> Result<NamingPaths, AllocError>
    ensures all { IfOk result (λ paths. map string_bytes paths.all.items
        ≡ naming_paths folder.now (map string_bytes names.now)) }
    ensures within { IfOk result (λ paths. paths.networks ≤ length paths.all.items) }
    ensures front { IfOk result (λ paths. map string_bytes (take paths.networks paths.all.items)
        ≡ net_paths folder.now (map string_bytes names.now)) }
    ensures back { IfOk result (λ paths. map string_bytes (drop paths.networks paths.all.items)
        ≡ svc_paths folder.now (map string_bytes names.now)) }
{
    let mut all = Vec::new(alloc);
    push_paths(alloc, &mut all, folder, names, b".net")?;
    let networks = all.len();
    push_paths(alloc, &mut all, folder, names, b".svc")?;
    Ok(NamingPaths { all, networks })
}

// Adds the paths of the names with this ending at the end, in order.
fn push_paths(
    alloc: Global,
    paths: &mut Vec<String>,
    folder: &str,
    names: &[String],
    ending: &[u8],
) -> Result<(), AllocError>
    ensures { OnOk result (map string_bytes paths.new.items ≡ map string_bytes paths.old.items
        ++ map (join_path folder.now)
        (filter (λ name. ends_with nat_eq name ending.now) (map string_bytes names.now))) }
{
    for name in names {
        if name.as_bytes().ends_with(ending) {
            paths.push(join_path(alloc, folder, name.as_str())?)?;
        }
    }
    Ok(())
}
