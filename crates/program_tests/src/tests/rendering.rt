ghost use Rattle.std.specs.Prelude.{◌≡◌, None, IfOk};
ghost use Rattle.std.specs.List.{All};
ghost use Rattle.acl_filters.specs.PlatformFiles.{AreApart, IsTaken};
ghost use Rattle.program_tests.specs.SampleFilters.{list_without_rules};

use acl_filters::{count_within_limits, render};
use acl_host::Tree;
use acl_memory::MemTree;
use acl_packet::{Families, Hook};
use acl_platform::{Filter, Rules, SharedRules};
use acl_target::{Ending, Kind};
use acl_text::{Bytes, Memory, Place, Whole};
use std::alloc::Global;

// An IPv4 list of Cisco that denies everything.
fn list_without_rules(alloc: Global, name: &[u8]) -> Result<Filter, Memory>
    ensures { IfOk result (λ f. f ≡ list_without_rules name.now) }
{
    Ok(Filter {
        place: Place { file: 1, line: 1 },
        kind: Kind::Cisco,
        name: Bytes::from_slice(alloc, name)?,
        families: Families::Inet,
        hook: Hook::Input,
        ending: Ending::Neighbours,
        priority: 0,
        verbose: true,
        number: 1,
        rules: SharedRules::new(alloc, Rules::new(alloc))?,
    })
}

const EDGE: &[u8] =
    b"! cisco edge extended\nno ip access-list extended edge\nip access-list extended edge\n deny ip any any\nexit\n";

fn is_put(alloc: Global, kind: Kind, filters: &[Filter]) -> bool
    requires taken { All (IsTaken kind) filters.now }
    requires apart { AreApart filters.now }
{
    let mut text = Whole::new(alloc);
    render(alloc, kind, filters, &mut text).is_ok() && text.as_slice() == EDGE
}

fn writes<T: Tree>(alloc: Global, kind: Kind, filters: &[Filter], tree: &mut T) -> bool
    requires begun { T.begun tree.old ≡ None }
    requires taken { All (IsTaken kind) filters.now }
    requires apart { AreApart filters.now }
{
    tree.begin("out/a.acl").is_ok()
        && render(alloc, kind, filters, tree).is_ok()
        && tree.finish().is_ok()
}

fn is_in_a_file(alloc: Global, kind: Kind, filters: &[Filter]) -> bool
    requires taken { All (IsTaken kind) filters.now }
    requires apart { AreApart filters.now }
{
    let mut tree = MemTree::new(alloc);
    writes(alloc, kind, filters, &mut tree) && tree.file("out/a.acl") == Some(EDGE)
}

fn is_rendered(alloc: Global, kind: Kind, filters: &[Filter]) -> bool
    requires taken { All (IsTaken kind) filters.now }
    requires apart { AreApart filters.now }
{
    is_put(alloc, kind, filters) && is_in_a_file(alloc, kind, filters)
}

fn edge_is_rendered(alloc: Global) -> Result<bool, Memory> {
    let edge = list_without_rules(alloc, b"edge")?;
    if count_within_limits(&edge) != Ok(1) {
        return Ok(false);
    }
    Ok(is_rendered(alloc, Kind::Cisco, &[edge]))
}

// The bytes of a file are those that an output in memory gets.
#[test]
fn a_file_holds_what_is_rendered(rt: HostRuntime) {
    assert!(rt; edge_is_rendered(rt.alloc()) == Ok(true));
}
