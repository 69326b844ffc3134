ghost use Rattle.std.specs.Prelude.{◌≡◌};
ghost use Rattle.acl_platform.specs.Platforms.{judged};
ghost use Rattle.acl_platform.specs.SoundFilters.{IsSound};
ghost use Rattle.acl_filters.specs.PlatformFiles.{count_of, limit_of};

use acl_platform::{Filter, Limit};
use acl_target::Kind;
use gen_cisco::Cisco;
use gen_iptables::Iptables;
use gen_junos::Junos;
use gen_nftables::Nftables;

/// The number of entries of the filter on its platform, or the first limit that it meets there.
#[tactic(auto, unfolding(crate::specs::PlatformFiles::limit_of, crate::specs::PlatformFiles::count_of))]
pub fn count_within_limits(filter: &Filter) -> Result<u64, Limit>
    requires { IsSound filter.now }
    ensures { result ≡ judged (limit_of filter.now) (count_of filter.now) }
{
    match filter.kind {
        Kind::Cisco => acl_platform::count_within_limits(&Cisco, filter),
        Kind::Juniper => acl_platform::count_within_limits(&Junos, filter),
        Kind::Iptables => acl_platform::count_within_limits(&Iptables, filter),
        Kind::Nftables => acl_platform::count_within_limits(&Nftables, filter),
    }
}
