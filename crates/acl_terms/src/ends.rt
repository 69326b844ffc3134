ghost use Rattle.std.specs.Prelude.{◌≡◌, IfOk};
ghost use Rattle.acl_packet.specs.declared.addresses.Family.TheVariants.{V4, V6};
ghost use Rattle.acl_text.specs.Refusals.{Judges};
ghost use Rattle.acl_terms.specs.Sets.{IsAddressSet};
ghost use Rattle.acl_terms.specs.Slips.{networks_slip};

use crate::addresses::Addresses;
use crate::known_addresses::KnownAddresses;
use acl_policy::RawTerm;
use acl_text::Refusal;
use std::alloc::Global;

/// The addresses of a term's two ends, and those of which it asks either end.
#[derive(Drop)]
pub(crate) struct Ends {
    pub(crate) src: Addresses,
    pub(crate) dst: Addresses,
    pub(crate) either: Addresses,
}

/// The addresses of a term's ends, or the first name that no network has.
pub(crate) fn ends_of<'a>(
    alloc: Global,
    raw: &'a RawTerm,
    known: &mut KnownAddresses<'a>,
) -> Result<Ends, Refusal>
    ensures judged { Judges result (networks_slip known.old.networks raw.now) }
    ensures v4 { IfOk result (λ e.
        IsAddressSet known.old V4 raw.now e.src.v4 e.dst.v4 e.either.v4) }
    ensures v6 { IfOk result (λ e.
        IsAddressSet known.old V6 raw.now e.src.v6 e.dst.v6 e.either.v6) }
    ensures same { known.new ≡ known.old }
{
    let src = known.end_of(alloc, raw.sources(), raw.source_excludes())?;
    let dst = known.end_of(alloc, raw.destinations(), raw.destination_excludes())?;
    let either = known.addresses_of(alloc, raw.addresses())?;
    Ok(Ends { src, dst, either })
}
