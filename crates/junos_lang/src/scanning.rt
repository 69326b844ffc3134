use crate::filter_taking::take_filter;
use crate::junos::Junos;
use acl_packet::Packet;
use acl_rows::{Scan, TakenSection};
use acl_text::Memory;
use std::alloc::Global;

/// A filter is taken term by term. Of a term that was taken its name is held.
impl Scan for Junos {
    fn take_section<'a>(
        alloc: Global,
        text: &'a [u8],
        names: &mut Vec<&'a [u8]>,
        packet: &Packet,
    ) -> Result<Option<TakenSection<'a>>, Memory> {
        let Some(taken) = take_filter(alloc, text, packet)? else {
            return Ok(None);
        };
        names.push(taken.name)?;
        let outcome = taken.outcome;
        let rest = taken.rest;
        Ok(Some(TakenSection { outcome, rest }))
    }
}
