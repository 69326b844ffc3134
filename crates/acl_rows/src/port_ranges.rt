ghost use Rattle.std.specs.Prelude.{◌≡◌, ◌↔◌, IsTrue};
ghost use Rattle.std.specs.List.{AllByRecursion, list_all};
ghost use Rattle.acl_rows.specs.PortRangeSteps.{is_port_range};
ghost use Rattle.acl_rows.specs.PortRanges.{IsPortRange, range_text};

use crate::each_word::WordForm;
use crate::pieces::{Number, Piece};
use acl_text::{Out, PutFault};

/// The word of a range of ports: the one port where the low and the high one are the same.
#[derive(Clone, Copy)]
pub struct PortRange {
    pub low: u128,
    pub high: u128,
    /// The byte between the two.
    pub separator: u8,
}

impl Piece for PortRange {
    ghost text = { λ r. range_text r.separator (r.low, r.high) };

    #[tactic(auto, unfolding(crate::specs::PortRanges::range_text))]
    fn put_into<O: Out>(&self, out: &mut O) -> Result<(), PutFault> {
        let low = Number { number: self.low };
        if self.low == self.high {
            low.put_into(out)
        } else {
            let high = Number { number: self.high };
            let separator: &[u8] = &[self.separator];
            (low, (separator, high)).put_into(out)
        }
    }
}

/// Ranges of ports, each as its word.
#[derive(Clone, Copy)]
pub struct RangeWords {
    /// The byte between a low and a high port.
    pub separator: u8,
}

impl WordForm<(u16, u16)> for RangeWords {
    ghost item_text = { λ f ports. range_text f.separator ports };

    fn put_item_into<O: Out>(&self, ports: &(u16, u16), out: &mut O) -> Result<(), PutFault> {
        let range = PortRange {
            low: u128::from(ports.0),
            high: u128::from(ports.1),
            separator: self.separator,
        };
        range.put_into(out)
    }
}

/// Whether each is a range of ports, from the low one to the high one.
#[tactic(auto, using(crate::proofs::PortRangeLaws::ranges_decide))]
pub fn are_port_ranges(ranges: &[(u16, u16)]) -> bool
    ensures is { IsTrue result ↔ AllByRecursion IsPortRange ranges.now }
    ensures exact { result ≡ list_all is_port_range ranges.now }
{
    are_ranges(ranges)
}

fn are_ranges(ranges: &[(u16, u16)]) -> bool
    ensures { result ≡ list_all is_port_range ranges.now }
{
    ranges.iter().all(|ports| is_port_range(*ports))
}

/// Whether the ports are a range, from the low one to the high one.
pub fn is_port_range(ports: (u16, u16)) -> bool
    ensures { result ≡ is_port_range ports }
{
    ports.0 <= ports.1
}
