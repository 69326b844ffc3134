//! Sets of whole numbers, and the least lists of prefixes of sets of addresses.
#![tactic(auto)]

mod cuts;
mod groups;
mod least;
mod prefixes_left;
mod range_lists;
mod range_pieces;
mod ranges;
mod sets;
mod shared_lists;
mod short_ranges;
mod slices;
mod spans;
mod sweeps;

pub use groups::group_end;
pub use least::{Prefixes, least_list_holds, least_list_is_fewest, least_prefixes, one_least_list};
pub use prefixes_left::PrefixesLeft;
pub use ranges::Ranges;
pub use sets::{Range, RangeSet, one_normal_list};
