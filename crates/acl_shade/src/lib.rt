//! Shaded terms: those of a block that decide no packet, since an earlier term decides each of theirs.
#![tactic(auto)]

mod apart;
mod bits;
mod laws;
mod marks;
mod parts;
mod places;
mod points;
mod seen_numbers;
mod shading;
mod sifting;
mod sizes;

pub use laws::{shaded_terms_can_go, shading_is_computed, shading_terms_stay};
pub use places::{shaded_places, shading_term};
pub use shading::shaded_by;
