use crate::faults::Place;
use crate::texts::Bytes;

/// A line of a file, without its line feed, and where it stands.
#[derive(Drop)]
pub struct Line {
    pub place: Place,
    pub text: Bytes,
}
