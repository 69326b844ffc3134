use crate::places::Places;

/// An axis of a grid: for each of its values the boxes that hold there. `covered` has boxes that hold at each
/// point of the axes behind.
#[derive(Drop)]
pub struct Level {
    pub rows: Vec<Places>,
    pub covered: Places,
}
