ghost use Rattle.std.specs.Prelude.{◌≡◌, ℕ, List, [], ◌∷◌, length, IfOk, OnOk};
ghost use Rattle.acl_dead.specs.LevelSteps.{IsLayered, FindsFree};

use crate::levels::Level;
use crate::places::Places;
use acl_text::Memory;
use std::alloc::Global;
use std::marker::Model;

/// The place of a value for each coordinate. A contract sees the list.
#[derive(Drop)]
pub struct Point {
    steps: Vec<usize>,
}

impl Model for Point {
    ghost Value = { List ℕ };

    ghost view = { λ s. s.steps.items };
}

impl Point {
    pub fn new(alloc: Global) -> Point
        ensures { result ≡ [] }
    {
        Point {
            steps: Vec::new(alloc),
        }
    }

    pub fn put_first(&mut self, step: usize) -> Result<(), Memory>
        ensures { OnOk result (self.new ≡ step ∷ self.old) }
    {
        self.steps.insert(0, step)?;
        Ok(())
    }

    pub fn steps(&self) -> &[usize]
        ensures { result.now ≡ self.now }
    {
        &self.steps
    }
}

/// The first point, in the lexicographic order, that lies in none of the boxes.
pub fn first_free_below(
    alloc: Global,
    levels: &[Level],
    boxes: &Places,
) -> Result<Option<Point>, Memory>
    requires { IsLayered (length boxes.now) levels.now }
    ensures { IfOk result (λ found. FindsFree levels.now boxes.now found) }
{
    let Some((level, behind)) = levels.split_first() else {
        return Ok(boxes.is_empty().then_some(Point::new(alloc)));
    };
    for (step, row) in level.rows.iter().enumerate() {
        if boxes.share(row, &level.covered) {
            continue;
        }
        let left = boxes.meet(alloc, row)?;
        if let Some(mut point) = first_free_below(alloc, behind, &left)? {
            point.put_first(step)?;
            return Ok(Some(point));
        }
    }
    Ok(None)
}
