ghost use Rattle.std.specs.Prelude.{◌≡◌, ℕ, ◌<◌, IfOk, List, length};
ghost use Rattle.std.specs.List.{All};
ghost use Rattle.acl_dead.specs.PlaceSteps.{has, words_for};
ghost use Rattle.acl_dead.specs.LevelSteps.{IsLayered, IsCovered};
ghost use Rattle.acl_dead.specs.SearchSteps.{AreLevels, FindsOutside, IsLevelOf, IsSized};

use crate::axes::Axis;
use crate::levels::Level;
use crate::places::Places;
use crate::rows::{make_rows, meet_all};
use crate::walks::{Point, first_free_below};
use acl_text::Memory;
use std::alloc::Global;

fn covered_by(alloc: Global, levels: &[Level], boxes: usize) -> Result<Places, Memory>
    requires { IsLayered (words_for boxes) levels.now }
    ensures length { IfOk result (λ s. length s ≡ words_for boxes) }
    ensures exact { IfOk result (λ s. IsCovered levels.now s) }
{
    match levels {
        [] => Places::below(alloc, boxes),
        [first, ..] => meet_all(alloc, &first.covered, &first.rows),
    }
}

fn make_level(alloc: Global, axis: &Axis, boxes: usize, covered: Places) -> Result<Level, Memory>
    requires { IsSized boxes axis.now }
    ensures of { IfOk result (λ l. IsLevelOf axis.now l) }
    ensures rows { IfOk result (λ l.
        All (λ r. length r ≡ words_for boxes) l.rows.items) }
    ensures covered { IfOk result (λ l. l.covered ≡ covered) }
{
    Ok(Level {
        rows: make_rows(alloc, &axis.values, &axis.sides)?,
        covered,
    })
}

fn make_levels(alloc: Global, axes: &[Axis], boxes: usize) -> Result<Vec<Level>, Memory>
    requires { All (IsSized boxes) axes.now }
    ensures of { IfOk result (λ v. AreLevels axes.now v.items) }
    ensures layered { IfOk result (λ v. IsLayered (words_for boxes) v.items) }
{
    let Some((first, behind)) = axes.split_first() else {
        return Ok(Vec::new(alloc));
    };
    let mut out = make_levels(alloc, behind, boxes)?;
    let covered = covered_by(alloc, &out, boxes)?;
    out.insert(0, make_level(alloc, first, boxes, covered)?)?;
    Ok(out)
}

/// The first point, in the lexicographic order of the places of its values, that lies in none of the boxes.
pub fn first_outside(alloc: Global, axes: &[Axis], boxes: usize) -> Result<Option<Point>, Memory>
    requires { All (IsSized boxes) axes.now }
    ensures { IfOk result (λ found. FindsOutside axes.now boxes found) }
{
    let levels = make_levels(alloc, axes, boxes)?;
    let all = Places::below(alloc, boxes)?;
    first_free_below(alloc, &levels, &all)
}
