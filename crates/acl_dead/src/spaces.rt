ghost use Rattle.std.specs.Prelude.{◌≡◌, ℕ, min, nat_lt, ◌-◌, ◌^◌, IfOk, List, length, map};
ghost use Rattle.std.specs.List.{All};
ghost use Rattle.std.specs.Option.{option_map};
ghost use Rattle.acl_dead.specs.Boxes.{FindsClear, IsReady, grid_size};
ghost use Rattle.acl_dead.specs.SearchSteps.{IsPlace, numbers_of};

use crate::axes::Axis;
use crate::searches::first_outside;
use acl_text::Memory;
use std::alloc::Global;

// How many points the grid has, or the greatest number where there are more.
fn grid_size(axes: &[Axis]) -> u128
    ensures { result ≡ min (grid_size axes.now) (2 ^ 128 - 1) }
{
    match axes.split_first() {
        Some((first, behind)) => (first.values.len() as u128).saturating_mul(grid_size(behind)),
        None => 1,
    }
}

/// Whether the grid has more points than so many.
pub fn is_larger_than(axes: &[Axis], most: u32) -> bool
    ensures { result ≡ nat_lt most (grid_size axes.now) }
{
    grid_size(axes) > u128::from(most)
}

fn numbers(alloc: Global, axes: &[Axis], steps: &[usize]) -> Result<Vec<u128>, Memory>
    requires { IsPlace axes.now steps.now }
    ensures { IfOk result (λ v. v.items ≡ numbers_of axes.now steps.now) }
{
    let Some((first, behind)) = axes.split_first() else {
        return Ok(Vec::new(alloc));
    };
    let Some((step, steps)) = steps.split_first() else {
        return Ok(Vec::new(alloc));
    };
    let mut out = numbers(alloc, behind, steps)?;
    out.insert(0, first.values[*step])?;
    Ok(out)
}

/// The first point of the grid, in the lexicographic order, that lies in none of the boxes.
///
/// Where there is none, each point that is asked for lies in a box, whether it is on the grid or not.
pub fn first_clear(alloc: Global, axes: &[Axis], boxes: usize) -> Result<Option<Vec<u128>>, Memory>
    requires { All (IsReady boxes) axes.now }
    ensures { IfOk result (λ found. FindsClear axes.now boxes (option_map (λ v. v.items) found)) }
{
    match first_outside(alloc, axes, boxes)? {
        Some(point) => Ok(Some(numbers(alloc, axes, point.steps())?)),
        None => Ok(None),
    }
}
