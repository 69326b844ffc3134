ghost use Rattle.std.specs.Prelude.{◌≡◌, ◌++◌, IfOk, OnOk, map, flat_map};
ghost use Rattle.acl_terms.specs.Outcomes.{mode_of};
ghost use Rattle.acl_dead.specs.BlockSteps.{blocks_of, boxes_in, met_by};
ghost use Rattle.acl_dead.specs.SideSteps.{side_of};
ghost use Rattle.acl_dead.specs.QuestionSteps.{question};
ghost use Rattle.term_boxes.specs.TermBoxes.{own_box, boxes_of};

use crate::apartness::are_apart;
use crate::coordinates::Coordinate;
use crate::questions::Asked;
use crate::sides::side_of;
use acl_packet::Family;
use acl_sets::RangeSet;
use acl_terms::{Mode, Term};
use acl_text::{Items, Memory};
use std::alloc::Global;
use term_boxes::{PacketBox, bars, boxes_of, failing_boxes, own_box};

/// The packets of a family that a term may decide: those in its own sets and in none of the boxes.
pub(crate) struct Space {
    pub(crate) own: PacketBox,
    boxes: Vec<Items<PacketBox>>,
}

// Where it is let go, that is one step, whatever it holds.
impl Drop for Space {
    fn drop(self) {
        let Space { own, boxes } = self;
        drop(own);
        drop(boxes);
    }
}

fn push_earlier(
    alloc: Global,
    out: &mut Vec<Items<PacketBox>>,
    family: Family,
    mode: Mode,
    term: &Term,
    earlier: &[&Term],
) -> Result<(), Memory>
    ensures { OnOk result (boxes_in out.new ≡ boxes_in out.old
        ++ flat_map (λ t. boxes_of family mode t) (met_by family term.now (map (λ t. t.now) earlier.now))) }
{
    for other in earlier {
        if are_apart(alloc, family, term, other)? {
            continue;
        }
        out.push(boxes_of(alloc, family, mode, other)?)?;
    }
    Ok(())
}

// What is no packet, what the term does not match, and what the earlier terms match.
fn boxes_for(alloc: Global, family: Family, asked: &Asked) -> Result<Vec<Items<PacketBox>>, Memory>
    ensures { IfOk result (λ v. boxes_in v ≡ blocks_of family (question asked.now)) }
{
    let mode = asked.mode();
    let mut out = Vec::new(alloc);
    out.push(bars(alloc, family)?)?;
    out.push(failing_boxes(alloc, family, mode, asked.term)?)?;
    push_earlier(alloc, &mut out, family, mode, asked.term, &asked.earlier)?;
    Ok(out)
}

fn push_sides<'a>(
    out: &mut Vec<&'a RangeSet>,
    coordinate: Coordinate,
    boxes: &'a [PacketBox],
) -> Result<(), Memory>
    ensures { OnOk result (map (λ s. s.now.ranges) out.new.items
        ≡ map (λ s. s.now.ranges) out.old.items ++ map (λ b. (side_of coordinate b).ranges) boxes.now) }
{
    for sides in boxes {
        out.push(side_of(coordinate, sides))?;
    }
    Ok(())
}

impl Space {
    /// The packets of the family that the term may decide.
    pub(crate) fn new(alloc: Global, family: Family, asked: &Asked) -> Result<Space, Memory>
        ensures own { IfOk result (λ s. s.own ≡ own_box family asked.now.term.now) }
        ensures boxes { IfOk result (λ s. boxes_in s.boxes ≡ blocks_of family (question asked.now)) }
    {
        Ok(Space {
            own: own_box(alloc, family, asked.term)?,
            boxes: boxes_for(alloc, family, asked)?,
        })
    }

    /// The sides of the boxes along the coordinate.
    pub(crate) fn sides_along(
        &self,
        alloc: Global,
        coordinate: Coordinate,
    ) -> Result<Vec<&RangeSet>, Memory>
        ensures { IfOk result (λ v. map (λ s. s.now.ranges) v.items
            ≡ map (λ b. (side_of coordinate b).ranges) (boxes_in self.now.boxes)) }
    {
        let mut out = Vec::new(alloc);
        for boxes in &self.boxes {
            push_sides(&mut out, coordinate, boxes.as_slice())?;
        }
        Ok(out)
    }
}
