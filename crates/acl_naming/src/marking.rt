ghost use Rattle.std.specs.Prelude.{◌≡◌, ◌<◌, ◌++◌, true, [], ◌∷◌, length, slice_set, IfOk, OnOk};
ghost use Rattle.std.specs.List.{All};
ghost use Rattle.acl_naming.specs.GraphSteps.{AreBehind};
ghost use Rattle.acl_naming.specs.MarkSteps.{mark_all, unmarked};

use crate::linking::LinkedTable;
use crate::marks::Marks;
use acl_text::Memory;
use std::alloc::Global;

// Marks the place. One that had no mark is put behind those that are known.
fn mark(marks: &mut Marks, places: &mut Vec<usize>, index: usize) -> Result<(), Memory>
    requires { index < length marks.old }
    ensures marked { OnOk result (marks.new ≡ slice_set marks.old index true) }
    ensures added { OnOk result (places.new.items
        ≡ places.old.items ++ unmarked (index ∷ []) marks.old) }
{
    if !marks.has(index) {
        places.push(index)?;
    }
    marks.set(index);
    Ok(())
}

// A definition has few links, so this stands where its place is looked at.
#[inline(always)]
fn mark_links(links: &[usize], marks: &mut Marks, places: &mut Vec<usize>) -> Result<(), Memory>
    requires { All (λ j. j < length marks.old) links.now }
    ensures marked { OnOk result (marks.new ≡ mark_all links.now marks.old) }
    ensures added { OnOk result (places.new.items
        ≡ places.old.items ++ unmarked links.now marks.old) }
{
    for link in links {
        mark(marks, places, *link)?;
    }
    Ok(())
}

// Each place is looked at once, in the order in which the places were found.
fn follow_links(
    alloc: Global,
    table: &LinkedTable,
    index: usize,
    marks: &mut Marks,
) -> Result<Vec<usize>, Memory>
    requires { index < length table.now }
    ensures { IfOk result (λ v. AreBehind table.now index v.items) }
{
    marks.clear(table.len())?;
    let mut places = Vec::new(alloc);
    mark_links(table.links_at(index), marks, &mut places)?;
    let mut done = 0;
    while done < places.len() {
        mark_links(table.links_at(places[done]), marks, &mut places)?;
        done += 1;
    }
    Ok(places)
}

/// Where the definitions stand that the definition's names reach, each once. The marks are used, whatever they are.
pub fn places_behind(
    alloc: Global,
    table: &LinkedTable,
    index: usize,
    marks: &mut Marks,
) -> Result<Vec<usize>, Memory>
    requires { index < length table.now }
    ensures { IfOk result (λ v. AreBehind table.now index v.items) }
{
    // most definitions name nothing, and need no marks
    if table.links_at(index).is_empty() {
        return Ok(Vec::new(alloc));
    }
    follow_links(alloc, table, index, marks)
}
