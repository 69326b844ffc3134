ghost use Rattle.std.specs.Prelude.{◌≡◌, ◌+◌, ◌<◌, ◌++◌, [], ◌∷◌, length, get_or, IfOk, OnOk};
ghost use Rattle.acl_naming.specs.GraphSteps.{graph_of, targets};
ghost use Rattle.acl_naming.specs.Rows.{begin_at};

use crate::naming_items::Item;
use crate::rows::part;
use crate::tables::Table;
use acl_text::{Items, Memory};
use std::alloc::Global;
use std::marker::Model;

/// For each of some definitions, where those of its names stand. A contract sees a list for each.
///
/// All stand one behind the other, so that a definition that names nothing takes no memory of its own.
#[derive(Drop)]
pub struct Links {
    begins: Items<usize>,
    places: Items<usize>,
}

impl Model for Links {
    ghost use Rattle.std.specs.Prelude.{ℕ, List};

    ghost Value = { List (List ℕ) };

    ghost use Rattle.std.specs.Prelude.{length};
    ghost use Rattle.acl_naming.specs.Rows.{Ascend, rows_of};

    ghost view = { λ l. rows_of l.begins l.places };

    ghost invariant = { λ l. Ascend l.begins (length l.places) };
}

fn push_link(
    table: &Table,
    near: usize,
    item: &Item,
    places: &mut Items<usize>,
) -> Result<(), Memory>
    ensures { OnOk result (places.new ≡ places.old ++ targets table.now (item.now ∷ [])) }
{
    match item {
        Item::Name(reference) => match table.index_near(near, reference.name.as_slice()) {
            Some(index) => places.push(index),
            None => Ok(()),
        },
        Item::Network(_) => Ok(()),
        Item::Service(_) => Ok(()),
    }
}

fn push_links(
    table: &Table,
    near: usize,
    items: &[Item],
    places: &mut Items<usize>,
) -> Result<(), Memory>
    ensures { OnOk result (places.new ≡ places.old ++ targets table.now items.now) }
{
    for item in items {
        push_link(table, near, item, places)?;
    }
    Ok(())
}

fn begin_at(begins: &[usize], index: usize) -> usize
    requires { index < length begins.now }
    ensures { result ≡ get_or begins.now index 0 }
{
    begins[index]
}

// Where the places of the definition end: where those of the next begin, and behind the last one at the end of all.
fn end_at(begins: &[usize], index: usize, end: usize) -> usize
    requires { index < length begins.now }
    ensures { result ≡ begin_at begins.now (index + 1) end }
{
    let next = index + 1;
    if next < begins.len() {
        begins[next]
    } else {
        end
    }
}

impl Links {
    /// Those of all definitions of the table. Each name is looked for at the definition just before first, where many
    /// have theirs.
    pub fn of_table(alloc: Global, table: &Table) -> Result<Links, Memory>
        ensures { IfOk result (λ l. l ≡ graph_of table.now) }
    {
        let mut begins = Items::with_capacity(alloc, table.len())?;
        let mut places = Items::with_capacity(alloc, table.items_count())?;
        for i in 0..table.len() {
            begins.push(places.as_slice().len())?;
            push_links(table, i.saturating_sub(1), table.items_at(i), &mut places)?;
        }
        Ok(Links { begins, places })
    }

    pub fn row(&self, index: usize) -> &[usize]
        requires { index < length self.now }
        ensures { result.now ≡ get_or self.now index [] }
    {
        let begins = self.begins.as_slice();
        let places = self.places.as_slice();
        let from = begin_at(begins, index);
        part(places, from, end_at(begins, index, places.len()))
    }
}
