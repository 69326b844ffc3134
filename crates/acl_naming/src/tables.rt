ghost use Rattle.std.specs.Prelude.{◌≡◌, ℕ, ◌+◌, ◌<◌, List, [], ◌∷◌, ◌++◌, None, Some, true, not, false, is_some, length, position, IfOk, OnErr, OnOk, IfSome};
ghost use Rattle.std.specs.Str.{bytes_eq};
ghost use Rattle.indexmap.specs.IndexMap.{get, index_map_len, insert_entry, keys};
ghost use Rattle.acl_naming.specs.Definitions.{index_of, items_at, items_count};
ghost use Rattle.acl_naming.specs.Rows.{begin_at};
ghost use Rattle.acl_naming.specs.Tables.{name_at, place_at, with_item};
ghost use Rattle.acl_naming.specs.TableViewSteps.{begins_of};

use crate::name_texts::NameText;
use crate::naming_items::Item;
use crate::rows::part;
use acl_text::{Items, Memory, Place, TextKey};
use indexmap::IndexMap;
use indexmap::map::Entry;
use std::alloc::Global;
use std::marker::Model;

/// What is kept of a definition beside its name: its place, and where its items begin.
#[derive(Drop)]
pub struct TableEntry {
    place: Place,
    from: usize,
}

/// The definitions of one kind, in order of appearance. A contract sees their list.
///
/// The items of all stand one behind the other, since only the last definition gets more.
pub struct Table {
    kept: IndexMap<NameText, TableEntry>,
    items: Items<Item>,
}

impl Model for Table {
    ghost use Rattle.std.specs.Prelude.{List};
    ghost use Rattle.acl_naming.specs.Definitions.{Definition};

    ghost Value = { List Definition };

    ghost use Rattle.acl_naming.specs.TableViewSteps.{AreLaid, definitions_of};

    ghost view = { λ t. definitions_of t.kept.entries t.items };

    ghost invariant = { λ t. AreLaid t.kept.entries t.items };
}

// Where a table is let go, that is one step, whatever it holds.
impl Drop for Table {
    fn drop(self) {
        let Table { kept, items } = self;
        drop(kept);
        drop(items);
    }
}

// Where the items of the definition at the index begin; the end, where there is none.
fn begin_at(kept: &IndexMap<NameText, TableEntry>, index: usize, end: usize) -> usize
    ensures { result ≡ begin_at (begins_of kept.now.entries) index end }
{
    match kept.get_index(index) {
        Some((_, entry)) => entry.from,
        None => end,
    }
}

// Where they end.
fn end_at(kept: &IndexMap<NameText, TableEntry>, index: usize, end: usize) -> usize
    requires { index < index_map_len kept.now }
    ensures { result ≡ begin_at (begins_of kept.now.entries) (index + 1) end }
{
    if kept.len() > index + 1 {
        begin_at(kept, index + 1, end)
    } else {
        end
    }
}

// Whether the definition at the index has the name. Then it is the one: keys of a map are all different.
fn has_name(kept: &IndexMap<NameText, TableEntry>, index: usize, name: &[u8]) -> bool
    ensures { result ≡ true → Some index ≡ position (bytes_eq name.now) (keys kept.now) }
{
    if index >= kept.len() {
        return false;
    }
    match kept.get_index(index) {
        Some((key, _)) => name == key.as_slice(),
        None => false,
    }
}

// Puts the entry behind the others where none has the name, and tells whether it did.
fn enter(
    kept: &mut IndexMap<NameText, TableEntry>,
    name: NameText,
    entry: TableEntry,
) -> Result<bool, Memory>
    ensures told { IfOk result (λ added. added ≡ not (is_some (get bytes_eq kept.old name))) }
    ensures added { IfOk result (λ added. added ≡ true
        → kept.new.entries ≡ insert_entry bytes_eq kept.old.entries name entry) }
    ensures same { IfOk result (λ added. added ≡ false → kept.new.entries ≡ kept.old.entries) }
    ensures err { OnErr result (kept.new.entries ≡ kept.old.entries) }
{
    let Entry::Vacant(vacant) = kept.entry(name)? else {
        return Ok(false);
    };
    vacant.insert(entry);
    Ok(true)
}

impl Table {
    pub fn new(alloc: Global) -> Table
        ensures { result ≡ [] }
    {
        Table {
            kept: IndexMap::new(alloc),
            items: Items::new(alloc),
        }
    }

    /// Makes room for so many more definitions, where they are most of all, and for so many items, where there are
    /// none yet. Then nothing is moved while they are added.
    pub fn make_room(
        &mut self,
        alloc: Global,
        definitions: usize,
        items: usize,
    ) -> Result<(), Memory>
        ensures { self.new ≡ self.old }
    {
        if self.kept.len() < definitions {
            self.kept.reserve(definitions)?;
        }
        if self.items.as_slice().is_empty() {
            self.items = Items::with_capacity(alloc, items)?;
        }
        Ok(())
    }

    pub fn len(&self) -> usize
        ensures { result ≡ length self.now }
    {
        self.kept.len()
    }

    pub fn items_count(&self) -> usize
        ensures { result ≡ items_count self.now }
    {
        self.items.as_slice().len()
    }

    pub fn index_of(&self, name: &[u8]) -> Option<usize>
        ensures exact { result ≡ index_of self.now name.now }
        ensures within { IfSome result (λ i. i < length self.now) }
    {
        self.kept.get_index_of(TextKey { text: name })
    }

    /// The same, where the definition at `near`, if there is one, is the first to be looked at.
    pub fn index_near(&self, near: usize, name: &[u8]) -> Option<usize>
        ensures { result ≡ index_of self.now name.now }
    {
        if has_name(&self.kept, near, name) {
            return Some(near);
        }
        self.index_of(name)
    }

    pub fn items_at(&self, index: usize) -> &[Item]
        requires { index < length self.now }
        ensures { result.now ≡ items_at self.now index }
    {
        let items = self.items.as_slice();
        let from = begin_at(&self.kept, index, items.len());
        part(items, from, end_at(&self.kept, index, items.len()))
    }

    pub fn name_at(&self, index: usize) -> &[u8]
        requires { index < length self.now }
        ensures { result.now ≡ name_at self.now index }
    {
        match self.kept.get_index(index) {
            Some((name, _)) => name.as_slice(),
            None => unreachable!(),
        }
    }

    pub fn place_at(&self, index: usize) -> Place
        requires { index < length self.now }
        ensures { result ≡ place_at self.now index }
    {
        match self.kept.get_index(index) {
            Some((_, entry)) => entry.place,
            None => unreachable!(),
        }
    }

    /// Adds a definition without items at the end, or tells that one has the name.
    pub fn add(&mut self, name: NameText, place: Place) -> Result<bool, Memory>
        ensures told { IfOk result (λ added. added ≡ not (is_some (index_of self.old name))) }
        ensures added { IfOk result (λ added. added ≡ true → self.new
            ≡ self.old ++ record { name = name; place = place; items = [] } ∷ []) }
    {
        let from = self.items.as_slice().len();
        let is_new = enter(&mut self.kept, name, TableEntry { place, from })?;
        Ok(is_new)
    }

    /// Adds an item to the last definition.
    pub fn push_item(&mut self, item: Item) -> Result<(), Memory>
        requires some { 0 < length self.old }
        requires few { items_count self.old < 16384 }
        ensures { OnOk result (self.new ≡ with_item self.old item) }
    {
        self.items.push(item)?;
        Ok(())
    }
}
