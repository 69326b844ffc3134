ghost use Rattle.std.specs.Prelude.{◌≡◌, ◌<◌, length, IfOk};
ghost use Rattle.std.specs.List.{All};
ghost use Rattle.acl_naming.specs.Definitions.{items_at};
ghost use Rattle.acl_naming.specs.GraphSteps.{targets};

use crate::links::Links;
use crate::tables::Table;
use acl_text::Memory;
use std::alloc::Global;
use std::marker::Model;

/// A table, and for each of its definitions where those of its names stand, each looked up once. A contract sees the
/// table.
pub struct LinkedTable {
    table: Table,
    links: Links,
}

impl Model for LinkedTable {
    ghost use Rattle.std.specs.Prelude.{List};
    ghost use Rattle.acl_naming.specs.Definitions.{Definition};

    ghost Value = { List Definition };

    ghost use Rattle.std.specs.Prelude.{◌≡◌};
    ghost use Rattle.acl_naming.specs.GraphSteps.{graph_of};

    ghost view = { λ t. t.table };

    ghost invariant = { λ t. t.links ≡ graph_of t.table };
}

// Where a table is let go, that is one step, whatever it holds.
impl Drop for LinkedTable {
    fn drop(self) {
        let LinkedTable { table, links } = self;
        drop(table);
        drop(links);
    }
}

impl LinkedTable {
    /// The same definitions. A name that is defined nowhere leads nowhere.
    pub fn new(alloc: Global, table: Table) -> Result<LinkedTable, Memory>
        ensures { IfOk result (λ t. t ≡ table) }
    {
        let links = Links::of_table(alloc, &table)?;
        Ok(LinkedTable { table, links })
    }

    pub fn table(&self) -> &Table
        ensures { result.now ≡ self.now }
    {
        &self.table
    }

    pub fn len(&self) -> usize
        ensures { result ≡ length self.now }
    {
        self.table.len()
    }

    /// Where the definitions of the names stand that the definition has.
    pub fn links_at(&self, index: usize) -> &[usize]
        requires { index < length self.now }
        ensures exact { result.now ≡ targets self.now (items_at self.now index) }
        ensures within { All (λ j. j < length self.now) result.now }
    {
        self.links.row(index)
    }
}
