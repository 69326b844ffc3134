ghost use Rattle.std.specs.Prelude.{◌≡◌, ◌<◌, [], true, false, length, replicate, slice_set, IfOk, OnOk};
ghost use Rattle.acl_naming.specs.MarkSteps.{marked};

use acl_text::Memory;
use std::alloc::Global;
use std::marker::Model;

/// Marks at the definitions of a table, for one walk after the other. A contract sees for each definition whether it has
/// a mark.
///
/// A mark is the number of the walk that set it, so that nothing has to be cleared before the next walk. Beside the marks
/// it is kept where the next name is looked for first.
#[derive(Drop)]
pub struct Marks {
    alloc: Global,
    walk: u32,
    walks: Vec<u32>,
    near: usize,
}

impl Model for Marks {
    ghost use Rattle.std.specs.Prelude.{List, Bool};

    ghost Value = { List Bool };

    ghost use Rattle.std.specs.Prelude.{map, ◌==◌, ◌≤◌};
    ghost use Rattle.std.specs.List.{All};

    ghost view = { λ m. map (λ w. w == m.walk) m.walks.items };

    ghost invariant = { λ m. All (λ w. w ≤ m.walk) m.walks.items };
}

fn zeros(alloc: Global, len: usize) -> Result<Vec<u32>, Memory>
    ensures { IfOk result (λ v. v.items ≡ replicate len 0) }
{
    Ok(vec![in alloc; 0; len]?)
}

impl Marks {
    /// No definitions.
    pub fn new(alloc: Global) -> Marks
        ensures { result ≡ [] }
    {
        Marks {
            alloc,
            walk: 0,
            walks: Vec::new(alloc),
            near: 0,
        }
    }

    /// Where the next name is looked for first.
    pub(crate) fn near(&self) -> usize {
        self.near
    }

    /// The next name is looked for behind the index first, since names mostly stand in the order of their definitions.
    pub(crate) fn look_behind(&mut self, index: usize)
        ensures { self.new ≡ self.old }
    {
        self.near = index.saturating_add(1);
    }

    /// From now on so many definitions, and no mark at any.
    pub(crate) fn clear(&mut self, len: usize) -> Result<(), Memory>
        ensures { OnOk result (self.new ≡ replicate len false) }
    {
        if self.walks.len() == len && self.walk < u32::MAX {
            self.walk += 1;
            return Ok(());
        }
        self.walks = zeros(self.alloc, len)?;
        self.walk = 1;
        Ok(())
    }

    pub(crate) fn has(&self, index: usize) -> bool
        requires { index < length self.now }
        ensures { result ≡ marked self.now index }
    {
        self.walks[index] == self.walk
    }

    pub(crate) fn set(&mut self, index: usize)
        requires { index < length self.old }
        ensures { self.new ≡ slice_set self.old index true }
    {
        self.walks[index] = self.walk;
    }
}
