ghost use Rattle.std.specs.Prelude.{◌≡◌, ◌<◌, ℕ, List, true, false, replicate, set};
ghost use Rattle.acl_text.specs.NameSlots.{has_slot, slot};

use std::marker::Model;

const SLOTS: usize = 16_384;

/// Names that were seen, each by its slot alone, so that no memory is taken for them. A contract sees for each
/// slot whether it is taken.
#[derive(Drop)]
pub struct SeenNames {
    slots: [bool; SLOTS],
}

impl Model for SeenNames {
    ghost use Rattle.std.specs.Prelude.{Bool, List};

    ghost Value = { List Bool };

    ghost view = { λ s. s.slots };
}

impl SeenNames {
    /// No name was seen.
    pub fn new() -> SeenNames
        ensures { result ≡ replicate SLOTS false }
    {
        SeenNames {
            slots: [false; SLOTS],
        }
    }

    /// Whether a name was seen that has the slot of this one: if not, this one was not.
    pub fn may_have(&self, name: &[u8]) -> bool
        ensures { result ≡ has_slot self.now name.now }
    {
        self.slots[slot_of(name)]
    }

    /// The name was seen.
    pub fn add(&mut self, name: &[u8])
        ensures taken { self.new ≡ set self.old (slot name.now) true }
        ensures own { has_slot self.new name.now ≡ true }
        ensures others { (other : List ℕ) → has_slot self.old other ≡ true → has_slot self.new other ≡ true }
    {
        self.slots[slot_of(name)] = true;
    }
}

fn slot_of(name: &[u8]) -> usize
    ensures value { result ≡ slot name.now }
    ensures within { result < SLOTS }
{
    let mut slot = 0;
    for byte in name {
        slot = (slot * 31 + *byte as usize) % SLOTS;
    }
    slot
}
