ghost use Rattle.std.specs.Prelude.{◌≡◌, List, IfOk};
ghost use Rattle.acl_platform.specs.declared.rules.Rule.{Rule};

use crate::rules::{Rule, Rules};
use acl_text::Memory;
use std::alloc::Global;
use std::marker::Model;
use std::rc::Rc;

/// The rules of a filter, in order, which other filters may have too. A contract sees the list of the rules.
#[derive(Drop)]
pub struct SharedRules {
    rules: Rc<Rules>,
}

impl Model for SharedRules {
    ghost Value = { List Rule };

    ghost view = { λ s. s.rules.value };
}

impl SharedRules {
    /// The rules, for one filter.
    pub fn new(alloc: Global, rules: Rules) -> Result<SharedRules, Memory>
        ensures { IfOk result (λ s. s ≡ rules) }
    {
        match Rc::new(alloc, rules) {
            Ok(rules) => Ok(SharedRules { rules }),
            Err(_) => Err(Memory),
        }
    }

    /// The same rules, for one filter more. They are not copied, and no memory is taken.
    pub fn share(&self) -> Result<SharedRules, Memory>
        ensures { IfOk result (λ s. s ≡ self.now) }
    {
        Ok(SharedRules {
            rules: self.rules.clone()?,
        })
    }

    /// The rules in order.
    pub fn as_slice(&self) -> &[Rule]
        ensures { result.now ≡ self.now }
    {
        self.rules.as_ref().as_slice()
    }
}
