ghost use Rattle.std.specs.Prelude.{◌∷◌, []};
ghost use Rattle.ipr_lang.specs.Texts.{chain_rows, commit_row, declaration_row, declared_rows, head_rows, policy_rows, section_rows, table_row};

use acl_packet::{Family, Hook};
use acl_rows::{Each, Piece, Row, RowForm, Rows};
use acl_text::{Out, PutFault};
use ipt_lang::{
    Chain, ChainName, JumpRow, OfChain, Remarks, Section, TargetRow, default_word, hook_word,
};

/// The rows that begin a section: its target, the table, and the hook's own chain with its policy.
#[derive(Drop)]
pub struct SectionHead {
    pub hook: Hook,
    pub family: Family,
    /// Whether the hook's policy is to accept, else it is to drop; `None` is not written.
    pub accept: Option<bool>,
}

impl Rows for SectionHead {
    ghost rows = { λ h. head_rows h.hook h.family h.accept };

    #[tactic(auto, unfolding(crate::specs::Texts::head_rows))]
    fn put_rows<O: Out>(&self, out: &mut O) -> Result<(), PutFault> {
        let target = TargetRow {
            hook: self.hook,
            family: self.family,
        };
        let policy = PolicyRows {
            hook: self.hook,
            accept: self.accept,
        };
        (target, (TableRow, policy)).put_rows(out)
    }
}

#[derive(Drop)]
struct TableRow;

impl Rows for TableRow {
    ghost rows = { λ t. table_row ∷ [] };

    fn put_rows<O: Out>(&self, out: &mut O) -> Result<(), PutFault> {
        let nothing: &[&[u8]] = &[];
        let row = Row {
            indent: 0,
            first: b"*filter".as_slice(),
            rest: nothing,
        };
        row.put_rows(out)
    }
}

/// The row that ends a section.
#[derive(Drop)]
pub struct CommitRow;

impl Rows for CommitRow {
    ghost rows = { λ c. commit_row ∷ [] };

    fn put_rows<O: Out>(&self, out: &mut O) -> Result<(), PutFault> {
        let nothing: &[&[u8]] = &[];
        let row = Row {
            indent: 0,
            first: b"COMMIT".as_slice(),
            rest: nothing,
        };
        row.put_rows(out)
    }
}

// The declaration of a chain.
#[derive(Drop)]
struct Declaration<'a, P> {
    name: P,
    policy: &'a [u8],
}

impl<'a, P: Piece + Copy> Rows for Declaration<'a, P> {
    ghost rows = { λ d. declaration_row (P.text d.name) d.policy.now ∷ [] };

    fn put_rows<O: Out>(&self, out: &mut O) -> Result<(), PutFault> {
        let rest: &[&[u8]] = &[self.policy, b"[0:0]"];
        let row = Row {
            indent: 0,
            first: (b":".as_slice(), self.name),
            rest,
        };
        row.put_rows(out)
    }
}

#[derive(Drop)]
struct PolicyRows {
    hook: Hook,
    accept: Option<bool>,
}

impl Rows for PolicyRows {
    ghost rows = { λ p. policy_rows p.hook p.accept };

    #[tactic(auto, unfolding(crate::specs::Texts::policy_rows))]
    fn put_rows<O: Out>(&self, out: &mut O) -> Result<(), PutFault> {
        match self.accept {
            Some(accept) => {
                let policy = Declaration {
                    name: hook_word(self.hook),
                    policy: default_word(accept),
                };
                policy.put_rows(out)
            }
            None => Ok(()),
        }
    }
}

/// The declaration of a chain of the user, to which the hook's chain jumps.
#[derive(Drop)]
pub struct ChainDeclaration<'a> {
    pub hook: Hook,
    /// The name without the hook's letter and the `_` behind it.
    pub name: &'a [u8],
}

impl<'a> Rows for ChainDeclaration<'a> {
    ghost rows = { λ c. declared_rows c.hook c.name.now };

    fn put_rows<O: Out>(&self, out: &mut O) -> Result<(), PutFault> {
        let name = ChainName {
            hook: self.hook,
            name: self.name,
        };
        let declaration = Declaration { name, policy: b"-" };
        declaration.put_rows(out)
    }
}

/// A section as it is written for iptables-restore.
#[derive(Drop)]
pub(crate) struct Restored<'a> {
    pub(crate) section: &'a Section,
}

impl<'a> Rows for Restored<'a> {
    ghost rows = { λ r. section_rows r.section.now };

    #[tactic(auto, unfolding(crate::specs::Texts::section_rows))]
    fn put_rows<O: Out>(&self, out: &mut O) -> Result<(), PutFault> {
        let hook = self.section.hook;
        let family = self.section.family;
        let chains = self.section.chains.as_slice();
        let head = SectionHead {
            hook,
            family,
            accept: self.section.accept,
        };
        let declared = Each {
            items: chains,
            form: Declared { hook },
        };
        let filled = Each {
            items: chains,
            form: OfHook { hook, family },
        };
        (head, (declared, (filled, CommitRow))).put_rows(out)
    }
}

// The chains of a hook, as they are declared.
#[derive(Drop)]
struct Declared {
    hook: Hook,
}

impl RowForm<Chain> for Declared {
    ghost item_rows = { λ f c. declared_rows f.hook c.name };

    fn put_item<O: Out>(&self, chain: &Chain, out: &mut O) -> Result<(), PutFault> {
        let row = ChainDeclaration {
            hook: self.hook,
            name: chain.name.as_slice(),
        };
        row.put_rows(out)
    }
}

// The chains of a hook and a family, with their rules.
#[derive(Drop)]
struct OfHook {
    hook: Hook,
    family: Family,
}

impl RowForm<Chain> for OfHook {
    ghost item_rows = { λ f c. chain_rows f.hook f.family c };

    #[tactic(auto, unfolding(crate::specs::Texts::chain_rows))]
    fn put_item<O: Out>(&self, chain: &Chain, out: &mut O) -> Result<(), PutFault> {
        let hook = self.hook;
        let name = chain.name.as_slice();
        let remarks = Each {
            items: chain.remarks.as_slice(),
            form: Remarks,
        };
        let rules = Each {
            items: chain.rules.as_slice(),
            form: OfChain {
                hook,
                family: self.family,
                name,
            },
        };
        (remarks, (rules, JumpRow { hook, name })).put_rows(out)
    }
}
