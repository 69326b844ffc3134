ghost use Rattle.std.specs.Prelude.{◌≡◌, ℕ, List, IsTrue, flat_map};
ghost use Rattle.acl_text.specs.Puts.{Puts};
ghost use Rattle.acl_rows.specs.Rows.{Row, text_of_rows};
ghost use Rattle.acl_platform.specs.Remarks.{notes, remarks};

use crate::rules::Rule;
use acl_rows::Rows;
use acl_text::{Out, PutFault};

/// How remarks are written as rows.
pub trait RemarkForm {
    ghost remark_rows: { Self → List ℕ → List Row };

    /// Puts the lines of the remark's rows.
    fn put_remark<O: Out>(&self, text: &[u8], out: &mut O) -> Result<(), PutFault>
        requires { IsTrue (O.is_open out.old) }
        ensures { Puts O.Out out.old out.new
            (text_of_rows (remark_rows self.now text.now)) result };
}

/// A note as a remark; no row where there is none.
#[derive_where(Clone, Copy)]
pub struct NoteRows<'a, F> {
    pub note: &'a [u8],
    pub form: &'a F,
}

impl<'a, F: RemarkForm> Rows for NoteRows<'a, F> {
    ghost rows = { λ n. flat_map (F.remark_rows n.form.now) (notes n.note.now) };

    fn put_rows<O: Out>(&self, out: &mut O) -> Result<(), PutFault> {
        if self.note.is_empty() {
            Ok(())
        } else {
            self.form.put_remark(self.note, out)
        }
    }
}

/// The remarks of a rule, which are its name and its note.
#[derive_where(Clone, Copy)]
pub struct RemarkRows<'a, F> {
    pub rule: &'a Rule,
    pub form: &'a F,
}

impl<'a, F: RemarkForm> Rows for RemarkRows<'a, F> {
    ghost rows = { λ r. flat_map (F.remark_rows r.form.now) (remarks r.rule.now) };

    fn put_rows<O: Out>(&self, out: &mut O) -> Result<(), PutFault> {
        let name = OneRemark {
            text: self.rule.name.as_slice(),
            form: self.form,
        };
        let note = NoteRows {
            note: self.rule.note.as_slice(),
            form: self.form,
        };
        (name, note).put_rows(out)
    }
}

#[derive(Drop)]
struct OneRemark<'a, F> {
    text: &'a [u8],
    form: &'a F,
}

impl<'a, F: RemarkForm> Rows for OneRemark<'a, F> {
    ghost rows = { λ r. F.remark_rows r.form.now r.text.now };

    fn put_rows<O: Out>(&self, out: &mut O) -> Result<(), PutFault> {
        self.form.put_remark(self.text, out)
    }
}
