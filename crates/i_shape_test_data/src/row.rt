//! A row of a table, and what a test claims of it.

ghost use Rattle.std.specs.Prelude.{IsTrue, IfOk};

use std::alloc::Global;
use std::fmt::Debug;
use std::test::Fail;

/// What the test of a row allocates by, and the name of the row, which a failure reports.
#[derive(Clone, Copy)]
pub struct Row<'a> {
    pub alloc: Global,
    pub name: &'a str,
}

impl<'a> Row<'a> {
    pub fn new(alloc: Global, name: &'a str) -> Self {
        Row { alloc, name }
    }

    /// The claim about this row holds.
    pub fn holds(&self, fact: bool, what: &str) -> Result<(), Fail>
        ensures { IfOk result (λ _. IsTrue fact) }
    {
        if fact {
            return Ok(());
        }
        let name = self.name;
        let text = format!(in self.alloc; "{name}: {what}")?;
        Err(Fail::new(text.as_str()))
    }

    /// What a call returns for this row equals `wanted`.
    pub fn equal<T: PartialEq + Debug + Drop>(
        &self,
        kept: T,
        wanted: T,
        what: &str,
    ) -> Result<(), Fail> {
        if kept == wanted {
            return Ok(());
        }
        let name = self.name;
        let text = format!(in self.alloc; "{name}: {what}: {kept:?}, and not {wanted:?}")?;
        Err(Fail::new(text.as_str()))
    }
}
