// What a task expects.

ghost use Rattle.std.specs.Prelude.{◌≡◌, IfOk};

use crate::Status;
use std::alloc::AllocError;
use std::marker::Model;

/// The statuses that a task expects. Contracts see their list.
#[derive(Drop, Debug)]
pub struct Expect {
    statuses: Vec<Status>,
}

impl Model for Expect {
    ghost use Rattle.std.specs.Prelude.{List};
    ghost use Rattle.sby_terms.specs.declared.names.Status.{Status};

    ghost Value = { List Status };

    ghost view = { λ e. e.statuses.items };
}

impl Expect {
    pub fn new(statuses: Vec<Status>) -> Self
        ensures { result ≡ statuses.items }
    {
        Expect { statuses }
    }

    /// The statuses, as they were given.
    pub fn into_statuses(self) -> Vec<Status>
        ensures { result.items ≡ self }
    {
        self.statuses
    }

    pub fn statuses(&self) -> &[Status]
        ensures { result.now ≡ self.now }
    {
        &self.statuses
    }

    /// An equal list, or out of memory.
    pub fn copy(&self) -> Result<Self, AllocError>
        ensures { IfOk result (λ copied. copied ≡ self.now) }
    {
        let statuses = self.statuses.clone()?;
        Ok(Expect { statuses })
    }
}
