//! The tables that a node's batches share.

ghost use Rattle.std.specs.Prelude.{IfOk};
ghost use Rattle.replica.specs.Sent.{AreChanged};

use replica::{ChangedRows, Replica};
use std::alloc::{AllocError, Global};
use std::sync::Arc;

/// A table of rows that batches share.
pub(crate) type SharedTable = Arc<Vec<u8>>;

/// Three of the tables that a node's batches shared, or fewer.
///
/// If each superstep is kept, batches are dropped two supersteps after they were posted. So as a rule nobody else has
/// their table three supersteps later, and nobody ever has that of batches that another node posted first. The oldest
/// such table is filled again, and a new one is made only if there is none: with a new one each superstep, runs took
/// more memory. Others that nobody has are dropped then: with two replicas a node kept idle ones, and runs took more
/// too.
pub(crate) struct SharedTables {
    latest: Option<SharedTable>,
    before: Option<SharedTable>,
    oldest: Option<SharedTable>,
}

// Written out, and so one call wherever one is dropped.
impl Drop for SharedTables {
    fn drop(self) {
        let SharedTables {
            latest: _,
            before: _,
            oldest: _,
        } = self;
    }
}

impl SharedTables {
    /// Those of no superstep.
    pub(crate) fn none() -> SharedTables {
        SharedTables {
            latest: None,
            before: None,
            oldest: None,
        }
    }

    /// The rows of the vertices that changed, as the batches of a superstep share them.
    pub(crate) fn next(
        &mut self,
        alloc: Global,
        replica: &Replica,
    ) -> Result<ChangedRows, AllocError>
        ensures { IfOk result (λ changed. AreChanged replica.now changed) }
    {
        let room = self.free().unwrap_or(Vec::new(alloc));
        let changed = replica.changed_rows(alloc, room)?;
        self.keep(changed.table()?);
        Ok(changed)
    }

    // The oldest table that nobody else has. The others that nobody else has are dropped.
    fn free(&mut self) -> Option<Vec<u8>> {
        let oldest = take_free(&mut self.oldest);
        let before = take_free(&mut self.before);
        let latest = take_free(&mut self.latest);
        oldest.or(before).or(latest)
    }

    // Keeps a table as the latest. The oldest is dropped if there are three others.
    fn keep(&mut self, table: SharedTable) {
        let Some(latest) = self.latest.replace(table) else {
            return;
        };
        if let Some(before) = self.before.replace(latest) {
            self.oldest = Some(before);
        }
    }
}

// Takes the table out, if nobody else has it.
fn take_free(table: &mut Option<SharedTable>) -> Option<Vec<u8>> {
    match Arc::try_unwrap(table.take()?) {
        Ok(rows) => Some(rows),
        Err(shared) => {
            *table = Some(shared);
            None
        }
    }
}
