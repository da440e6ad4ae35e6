//! Checkpoints.

ghost use Rattle.std.specs.Prelude.{◌≡◌, IfOk};
ghost use Rattle.std.specs.Arc.{arc_value};

use ball_model::{MemReader, MemWriter};
use checkpoint::{KeepError, checkpoint_length, read_checkpoint, write_checkpoint};
use graph::Part;
use replica::{Replica, Shown};
use std::alloc::Global;
use std::sync::Arc;

/// A replica that was written and read is the same.
pub fn kept(alloc: Global, part: Arc<Part>, replica: &Replica) -> Result<Replica, KeepError>
    requires { replica.now.part ≡ arc_value part }
    ensures { IfOk result (λ read. read ≡ replica.now) }
{
    replica.limits();
    let room = checkpoint_length(replica) as usize;
    let mut writer = MemWriter::with_room(alloc, room, None)?;
    write_checkpoint(replica, &mut writer)?;
    let bytes = writer.into_bytes();
    let mut reader = MemReader::new(&bytes, None);
    read_checkpoint(alloc, part, &mut reader)
}
