//! How many bytes may follow a command.

ghost use Rattle.std.specs.Prelude.{◌≡◌, ◌<◌, ◌≤◌, ◌^◌, true, false};
ghost use Rattle.checkpoint.specs.Reading.{greatest_batch, most_checkpoint_bytes};
ghost use Rattle.node.specs.NodeText.{body_length};
ghost use Rattle.node.specs.Turns.{most_body};

use crate::command::Command;
use ball_model::Plan;
use checkpoint::sizes::{
    COUNT_LEN, DIGEST_LEN, ENTRY_LEN, HEADER_LEN, HEARD_LEN, ID_LEN, LENGTH_LEN, SUM_LEN,
};
use edgelist::Part;

/// The most bytes of a batch of a plan: those of one of all vertices of partition 0, which has the most.
pub(crate) fn longest_batch(plan: &Plan) -> u64
    ensures value { result ≡ greatest_batch plan.now }
    ensures few { result ≤ 2 ^ 43 }
{
    let width = plan.width() as u64;
    batches::HEADER_LEN as u64 + u64::from(plan.part_size(0)) * (ID_LEN as u64 + width)
}

/// The most bytes of a checkpoint of a part: at the last superstep, with the most early batches, each the longest.
pub(crate) fn longest_checkpoint(part: &Part) -> u64
    ensures { result ≡ most_checkpoint_bytes part.now part.now.plan.limit }
{
    let plan = part.plan();
    let size = u64::from(part.size());
    let width = plan.width() as u64;
    let sums = SUM_LEN as u64 * (u64::from(plan.limit()) + 1);
    let others = u64::from(plan.parts()) - 1;
    let early = 3 * others * (LENGTH_LEN as u64 + longest_batch(plan));
    let fixed = (HEADER_LEN + HEARD_LEN + COUNT_LEN + DIGEST_LEN) as u64;
    fixed + size * (ENTRY_LEN as u64 + width) + sums + size * width + early
}

/// Whether no more bytes are announced after a command than a batch or a checkpoint of the part has at most.
pub(crate) fn is_within(part: &Part, command: Command) -> bool
    ensures within { result ≡ true → body_length command ≤ most_body part.now command }
    ensures beyond { result ≡ false → most_body part.now command < body_length command }
{
    match command {
        Command::Deliver { length } => length <= longest_batch(part.plan()),
        Command::Restart { length } | Command::Recover { length } => {
            length <= longest_checkpoint(part)
        }
        Command::Send { .. }
        | Command::Close
        | Command::Keep
        | Command::Show
        | Command::Totals
        | Command::Figures => true,
    }
}
