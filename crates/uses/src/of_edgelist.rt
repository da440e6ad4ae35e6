//! Edge lists.

ghost use Rattle.std.specs.Prelude.{◌≡◌, IfOk, Ok};
ghost use Rattle.ball_model.specs.Input.{IsPlain};
ghost use Rattle.edgelist.specs.Reading.{meaning_of};

use ball_model::MemReader;
use edgelist::{Delimiter, EdgeError, EdgeLimits, Graph, read_edges};
use std::alloc::Global;
use std::hash::RandomState;

/// The graph of an edge list in memory, whose fields are separated by tabs.
pub fn graph_of(
    alloc: Global,
    state: RandomState,
    text: &[u8],
    limits: EdgeLimits,
) -> Result<Graph, EdgeError>
    ensures { IsPlain text.now →
        IfOk result (λ graph. meaning_of limits Delimiter.Tab text.now ≡ Ok graph) }
{
    let mut reader = MemReader::new(text, None);
    read_edges(alloc, state, &mut reader, Delimiter::Tab, limits)
}
