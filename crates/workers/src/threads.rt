//! How many threads the nodes of a run use. No result depends on it.

ghost use Rattle.std.specs.Prelude.{◌≡◌, ◌*◌, ◌/◌, ◌<◌, ◌≤◌, max};

/// The share of a node in these threads, if each of `parts` partitions has `replicas` replicas: at least one.
pub(crate) fn share_of(threads: usize, parts: u16, replicas: u8) -> usize
    ensures some { 1 ≤ result }
    ensures share { 0 < parts * replicas → result ≡ max (threads / (parts * replicas)) 1 }
{
    let nodes = usize::from(parts) * usize::from(replicas);
    threads.checked_div(nodes).unwrap_or(1).max(1)
}
