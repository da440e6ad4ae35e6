//! Lists of orders: which replicas are lost or start anew, each at a superstep.

ghost use Rattle.std.specs.Prelude.{◌≡◌, ◌<◌, ◌^◌, Err, IfOk, List, MatchResult, decimal, false};
ghost use Rattle.std.specs.Prelude.{true, ℕ};
ghost use Rattle.ball_model.specs.WorldText.{node_word};
ghost use Rattle.ball_model.specs.declared.names.NodeId.{NodeId as Node};
ghost use Rattle.hyperball.specs.Orders.{AreOrders, IsNodeName, IsOrder, Reads, has_plain_digits};
ghost use Rattle.hyperball.specs.Orders.{SpellsOrders, order_text};

use ball_model::NodeId;
use std::alloc::Global;

/// Why a text is no list of orders.
#[derive(Clone, Copy)]
pub(crate) enum OrdersError {
    /// It is not of the form.
    Form,
    /// Memory was refused.
    Memory,
}

// Whether a number is written without a plus and without needless zeros.
fn has_plain_digits(digits: &str) -> bool
    ensures { result ≡ has_plain_digits digits.now }
{
    let bytes = digits.as_bytes();
    match bytes.first() {
        Some(b'+') => false,
        Some(b'0') => bytes.len() == 1,
        _ => true,
    }
}

// The number of a partition.
fn part_in(digits: &str) -> Option<u16>
    ensures { Reads (λ n. n < 2 ^ 16) decimal digits.now result }
{
    if !has_plain_digits(digits) {
        return None;
    }
    digits.parse::<u16>().ok()
}

// The number of a replica.
fn replica_in(digits: &str) -> Option<u8>
    ensures { Reads (λ n. n < 2 ^ 8) decimal digits.now result }
{
    if !has_plain_digits(digits) {
        return None;
    }
    digits.parse::<u8>().ok()
}

// A superstep.
fn superstep_in(digits: &str) -> Option<u32>
    ensures { Reads (λ n. n < 10 ^ 9) decimal digits.now result }
{
    if !has_plain_digits(digits) {
        return None;
    }
    match digits.parse::<u32>() {
        Ok(superstep) if superstep < 1_000_000_000 => Some(superstep),
        _ => None,
    }
}

// The node of a text P.K.
fn node_in(text: &str) -> Option<NodeId>
    ensures { Reads IsNodeName node_word text.now result }
{
    let (part, replica) = text.split_once('.')?;
    let part = part_in(part)?;
    let replica = replica_in(replica)?;
    Some(NodeId { part, replica })
}

// The order of a text P.K@S.
fn order_in(text: &str) -> Option<(NodeId, u32)>
    ensures { Reads IsOrder order_text text.now result }
{
    let (node, superstep) = text.split_once('@')?;
    let node = node_in(node)?;
    let superstep = superstep_in(superstep)?;
    Some((node, superstep))
}

/// Whether a text is a list of orders: each P.K@S, for replica K of partition P at superstep S, with commas between them.
/// Numbers are decimal, of at most 9 digits, without leading zeros. It takes no memory.
pub(crate) fn are_orders(text: &str) -> bool
    ensures yes { result ≡ true → SpellsOrders text.now }
    ensures no { (os : List (Node × ℕ)) → result ≡ false → AreOrders text.now os → ⊥ }
{
    for piece in text.split(',') {
        let Some(_) = order_in(piece) else {
            return false;
        };
    }
    true
}

/// The orders of a text. Memory is asked for once it is known that the text is a list of orders.
pub(crate) fn orders_in(alloc: Global, text: &str) -> Result<Vec<(NodeId, u32)>, OrdersError>
    ensures ok { IfOk result (λ os. AreOrders text.now os.items) }
    ensures read { (os : List (Node × ℕ)) → AreOrders text.now os →
        MatchResult result (λ found. found.items ≡ os) (λ e. e ≡ OrdersError.Memory) }
    ensures memory { result ≡ Err OrdersError.Memory → SpellsOrders text.now }
{
    if !are_orders(text) {
        return Err(OrdersError::Form);
    }
    let mut orders = Vec::new(alloc);
    // each piece is one
    for piece in text.split(',') {
        let Some(order) = order_in(piece) else {
            return Err(OrdersError::Form);
        };
        let Ok(()) = orders.push(order) else {
            return Err(OrdersError::Memory);
        };
    }
    Ok(orders)
}
