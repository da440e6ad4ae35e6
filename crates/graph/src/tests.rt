//! Lists that several threads make, graphs of lines and lists, and laws.

mod codes;
mod lines;

use crate::laws;

#[test]
fn laws_hold() {
    laws::labels_are_distinct();
    laws::labels_are_in_order();
    laws::labels_are_fields();
    laws::edges_are_named();
    laws::edges_stand_once();
    laws::declaring_adds_no_edge();
}
