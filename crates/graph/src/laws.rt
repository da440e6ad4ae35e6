//! Laws of edge lists: the contract of each function is the law, and its body is empty.

ghost use Rattle.graph.specs.Laws.{LabelsAreDistinct, LabelsAreInOrder, LabelsAreFields};
ghost use Rattle.graph.specs.Laws.{EdgesAreNamed, EdgesStandOnce, DeclaringAddsNoEdge};

/// No two vertices have one label.
pub fn labels_are_distinct()
    ensures { LabelsAreDistinct }
{}

/// Vertices are numbered by the first appearance of their labels.
pub fn labels_are_in_order()
    ensures { LabelsAreInOrder }
{}

/// The labels are the fields of the records.
pub fn labels_are_fields()
    ensures { LabelsAreFields }
{}

/// There is an edge exactly if some record leads from the one label to the other.
pub fn edges_are_named()
    ensures { EdgesAreNamed }
{}

/// The ends of each edge are vertices, and each edge is there once.
pub fn edges_stand_once()
    ensures { EdgesStandOnce }
{}

/// Declaring a vertex adds no edge: an input with a record of one field has just the edges that it has without it.
pub fn declaring_adds_no_edge()
    ensures { DeclaringAddsNoEdge }
{}
