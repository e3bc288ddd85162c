ghost use Rattle.rings.specs.Closing.{ClosedByLabels};
ghost use Rattle.rings.specs.Ringed.{DiscountedByEdges};
ghost use Rattle.rings.specs.Spending.{PassedOver};

/// One pass over the edges, each of which takes its weights from one row, comes to the book's discount.
pub fn discounted_by_edges()
    ensures { DiscountedByEdges }
{}

/// A name stands in a closed ring exactly if its label is that of one.
pub fn closed_by_labels()
    ensures { ClosedByLabels }
{}

/// A name alone in its component keeps its counts, also with an edge to itself, and so does a ring that an entry or an edge from outside
/// passes over.
pub fn passed_over()
    ensures { PassedOver }
{}
