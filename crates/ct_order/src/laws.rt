//! Laws of the refined order, as contracts of functions that do nothing.

ghost use Rattle.ct_order.specs.Laws.{OrderIsIrreflexive, OrderIsTransitive, OrderIsTotal, OrderKeepsSums};

/// No point is below itself, what is below a lower point is below, and of two points of one width that differ
/// exactly one is below the other.
pub fn order_is_total()
    ensures irreflexive { OrderIsIrreflexive }
    ensures transitive { OrderIsTransitive }
    ensures total { OrderIsTotal }
{}

/// Adding one point to both sides keeps the order, whatever the widths.
pub fn order_keeps_sums()
    ensures { OrderKeepsSums }
{}
