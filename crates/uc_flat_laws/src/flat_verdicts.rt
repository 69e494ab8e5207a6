//! Laws: lines that are judged over cells are the lines of the design, and their verdicts are right of these.

ghost use Rattle.uc_flat_laws.specs.FlatVerdictsLaws.{LinkedLaw, OrderLaw, VerdictLaw};

/// The lines over cells stand for the lines of the design, in order.
pub fn lines_in_order()
    ensures { OrderLaw }
{}

/// The lines after linked states stand for those of the design, in order.
pub fn linked_lines()
    ensures { LinkedLaw }
{}

/// A right verdict over cells is right of the line of the design.
pub fn verdicts()
    ensures { VerdictLaw }
{}
