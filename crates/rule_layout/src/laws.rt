//! Laws of the layout, each the contract of a function that does nothing.
ghost use Rattle.rule_layout.specs.{Faults.LimitsHaveNoFault, Layouts.LayoutLaw, Layouts.FlatHasParts};
ghost use Rattle.rule_layout.specs.{Masses.MassLaw, Numbers.TermNumberLaw, Numbers.OutNumberLaw};
ghost use Rattle.rule_layout.specs.Truths.{RuleTruthLaw, SpreadingLaw};

/// Spreading keeps the truth: if each input term has a whole number from 0 to n, a complement counts n minus it,
/// and a conjunction counts the least of its literals, then the greatest of the conjunctions that a condition
/// spreads into is the truth of the condition. So is the greatest of the conjunctions that the layout of a valid
/// block has for a rule, by the values of their slots.
pub fn spreading_law()
    ensures conditions { SpreadingLaw }
    ensures rules { RuleTruthLaw }
{}

/// The rule list computes the masses: if the slots of a valid block hold the grades of its input terms, their
/// complements and 0, and each conjunction that concludes a slot raises it to the least of its literals scaled by
/// its weight byte, then the slot of an output's term ends at that term's byte mass. With a weight byte of 255, as
/// REV has for each conjunction, nothing is scaled.
pub fn mass_law()
    ensures { MassLaw }
{}

/// The places of the slots of terms, counted from 0: the slot of an input's term comes after the terms of the
/// inputs before it and the terms before it, and that of an output's term after all input terms, the complements,
/// and the output terms before it.
pub fn slot_number_laws()
    ensures input_term { TermNumberLaw }
    ensures output_term { OutNumberLaw }
{}

/// The layout of a valid block has what its lists and the machine need: slots that are distinct and numbered by
/// their places, numbers that are slots and no marks, at least one conjunction, and for each a weight byte, which
/// for REV is 255.
pub fn layout_law()
    ensures { LayoutLaw }
{}

/// A block within its limits has no fault.
pub fn limits_have_no_fault()
    ensures { LimitsHaveNoFault }
{}

/// A layout's parts are those of its block.
pub fn flat_has_parts()
    ensures { FlatHasParts }
{}
