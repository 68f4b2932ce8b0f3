//! Laws on the definitions, each by a function that does nothing and whose contract is the law.
ghost use Rattle.rst_transform_structure.specs.Law.{KeepsTransitions};

/// No transition is lost or comes up, and their order in the document stays.
pub fn transitions_stay()
    ensures { KeepsTransitions }
{}
