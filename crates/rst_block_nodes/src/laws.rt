//! Laws on the definitions, each by a function that does nothing and whose contract is the law.
ghost use Rattle.rst_block_nodes.specs.Readings.{TextsAreRead, TermsAreRead};

/// What is made of a text is what the functions of the text give.
pub fn texts_are_read()
    ensures texts { TextsAreRead }
    ensures terms { TermsAreRead }
{}
