//! Laws on the definitions alone, each by a function that does nothing and whose contract is the law.
ghost use Rattle.rst_text.specs.Laws.{CutsCompose, IdsAreDecomposed};

/// A cut of a cut of a block is one cut of the block.
pub fn cut_of_cut_is_cut()
    ensures { CutsCompose }
{}

/// An id is made of the decomposed name, whether the name is in ASCII or not.
pub fn ids_are_decomposed()
    ensures { IdsAreDecomposed }
{}
