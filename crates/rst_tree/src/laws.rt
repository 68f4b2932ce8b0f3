//! Laws over the definitions.
ghost use Rattle.rst_tree.specs.Law.{PrintsEachLine, KeysAreInOrder, FitsWithinLevels};

/// Each line of a text is printed once, in order, after one indentation.
pub fn prints_each_line()
    ensures { PrintsEachLine }
{}

/// The order of the attributes is that of their names.
pub fn keys_are_in_order()
    ensures { KeysAreInOrder }
{}

/// Where an element is at a path of a tree, a node fits there just where the levels below suffice for it, and it is sound.
pub fn fits_within_levels()
    ensures { FitsWithinLevels }
{}
