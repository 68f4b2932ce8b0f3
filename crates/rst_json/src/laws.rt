//! Laws over the definitions.
ghost use Rattle.rst_json.specs.Reader.{ReadsBack, ShowsOneTree};

/// A reader of the JSON gives the tree back: all but the attributes that aren't printed.
pub fn reads_back()
    ensures { ReadsBack }
{}

/// Trees with the same JSON differ only in attributes that aren't printed.
pub fn shows_one_tree()
    ensures { ShowsOneTree }
{}
