//! What can be wrong with a directive.

/// What is wrong with a directive.
#[derive(Debug, Drop)]
pub enum DirectiveFault {
    /// A substitution definition may hold no directive other than image and replace.
    NotInSubstitution,
    /// No directive has this name.
    Unknown,
    /// Something in it.
    Inside(Detail),
    /// The content is missing.
    NoContent,
    /// The lists that a table is made of are missing.
    NoRows,
    /// The table that gets a title and options is missing.
    NoTable,
    /// A topic in a body element or in a topic.
    TopicNotHere,
    /// A sidebar or a table of contents there.
    SidebarNotHere,
    /// A subtitle without a title.
    LoneSubtitle,
    /// A replacement text outside of a substitution definition.
    ReplaceNotHere,
    /// It reads a file.
    Disabled,
    /// A word among class names has no id.
    InvalidClasses(String),
}

/// What is wrong inside a directive. An option's name is given as it is written.
#[derive(Debug, Drop)]
pub enum Detail {
    /// A line among the options neither begins a field nor is indented below one.
    InvalidOptionBlock,
    /// The directive has no option of this name.
    UnknownOption(String),
    /// The option is there a second time.
    DuplicateOption(String),
    /// The option can't have this value.
    InvalidValue(String),
    /// The argument is missing.
    NoArgument,
    /// The argument is more than one word.
    ManyArguments,
    /// There is content where none is permitted.
    ContentNotPermitted,
    /// The content is not a single paragraph.
    NotOneParagraph,
}
