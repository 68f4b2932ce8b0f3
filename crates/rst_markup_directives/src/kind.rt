//! The directives: their names, what they take, and where they are allowed.
ghost use Rattle.std.specs.Prelude.{◌≡◌, true};
ghost use Rattle.rst_markup_directives.specs.Kind as spec;

use super::characters::{lookup, lookup_name};
use super::option::OptionName;
use rst_settings::Parts;
use rst_tree::Tag;

/// What a directive takes, and where it is allowed. Directives of one kind are the same but for their names.
#[derive(Clone, Copy, Debug, PartialEq, Eq)]
pub struct Kind {
    /// Its element. A replacement text has none of its own: it is a paragraph.
    pub element: Tag,
    pub argument: ArgumentKind,
    pub options: OptionSet,
    pub content: ContentKind,
    pub allowed: Allowed,
}

/// What a directive takes as its argument.
#[derive(Clone, Copy, Debug, PartialEq, Eq)]
pub enum ArgumentKind {
    Absent,
    /// A title, which is required.
    Title,
    /// A title, or nothing.
    OptionalTitle,
    /// A URI, which is required.
    Uri,
    /// A language, or nothing.
    Language,
    /// Formats, at least one.
    Formats,
    /// Class names, at least one. No options follow them.
    Classes,
    /// Class names, or nothing.
    OptionalClasses,
}

/// The options of a directive.
#[derive(Clone, Copy, Debug, PartialEq, Eq)]
pub enum OptionSet {
    Empty,
    /// `class` and `name`.
    Common,
    /// `name`.
    NameAlone,
    /// `class`, `name`, and `subtitle`.
    Sidebar,
    /// `class`, and those that name a file.
    Raw,
    /// `class`, `name`, and those that `include` alone has.
    Include,
    /// `class`, and those of a table of contents alone.
    Contents,
    /// `class`, `name`, `width`, `align`, and `widths`.
    Table,
    /// Those of a table, and those of a table made of lists alone.
    ListTable,
    /// Those of an image.
    Image,
    /// Those of an image, and those of a figure alone.
    Figure,
}

/// What a directive takes as its content.
#[derive(Clone, Copy, Debug, PartialEq, Eq)]
pub enum ContentKind {
    Empty,
    /// A text without inline markup, at least one line.
    Lines,
    /// A text with inline markup, at least one line.
    Marked,
    /// Lines of a line block, at least one.
    Verse,
    /// Formulas, at least one.
    Formulas,
    /// Body elements, at least one.
    Blocks,
    /// Block quotes of a class, at least one.
    Quotes(QuoteClass),
    /// One paragraph.
    Paragraph,
    /// A caption and a legend, or nothing.
    Caption,
    /// Nothing: its entries are made of the document's sections.
    Entries,
    /// Body elements, which get the class names, or nothing.
    Classed,
    /// A list of the rows of a table, each a list of its cells.
    Rows,
    /// One table.
    OneTable,
}

/// The class of block quotes that a directive makes.
#[derive(Clone, Copy, Debug, PartialEq, Eq)]
pub enum QuoteClass {
    Epigraph,
    Highlights,
    PullQuote,
}

/// Where a directive is allowed.
#[derive(Clone, Copy, Debug, PartialEq, Eq)]
pub enum Allowed {
    /// Where body elements are.
    Body,
    /// At the level of sections alone.
    Sections,
    /// There as well: a sidebar, or a table of contents.
    Beside,
    /// In a substitution definition alone.
    Substitution,
    /// Where body elements are, and in a substitution definition.
    Anywhere,
    /// Nowhere: it reads a file.
    Nowhere,
}

/// The part of the profile that has a directive.
#[derive(Clone, Copy, Debug, PartialEq, Eq)]
pub enum PartName {
    Usual,
    /// That for program code, which is always on.
    Code,
    /// The directives of the wider profile.
    Wider,
}

/// A directive: its name, the part that has it, and its element, argument, options and content, and where it is allowed.
macro_rules! row {
    (
        $name:literal in $part:ident:
        $element:ident, $argument:ident, $options:ident, $content:ident $(($class:ident))?, $allowed:ident
    ) => {
        (
            $name,
            (
                PartName::$part,
                Kind {
                    element: Tag::$element,
                    argument: ArgumentKind::$argument,
                    options: OptionSet::$options,
                    content: ContentKind::$content $((QuoteClass::$class))?,
                    allowed: Allowed::$allowed,
                },
            ),
        )
    };
}

/// The directives by their names.
const DIRECTIVES: [(&str, (PartName, Kind)); 33] = [
    row!("code" in Code: LiteralBlock, Language, Common, Lines, Body),
    row!("code-block" in Code: LiteralBlock, Language, Common, Lines, Body),
    row!("sourcecode" in Code: LiteralBlock, Language, Common, Lines, Body),
    row!("attention" in Usual: Attention, Absent, Common, Blocks, Body),
    row!("caution" in Usual: Caution, Absent, Common, Blocks, Body),
    row!("danger" in Usual: Danger, Absent, Common, Blocks, Body),
    row!("error" in Usual: Error, Absent, Common, Blocks, Body),
    row!("hint" in Usual: Hint, Absent, Common, Blocks, Body),
    row!("important" in Usual: Important, Absent, Common, Blocks, Body),
    row!("note" in Usual: Note, Absent, Common, Blocks, Body),
    row!("tip" in Usual: Tip, Absent, Common, Blocks, Body),
    row!("warning" in Usual: Warning, Absent, Common, Blocks, Body),
    row!("admonition" in Usual: Admonition, Title, Common, Blocks, Body),
    row!("topic" in Usual: Topic, Title, Common, Blocks, Sections),
    row!("image" in Usual: Image, Uri, Image, Empty, Anywhere),
    row!("figure" in Usual: Figure, Uri, Figure, Caption, Body),
    row!("replace" in Usual: Paragraph, Absent, Empty, Paragraph, Substitution),
    row!("rubric" in Wider: Rubric, Title, Common, Empty, Body),
    row!("raw" in Wider: Raw, Formats, Raw, Lines, Anywhere),
    row!("parsed-literal" in Wider: LiteralBlock, Absent, Common, Marked, Body),
    row!("include" in Wider: LiteralBlock, Title, Include, Empty, Nowhere),
    row!("compound" in Wider: Compound, Absent, Common, Blocks, Body),
    row!("container" in Wider: Container, OptionalClasses, NameAlone, Blocks, Body),
    row!("class" in Wider: Class, Classes, Empty, Classed, Body),
    row!("sidebar" in Wider: Sidebar, OptionalTitle, Sidebar, Blocks, Beside),
    row!("epigraph" in Wider: BlockQuote, Absent, Empty, Quotes(Epigraph), Body),
    row!("highlights" in Wider: BlockQuote, Absent, Empty, Quotes(Highlights), Body),
    row!("pull-quote" in Wider: BlockQuote, Absent, Empty, Quotes(PullQuote), Body),
    row!("line-block" in Wider: LineBlock, Absent, Common, Verse, Body),
    row!("math" in Wider: MathBlock, Absent, Common, Formulas, Body),
    row!("contents" in Wider: Topic, OptionalTitle, Contents, Entries, Beside),
    row!("table" in Wider: Table, OptionalTitle, Table, OneTable, Body),
    row!("list-table" in Wider: Table, OptionalTitle, ListTable, Rows, Body),
];

/// Whether a text names a directive of the wider profile, without regard to the case of letters of ASCII.
pub fn is_wider_directive(name: &str) -> bool
    ensures { result ≡ spec.is_wider_directive name.now }
{
    match lookup_name(name, &DIRECTIVES) {
        Some((part, _)) => part.is_wider(),
        None => false,
    }
}

impl Kind {
    /// The kind of the directive that a text names, without regard to the case of letters of ASCII, if its part is on.
    #[tactic(auto, unfolding(crate::specs::Kind::directive_named))]
    pub(crate) fn of(parts: &Parts, text: &[char]) -> Option<Kind>
        ensures { result ≡ spec.directive_named parts.now text.now true }
    {
        let (part, kind) = lookup(text, &DIRECTIVES, false)?;
        if part.is_on(parts) { Some(kind) } else { None }
    }
}

impl PartName {
    /// Whether the part is that of the directives of the wider profile.
    fn is_wider(self) -> bool
        ensures { result ≡ spec.is_wider self }
    {
        self == PartName::Wider
    }

    /// Whether the part is on.
    fn is_on(self, parts: &Parts) -> bool
        ensures { result ≡ spec.is_on parts.now true self }
    {
        match self {
            PartName::Usual | PartName::Code => true,
            PartName::Wider => parts.directives,
        }
    }
}

impl ContentKind {
    /// Whether the content is blocks.
    pub fn has_blocks(self) -> bool
        ensures { result ≡ spec.has_blocks self }
    {
        matches!(
            self,
            ContentKind::Blocks
                | ContentKind::Quotes(_)
                | ContentKind::Paragraph
                | ContentKind::Caption
                | ContentKind::Classed
                | ContentKind::Rows
                | ContentKind::OneTable
        )
    }

    /// How many columns of its indentation the content keeps.
    pub(crate) fn kept_columns(self) -> usize
        ensures { result ≡ spec.kept_columns self }
    {
        if matches!(self, ContentKind::Quotes(_)) {
            1
        } else {
            0
        }
    }

    /// Whether the content is one text.
    pub(crate) fn is_text(self) -> bool
        ensures { result ≡ spec.is_text self }
    {
        matches!(
            self,
            ContentKind::Lines | ContentKind::Marked | ContentKind::Verse | ContentKind::Formulas
        )
    }
}

impl QuoteClass {
    /// The class as it is written.
    pub fn name(self) -> &'static str
        ensures { result.now ≡ spec.quote_class self }
    {
        match self {
            QuoteClass::Epigraph => "epigraph",
            QuoteClass::Highlights => "highlights",
            QuoteClass::PullQuote => "pull-quote",
        }
    }
}

impl OptionSet {
    /// Whether `align` may be vertical. Those of a figure or a table may not.
    pub(crate) fn has_vertical(self) -> bool
        ensures { result ≡ spec.has_vertical self }
    {
        !matches!(
            self,
            OptionSet::Figure | OptionSet::Table | OptionSet::ListTable
        )
    }

    /// Whether `widths` may be those that are drawn.
    pub(crate) fn has_drawn(self) -> bool
        ensures { result ≡ spec.has_drawn self }
    {
        self == OptionSet::Table
    }

    /// Whether an option is among these.
    pub(crate) fn has(self, option: OptionName) -> bool
        ensures { result ≡ spec.has_option self option }
    {
        match self {
            OptionSet::Empty => false,
            OptionSet::Common => matches!(option, OptionName::Class | OptionName::Name),
            OptionSet::NameAlone => option == OptionName::Name,
            OptionSet::Sidebar => matches!(
                option,
                OptionName::Class | OptionName::Name | OptionName::Subtitle
            ),
            OptionSet::Raw => option == OptionName::Class || option.reads_file(),
            OptionSet::Include => matches!(
                option,
                OptionName::Class | OptionName::Name | OptionName::Inclusion
            ),
            OptionSet::Contents => option == OptionName::Class || option.is_of_contents(),
            OptionSet::Table | OptionSet::ListTable => match option {
                OptionName::Class
                | OptionName::Name
                | OptionName::Width
                | OptionName::Align
                | OptionName::Widths => true,
                _ => self == OptionSet::ListTable && option.is_of_tables(),
            },
            OptionSet::Image | OptionSet::Figure => match option {
                OptionName::Subtitle | OptionName::File | OptionName::Url | OptionName::Inclusion =>
                    { false }
                OptionName::FigureWidth | OptionName::FigureClass => self == OptionSet::Figure,
                _ => !option.is_of_contents() && !option.is_of_tables(),
            },
        }
    }
}
