//! The options of directives.
ghost use Rattle.std.specs.Prelude.{◌≡◌};
ghost use Rattle.rst_markup_directives.specs.Kind.{is_of_contents, is_of_tables, reads_file};
ghost use Rattle.rst_markup_directives.specs.OptionName as spec;

use super::characters::lookup;

/// An option of a directive.
#[derive(Clone, Copy, Debug, PartialEq, Eq)]
pub enum OptionName {
    Alt,
    Height,
    Width,
    Scale,
    Align,
    Target,
    Class,
    Name,
    FigureWidth,
    FigureClass,
    Subtitle,
    File,
    Url,
    /// One that `include` alone has. Nothing is made of it, as no file is read.
    Inclusion,
    Depth,
    Local,
    Backlinks,
    HeaderRows,
    StubColumns,
    Widths,
}

/// The options by their names.
const OPTIONS: [(&str, OptionName); 27] = [
    ("alt", OptionName::Alt),
    ("height", OptionName::Height),
    ("width", OptionName::Width),
    ("scale", OptionName::Scale),
    ("align", OptionName::Align),
    ("target", OptionName::Target),
    ("class", OptionName::Class),
    ("name", OptionName::Name),
    ("figwidth", OptionName::FigureWidth),
    ("figclass", OptionName::FigureClass),
    ("subtitle", OptionName::Subtitle),
    ("file", OptionName::File),
    ("url", OptionName::Url),
    ("literal", OptionName::Inclusion),
    ("code", OptionName::Inclusion),
    ("number-lines", OptionName::Inclusion),
    ("start-line", OptionName::Inclusion),
    ("end-line", OptionName::Inclusion),
    ("start-after", OptionName::Inclusion),
    ("end-before", OptionName::Inclusion),
    ("tab-width", OptionName::Inclusion),
    ("depth", OptionName::Depth),
    ("local", OptionName::Local),
    ("backlinks", OptionName::Backlinks),
    ("header-rows", OptionName::HeaderRows),
    ("stub-columns", OptionName::StubColumns),
    ("widths", OptionName::Widths),
];

impl OptionName {
    /// Whether it names a file, or a text elsewhere.
    pub(crate) fn reads_file(self) -> bool
        ensures { result ≡ reads_file self }
    {
        matches!(self, OptionName::File | OptionName::Url)
    }

    /// Whether it is one of a table of contents alone.
    pub(crate) fn is_of_contents(self) -> bool
        ensures { result ≡ is_of_contents self }
    {
        matches!(
            self,
            OptionName::Depth | OptionName::Local | OptionName::Backlinks
        )
    }

    /// Whether it is one of a table alone.
    pub(crate) fn is_of_tables(self) -> bool
        ensures { result ≡ is_of_tables self }
    {
        matches!(
            self,
            OptionName::HeaderRows | OptionName::StubColumns | OptionName::Widths
        )
    }

    /// The option that a text names, without regard to the case of letters of ASCII.
    #[tactic(auto, unfolding(crate::specs::OptionName::option_named))]
    pub fn of(text: &[char]) -> Option<OptionName>
        ensures { result ≡ spec.option_named text.now }
    {
        lookup(text, &OPTIONS, false)
    }
}
