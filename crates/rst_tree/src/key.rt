//! The names of attributes.
ghost use Rattle.std.specs.Prelude.{◌≡◌};

/// An attribute, in the order of the names (Document Tree, 'Attribute Reference'). Those of which `is_hidden` is true serve the
/// transforms alone, and aren't printed.
#[derive(Clone, Copy, Debug, PartialEq, Eq)]
pub enum Key {
    Align,
    Alt,
    Anonymous,
    Auto,
    /// Where titles lead back to: of the place of a table of contents alone.
    Backlinks,
    Backrefs,
    Bullet,
    Classes,
    Cols,
    Colwidth,
    Delimiter,
    /// How many levels of sections it shows: of the place of a table of contents alone.
    Depth,
    Dupnames,
    Enumtype,
    Format,
    Height,
    Ids,
    /// Hidden: of a target: it is in a text.
    Inline,
    Kind,
    Level,
    Line,
    /// That it shows the sections around it alone: of the place of a table of contents alone.
    Local,
    /// Hidden: the label of a footnote as it was written.
    Mark,
    /// Hidden: the number of a message, at the message and at its problematics.
    Message,
    Morecols,
    Morerows,
    Name,
    Names,
    /// Hidden: the name that an element was written with.
    OwnName,
    Prefix,
    /// Hidden: the source text of a reference.
    Rawsource,
    Refid,
    /// Hidden: the name to which a reference or a target refers.
    Refname,
    Refuri,
    Scale,
    /// Hidden: the number of an element.
    Serial,
    Source,
    Start,
    Stub,
    Suffix,
    /// Hidden: how many messages of its text follow an element.
    TextMessages,
    Title,
    Type_,
    Uri,
    Width,
    XmlSpace,
}

impl Key {
    ghost use Rattle.rst_tree.specs.KeyNames.{key_code, is_hidden};
    ghost use Rattle.rst_tree.specs.Print.{hides_empty, attribute_opening};

    /// What is printed before the value: a space, the name, `=` and the quote.
    #[tactic(auto, unfolding(crate::specs::KeyNames::key_name))]
    pub fn opening(self) -> &'static str
        ensures { result.now ≡ attribute_opening self }
    {
        match self {
            Key::Align => " align=\"",
            Key::Alt => " alt=\"",
            Key::Anonymous => " anonymous=\"",
            Key::Auto => " auto=\"",
            Key::Backlinks => " backlinks=\"",
            Key::Backrefs => " backrefs=\"",
            Key::Bullet => " bullet=\"",
            Key::Classes => " classes=\"",
            Key::Cols => " cols=\"",
            Key::Colwidth => " colwidth=\"",
            Key::Delimiter => " delimiter=\"",
            Key::Depth => " depth=\"",
            Key::Dupnames => " dupnames=\"",
            Key::Enumtype => " enumtype=\"",
            Key::Format => " format=\"",
            Key::Height => " height=\"",
            Key::Ids => " ids=\"",
            Key::Inline => " inline=\"",
            Key::Kind => " kind=\"",
            Key::Level => " level=\"",
            Key::Line => " line=\"",
            Key::Local => " local=\"",
            Key::Mark => " mark=\"",
            Key::Message => " message=\"",
            Key::Morecols => " morecols=\"",
            Key::Morerows => " morerows=\"",
            Key::Name => " name=\"",
            Key::Names => " names=\"",
            Key::OwnName => " own_name=\"",
            Key::Prefix => " prefix=\"",
            Key::Rawsource => " rawsource=\"",
            Key::Refid => " refid=\"",
            Key::Refname => " refname=\"",
            Key::Refuri => " refuri=\"",
            Key::Scale => " scale=\"",
            Key::Serial => " serial=\"",
            Key::Source => " source=\"",
            Key::Start => " start=\"",
            Key::Stub => " stub=\"",
            Key::Suffix => " suffix=\"",
            Key::TextMessages => " text_messages=\"",
            Key::Title => " title=\"",
            Key::Type_ => " type=\"",
            Key::Uri => " uri=\"",
            Key::Width => " width=\"",
            Key::XmlSpace => " xml:space=\"",
        }
    }

    /// The place of the name in the order of the names, from 0.
    pub fn code(self) -> u8
        ensures { result ≡ key_code self }
    {
        self as u8
    }

    /// Whether the attribute serves the transforms alone, and isn't printed.
    pub fn is_hidden(self) -> bool
        ensures { result ≡ is_hidden self }
    {
        matches!(
            self,
            Key::Inline
                | Key::Mark
                | Key::Message
                | Key::OwnName
                | Key::Rawsource
                | Key::Refname
                | Key::Serial
                | Key::TextMessages
        )
    }

    /// Whether an empty list of this name isn't printed.
    pub fn hides_empty(self) -> bool
        ensures { result ≡ hides_empty self }
    {
        matches!(
            self,
            Key::Ids | Key::Classes | Key::Names | Key::Dupnames | Key::Backrefs
        )
    }
}
