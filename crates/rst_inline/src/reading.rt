//! What pieces mean.
ghost use Rattle.std.specs.Prelude.{◌<◌, ◌≤◌, ◌+◌, ◌≡◌, ◌++◌, [], true, length, IfOk, chars};
ghost use Rattle.std.specs.Cow.{cow_str_bytes};
ghost use Rattle.rst_text.specs.Characters.{without_white};
ghost use Rattle.rst_text.specs.Escapes.{unescaped};
ghost use Rattle.rst_inline_scan.specs.Pieces.{IsWithin};
ghost use Rattle.rst_tree.specs.Attributes.{are_keys_in_order};
ghost use Rattle.rst_tree.specs.declared.note.Level.TheVariants.{Error};
ghost use Rattle.rst_tree.specs.declared.tag.Tag.TheVariants.{Target};
ghost use Rattle.rst_inline.specs.declared.reading.Meaning.TheVariants.{One, Wrong};
ghost use Rattle.rst_inline.specs.Elements.{text_element, reference_node, inline_target_node, label_reference_node, substituted_node, link_node, uri_node, address_node, code_node};
ghost use Rattle.rst_inline.specs.Embedded.{meant, phrase_display_text};
ghost use Rattle.rst_inline.specs.Parts.{part, source, content};
ghost use Rattle.rst_inline.specs.Readings.{handed_role, leaving, plain_meaning, plain_reading, embedded_reading, phrase_reading, role_reading, has_prefix_role, interpreted_reading, reading};

use super::elements::{element, handed};
use super::embedded::{dark_end, embedded_at, is_alias};
use super::labels::{are_digits, numbered_footnote};
use super::mail::{mailto, uri_of_address};
use super::references::{embedded_reference, named_attrs, outer_reference, reference};
use super::roles::Role;
use super::texts::{name_value, normalized_value, part, spell, text_value};
use super::written::Written;
use rst_inline_scan::{Kind, Markup, Piece, Suffix};
use rst_text::{is_white, unescaped, without_white};
use rst_tree::{Children, Entry, Key, Level, Node, Phrase, Result, Tag, Text, Texts, Value};
use std::alloc::{AllocError, Global};
use std::borrow::CowStr;

/// What a piece means: no node, one or two, or that it is wrong, with the message for that.
#[derive(Drop)]
pub(crate) enum Meaning {
    Nothing,
    One(Node),
    Two(Children),
    Wrong(Level, Text),
}

/// A role that gives an error, whose text is three, one after the other.
fn wrong_role(alloc: Global, beginning: &str, name: &str, back: &str) -> Result<Meaning>
    ensures { IfOk result (λ reading. reading ≡ Wrong Error (beginning.now ++ (name.now ++ back.now))) }
{
    let text = Text::of_three(alloc, beginning, name, back)?;
    Ok(Meaning::Wrong(Level::Error, text))
}

impl Written<'_> {
    /// Plain text without its escapes, if something is left of it.
    #[tactic(auto, using(crate::proofs::TextLemmas::spelled_again, crate::proofs::TextLemmas::some_plain, crate::proofs::TextLemmas::no_plain))]
    #[inline(always)]
    pub(crate) fn plain(&self, piece: Piece) -> Result<Option<Text>>
        ensures { IfOk result (λ text. plain_meaning text ≡ plain_reading (unescaped (source self.now.characters.items piece))) }
    {
        let display_text = self.unescaped(piece.from, piece.to)?;
        let display_text = display_text.as_str();
        if display_text.is_empty() {
            return Ok(None);
        }
        let text = Text::from_str(self.alloc, display_text)?;
        Ok(Some(text))
    }

    /// An element that holds what the markup of a piece encloses, without its escapes.
    #[inline(never)]
    fn text_element_of(&self, tag: Tag, piece: Piece) -> Result<Meaning>
        ensures { IfOk result (λ reading. reading ≡ One (text_element tag [] (unescaped (content self.now.characters.items piece)) self.now.line)) }
    {
        let display_text = self.unescaped(piece.content_from, piece.content_to)?;
        let attrs = Vec::new(self.alloc);
        let node = element(self.alloc, tag, attrs, display_text.as_str(), self.line)?;
        Ok(Meaning::One(node))
    }

    /// An element that holds what the markup of a piece encloses as it is written.
    #[inline(never)]
    fn literal(&self, tag: Tag, attrs: Vec<Entry>, piece: Piece) -> Result<Meaning>
        requires { are_keys_in_order attrs.items ≡ true }
        ensures { IfOk result (λ reading. reading ≡ One (text_element tag attrs.items (content self.now.characters.items piece) self.now.line)) }
    {
        let display_text = self.part(piece.content_from, piece.content_to);
        let node = element(self.alloc, tag, attrs, display_text, self.line)?;
        Ok(Meaning::One(node))
    }

    /// Program code.
    fn code(&self, piece: Piece) -> Result<Meaning>
        ensures { IfOk result (λ reading. reading ≡ One (code_node (content self.now.characters.items piece) self.now.line)) }
    {
        let class = Text::from_str(self.alloc, "code")?;
        let classes = Value::List(Texts::lone(self.alloc, class));
        let attrs = vec![in self.alloc; Entry::new(Key::Classes, classes)]?;
        self.literal(Tag::Literal, attrs, piece)
    }

    #[inline(never)]
    fn inline_target(&self, piece: Piece) -> Result<Meaning>
        ensures { IfOk result (λ reading. reading ≡ One (inline_target_node (unescaped (content self.now.characters.items piece)) self.now.line)) }
    {
        let display_text = self.unescaped(piece.content_from, piece.content_to)?;
        let display_text = display_text.as_str();
        let attrs = vec![in self.alloc;
            Entry::new(Key::Inline, Value::Number(1)),
            Entry::new(Key::OwnName, name_value(self.alloc, display_text)?),
        ]?;
        let node = element(self.alloc, Tag::Target, attrs, display_text, self.line)?;
        Ok(Meaning::One(node))
    }

    #[inline(never)]
    fn substituted(&self, suffix: Suffix, piece: Piece) -> Result<Meaning>
        requires { IsWithin self.now.characters.items piece }
        ensures { IfOk result (λ reading. reading ≡ One (substituted_node suffix (part self.now.characters.items piece.from (piece.content_to + 1)) (source self.now.characters.items piece) (unescaped (content self.now.characters.items piece)) self.now.line)) }
    {
        let display_text = self.unescaped(piece.content_from, piece.content_to)?;
        let display_text = display_text.as_str();
        let inner = self.part(piece.from, piece.content_to + 1);
        let written = text_value(self.alloc, inner)?;
        let name = normalized_value(self.alloc, display_text)?;
        let attrs = vec![in self.alloc;
            Entry::new(Key::Rawsource, written),
            Entry::new(Key::Refname, name),
        ]?;
        let tag = Tag::SubstitutionReference;
        let node = element(self.alloc, tag, attrs, display_text, self.line)?;
        let node = match suffix {
            Suffix::Bare => node,
            _ => {
                let outer = self.part(piece.from, piece.to);
                outer_reference(self.alloc, suffix, outer, display_text, node, self.line)?
            }
        };
        Ok(Meaning::One(node))
    }

    /// What is written between two places, without escapes and white.
    #[inline(always)]
    fn dark(&self, low: usize, high: usize) -> Result<CowStr<'_, Global>, AllocError>
        ensures { IfOk result (λ dark. chars (cow_str_bytes dark) ≡ without_white (unescaped (part self.now.characters.items low high))) }
    {
        let written = part(&self.characters, low, high);
        if !written.iter().any(|c| is_white(*c)) {
            return self.unescaped(low, high);
        }
        let plain = unescaped(self.alloc, written)?;
        let dark = without_white(self.alloc, &plain)?;
        Ok(CowStr::Owned(spell(self.alloc, &dark)?))
    }

    /// What an embedded URI or alias between two places refers to.
    fn meant(&self, low: usize, high: usize) -> Result<CowStr<'_, Global>, AllocError>
        requires { high ≤ length self.now.characters.items }
        ensures { IfOk result (λ meaning. chars (cow_str_bytes meaning) ≡ meant self.now.parts.now.mail (part self.now.characters.items low high)) }
    {
        let enclosed = part(&self.characters, low, high);
        if is_alias(enclosed) {
            return self.unescaped(low, high - 1);
        }
        let uri = self.dark(low, high)?;
        if self.parts.mail {
            if let Some(uri) = mailto(self.alloc, uri.as_str())? {
                return Ok(CowStr::Owned(uri));
            }
        }
        Ok(uri)
    }

    /// What is displayed of a phrase whose angle brackets begin at a place.
    fn phrase_display_text(
        &self,
        piece: Piece,
        phrase: &[char],
        place: usize,
    ) -> Result<CowStr<'_, Global>, AllocError>
        requires within { IsWithin self.now.characters.items piece }
        requires phrase { phrase.now ≡ content self.now.characters.items piece }
        requires place { place + 2 < length phrase.now }
        ensures { IfOk result (λ display_text. chars (cow_str_bytes display_text) ≡ phrase_display_text self.now.parts.now.mail phrase.now place) }
    {
        if place == 0 {
            return self.meant(piece.content_from + 1, piece.content_to - 1);
        }
        let end = dark_end(phrase, place);
        self.unescaped(piece.content_from, piece.content_from + end)
    }

    /// A reference, and the target with these attributes that it leaves.
    #[tactic(auto, using(crate::proofs::TextLemmas::no_characters))]
    #[inline(always)]
    fn with_target(&self, reference: Node, attrs: Vec<Entry>) -> Result<Meaning>
        requires { are_keys_in_order attrs.items ≡ true }
        ensures { IfOk result (λ reading. reading ≡ leaving reference (text_element Target attrs.items [] self.now.line)) }
    {
        let target = element(self.alloc, Tag::Target, attrs, "", self.line)?;
        let nodes = vec![in self.alloc; reference, target]?;
        Ok(Meaning::Two(Children::of(nodes)))
    }

    /// A phrase with an embedded URI or alias.
    #[tactic(auto, using(crate::proofs::TextLemmas::no_characters))]
    fn embedded(
        &self,
        suffix: Suffix,
        source: &str,
        display_text: &str,
        meaning: &str,
        is_alias: bool,
    ) -> Result<Meaning>
        ensures { IfOk result (λ reading. reading ≡ embedded_reading self.now.parts.now.unmarked suffix (chars source.now) (chars display_text.now) (chars meaning.now) is_alias self.now.line) }
    {
        if is_alias {
            let own = normalized_value(self.alloc, display_text)?;
            let written = text_value(self.alloc, source)?;
            let refname = name_value(self.alloc, meaning)?;
            let attrs = named_attrs(self.alloc, own, written, refname)?;
            let node = element(self.alloc, Tag::Reference, attrs, display_text, self.line)?;
            return match suffix {
                Suffix::Named if self.parts.unmarked => {
                    let own_name = name_value(self.alloc, display_text)?;
                    let attrs = vec![in self.alloc;
                        Entry::new(Key::Inline, Value::Number(1)),
                        Entry::new(Key::OwnName, own_name),
                        Entry::new(Key::Refname, name_value(self.alloc, meaning)?),
                    ]?;
                    self.with_target(node, attrs)
                }
                _ => Ok(Meaning::One(node)),
            };
        }
        let node = embedded_reference(self.alloc, source, display_text, meaning, self.line)?;
        match suffix {
            Suffix::Named => {
                let name = name_value(self.alloc, display_text)?;
                let uri = text_value(self.alloc, meaning)?;
                let attrs = vec![in self.alloc;
                    Entry::new(Key::Inline, Value::Number(1)),
                    Entry::new(Key::OwnName, name),
                    Entry::new(Key::Refuri, uri),
                ]?;
                self.with_target(node, attrs)
            }
            _ => Ok(Meaning::One(node)),
        }
    }

    /// A phrase that is a reference.
    fn phrase(&self, suffix: Suffix, piece: Piece) -> Result<Meaning>
        requires { IsWithin self.now.characters.items piece }
        ensures { IfOk result (λ reading. reading ≡ phrase_reading self.now.parts.now suffix (source self.now.characters.items piece) (content self.now.characters.items piece) self.now.line) }
    {
        let source = self.part(piece.from, piece.to);
        let phrase = part(&self.characters, piece.content_from, piece.content_to);
        if let Some(place) = embedded_at(phrase) {
            let display_text = self.phrase_display_text(piece, phrase, place)?;
            let meaning = self.meant(piece.content_from + place + 1, piece.content_to - 1)?;
            let alias = is_alias(part(phrase, place + 1, phrase.len() - 1));
            return self.embedded(
                suffix,
                source,
                display_text.as_str(),
                meaning.as_str(),
                alias,
            );
        }
        let display_text = self.unescaped(piece.content_from, piece.content_to)?;
        let display_text = display_text.as_str();
        let node = reference(self.alloc, suffix, source, display_text, self.line)?;
        Ok(Meaning::One(node))
    }

    /// Interpreted text whose role is handed back.
    #[inline(never)]
    fn handed_role(&self, name: &str, piece: Piece) -> Result<Meaning>
        ensures { IfOk result (λ reading. reading ≡ handed_role name.now (source self.now.characters.items piece) self.now.line) }
    {
        let source = self.part(piece.from, piece.to);
        let node = handed(self.alloc, "role", name, source, self.line)?;
        Ok(Meaning::One(node))
    }

    /// Interpreted text with a role.
    #[tactic(auto, using(crate::proofs::TextLemmas::spelled_again))]
    fn with_role(&self, name: &str, piece: Piece) -> Result<Meaning>
        ensures { IfOk result (λ reading. let cs = self.now.characters.items in reading ≡ role_reading self.now.parts.now (chars name.now) (source cs piece) (content cs piece) self.now.line) }
    {
        if self.parts.hands_role(name) {
            return self.handed_role(name, piece);
        }
        match Role::named(self.parts.roles, name) {
            Some(Role::Element(tag)) => self.text_element_of(tag, piece),
            Some(Role::Pep) => self.pep(piece),
            Some(Role::Rfc) => self.rfc(piece),
            Some(Role::Math) => self.literal(Tag::Math, Vec::new(self.alloc), piece),
            Some(Role::Code) => self.code(piece),
            Some(Role::Raw) => wrong_role(
                self.alloc,
                "No format (Writer name) is associated with this role: \"",
                name,
                "\".\nThe \"raw\" role cannot be used directly.\nInstead, use the \"role\" directive to create a new role with an associated format.",
            ),
            Some(Role::Unimplemented) => wrong_role(
                self.alloc,
                "Interpreted text role \"",
                name,
                "\" not implemented.",
            ),
            None => wrong_role(self.alloc, "Unknown interpreted text role \"", name, "\"."),
        }
    }

    /// Interpreted text, or a phrase that is a reference.
    #[inline(never)]
    fn interpreted(&self, suffix: Suffix, piece: Piece) -> Result<Meaning>
        requires { IsWithin self.now.characters.items piece }
        ensures { IfOk result (λ reading. reading ≡ interpreted_reading self.now.parts.now (has_prefix_role piece) suffix self.now.characters.items piece self.now.line) }
    {
        // A role comes first.
        if piece.from + 1 < piece.content_from {
            let wrong = match suffix {
                Suffix::Bare => {
                    let role = self.part(piece.from + 1, piece.content_from - 2);
                    return self.with_role(role, piece);
                }
                Suffix::Role => {
                    "Multiple roles in interpreted text (both prefix and suffix present; only one allowed)."
                }
                Suffix::Named | Suffix::Anonymous => {
                    "Mismatch: both interpreted text role and reference suffix."
                }
            };
            let text = Text::from_str(self.alloc, wrong)?;
            return Ok(Meaning::Wrong(Level::Warning, text));
        }
        match suffix {
            // The role without a name is the default role.
            Suffix::Bare if self.parts.hands_role("") => self.handed_role("", piece),
            Suffix::Bare => self.text_element_of(Tag::TitleReference, piece),
            Suffix::Role => { self.with_role(self.part(piece.content_to + 2, piece.to - 1), piece) }
            Suffix::Named | Suffix::Anonymous => self.phrase(suffix, piece),
        }
    }

    /// A reference to a footnote or a citation.
    #[tactic(auto, using(crate::proofs::TextLemmas::chars_of_star, crate::proofs::TextLemmas::no_characters))]
    #[inline(never)]
    fn label(&self, piece: Piece) -> Result<Node>
        ensures { IfOk result (λ node. node ≡ label_reference_node (source self.now.characters.items piece) (content self.now.characters.items piece) self.now.line) }
    {
        let source = self.part(piece.from, piece.to);
        let label = part(&self.characters, piece.content_from, piece.content_to);
        match label {
            ['#', name @ ..] => numbered_footnote(self.alloc, source, name, self.line),
            // A footnote with a symbol.
            ['*', ..] => {
                let written = text_value(self.alloc, source)?;
                let auto = text_value(self.alloc, "*")?;
                let attrs = vec![in self.alloc;
                    Entry::new(Key::Auto, auto),
                    Entry::new(Key::Rawsource, written),
                ]?;
                element(self.alloc, Tag::FootnoteReference, attrs, "", self.line)
            }
            _ => {
                let written = text_value(self.alloc, source)?;
                let display_text = spell(self.alloc, label)?;
                let name = name_value(self.alloc, display_text.as_str())?;
                let attrs = vec![in self.alloc;
                    Entry::new(Key::Rawsource, written),
                    Entry::new(Key::Refname, name),
                ]?;
                let tag = if are_digits(label) {
                    Tag::FootnoteReference
                } else {
                    Tag::CitationReference
                };
                element(self.alloc, tag, attrs, display_text.as_str(), self.line)
            }
        }
    }

    /// A reference by a simple name.
    #[inline(never)]
    fn named(&self, suffix: Suffix, piece: Piece) -> Result<Meaning>
        ensures { IfOk result (λ reading. let display_text = content self.now.characters.items piece in reading ≡ One (reference_node suffix (source self.now.characters.items piece) display_text display_text self.now.line)) }
    {
        let source = self.part(piece.from, piece.to);
        let name = self.part(piece.content_from, piece.content_to);
        let node = reference(self.alloc, suffix, source, name, self.line)?;
        Ok(Meaning::One(node))
    }

    /// A reference to a URI that shows a text.
    #[inline(always)]
    pub(crate) fn link(&self, piece: Piece, uri: &str, display_text: &str) -> Result<Meaning>
        ensures { IfOk result (λ reading. reading ≡ One (link_node (source self.now.characters.items piece) (chars uri.now) (chars display_text.now) self.now.line)) }
    {
        let source = self.part(piece.from, piece.to);
        let attrs = vec![in self.alloc;
            Entry::new(Key::Rawsource, text_value(self.alloc, source)?),
            Entry::new(Key::Refuri, text_value(self.alloc, uri)?),
        ]?;
        let node = element(self.alloc, Tag::Reference, attrs, display_text, self.line)?;
        Ok(Meaning::One(node))
    }

    /// A standalone URI, without its escapes.
    #[inline(never)]
    fn uri(&self, piece: Piece) -> Result<Meaning>
        ensures { IfOk result (λ reading. let source = source self.now.characters.items piece in reading ≡ One (uri_node source (unescaped source) self.now.line)) }
    {
        let uri = self.unescaped(piece.from, piece.to)?;
        self.link(piece, uri.as_str(), uri.as_str())
    }

    /// An e-mail address.
    #[inline(never)]
    fn address(&self, piece: Piece) -> Result<Meaning>
        ensures { IfOk result (λ reading. let source = source self.now.characters.items piece in reading ≡ One (address_node source (unescaped source) self.now.line)) }
    {
        let address = self.unescaped(piece.from, piece.to)?;
        let uri = uri_of_address(self.alloc, address.as_str())?;
        self.link(piece, uri.as_str(), address.as_str())
    }

    /// What a piece of the text means.
    #[tactic(auto, unfolding(crate::specs::Readings::reading))]
    #[inline(always)]
    pub(crate) fn reading(&self, piece: Piece) -> Result<Meaning>
        requires { IsWithin self.now.characters.items piece }
        ensures { IfOk result (λ read. read ≡ reading self.now.parts.now self.now.characters.items self.now.line piece) }
    {
        match piece.kind {
            Kind::Plain => match self.plain(piece)? {
                Some(text) => Ok(Meaning::One(Node::Text(text))),
                None => Ok(Meaning::Nothing),
            },
            Kind::Marked(Markup::Strong, _) => self.text_element_of(Tag::Strong, piece),
            Kind::Marked(Markup::Emphasis, _) => self.text_element_of(Tag::Emphasis, piece),
            Kind::Marked(Markup::Literal, _) => {
                self.literal(Tag::Literal, Vec::new(self.alloc), piece)
            }
            Kind::Marked(Markup::Target, _) => self.inline_target(piece),
            Kind::Marked(Markup::Substitution, suffix) => self.substituted(suffix, piece),
            Kind::Marked(Markup::Interpreted, suffix) => self.interpreted(suffix, piece),
            Kind::Unended(markup) => {
                let phrase = match markup {
                    Markup::Strong => Phrase::UnendedStrong,
                    Markup::Emphasis => Phrase::UnendedEmphasis,
                    Markup::Literal => Phrase::UnendedLiteral,
                    Markup::Target => Phrase::UnendedTarget,
                    Markup::Substitution => Phrase::UnendedSubstitution,
                    Markup::Interpreted => Phrase::UnendedInterpreted,
                };
                Ok(Meaning::Wrong(Level::Warning, Text::of_phrase(self.alloc, phrase)))
            }
            Kind::Label => Ok(Meaning::One(self.label(piece)?)),
            Kind::Reference(suffix) => self.named(suffix, piece),
            Kind::Uri => self.uri(piece),
            Kind::Address => self.address(piece),
        }
    }
}
