//! Worked examples of printed trees and messages, as theorems on the definitions alone: the prover computes what is printed of a tree that is
//! written out.
#![tactic(auto, unfolding(crate::proofs::Computing::rst_tree))]

ghost use Rattle.std.specs.Prelude.{◌≡◌, Some, None, codes, map, [], ◌∷◌};
ghost use Rattle.std.specs.List.{flat_map};
ghost use Rattle.rst_text.specs.Written.{written};
ghost use Rattle.rst_tree.specs.Attributes.{attr};
ghost use Rattle.rst_tree.specs.Forest.{bare, element, words};
ghost use Rattle.rst_tree.specs.KeyNames.{key_name};
ghost use Rattle.rst_tree.specs.LevelNames.{level_name};
ghost use Rattle.rst_tree.specs.Message.{message_of};
ghost use Rattle.rst_tree.specs.Messages.{note_node};
ghost use Rattle.rst_tree.specs.Phrases.{phrase_text};
ghost use Rattle.rst_tree.specs.Print.{print_of, attribute_text};
ghost use Rattle.rst_tree.specs.PrintedAttributes.{with_printed_attrs};
ghost use Rattle.rst_tree.specs.TagNames.{tag_name};
ghost use Rattle.rst_tree.specs.declared.attrs.Value.TheVariants.{Text, Number, List as Listed};
ghost use Rattle.rst_tree.specs.declared.key.Key.TheVariants as key;
ghost use Rattle.rst_tree.specs.declared.node.Node.TheVariants.{Element};
ghost use Rattle.rst_tree.specs.declared.note.Level.TheVariants as level;
ghost use Rattle.rst_tree.specs.declared.phrase.Phrase.TheVariants as phrase;
ghost use Rattle.rst_tree.specs.declared.tag.Tag.TheVariants as tag;

/// Elements and texts (Document Tree, 'Element Reference').
pub fn trees()
    ensures nested { print_of (Element tag.Document [] (element tag.Paragraph [] (words (codes "a") bare) 1 (words (codes "b") bare)) 1)
        ≡ written ("<document>" ∷ "    <paragraph>" ∷ "        a" ∷ "    b" ∷ []) }
    ensures lines { print_of (Element tag.Paragraph [] (words (codes "a\n\nb\n") bare) 1)
        ≡ written ("<paragraph>" ∷ "    a" ∷ "    " ∷ "    b" ∷ []) }
    ensures empty_text { print_of (Element tag.Paragraph [] (words [] bare) 1) ≡ written ("<paragraph>" ∷ []) }
    ensures two_texts { print_of (Element tag.Paragraph [] (words (codes "a") (words (codes "b") bare)) 1)
        ≡ written ("<paragraph>" ∷ "    a" ∷ "    b" ∷ []) }
{}

/// Attributes (Document Tree, 'Attribute Reference').
pub fn attributes()
    ensures text { attribute_text (attr key.Name (Text (codes "a\"<&>\\ b"))) ≡ codes " name=\"a\"<&>\\ b\"" }
    ensures empty_text { attribute_text (attr key.Alt (Text [])) ≡ codes " alt=\"\"" }
    ensures number { attribute_text (attr key.Cols (Number 12)) ≡ codes " cols=\"12\"" }
    ensures list { attribute_text (attr key.Names (Listed (codes "a b" ∷ codes "c\\d" ∷ []))) ≡ codes " names=\"a\\ b c\\\\d\"" }
    ensures empty_lists { flat_map (λ k. attribute_text (attr k (Listed []))) (key.Backrefs ∷ key.Classes ∷ key.Dupnames ∷ key.Ids ∷ key.Names ∷ [])
        ≡ [] }
    ensures hidden { flat_map (λ k. attribute_text (attr k (Number 1))) (key.Inline ∷ key.Message ∷ key.OwnName ∷ key.Rawsource ∷ key.Refname ∷ []) ≡ [] }
{}

/// Names of elements and attributes (Document Tree, 'Element Reference').
pub fn names()
    ensures elements_to_label { map tag_name
        (tag.Abbreviation ∷ tag.Acronym ∷ tag.Address ∷ tag.Admonition ∷ tag.Attention ∷ tag.Attribution ∷ tag.Author ∷ tag.Authors ∷ tag.BlockQuote ∷ tag.BulletList
        ∷ tag.Caption ∷ tag.Caution ∷ tag.Citation ∷ tag.CitationReference ∷ tag.Class ∷ tag.Classifier ∷ tag.Colspec ∷ tag.Comment ∷ tag.Compound
        ∷ tag.Contact ∷ tag.Container ∷ tag.Contents ∷ tag.Copyright ∷ tag.Danger ∷ tag.Date ∷ tag.Definition ∷ tag.DefinitionList ∷ tag.DefinitionListItem ∷ tag.Description ∷ tag.Docinfo
        ∷ tag.DoctestBlock ∷ tag.Document ∷ tag.Emphasis ∷ tag.Entry ∷ tag.EnumeratedList ∷ tag.Error ∷ tag.Field ∷ tag.FieldBody ∷ tag.FieldList
        ∷ tag.FieldName ∷ tag.Figure ∷ tag.Footnote ∷ tag.FootnoteReference ∷ tag.Handed ∷ tag.Hint ∷ tag.Image ∷ tag.Important ∷ tag.Label ∷ [])
        ≡ codes "abbreviation" ∷ codes "acronym" ∷ codes "address" ∷ codes "admonition" ∷ codes "attention" ∷ codes "attribution" ∷ codes "author" ∷ codes "authors" ∷ codes "block_quote"
        ∷ codes "bullet_list" ∷ codes "caption" ∷ codes "caution" ∷ codes "citation" ∷ codes "citation_reference" ∷ codes "class" ∷ codes "classifier"
        ∷ codes "colspec" ∷ codes "comment" ∷ codes "compound" ∷ codes "contact" ∷ codes "container" ∷ codes "contents" ∷ codes "copyright" ∷ codes "danger" ∷ codes "date" ∷ codes "definition"
        ∷ codes "definition_list" ∷ codes "definition_list_item" ∷ codes "description" ∷ codes "docinfo" ∷ codes "doctest_block"
        ∷ codes "document" ∷ codes "emphasis" ∷ codes "entry" ∷ codes "enumerated_list" ∷ codes "error" ∷ codes "field" ∷ codes "field_body"
        ∷ codes "field_list" ∷ codes "field_name" ∷ codes "figure" ∷ codes "footnote" ∷ codes "footnote_reference" ∷ codes "handed" ∷ codes "hint" ∷ codes "image"
        ∷ codes "important" ∷ codes "label" ∷ [] }
    ensures elements_from_legend { map tag_name
        (tag.Legend ∷ tag.Line ∷ tag.LineBlock ∷ tag.ListItem ∷ tag.Literal ∷ tag.LiteralBlock ∷ tag.Math ∷ tag.MathBlock ∷ tag.Note
        ∷ tag.Option ∷ tag.OptionArgument ∷ tag.OptionGroup ∷ tag.OptionList ∷ tag.OptionListItem ∷ tag.OptionString ∷ tag.Organization ∷ tag.Paragraph
        ∷ tag.Problematic ∷ tag.Raw ∷ tag.Reference ∷ tag.Revision ∷ tag.Row ∷ tag.Rubric ∷ tag.Section ∷ tag.Sidebar ∷ tag.Status ∷ tag.Strong
        ∷ tag.Subscript ∷ tag.SubstitutionDefinition ∷ tag.SubstitutionReference ∷ tag.Subtitle ∷ tag.Superscript ∷ tag.SystemMessage ∷ tag.Table ∷ tag.Target
        ∷ tag.Tbody ∷ tag.Term ∷ tag.Tgroup ∷ tag.Thead ∷ tag.Tip ∷ tag.Title ∷ tag.TitleReference ∷ tag.Topic ∷ tag.Transition ∷ tag.Version
        ∷ tag.Warning ∷ [])
        ≡ codes "legend" ∷ codes "line" ∷ codes "line_block" ∷ codes "list_item" ∷ codes "literal" ∷ codes "literal_block" ∷ codes "math" ∷ codes "math_block" ∷ codes "note"
        ∷ codes "option" ∷ codes "option_argument" ∷ codes "option_group" ∷ codes "option_list" ∷ codes "option_list_item" ∷ codes "option_string"
        ∷ codes "organization" ∷ codes "paragraph" ∷ codes "problematic" ∷ codes "raw" ∷ codes "reference" ∷ codes "revision" ∷ codes "row"
        ∷ codes "rubric" ∷ codes "section" ∷ codes "sidebar" ∷ codes "status" ∷ codes "strong" ∷ codes "subscript" ∷ codes "substitution_definition" ∷ codes "substitution_reference"
        ∷ codes "subtitle" ∷ codes "superscript" ∷ codes "system_message" ∷ codes "table" ∷ codes "target" ∷ codes "tbody" ∷ codes "term"
        ∷ codes "tgroup" ∷ codes "thead" ∷ codes "tip" ∷ codes "title" ∷ codes "title_reference" ∷ codes "topic" ∷ codes "transition"
        ∷ codes "version" ∷ codes "warning" ∷ [] }
    ensures attributes { map key_name
        (key.Align ∷ key.Alt ∷ key.Anonymous ∷ key.Auto ∷ key.Backrefs ∷ key.Bullet ∷ key.Classes ∷ key.Cols ∷ key.Colwidth
        ∷ key.Delimiter ∷ key.Dupnames ∷ key.Enumtype ∷ key.Format ∷ key.Height ∷ key.Ids ∷ key.Kind ∷ key.Level ∷ key.Line ∷ key.Morecols ∷ key.Morerows ∷ key.Name
        ∷ key.Names ∷ key.Prefix ∷ key.Refid ∷ key.Refuri ∷ key.Scale ∷ key.Source ∷ key.Start ∷ key.Stub ∷ key.Suffix ∷ key.Title ∷ key.Type_ ∷ key.Uri
        ∷ key.Width ∷ key.XmlSpace ∷ [])
        ≡ codes "align" ∷ codes "alt" ∷ codes "anonymous" ∷ codes "auto" ∷ codes "backrefs" ∷ codes "bullet" ∷ codes "classes" ∷ codes "cols"
        ∷ codes "colwidth" ∷ codes "delimiter" ∷ codes "dupnames" ∷ codes "enumtype" ∷ codes "format" ∷ codes "height" ∷ codes "ids" ∷ codes "kind" ∷ codes "level" ∷ codes "line"
        ∷ codes "morecols" ∷ codes "morerows" ∷ codes "name" ∷ codes "names" ∷ codes "prefix" ∷ codes "refid" ∷ codes "refuri" ∷ codes "scale"
        ∷ codes "source" ∷ codes "start" ∷ codes "stub" ∷ codes "suffix" ∷ codes "title" ∷ codes "type" ∷ codes "uri" ∷ codes "width" ∷ codes "xml:space" ∷ [] }
{}

/// Messages (Document Tree, 'Element Reference').
pub fn messages()
    ensures levels { map level_name (level.Info ∷ level.Warning ∷ level.Error ∷ level.Severe ∷ [])
        ≡ codes "INFO" ∷ codes "WARNING" ∷ codes "ERROR" ∷ codes "SEVERE" ∷ [] }
    ensures line { message_of (codes "<stdin>") (record { level = level.Warning; line = 12; text = codes "a\nb"; block = None })
        ≡ codes "<stdin>:12: (WARNING/2) a\nb\n" }
    ensures line_with_its_source { message_of
        (codes "<stdin>") (record { level = level.Severe; line = 2; text = codes "a"; block = Some (codes "x\ny") })
        ≡ codes "<stdin>:2: (SEVERE/4) a\n\nx\ny\n" }
    ensures element { print_of
        (with_printed_attrs (Some (codes "s")) (note_node (record { level = level.Error; line = 3; text = codes "a"; block = Some (codes "b") })))
        ≡ written ("<system_message level=\"3\" line=\"3\" source=\"s\" type=\"ERROR\">" ∷ "    <paragraph>" ∷ "        a"
        ∷ "    <literal_block xml:space=\"preserve\">" ∷ "        b" ∷ []) }
    ensures ids { print_of (with_printed_attrs (Some (codes "s")) (Element tag.SystemMessage
        (attr key.Backrefs (Listed (codes "p" ∷ [])) ∷ attr key.Ids (Listed (codes "m" ∷ [])) ∷ attr key.Level (Number 1) ∷ []) bare 5))
        ≡ codes "<system_message backrefs=\"p\" ids=\"m\" level=\"1\" line=\"5\" source=\"s\" type=\"INFO\">\n" }
    ensures document { print_of (with_printed_attrs (Some (codes "<stdin>"))
        (Element tag.Document (attr key.Ids (Listed (codes "a" ∷ [])) ∷ attr key.Title (Text (codes "A")) ∷ []) bare 0))
        ≡ codes "<document ids=\"a\" source=\"<stdin>\" title=\"A\">\n" }
    ensures unended { map phrase_text (phrase.UnendedStrong ∷ phrase.UnendedTarget ∷ phrase.UnendedSubstitution ∷ phrase.UnendedInterpreted ∷ [])
        ≡ codes "Inline strong start-string without end-string."
        ∷ codes "Inline target start-string without end-string."
        ∷ codes "Inline substitution_reference start-string without end-string."
        ∷ codes "Inline interpreted text or phrase reference start-string without end-string."
        ∷ [] }
{}
