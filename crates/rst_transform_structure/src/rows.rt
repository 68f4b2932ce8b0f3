//! Worked examples of classes by directives, titles, internal targets, transitions and the last section, as theorems on the definitions alone.
#![tactic(auto, unfolding(crate::proofs::Computing::rst_transform_structure))]

ghost use Rattle.std.specs.Prelude.{◌≡◌, ◌++◌, true, false, Some, None, codes, [], ◌∷◌, map};
ghost use Rattle.rst_settings.specs.declared.Threshold.TheVariants.{Error as AtErrors, Severe as AtSevere};
ghost use Rattle.rst_tree.specs.declared.key.Key.TheVariants.{Anonymous, Classes, Dupnames, Ids, Inline, Names, Refid, Refname, Refuri, Serial, Title as IsTitle};
ghost use Rattle.rst_tree.specs.declared.node.Node.TheVariants.{Element};
ghost use Rattle.rst_tree.specs.declared.note.Level.TheVariants.{Error, Warning};
ghost use Rattle.rst_tree.specs.declared.tag.Tag.TheVariants.{BlockQuote, BulletList, Citation, Comment, Contents, Footnote, Image, ListItem, Paragraph, Section, SubstitutionDefinition, Subtitle, SystemMessage, Target, Title, Transition};
ghost use Rattle.rst_tree.specs.Forest.{bare};
ghost use Rattle.rst_transform_names.specs.declared.names.Holder.TheVariants.{Element as By, Unregistered};
ghost use Rattle.rst_transform_names.specs.Trees.{counts, element, lists, paragraph, says, text};
ghost use Rattle.rst_transform_work.specs.Problematics.{referring_report};
ghost use Rattle.rst_transform_work.specs.Reports.{next_report};
ghost use Rattle.rst_transform_work.specs.Written.{plain_document, Shows};
ghost use Rattle.rst_transform_structure.specs.Classes.{with_classes};
ghost use Rattle.rst_transform_structure.specs.LastSection.{with_last_section};
ghost use Rattle.rst_transform_structure.specs.Passing.{passed, paired_with_number};
ghost use Rattle.rst_transform_structure.specs.Targets.{with_targets};
ghost use Rattle.rst_transform_structure.specs.Title.{titled, with_title};
ghost use Rattle.rst_transform_structure.specs.Transitions.{with_transitions};
ghost use Rattle.rst_transform_structure.specs.Written.{class_place, entry_for, known_from};

/// Directives give their words to the elements after them (Directives, 'Class').
pub fn classes()
    ensures to_a_paragraph { with_classes true (plain_document (class_place ("a" ∷ "b" ∷ []) ∷ element Paragraph (lists Classes ("c" ∷ []) ∷ []) [] ∷ []))
        ≡ plain_document (element Paragraph (lists Classes ("c" ∷ "a" ∷ "b" ∷ []) ∷ []) [] ∷ []) }
    ensures two_in_a_row { with_classes true (plain_document (class_place ("a" ∷ []) ∷ class_place ("b" ∷ []) ∷ paragraph "c" ∷ paragraph "d" ∷ []))
        ≡ plain_document (element Paragraph (lists Classes ("a" ∷ "b" ∷ []) ∷ []) (text "c" ∷ []) ∷ paragraph "d" ∷ []) }
    ensures passed_over { with_classes true (plain_document (class_place ("a" ∷ []) ∷ element Comment [] [] ∷ element Target [] []
        ∷ element SubstitutionDefinition [] (element Image [] [] ∷ []) ∷ element SystemMessage [] (paragraph "m" ∷ []) ∷ element Contents [] []
        ∷ element BulletList [] (element ListItem [] [] ∷ []) ∷ []))
        ≡ plain_document (element Comment [] [] ∷ element Target [] [] ∷ element SubstitutionDefinition [] (element Image [] [] ∷ [])
        ∷ element SystemMessage [] (paragraph "m" ∷ []) ∷ element Contents [] [] ∷ element BulletList (lists Classes ("a" ∷ [])
        ∷ []) (element ListItem [] [] ∷ []) ∷ []) }
    ensures to_the_next_section { with_classes true (plain_document (element Section [] (element Title [] [] ∷ class_place ("a" ∷ []) ∷ element Comment [] [] ∷ [])
        ∷ element Section [] (element Title [] [] ∷ []) ∷ []))
        ≡ plain_document (element Section [] (element Title [] [] ∷ element Comment [] [] ∷ []) ∷ element Section (lists Classes ("a"
        ∷ []) ∷ []) (element Title [] [] ∷ []) ∷ []) }
    ensures out_of_two_lists { with_classes true (plain_document (element BulletList [] (element ListItem [] (element BulletList [] (element ListItem [] (class_place ("a"
        ∷ []) ∷ []) ∷ []) ∷ class_place ("b" ∷ []) ∷ []) ∷ []) ∷ class_place ("c" ∷ []) ∷ paragraph "d" ∷ []))
        ≡ plain_document (element BulletList [] (element ListItem [] (element BulletList [] (element ListItem [] [] ∷ []) ∷ []) ∷ [])
        ∷ element Paragraph (lists Classes ("a" ∷ "b" ∷ "c" ∷ []) ∷ []) (text "d" ∷ []) ∷ []) }
    ensures to_the_next_item { with_classes true (plain_document (element BulletList [] (element ListItem [] (class_place ("a" ∷ []) ∷ [])
        ∷ element ListItem [] (paragraph "b" ∷ []) ∷ []) ∷ []))
        ≡ plain_document (element BulletList [] (element ListItem [] [] ∷ element ListItem (lists Classes ("a" ∷ []) ∷ []) (paragraph "b" ∷ []) ∷ []) ∷ []) }
    ensures nothing_follows { Shows (with_classes true (plain_document (paragraph "a" ∷ class_place ("b" ∷ []) ∷ element Comment [] [] ∷ [])))
        ("<document>" ∷ "    <paragraph>" ∷ "        a" ∷ "    <system_message level=\"3\" line=\"1\" type=\"ERROR\">" ∷ "        <paragraph>"
        ∷ "            No suitable element following \"class\" directive" ∷ "        <literal_block xml:space=\"preserve\">"
        ∷ "            .. class:: a" ∷ "    <comment>" ∷ []) }
    ensures nothing_follows_a_list { Shows (with_classes true (plain_document (paragraph "a" ∷ element BulletList [] (element ListItem [] (class_place ("b"
        ∷ []) ∷ []) ∷ []) ∷ [])))
        ("<document>" ∷ "    <paragraph>" ∷ "        a" ∷ "    <bullet_list>" ∷ "        <list_item>"
        ∷ "            <system_message level=\"3\" line=\"1\" type=\"ERROR\">" ∷ "                <paragraph>"
        ∷ "                    No suitable element following \"class\" directive" ∷ "                <literal_block xml:space=\"preserve\">"
        ∷ "                    .. class:: a" ∷ []) }
    ensures of_a_title { (with_title (plain_document (element Section (lists Classes ("a" ∷ []) ∷ []) (element Title [] []
        ∷ element Section (lists Classes ("b" ∷ []) ∷ []) (element Title [] [] ∷ []) ∷ []) ∷ [])) (known_from 0 [])).0
        ≡ record (plain_document (element Title [] [] ∷ element Subtitle (lists Classes ("b" ∷ []) ∷ []) [] ∷ [])) {
          attrs = lists Classes ("a" ∷ [])
              ∷ says IsTitle "" ∷ [];
        } }
{}

/// A lone section's title becomes the document's, and that of a lone subsection the subtitle (Markup Specification, 'Document Title').
pub fn titles()
    ensures title { Shows (with_title (plain_document (element Section (lists Ids ("a" ∷ []) ∷ lists Names ("a" ∷ []) ∷ []) (element Title [] (text "A"
        ∷ []) ∷ paragraph "b" ∷ []) ∷ [])) (known_from 0 [])).0
        ("<document ids=\"a\" names=\"a\" title=\"A\">" ∷ "    <title>" ∷ "        A" ∷ "    <paragraph>" ∷ "        b" ∷ []) }
    ensures subtitle { Shows (with_title (plain_document (element Section (lists Ids ("a" ∷ []) ∷ []) (element Title [] (text "A" ∷ [])
        ∷ element Section (lists Dupnames ("b" ∷ []) ∷ lists Ids ("b" ∷ []) ∷ []) (element Title [] (text "B" ∷ []) ∷ paragraph "c" ∷ []) ∷ [])
        ∷ [])) (known_from 0 [])).0
        ("<document ids=\"a\" title=\"A\">" ∷ "    <title>" ∷ "        A" ∷ "    <subtitle dupnames=\"b\" ids=\"b\">" ∷ "        B"
        ∷ "    <paragraph>" ∷ "        c" ∷ []) }
    ensures no_third { Shows (titled (plain_document (element Section [] (element Title [] [] ∷ element Section [] (element Title [] []
        ∷ element Section [] (element Title [] [] ∷ []) ∷ []) ∷ []) ∷ [])))
        ("<document title=\"\">" ∷ "    <title>" ∷ "    <subtitle>" ∷ "    <section>" ∷ "        <title>" ∷ []) }
    ensures after_a_comment { Shows (titled (plain_document (element Comment [] [] ∷ element Section [] (element Title [] (text "A" ∷ [])
        ∷ paragraph "b" ∷ []) ∷ [])))
        ("<document title=\"A\">" ∷ "    <title>" ∷ "        A" ∷ "    <comment>" ∷ "    <paragraph>" ∷ "        b" ∷ []) }
    ensures subtitle_after_a_message { Shows (titled (plain_document (element Section [] (element Title [] [] ∷ element SystemMessage [] []
        ∷ element Section [] (element Title [] [] ∷ []) ∷ []) ∷ [])))
        ("<document title=\"\">" ∷ "    <title>" ∷ "    <subtitle>" ∷ "    <system_message line=\"1\">" ∷ []) }
    ensures after_a_paragraph { Shows (titled (plain_document (paragraph "a" ∷ element Section [] (element Title [] [] ∷ []) ∷ [])))
        ("<document>" ∷ "    <paragraph>" ∷ "        a" ∷ "    <section>" ∷ "        <title>" ∷ []) }
    ensures two_sections { Shows (with_title (plain_document (element Section [] (element Title [] [] ∷ []) ∷ element Section [] (element Title [] [] ∷ [])
        ∷ [])) (known_from 0 [])).0
        ("<document>" ∷ "    <section>" ∷ "        <title>" ∷ "    <section>" ∷ "        <title>" ∷ []) }
    ensures comment_after_it { Shows (titled (plain_document (element Section [] (element Title [] [] ∷ []) ∷ element Comment [] [] ∷ [])))
        ("<document>" ∷ "    <section>" ∷ "        <title>" ∷ "    <comment>" ∷ []) }
    ensures names { map (with_title (plain_document (element Section (lists Names ("a" ∷ []) ∷ []) (element Title [] []
        ∷ element Section (lists Names ("b" ∷ []) ∷ []) (element Title [] [] ∷ []) ∷ []) ∷ [])) (known_from 0 [])).1.names (codes "a" ∷ codes "b"
        ∷ codes "c" ∷ [])
        ≡ entry_for Unregistered ∷ entry_for Unregistered ∷ entry_for (By 0) ∷ [] }
{}

/// Names that pass to another element; of names that aren't known none becomes known (Markup Specification, 'Hyperlink Targets').
pub fn passed_names()
    ensures known { passed (paired_with_number (Some 3) (codes "a" ∷ codes "b" ∷ [])) (λ name. entry_for (By 0)) (codes "b") ≡ entry_for (By 3) }
    ensures another { passed (paired_with_number (Some 3) (codes "a" ∷ [])) (λ name. entry_for (By 0)) (codes "b") ≡ entry_for (By 0) }
    ensures unknown { passed (paired_with_number (Some 3) (codes "a" ∷ [])) (λ name. None) (codes "a") ≡ None }
    ensures last { passed (paired_with_number (Some 3) (codes "a" ∷ []) ++ paired_with_number None (codes "a" ∷ [])) (λ name. entry_for (By 0)) (codes "a") ≡ entry_for Unregistered }
    ensures through_targets { map (with_targets false (plain_document (element Target (counts Serial 0 ∷ lists Names ("a" ∷ []) ∷ []) []
        ∷ element Target (counts Serial 1 ∷ []) [] ∷ element Section (counts Serial 2 ∷ []) [] ∷ [])) (known_from 0 [])).1.names (codes "a" ∷ codes "b" ∷ [])
        ≡ entry_for (By 2) ∷ entry_for (By 0) ∷ [] }
{}

/// Internal targets hand their ids and names to the element after them (Markup Specification, 'Hyperlink Targets').
pub fn targets()
    ensures to_a_paragraph { (with_targets false (plain_document (element Target (lists Ids ("a" ∷ []) ∷ lists Names ("a" ∷ []) ∷ []) []
        ∷ paragraph "b" ∷ [])) (known_from 0 [])).0
        ≡ plain_document (element Target (says Refid "a" ∷ []) [] ∷ element Paragraph (lists Ids ("a" ∷ []) ∷ lists Names ("a" ∷ []) ∷ []) (text "b" ∷ [])
        ∷ []) }
    ensures two_in_a_row { (with_targets false (plain_document (element Target (lists Ids ("a" ∷ []) ∷ []) [] ∷ element Target (lists Ids ("b" ∷ [])
        ∷ []) [] ∷ element Paragraph (lists Ids ("c" ∷ []) ∷ []) [] ∷ [])) (known_from 0 [])).0
        ≡ plain_document (element Target (says Refid "a" ∷ []) [] ∷ element Target (says Refid "b" ∷ []) []
        ∷ element Paragraph (lists Ids ("c" ∷ "b" ∷ "a" ∷ []) ∷ []) [] ∷ []) }
    ensures out_of_a_quote { (with_targets false (plain_document (element BlockQuote [] (element Target (lists Ids ("a" ∷ []) ∷ []) [] ∷ [])
        ∷ paragraph "b" ∷ [])) (known_from 0 [])).0
        ≡ plain_document (element BlockQuote [] (element Target (says Refid "a" ∷ []) [] ∷ []) ∷ element Paragraph (lists Ids ("a" ∷ [])
        ∷ []) (text "b" ∷ []) ∷ []) }
    ensures to_an_item { (with_targets false (plain_document (element BulletList [] (element ListItem [] (element Target (lists Ids ("a" ∷ []) ∷ []) [] ∷ [])
        ∷ element ListItem [] (paragraph "b" ∷ []) ∷ []) ∷ [])) (known_from 0 [])).0
        ≡ plain_document (element BulletList [] (element ListItem [] (element Target (says Refid "a" ∷ []) [] ∷ []) ∷ element ListItem (lists Ids ("a"
        ∷ []) ∷ []) (paragraph "b" ∷ []) ∷ []) ∷ []) }
    ensures lost_names { (with_targets false (plain_document (element Target (lists Dupnames ("a" ∷ []) ∷ lists Ids ("a" ∷ []) ∷ []) []
        ∷ paragraph "b" ∷ [])) (known_from 0 [])).0
        ≡ plain_document (element Target (says Refid "a" ∷ []) [] ∷ element Paragraph (lists Ids ("a" ∷ []) ∷ []) (text "b" ∷ []) ∷ []) }
    ensures anonymous { (with_targets false (plain_document (element Target (counts Anonymous 1 ∷ lists Ids ("a" ∷ []) ∷ []) [] ∷ paragraph "b"
        ∷ [])) (known_from 0 [])).0
        ≡ plain_document (element Target (counts Anonymous 1 ∷ says Refid "a" ∷ []) [] ∷ element Paragraph (lists Ids ("a" ∷ []) ∷ []) (text "b" ∷ [])
        ∷ []) }
    ensures before_a_comment { (with_targets false (plain_document (element Target (lists Ids ("a" ∷ []) ∷ []) [] ∷ element Comment [] []
        ∷ paragraph "b" ∷ [])) (known_from 0 [])).0
        ≡ plain_document (element Target (lists Ids ("a" ∷ []) ∷ []) [] ∷ element Comment [] [] ∷ paragraph "b" ∷ []) }
    ensures before_a_transition { (with_targets false (plain_document (element Target (lists Ids ("a" ∷ []) ∷ []) [] ∷ element Transition [] []
        ∷ [])) (known_from 0 [])).0
        ≡ plain_document (element Target (lists Ids ("a" ∷ []) ∷ []) [] ∷ element Transition [] [] ∷ []) }
    ensures before_a_message { (with_targets false (plain_document (element Target (lists Ids ("a" ∷ []) ∷ []) [] ∷ element SystemMessage [] []
        ∷ [])) (known_from 0 [])).0
        ≡ plain_document (element Target (lists Ids ("a" ∷ []) ∷ []) [] ∷ element SystemMessage [] [] ∷ []) }
    ensures last { (with_targets false (plain_document (element Target (lists Ids ("a" ∷ []) ∷ []) [] ∷ [])) (known_from 0 [])).0
        ≡ plain_document (element Target (lists Ids ("a" ∷ []) ∷ []) [] ∷ []) }
    ensures of_a_uri { (with_targets false (plain_document (element Target (lists Ids ("a" ∷ []) ∷ says Refuri "u" ∷ []) [] ∷ paragraph "b" ∷ [])) (known_from 0 [])).0
        ≡ plain_document (element Target (lists Ids ("a" ∷ []) ∷ says Refuri "u" ∷ []) [] ∷ paragraph "b" ∷ []) }
    ensures indirect { (with_targets false (plain_document (element Target (lists Ids ("a" ∷ []) ∷ says Refname "b" ∷ []) [] ∷ paragraph "b" ∷ [])) (known_from 0 [])).0
        ≡ plain_document (element Target (lists Ids ("a" ∷ []) ∷ says Refname "b" ∷ []) [] ∷ paragraph "b" ∷ []) }
    ensures in_a_text { (with_targets false (plain_document (element Paragraph [] (element Target (lists Ids ("a" ∷ []) ∷ counts Inline 1 ∷ []) []
        ∷ []) ∷ paragraph "b" ∷ [])) (known_from 0 [])).0
        ≡ plain_document (element Paragraph [] (element Target (lists Ids ("a" ∷ []) ∷ counts Inline 1 ∷ []) [] ∷ []) ∷ paragraph "b" ∷ []) }
{}

/// Where the part `unmarked` holds, the element after a target is looked for past messages (Markup Specification, 'Hyperlink Targets').
pub fn targets_unmarked()
    ensures past_two_messages { (with_targets true (plain_document (element Target (lists Ids ("a" ∷ []) ∷ lists Names ("a" ∷ []) ∷ []) []
        ∷ element SystemMessage [] (paragraph "m" ∷ []) ∷ element SystemMessage [] [] ∷ paragraph "b" ∷ [])) (known_from 0 [])).0
        ≡ plain_document (element Target (says Refid "a" ∷ []) [] ∷ element SystemMessage [] (paragraph "m" ∷ []) ∷ element SystemMessage [] []
        ∷ element Paragraph (lists Ids ("a" ∷ []) ∷ lists Names ("a" ∷ []) ∷ []) (text "b" ∷ []) ∷ []) }
    ensures two_targets { (with_targets true (plain_document (element Target (lists Ids ("a" ∷ []) ∷ []) [] ∷ element SystemMessage [] []
        ∷ element Target (lists Ids ("b" ∷ []) ∷ []) [] ∷ element SystemMessage [] [] ∷ element Paragraph [] [] ∷ [])) (known_from 0 [])).0
        ≡ plain_document (element Target (says Refid "a" ∷ []) [] ∷ element SystemMessage [] [] ∷ element Target (says Refid "b" ∷ []) []
        ∷ element SystemMessage [] [] ∷ element Paragraph (lists Ids ("b" ∷ "a" ∷ []) ∷ []) [] ∷ []) }
    ensures out_of_an_item { (with_targets true (plain_document (element BulletList [] (element ListItem [] (element Target (lists Ids ("a" ∷ []) ∷ []) []
        ∷ element SystemMessage [] (paragraph "m" ∷ []) ∷ []) ∷ []) ∷ paragraph "b" ∷ [])) (known_from 0 [])).0
        ≡ plain_document (element BulletList [] (element ListItem [] (element Target (says Refid "a" ∷ []) [] ∷ element SystemMessage [] (paragraph "m" ∷ [])
        ∷ []) ∷ []) ∷ element Paragraph (lists Ids ("a" ∷ []) ∷ []) (text "b" ∷ []) ∷ []) }
    ensures to_a_transition { (with_targets true (plain_document (element Target (lists Ids ("a" ∷ []) ∷ []) [] ∷ element Transition [] []
        ∷ [])) (known_from 0 [])).0
        ≡ plain_document (element Target (says Refid "a" ∷ []) [] ∷ element Transition (lists Ids ("a" ∷ []) ∷ []) [] ∷ []) }
    ensures before_a_footnote { (with_targets true (plain_document (element Target (lists Ids ("a" ∷ []) ∷ []) [] ∷ element SystemMessage [] []
        ∷ element Footnote [] [] ∷ [])) (known_from 0 [])).0
        ≡ plain_document (element Target (lists Ids ("a" ∷ []) ∷ []) [] ∷ element SystemMessage [] [] ∷ element Footnote [] [] ∷ []) }
    ensures before_a_citation { (with_targets true (plain_document (element Target (lists Ids ("a" ∷ []) ∷ []) [] ∷ element Citation [] []
        ∷ [])) (known_from 0 [])).0
        ≡ plain_document (element Target (lists Ids ("a" ∷ []) ∷ []) [] ∷ element Citation [] [] ∷ []) }
    ensures before_a_comment { (with_targets true (plain_document (element Target (lists Ids ("a" ∷ []) ∷ []) [] ∷ element SystemMessage [] []
        ∷ element Comment [] [] ∷ paragraph "b" ∷ [])) (known_from 0 [])).0
        ≡ plain_document (element Target (lists Ids ("a" ∷ []) ∷ []) [] ∷ element SystemMessage [] [] ∷ element Comment [] [] ∷ paragraph "b" ∷ []) }
    ensures last { (with_targets true (plain_document (element Target (lists Ids ("a" ∷ []) ∷ []) [] ∷ element SystemMessage [] (paragraph "m" ∷ [])
        ∷ [])) (known_from 0 [])).0
        ≡ plain_document (element Target (lists Ids ("a" ∷ []) ∷ []) [] ∷ element SystemMessage [] (paragraph "m" ∷ []) ∷ []) }
    ensures lost_names { (with_targets true (plain_document (element Target (lists Dupnames ("a" ∷ []) ∷ lists Ids ("a" ∷ []) ∷ []) []
        ∷ paragraph "b" ∷ [])) (known_from 0 [])).0
        ≡ plain_document (element Target (lists Dupnames ("a" ∷ []) ∷ says Refid "a" ∷ []) [] ∷ element Paragraph (lists Ids ("a" ∷ []) ∷ []) (text "b" ∷ []) ∷ []) }
    ensures names { map (with_targets true (plain_document (element Target (counts Serial 0 ∷ lists Names ("a" ∷ []) ∷ []) [] ∷ element SystemMessage [] []
        ∷ element Section (counts Serial 2 ∷ []) [] ∷ [])) (known_from 0 [])).1.names (codes "a" ∷ codes "b" ∷ [])
        ≡ entry_for (By 2) ∷ entry_for (By 0) ∷ [] }
{}

/// Transitions: those that end a section move out of it, and those in places where none may be get messages (Markup Specification, 'Transitions').
pub fn transitions()
    ensures between { Shows (with_transitions (plain_document (paragraph "a" ∷ element Transition [] [] ∷ paragraph "b" ∷ [])) (known_from 0 [])).0
        ("<document>" ∷ "    <paragraph>" ∷ "        a" ∷ "    <transition>" ∷ "    <paragraph>" ∷ "        b" ∷ []) }
    ensures first { Shows (with_transitions (plain_document (element Transition [] [] ∷ paragraph "a" ∷ [])) (known_from 0 [])).0
        ("<document>" ∷ "    <system_message level=\"3\" line=\"1\" type=\"ERROR\">" ∷ "        <paragraph>"
        ∷ "            Document or section may not begin with a transition." ∷ "    <transition>" ∷ "    <paragraph>" ∷ "        a" ∷ []) }
    ensures after_titles { Shows (with_transitions (plain_document (element Section [] (element Title [] [] ∷ element Transition [] [] ∷ paragraph "a"
        ∷ []) ∷ [])) (known_from 0 [])).0
        ("<document>" ∷ "    <section>" ∷ "        <title>" ∷ "        <system_message level=\"3\" line=\"1\" type=\"ERROR\">"
        ∷ "            <paragraph>" ∷ "                Document or section may not begin with a transition." ∷ "        <transition>"
        ∷ "        <paragraph>" ∷ "            a" ∷ []) }
    ensures after_a_comment { Shows (with_transitions (plain_document (element Comment [] [] ∷ element Transition [] [] ∷ paragraph "a" ∷ [])) (known_from 0 [])).0
        ("<document>" ∷ "    <comment>" ∷ "    <transition>" ∷ "    <paragraph>" ∷ "        a" ∷ []) }
    ensures adjacent { Shows (with_transitions (plain_document (paragraph "a" ∷ element Transition [] [] ∷ Element Transition [] bare 5 ∷ paragraph "b"
        ∷ [])) (known_from 0 [])).0
        ("<document>" ∷ "    <paragraph>" ∷ "        a" ∷ "    <transition>" ∷ "    <system_message level=\"3\" line=\"5\" type=\"ERROR\">"
        ∷ "        <paragraph>" ∷ "            At least one body element must separate transitions; adjacent transitions are not allowed."
        ∷ "    <transition>" ∷ "    <paragraph>" ∷ "        b" ∷ []) }
    ensures last { Shows (with_transitions (plain_document (paragraph "a" ∷ Element Transition [] bare 3 ∷ [])) (known_from 0 [])).0
        ("<document>" ∷ "    <paragraph>" ∷ "        a" ∷ "    <transition>" ∷ "    <system_message level=\"3\" line=\"3\" type=\"ERROR\">"
        ∷ "        <paragraph>" ∷ "            Document may not end with a transition." ∷ []) }
    ensures alone { Shows (with_transitions (plain_document (Element Transition [] bare 1 ∷ [])) (known_from 0 [])).0
        ("<document>" ∷ "    <system_message level=\"3\" line=\"1\" type=\"ERROR\">" ∷ "        <paragraph>"
        ∷ "            Document or section may not begin with a transition." ∷ "    <transition>"
        ∷ "    <system_message level=\"3\" line=\"1\" type=\"ERROR\">" ∷ "        <paragraph>"
        ∷ "            Document may not end with a transition." ∷ []) }
    ensures at_the_end_of_a_section { Shows (with_transitions (plain_document (element Section [] (element Title [] [] ∷ paragraph "a"
        ∷ element Transition [] [] ∷ []) ∷ element Section [] (element Title [] [] ∷ []) ∷ [])) (known_from 0 [])).0
        ("<document>" ∷ "    <section>" ∷ "        <title>" ∷ "        <paragraph>" ∷ "            a" ∷ "    <transition>" ∷ "    <section>"
        ∷ "        <title>" ∷ []) }
    ensures out_of_two_sections { Shows (with_transitions (plain_document (element Section [] (element Title [] []
        ∷ element Section [] (element Title [] [] ∷ paragraph "a" ∷ element Transition [] [] ∷ []) ∷ []) ∷ element Section [] (element Title [] []
        ∷ []) ∷ [])) (known_from 0 [])).0
        ("<document>" ∷ "    <section>" ∷ "        <title>" ∷ "        <section>" ∷ "            <title>" ∷ "            <paragraph>"
        ∷ "                a" ∷ "    <transition>" ∷ "    <section>" ∷ "        <title>" ∷ []) }
    ensures last_in_the_last_section { Shows (with_transitions (plain_document (element Section [] (element Title [] [] ∷ paragraph "a"
        ∷ element Transition [] [] ∷ []) ∷ [])) (known_from 0 [])).0
        ("<document>" ∷ "    <section>" ∷ "        <title>" ∷ "        <paragraph>" ∷ "            a" ∷ "        <transition>"
        ∷ "        <system_message level=\"3\" line=\"1\" type=\"ERROR\">" ∷ "            <paragraph>"
        ∷ "                Document may not end with a transition." ∷ []) }
    ensures numbers { map (λ r. r.number) (with_transitions (plain_document (element Transition [] [] ∷ element Transition [] [] ∷ [])) (known_from 4 [])).1.reports
        ≡ 4 ∷ 5 ∷ 6 ∷ [] }
{}

/// The last section, with the messages of the transforms that have no place of their own (Markup Specification, 'Error Handling').
pub fn last_section()
    ensures with_messages { Shows (with_last_section AtErrors (plain_document (paragraph "x" ∷ [])) (known_from 0 (next_report 0 [] Warning 2 (codes "a") false
        ∷ referring_report (codes "system-message-1") (codes "problematic-1") (next_report 0 [] Error 3 (codes "b") true)
        ∷ []))).0
        ("<document>" ∷ "    <paragraph>" ∷ "        x" ∷ "    <section classes=\"system-messages\">" ∷ "        <title>"
        ∷ "            Docutils System Messages"
        ∷ "        <system_message backrefs=\"problematic-1\" ids=\"system-message-1\" level=\"3\" line=\"3\" type=\"ERROR\">"
        ∷ "            <paragraph>" ∷ "                b" ∷ []) }
    ensures ids_moved { map (λ r. r.id) (with_last_section AtErrors (plain_document []) (known_from 0 (referring_report (codes "system-message-1")
        (codes "problematic-1") (next_report 0 [] Error 3 (codes "b") true) ∷ []))).1.reports
        ≡ None ∷ [] }
    ensures below_the_level { Shows (with_last_section AtSevere (plain_document (paragraph "x" ∷ [])) (known_from 0 (next_report 0 [] Error 3 (codes "a") true
        ∷ []))).0
        ("<document>" ∷ "    <paragraph>" ∷ "        x" ∷ []) }
    ensures in_its_place { Shows (with_last_section AtErrors (plain_document (paragraph "x" ∷ [])) (known_from 0 (next_report 0 [] Error 3 (codes "a") false
        ∷ []))).0
        ("<document>" ∷ "    <paragraph>" ∷ "        x" ∷ []) }
{}
