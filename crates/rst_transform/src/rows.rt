//! Worked examples of the order of the transforms and of the settings that they follow, as theorems on the definitions alone.
#![tactic(auto, unfolding(crate::proofs::Computing::rst_transform))]

ghost use Rattle.std.specs.Prelude.{[], ◌∷◌, false, true};
ghost use Rattle.rst_settings.specs.Parts.{no_parts};
ghost use Rattle.rst_settings.specs.declared.Threshold.TheVariants.{Error, Severe};
ghost use Rattle.rst_tree.specs.declared.key.Key.TheVariants.{Anonymous, Backlinks, Level, OwnName, Rawsource, Refname};
ghost use Rattle.rst_tree.specs.declared.tag.Tag.TheVariants.{Contents, Field, FieldBody, FieldList, FieldName, Paragraph, Reference, Section, SystemMessage, Target, Title, Topic};
ghost use Rattle.rst_transform_names.specs.Trees.{counts, element, paragraph, says, text};
ghost use Rattle.rst_transform_substitutions.specs.Written.{definition_node, substitution};
ghost use Rattle.rst_transform_docinfo.specs.Written.{field};
ghost use Rattle.rst_transform_references.specs.Written.{footnote};
ghost use Rattle.rst_transform.specs.Written.{anonymous_reference, indirect_target, numbered_reference, reference_paragraph, named_section, transition, usual, Leaves, HasMessageTexts};

/// Transitions are looked at after the links, and before the last section is added (Markup Specification, 'Transitions').
pub fn transitions()
    ensures after_links { HasMessageTexts usual (transition ∷ reference_paragraph "c" "c_" ∷ []) ("Unknown target name: \"c\"." ∷ "Document or section may not begin with a transition." ∷ []) }
    ensures before_the_last_section { HasMessageTexts usual (reference_paragraph "c" "c_" ∷ transition ∷ []) ("Unknown target name: \"c\"." ∷ "Document may not end with a transition." ∷ []) }
{}

/// The document's title is found after substitutions are expanded and internal targets are done, and before bibliographic fields (Markup Specification, 'Document Title').
pub fn titles()
    ensures after_substitutions { Leaves usual (element Section (says OwnName "a x" ∷ []) (element Title [] (text "A " ∷ substitution "x" "|x|" ∷ []) ∷ definition_node "x" (text "y" ∷ []) ∷ []) ∷ []) ("<document ids=\"a-x\" names=\"a\\ x\" title=\"A y\">" ∷ "    <title>" ∷ "        A " ∷ "        y" ∷ "    <substitution_definition names=\"x\">" ∷ "        y" ∷ []) }
    ensures after_targets { Leaves usual (element Target (says OwnName "a" ∷ []) [] ∷ named_section "s" "S" [] ∷ []) ("<document ids=\"s a\" names=\"s a\" title=\"S\">" ∷ "    <title>" ∷ "        S" ∷ "    <target refid=\"a\">" ∷ []) }
    ensures before_bibliographic_fields { Leaves usual (named_section "a" "A" (element FieldList [] (field "Date" (paragraph "x" ∷ []) ∷ []) ∷ []) ∷ []) ("<document ids=\"a\" names=\"a\" title=\"A\">" ∷ "    <title>" ∷ "        A" ∷ "    <docinfo>" ∷ "        <date>" ∷ "            x" ∷ []) }
{}

/// Bibliographic fields are taken before the links are: a reference in a name that dissolves isn't counted (Markup Specification, 'Bibliographic Fields').
pub fn bibliographic_fields()
    ensures before_anonymous_references { HasMessageTexts usual (element FieldList [] (element Field [] (element FieldName [] (anonymous_reference "Author" "`Author`__" ∷ []) ∷ element FieldBody [] (paragraph "x" ∷ []) ∷ []) ∷ []) ∷ []) [] }
{}

/// Tables of contents are made before references are resolved: an entry has the text of a reference that fails (Directives, 'Table of Contents').
pub fn tables_of_contents()
    ensures before_references { Leaves (record usual { title = false; parts = record no_parts { directives = true } }) (element Topic [] (element Contents (says Backlinks "entry" ∷ []) [] ∷ []) ∷ element Section (says OwnName "s" ∷ []) (element Title [] (element Reference (says Rawsource "b_" ∷ says Refname "b" ∷ []) (text "b" ∷ []) ∷ []) ∷ []) ∷ []) ("<document>" ∷ "    <topic>" ∷ "        <bullet_list>" ∷ "            <list_item>" ∷ "                <paragraph>" ∷ "                    <reference ids=\"toc-entry-1\" refid=\"s\">" ∷ "                        b" ∷ "    <section ids=\"s\" names=\"s\">" ∷ "        <title>" ∷ "            <problematic ids=\"problematic-1\" refid=\"system-message-1\">" ∷ "                b_" ∷ "    <section classes=\"system-messages\">" ∷ "        <title>" ∷ "            Docutils System Messages" ∷ "        <system_message backrefs=\"problematic-1\" ids=\"system-message-1\" level=\"3\" line=\"1\" type=\"ERROR\">" ∷ "            <paragraph>" ∷ "                Unknown target name: \"b\"." ∷ []) }
{}

/// Substitutions are expanded before references are resolved: each copy of a reference has a message of its own (Markup Specification, 'Substitution Definitions').
pub fn substitutions()
    ensures before_references { HasMessageTexts usual (element Paragraph [] (substitution "s" "|s|" ∷ []) ∷ definition_node "s" (element Reference (says Rawsource "a_" ∷ says Refname "a" ∷ []) (text "a" ∷ []) ∷ []) ∷ []) ("Unknown target name: \"a\"." ∷ "Unknown target name: \"a\"." ∷ []) }
{}

/// Anonymous references come first, then indirect targets, footnotes, and references by name (Markup Specification, 'Hyperlink References').
pub fn links()
    ensures anonymous_references_before_indirect_targets { HasMessageTexts usual (element Target (counts Anonymous 1 ∷ says Refname "a" ∷ []) [] ∷ paragraph "p" ∷ []) ("Anonymous hyperlink mismatch: 0 references but 1 targets." ∷ "Indirect hyperlink target \"\" refers to target \"a\", which does not exist." ∷ []) }
    ensures indirect_targets_before_footnotes { HasMessageTexts usual (numbered_reference ∷ indirect_target "a" "b" ∷ []) ("Indirect hyperlink target \"a\" refers to target \"b\", which does not exist." ∷ "Too many autonumbered footnote references: only 0 corresponding footnotes available." ∷ []) }
    ensures footnotes_before_references { HasMessageTexts usual (reference_paragraph "1" "1_" ∷ footnote "#" [] ∷ []) [] }
{}

/// Messages of the document precede those of transforms; the last section is added before filtering (Markup Specification, 'Error Handling').
pub fn messages()
    ensures of_the_document_first { HasMessageTexts usual (transition ∷ paragraph "a" ∷ element SystemMessage (counts Level 2 ∷ []) (paragraph "m" ∷ []) ∷ []) ("m" ∷ "Document or section may not begin with a transition." ∷ []) }
    ensures in_the_last_section { Leaves usual (reference_paragraph "a" "a_" ∷ []) ("<document>" ∷ "    <paragraph>" ∷ "        <problematic ids=\"problematic-1\" refid=\"system-message-1\">" ∷ "            a_" ∷ "    <section classes=\"system-messages\">" ∷ "        <title>" ∷ "            Docutils System Messages" ∷ "        <system_message backrefs=\"problematic-1\" ids=\"system-message-1\" level=\"3\" line=\"1\" type=\"ERROR\">" ∷ "            <paragraph>" ∷ "                Unknown target name: \"a\"." ∷ []) }
{}

/// Messages below the report level aren't printed, and their problematics are text (Configuration, 'report_level').
pub fn report_levels()
    ensures below_it { Leaves (record usual { report = Severe }) (reference_paragraph "a" "a_" ∷ []) ("<document>" ∷ "    <paragraph>" ∷ "        a_" ∷ []) }
    ensures in_the_list { HasMessageTexts (record usual { report = Severe }) (reference_paragraph "a" "a_" ∷ []) ("Unknown target name: \"a\"." ∷ []) }
{}

/// The list of messages ends with the first that halts the run (Configuration, 'halt_level').
pub fn halt_levels()
    ensures first_of_two { HasMessageTexts (record usual { halt = Error }) (reference_paragraph "a" "a_" ∷ reference_paragraph "b" "b_" ∷ []) ("Unknown target name: \"a\"." ∷ []) }
{}

/// A lone section stays one where no title is asked for (Configuration, 'doctitle_xform').
pub fn title_settings()
    ensures without_a_title { Leaves (record usual { title = false }) (named_section "a" "A" [] ∷ []) ("<document>" ∷ "    <section ids=\"a\" names=\"a\">" ∷ "        <title>" ∷ "            A" ∷ []) }
{}

/// A leading field list stays one where no bibliographic fields are asked for (Configuration, 'docinfo_xform').
pub fn docinfo_settings()
    ensures without_fields { Leaves (record usual { info = false }) (element FieldList [] (field "Date" (paragraph "x" ∷ []) ∷ []) ∷ []) ("<document>" ∷ "    <field_list>" ∷ "        <field>" ∷ "            <field_name>" ∷ "                Date" ∷ "            <field_body>" ∷ "                <paragraph>" ∷ "                    x" ∷ []) }
{}
