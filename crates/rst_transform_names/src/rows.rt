//! Worked examples of ids, equal names and the messages on them, as theorems on the definitions alone: the prover computes what a definition
//! gives for names and trees that are written out.
#![tactic(auto, unfolding(crate::proofs::Computing::rst_transform_names))]

ghost use Rattle.std.specs.Prelude.{◌≡◌, true, false, Some, None, codes, [], ◌∷◌};
ghost use Rattle.rst_text.specs.Names.{identifier};
ghost use Rattle.rst_tree.specs.declared.key.Key.TheVariants.{Inline, Message, OwnName, Refname, Refuri, Serial, TextMessages};
ghost use Rattle.rst_tree.specs.declared.note.Level.TheVariants.{Info, Warning};
ghost use Rattle.rst_tree.specs.declared.tag.Tag.TheVariants.{Attribution, BlockQuote, Caption, Classifier, Definition, DefinitionListItem, Field, FieldBody, FieldName, Figure, Footnote, Image, Line, LineBlock, Paragraph, Problematic, Reference, Section, SubstitutionDefinition, SystemMessage, Target, Term, Title, Topic};
ghost use Rattle.rst_tree.specs.Walk.{item, walked_node};
ghost use Rattle.rst_tree_index.specs.Marks.{heeded_next, heeded_out};
ghost use Rattle.rst_tree_index.specs.Registered.{is_registered};
ghost use Rattle.rst_transform_names.specs.declared.names.Holder.TheVariants.{Nobody, Element as By};
ghost use Rattle.rst_transform_names.specs.declared.names.Strength.TheVariants.{Implicit, Explicit};
ghost use Rattle.rst_transform_names.specs.declared.rulings.Now.TheVariants.{Old, New, Nobody as NobodyNow};
ghost use Rattle.rst_transform_names.specs.DuplicateMessages.{duplicate_definition, duplicate_name};
ghost use Rattle.rst_transform_names.specs.Ids.{number_in, id_number, id_with_number};
ghost use Rattle.rst_transform_names.specs.NameMessages.{message_on, with_name_messages};
ghost use Rattle.rst_transform_names.specs.Registering.{registration};
ghost use Rattle.rst_transform_names.specs.Registry.{rule_by, standing};
ghost use Rattle.rst_transform_names.specs.Rulings.{ruling_for};
ghost use Rattle.rst_transform_names.specs.Trees.{counts, document_element, element, paragraph, says, text, IsPrintedIn, PrintsRegistered};
ghost use Rattle.rst_transform_names.specs.Written.{given, left_after, with_given};

/// What a name gives as an id, and the numbers at the end of ids (Directives, 'Identifier Normalization').
pub fn ids()
    ensures of_a_name { identifier (codes "1. To be") ≡ codes "to-be" }
    ensures of_no_name { identifier [] ≡ [] }
    ensures with_a_number { id_with_number (codes "a") 12 ≡ codes "a-12" }
    ensures after_the_last_hyphen { id_number (codes "a-1-2") ≡ Some (codes "a-1", 2) }
    ensures no_number { id_number (codes "a-b") ≡ None }
    ensures without_a_hyphen { id_number (codes "a1") ≡ None }
    ensures nothing_before { id_number (codes "-1") ≡ Some ([], 1) }
    ensures from_one { number_in (codes "0") ≡ None }
    ensures no_leading_zero { number_in (codes "01") ≡ None }
    ensures zero_at_the_end { number_in (codes "10") ≡ Some 10 }
    ensures no_digits { number_in [] ≡ None }
    ensures largest { number_in (codes "18446744073709551615") ≡ Some 18446744073709551615 }
    ensures too_large { number_in (codes "18446744073709551616") ≡ None }
{}

/// What happens to equal names: those of sections are implicit, all others explicit (Markup Specification, 'Implicit Hyperlink Targets').
pub fn equal_names()
    ensures first { ruling_for None Implicit false ≡ record { now = New; loser = Nobody; new_loses = false; message = None } }
    ensures section_then_target { ruling_for (Some (Implicit, By 0)) Explicit false ≡ record {
      now = New;
      loser = By 0;
      new_loses = false;
      message = Some (record { level = Info; strength = Implicit });
    } }
    ensures lost_sections_then_target { ruling_for (Some (Implicit, Nobody)) Explicit false ≡ record {
      now = New;
      loser = Nobody;
      new_loses = false;
      message = None;
    } }
    ensures target_then_same_uri { ruling_for (Some (Explicit, By 0)) Explicit true ≡ record {
      now = Old;
      loser = Nobody;
      new_loses = true;
      message = Some (record { level = Info; strength = Explicit });
    } }
    ensures target_then_target { ruling_for (Some (Explicit, By 0)) Explicit false ≡ record {
      now = NobodyNow;
      loser = By 0;
      new_loses = true;
      message = Some (record { level = Warning; strength = Explicit });
    } }
    ensures lost_targets_then_target { ruling_for (Some (Explicit, Nobody)) Explicit true ≡ record {
      now = NobodyNow;
      loser = Nobody;
      new_loses = true;
      message = Some (record { level = Warning; strength = Explicit });
    } }
    ensures section_then_section { ruling_for (Some (Implicit, By 0)) Implicit false ≡ record {
      now = NobodyNow;
      loser = By 0;
      new_loses = true;
      message = Some (record { level = Info; strength = Implicit });
    } }
    ensures lost_sections_then_section { ruling_for (Some (Implicit, Nobody)) Implicit false ≡ record {
      now = NobodyNow;
      loser = Nobody;
      new_loses = true;
      message = Some (record { level = Info; strength = Implicit });
    } }
    ensures target_then_section { ruling_for (Some (Explicit, By 0)) Implicit false ≡ record {
      now = Old;
      loser = Nobody;
      new_loses = true;
      message = Some (record { level = Info; strength = Implicit });
    } }
    ensures lost_targets_then_section { ruling_for (Some (Explicit, Nobody)) Implicit false ≡ record {
      now = NobodyNow;
      loser = Nobody;
      new_loses = true;
      message = Some (record { level = Info; strength = Implicit });
    } }
{}

/// How a new element gives its name, and when two elements have one URI (Markup Specification, 'Reference Names').
pub fn names_of_elements()
    ensures of_a_section { rule_by (Some (record { holder = By 0; strength = Explicit; id = codes "a"; uri = None })) (item Section [] 1) ≡ record {
      now = Old;
      loser = Nobody;
      new_loses = true;
      message = Some (record { level = Info; strength = Implicit });
    } }
    ensures of_a_footnote { (rule_by (Some (record { holder = By 0; strength = Implicit; id = codes "a"; uri = None })) (item Footnote [] 1)).now
        ≡ New }
    ensures one_uri { (rule_by (Some (record { holder = By 0; strength = Explicit; id = codes "a"; uri = Some (codes "u") })) (item Target
        (says Refuri "u" ∷ []) 1)).now
        ≡ Old }
    ensures two_uris { (rule_by (Some (record { holder = By 0; strength = Explicit; id = codes "a"; uri = Some (codes "u") })) (item Target
        (says Refuri "v" ∷ []) 1)).now
        ≡ NobodyNow }
    ensures no_uri { (rule_by (Some (record { holder = By 0; strength = Explicit; id = codes "a"; uri = None })) (item Target [] 1)).now
        ≡ NobodyNow }
{}

/// The texts of messages on equal names, and where they refer to (Markup Specification, 'Implicit Hyperlink Targets').
pub fn messages()
    ensures on_a_target { IsPrintedIn (duplicate_name (record { level = Warning; strength = Explicit }) (item Target (says OwnName "a b"
        ∷ []) 3) (codes "a-b-1"))
        ("<system_message backrefs=\"a-b-1\" level=\"2\" line=\"3\" type=\"WARNING\">" ∷ "    <paragraph>"
        ∷ "        Duplicate explicit target name: \"a b\"." ∷ []) }
    ensures on_a_section { IsPrintedIn (duplicate_name (record { level = Info; strength = Implicit }) (item Section (says OwnName "a"
        ∷ []) 2) (codes "a-1"))
        ("<system_message backrefs=\"a-1\" level=\"1\" line=\"2\" type=\"INFO\">" ∷ "    <paragraph>"
        ∷ "        Duplicate implicit target name: \"a\"." ∷ []) }
    ensures on_a_definition { IsPrintedIn (duplicate_definition (item SubstitutionDefinition (says OwnName "a" ∷ []) 4))
        ("<system_message level=\"3\" line=\"4\" type=\"ERROR\">" ∷ "    <paragraph>" ∷ "        Duplicate substitution definition name: \"a\"."
        ∷ []) }
{}

/// Where the message on an element's name comes (Markup Specification, 'Implicit Hyperlink Targets').
pub fn places()
    ensures in_a_section { IsPrintedIn (with_name_messages (message_on (Some (text "here") ∷ [])) (document_element (element Section (counts Serial 0 ∷ []) (element Title [] []
        ∷ paragraph "b" ∷ []) ∷ [])))
        ("<document>" ∷ "    <section>" ∷ "        <title>" ∷ "        here" ∷ "        <paragraph>" ∷ "            b" ∷ []) }
    ensures after_messages_of_a_title { IsPrintedIn (with_name_messages (message_on (Some (text "here") ∷ [])) (document_element (element Section (counts Serial 0
        ∷ counts TextMessages 1 ∷ []) (element Title [] [] ∷ element SystemMessage [] [] ∷ paragraph "b" ∷ []) ∷ [])))
        ("<document>" ∷ "    <section>" ∷ "        <title>" ∷ "        <system_message line=\"1\">" ∷ "        here" ∷ "        <paragraph>"
        ∷ "            b" ∷ []) }
    ensures before_a_target { IsPrintedIn (with_name_messages (message_on (Some (text "here") ∷ [])) (document_element (paragraph "a" ∷ element Target (counts Serial 0 ∷ []) []
        ∷ [])))
        ("<document>" ∷ "    <paragraph>" ∷ "        a" ∷ "    here" ∷ "    <target>" ∷ []) }
    ensures of_another_element { IsPrintedIn (with_name_messages (message_on (None ∷ Some (text "here") ∷ [])) (document_element (element Target (counts Serial 0 ∷ []) [] ∷ [])))
        ("<document>" ∷ "    <target>" ∷ []) }
    ensures in_a_text { IsPrintedIn (with_name_messages (message_on (Some (text "here") ∷ [])) (document_element (element Paragraph (counts TextMessages 1
        ∷ []) (element Target (counts Inline 1 ∷ counts Serial 0 ∷ []) [] ∷ []) ∷ element SystemMessage [] [] ∷ paragraph "b" ∷ [])))
        ("<document>" ∷ "    <paragraph>" ∷ "        <target>" ∷ "    <system_message line=\"1\">" ∷ "    here" ∷ "    <paragraph>" ∷ "        b"
        ∷ []) }
    ensures texts_before_elements { IsPrintedIn (with_name_messages (message_on (Some (text "first") ∷ Some (text "second") ∷ [])) (document_element (element Paragraph [] (element Target (counts Inline 1 ∷ counts Serial 0 ∷ []) [] ∷ []) ∷ element Target (counts Serial 1
        ∷ []) [] ∷ [])))
        ("<document>" ∷ "    <paragraph>" ∷ "        <target>" ∷ "    first" ∷ "    second" ∷ "    <target>" ∷ []) }
    ensures of_a_term { IsPrintedIn (with_name_messages (message_on (Some (text "here") ∷ [])) (element DefinitionListItem [] (element Term [] (element Target (counts Inline 1 ∷ counts Serial 0 ∷ []) [] ∷ [])
        ∷ element Definition [] (paragraph "d" ∷ []) ∷ [])))
        ("<definition_list_item>" ∷ "    <term>" ∷ "        <target>" ∷ "    <definition>" ∷ "        here" ∷ "        <paragraph>"
        ∷ "            d" ∷ []) }
    ensures of_a_classifier { IsPrintedIn (with_name_messages (message_on (Some (text "here") ∷ [])) (element DefinitionListItem [] (element Term (counts TextMessages 1
        ∷ []) [] ∷ element Classifier [] (element Target (counts Inline 1 ∷ counts Serial 0 ∷ []) [] ∷ [])
        ∷ element Definition [] (element SystemMessage [] [] ∷ paragraph "d" ∷ []) ∷ [])))
        ("<definition_list_item>" ∷ "    <term>" ∷ "    <classifier>" ∷ "        <target>" ∷ "    <definition>"
        ∷ "        <system_message line=\"1\">" ∷ "        here" ∷ "        <paragraph>" ∷ "            d" ∷ []) }
    ensures of_a_field_name { IsPrintedIn (with_name_messages (message_on (Some (text "here") ∷ [])) (element Field [] (element FieldName [] (element Target (counts Inline 1 ∷ counts Serial 0 ∷ []) [] ∷ []) ∷ element FieldBody [] []
        ∷ [])))
        ("<field>" ∷ "    <field_name>" ∷ "        <target>" ∷ "    <field_body>" ∷ "        here" ∷ []) }
    ensures of_a_nested_line { IsPrintedIn (with_name_messages (message_on (Some (text "here") ∷ [])) (document_element (element LineBlock [] (element LineBlock [] (element Line [] (element Target (counts Inline 1 ∷ counts Serial 0 ∷ []) []
        ∷ []) ∷ []) ∷ []) ∷ paragraph "b" ∷ [])))
        ("<document>" ∷ "    <line_block>" ∷ "        <line_block>" ∷ "            <line>" ∷ "                <target>" ∷ "    here"
        ∷ "    <paragraph>" ∷ "        b" ∷ []) }
    ensures of_an_attribution { IsPrintedIn (with_name_messages (message_on (Some (text "here") ∷ [])) (document_element (element BlockQuote [] (element Attribution [] (element Target (counts Inline 1 ∷ counts Serial 0 ∷ []) [] ∷ []) ∷ [])
        ∷ [])))
        ("<document>" ∷ "    <block_quote>" ∷ "        <attribution>" ∷ "            <target>" ∷ "    here" ∷ []) }
    ensures of_a_caption { IsPrintedIn (with_name_messages (message_on (Some (text "here") ∷ [])) (document_element (element Figure [] (element Caption [] (element Target (counts Inline 1 ∷ counts Serial 0 ∷ []) [] ∷ []) ∷ []) ∷ [])))
        ("<document>" ∷ "    <figure>" ∷ "        <caption>" ∷ "            <target>" ∷ "    here" ∷ []) }
    ensures of_an_image_in_a_reference { IsPrintedIn (with_name_messages (message_on (Some (text "here") ∷ [])) (document_element (element Reference [] (element Image (counts Serial 0 ∷ []) [] ∷ []) ∷ [])))
        ("<document>" ∷ "    here" ∷ "    <reference>" ∷ "        <image>" ∷ []) }
    ensures of_an_image_in_a_definition { IsPrintedIn (with_name_messages (message_on (Some (text "here") ∷ [])) (document_element (element SubstitutionDefinition [] (element Reference [] (element Image (counts Serial 0 ∷ []) [] ∷ []) ∷ []) ∷ [])))
        ("<document>" ∷ "    here" ∷ "    <substitution_definition>" ∷ "        <reference>" ∷ "            <image>" ∷ []) }
    ensures of_an_image_in_a_figure { IsPrintedIn (with_name_messages (message_on (Some (text "here") ∷ [])) (document_element (element Figure [] (element Image (counts Serial 0 ∷ []) [] ∷ []) ∷ [])))
        ("<document>" ∷ "    <figure>" ∷ "        here" ∷ "        <image>" ∷ []) }
{}

/// What registration writes at the elements: ids, names and lost names, and what problematics and their messages have of one another (Document
/// Tree, 'Attribute Reference').
pub fn written()
    ensures names { IsPrintedIn (walked_node (heeded_next is_registered left_after) (heeded_out is_registered with_given) (given (standing 0 (Some
        (codes "a")) false true ∷ standing 1 (Some (codes "a-1")) false false ∷ standing 2 (Some (codes "target-1")) true false
        ∷ []) [] []) (document_element (element Section (says OwnName "a" ∷ []) (paragraph "b" ∷ element Target (says OwnName "a" ∷ []) [] ∷ [])
        ∷ element Target [] [] ∷ [])))
        ("<document>" ∷ "    <section dupnames=\"a\" ids=\"a\">" ∷ "        <paragraph>" ∷ "            b"
        ∷ "        <target ids=\"a-1\" names=\"a\">" ∷ "    <target ids=\"target-1\">" ∷ []) }
    ensures definition { IsPrintedIn (walked_node (heeded_next is_registered left_after) (heeded_out is_registered with_given) (given
        (standing 0 None false false ∷ []) [] []) (document_element (element SubstitutionDefinition (says OwnName "A" ∷ []) [] ∷ [])))
        ("<document>" ∷ "    <substitution_definition names=\"A\">" ∷ []) }
    ensures problematics { IsPrintedIn (walked_node (heeded_next is_registered left_after) (heeded_out is_registered with_given) (given [] (1 ∷ 2 ∷ 1
        ∷ []) (record { id = Some 1; problematics = codes "problematic-1" ∷ codes "problematic-2" ∷ [] }
        ∷ [])) (document_element (element Problematic (counts Message 0 ∷ []) [] ∷ element Problematic (counts Message 0 ∷ []) []
        ∷ element SystemMessage (counts Message 0 ∷ []) [] ∷ [])))
        ("<document>" ∷ "    <problematic ids=\"problematic-1\" refid=\"system-message-1\">"
        ∷ "    <problematic ids=\"problematic-2\" refid=\"system-message-1\">"
        ∷ "    <system_message backrefs=\"problematic-1 problematic-2\" ids=\"system-message-1\" line=\"1\">" ∷ []) }
{}

/// What registration leaves of whole documents: ids, names, messages on equal names, and problematics with their messages (Document Tree,
/// 'Attribute Reference').
pub fn registered()
    ensures two_sections { PrintsRegistered 0 (element Section (says OwnName "a" ∷ []) [] ∷ element Section (says OwnName "a" ∷ []) (element Title [] []
        ∷ paragraph "b" ∷ []) ∷ [])
        ("<document>" ∷ "    <section dupnames=\"a\" ids=\"a\">" ∷ "    <section dupnames=\"a\" ids=\"a-1\">" ∷ "        <title>"
        ∷ "        <system_message backrefs=\"a-1\" level=\"1\" line=\"1\" type=\"INFO\">" ∷ "            <paragraph>"
        ∷ "                Duplicate implicit target name: \"a\"." ∷ "        <paragraph>" ∷ "            b" ∷ []) }
    ensures section_then_target { PrintsRegistered 0 (element Section (says OwnName "a" ∷ []) (element Title [] []
        ∷ element Target (says OwnName "a" ∷ []) [] ∷ []) ∷ [])
        ("<document>" ∷ "    <section dupnames=\"a\" ids=\"a\">" ∷ "        <title>"
        ∷ "        <system_message backrefs=\"a-1\" level=\"1\" line=\"1\" type=\"INFO\">" ∷ "            <paragraph>"
        ∷ "                Duplicate implicit target name: \"a\"." ∷ "        <target ids=\"a-1\" names=\"a\">" ∷ []) }
    ensures two_targets { PrintsRegistered 0 (element Target (says OwnName "a" ∷ []) [] ∷ element Target (says OwnName "a" ∷ []) [] ∷ [])
        ("<document>" ∷ "    <target dupnames=\"a\" ids=\"a\">" ∷ "    <system_message backrefs=\"a-1\" level=\"2\" line=\"1\" type=\"WARNING\">"
        ∷ "        <paragraph>" ∷ "            Duplicate explicit target name: \"a\"." ∷ "    <target dupnames=\"a\" ids=\"a-1\">" ∷ []) }
    ensures alias { PrintsRegistered 0 (element Target (counts Inline 1 ∷ says OwnName "a" ∷ says Refname "b" ∷ []) [] ∷ element Target (says OwnName "a" ∷ []) []
        ∷ element Target (counts Inline 1 ∷ says OwnName "a" ∷ says Refname "c" ∷ []) [] ∷ element Target (says OwnName "d" ∷ says Refname "b" ∷ []) [] ∷ [])
        ("<document>" ∷ "    <target names=\"a\">" ∷ "    <target ids=\"a\" names=\"a\">" ∷ "    <target names=\"a\">" ∷ "    <target ids=\"d\" names=\"d\">" ∷ []) }
    ensures two_targets_with_one_uri { PrintsRegistered 0 (element Target (says OwnName "a" ∷ says Refuri "u" ∷ []) []
        ∷ element Target (says OwnName "a" ∷ says Refuri "u" ∷ []) [] ∷ [])
        ("<document>" ∷ "    <target ids=\"a\" names=\"a\" refuri=\"u\">"
        ∷ "    <system_message backrefs=\"a-1\" level=\"1\" line=\"1\" type=\"INFO\">" ∷ "        <paragraph>"
        ∷ "            Duplicate explicit target name: \"a\"." ∷ "    <target dupnames=\"a\" ids=\"a-1\" refuri=\"u\">" ∷ []) }
    ensures target_in_a_text { PrintsRegistered 0 (element Target (says OwnName "a" ∷ []) []
        ∷ element Paragraph [] (element Target (counts Inline 1 ∷ says OwnName "a" ∷ []) [] ∷ []) ∷ paragraph "b" ∷ [])
        ("<document>" ∷ "    <target dupnames=\"a\" ids=\"a\">" ∷ "    <paragraph>" ∷ "        <target dupnames=\"a\" ids=\"a-1\">"
        ∷ "    <system_message backrefs=\"a-1\" level=\"2\" line=\"1\" type=\"WARNING\">" ∷ "        <paragraph>"
        ∷ "            Duplicate explicit target name: \"a\"." ∷ "    <paragraph>" ∷ "        b" ∷ []) }
    ensures two_definitions { PrintsRegistered 0 (element SubstitutionDefinition (says OwnName "a" ∷ []) []
        ∷ element SubstitutionDefinition (says OwnName "a" ∷ []) [] ∷ [])
        ("<document>" ∷ "    <substitution_definition dupnames=\"a\">" ∷ "    <system_message level=\"3\" line=\"1\" type=\"ERROR\">"
        ∷ "        <paragraph>" ∷ "            Duplicate substitution definition name: \"a\"." ∷ "    <substitution_definition names=\"a\">" ∷ []) }
    ensures definition_and_target { PrintsRegistered 0 (element SubstitutionDefinition (says OwnName "a" ∷ []) []
        ∷ element Target (says OwnName "a" ∷ []) [] ∷ [])
        ("<document>" ∷ "    <substitution_definition names=\"a\">" ∷ "    <target ids=\"a\" names=\"a\">" ∷ []) }
    ensures problematics { PrintsRegistered 2 (element Problematic (counts Message 1 ∷ []) [] ∷ element SystemMessage (counts Message 0 ∷ []) []
        ∷ element Problematic (counts Message 1 ∷ []) [] ∷ element SystemMessage (counts Message 1 ∷ []) [] ∷ [])
        ("<document>" ∷ "    <problematic ids=\"problematic-1\" refid=\"system-message-2\">" ∷ "    <system_message ids=\"system-message-1\" line=\"1\">"
        ∷ "    <problematic ids=\"problematic-2\" refid=\"system-message-2\">"
        ∷ "    <system_message backrefs=\"problematic-1 problematic-2\" ids=\"system-message-2\" line=\"1\">" ∷ []) }
    ensures problematic_without_its_message { PrintsRegistered 1 (element Problematic (counts Message 0 ∷ []) [] ∷ [])
        ("<document>" ∷ "    <problematic ids=\"problematic-1\">" ∷ []) }
    ensures holder { (registration 0 (document_element (element Target [] [] ∷ element Footnote (says OwnName "a" ∷ []) [] ∷ []))).names (codes "a")
        ≡ Some (record { holder = By 1; strength = Explicit; id = codes "a"; uri = None }) }
    ensures holder_that_lost { (registration 0 (document_element (element Section (says OwnName "a" ∷ []) [] ∷ element Section (says OwnName "a" ∷ []) []
        ∷ []))).names (codes "a")
        ≡ Some (record { holder = Nobody; strength = Implicit; id = codes "a"; uri = None }) }
{}

/// The names of tables of contents, which are topics with a number of messages (Directives, 'Table of Contents').
pub fn tables_of_contents()
    ensures alone { PrintsRegistered 0 (element Topic (says OwnName "a b" ∷ counts TextMessages 0 ∷ []) [] ∷ [])
        ("<document>" ∷ "    <topic ids=\"a-b\" names=\"a\\ b\">" ∷ []) }
    ensures after_a_target { PrintsRegistered 0 (element Target (says OwnName "a" ∷ []) [] ∷ element Topic (says OwnName "a" ∷ counts TextMessages 0 ∷ []) []
        ∷ element Topic (says OwnName "a" ∷ counts TextMessages 0 ∷ []) [] ∷ [])
        ("<document>" ∷ "    <target ids=\"a\" names=\"a\">" ∷ "    <topic ids=\"topic-1\">" ∷ "    <topic ids=\"topic-2\">" ∷ []) }
    ensures after_a_lost_name { PrintsRegistered 0 (element Section (says OwnName "a" ∷ []) [] ∷ element Section (says OwnName "a" ∷ []) (element Title [] []
        ∷ element Topic (says OwnName "a" ∷ counts TextMessages 0 ∷ []) [] ∷ []) ∷ [])
        ("<document>" ∷ "    <section dupnames=\"a\" ids=\"a\">" ∷ "    <section dupnames=\"a\" ids=\"a-1\">" ∷ "        <title>"
        ∷ "        <system_message backrefs=\"a-1\" level=\"1\" line=\"1\" type=\"INFO\">" ∷ "            <paragraph>"
        ∷ "                Duplicate implicit target name: \"a\"." ∷ "        <topic ids=\"topic-1\">" ∷ []) }
    ensures before_a_target { PrintsRegistered 0 (element Topic (says OwnName "a" ∷ counts TextMessages 0 ∷ []) [] ∷ element Target (says OwnName "a" ∷ []) [] ∷ [])
        ("<document>" ∷ "    <topic dupnames=\"a\" ids=\"a\">" ∷ "    <system_message backrefs=\"a-1\" level=\"1\" line=\"1\" type=\"INFO\">"
        ∷ "        <paragraph>" ∷ "            Duplicate implicit target name: \"a\"." ∷ "    <target ids=\"a-1\" names=\"a\">" ∷ []) }
    ensures before_a_section { PrintsRegistered 0 (element Topic (says OwnName "a" ∷ counts TextMessages 0 ∷ []) [] ∷ element Section (says OwnName "a" ∷ []) (element Title [] []
        ∷ []) ∷ [])
        ("<document>" ∷ "    <topic dupnames=\"a\" ids=\"a\">" ∷ "    <section dupnames=\"a\" ids=\"a-1\">" ∷ "        <title>"
        ∷ "        <system_message backrefs=\"a-1\" level=\"1\" line=\"1\" type=\"INFO\">" ∷ "            <paragraph>"
        ∷ "                Duplicate implicit target name: \"a\"." ∷ []) }
    ensures other_topic { PrintsRegistered 0 (element Target (says OwnName "a" ∷ []) [] ∷ element Topic (says OwnName "a" ∷ []) [] ∷ [])
        ("<document>" ∷ "    <target dupnames=\"a\" ids=\"a\">" ∷ "    <system_message backrefs=\"a-1\" level=\"2\" line=\"1\" type=\"WARNING\">"
        ∷ "        <paragraph>" ∷ "            Duplicate explicit target name: \"a\"." ∷ "    <topic dupnames=\"a\" ids=\"a-1\">" ∷ []) }
    ensures messages_on_the_title { IsPrintedIn (with_name_messages (message_on (Some (text "here") ∷ [])) (document_element (element Topic (counts TextMessages 1 ∷ []) (element Title [] (element Target (counts Inline 1
        ∷ counts Serial 0 ∷ []) [] ∷ []) ∷ []) ∷ element SystemMessage [] [] ∷ paragraph "b" ∷ [])))
        ("<document>" ∷ "    <topic>" ∷ "        <title>" ∷ "            <target>" ∷ "        here" ∷ "    <system_message line=\"1\">" ∷ "    <paragraph>" ∷ "        b" ∷ []) }
{}

/// The ids that registration gives (Document Tree, 'Attribute Reference').
pub fn registered_ids()
    ensures ids_of_kinds { PrintsRegistered 0 (element Target [] [] ∷ element Target [] [] ∷ element Footnote [] [] ∷ [])
        ("<document>" ∷ "    <target ids=\"target-1\">" ∷ "    <target ids=\"target-2\">" ∷ "    <footnote ids=\"footnote-1\">" ∷ []) }
    ensures id_of_a_name { PrintsRegistered 0 (element Section (says OwnName "a b" ∷ []) (element Title [] [] ∷ paragraph "c" ∷ []) ∷ [])
        ("<document>" ∷ "    <section ids=\"a-b\" names=\"a\\ b\">" ∷ "        <title>" ∷ "        <paragraph>" ∷ "            c" ∷ []) }
    ensures id_that_is_taken { PrintsRegistered 0 (element Target (says OwnName "a b" ∷ []) [] ∷ element Target (says OwnName "a-b" ∷ []) [] ∷ [])
        ("<document>" ∷ "    <target ids=\"a-b\" names=\"a\\ b\">" ∷ "    <target ids=\"a-b-1\" names=\"a-b\">" ∷ []) }
    ensures number_that_is_taken { PrintsRegistered 0 (element Target (says OwnName "target-1" ∷ []) [] ∷ element Target [] [] ∷ [])
        ("<document>" ∷ "    <target ids=\"target-1\" names=\"target-1\">" ∷ "    <target ids=\"target-2\">" ∷ []) }
    ensures number_that_a_name_took { PrintsRegistered 0 (element Target (says OwnName "a 1" ∷ []) [] ∷ element Target (says OwnName "a" ∷ []) []
        ∷ element Target (says OwnName "a+" ∷ []) [] ∷ element Target (says OwnName "a-" ∷ []) [] ∷ [])
        ("<document>" ∷ "    <target ids=\"a-1\" names=\"a\\ 1\">" ∷ "    <target ids=\"a\" names=\"a\">" ∷ "    <target ids=\"a-2\" names=\"a+\">"
        ∷ "    <target ids=\"a-3\" names=\"a-\">" ∷ []) }
    ensures taken_ids { (registration 0 (document_element (element Target [] [] ∷ element Problematic [] [] ∷ []))).ids
        ≡ codes "problematic-1" ∷ codes "target-1" ∷ [] }
    ensures elements_with_numbers { (registration 0 (document_element (element Target [] [] ∷ element Problematic [] [] ∷ paragraph "b" ∷ []))).serials ≡ 1 }
{}
