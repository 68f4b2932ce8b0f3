//! Worked examples of anonymous references and indirect targets, as theorems on the definitions alone.
#![tactic(auto, unfolding(crate::proofs::Computing::rst_transform_references))]

ghost use Rattle.std.specs.Prelude.{◌≡◌, Some, None, codes, [], ◌∷◌, map};
ghost use Rattle.rst_tree.specs.declared.key.Key.TheVariants.{Anonymous, Ids, Inline, OwnName, Rawsource, Refid, Refname, Refuri, Serial};
ghost use Rattle.rst_tree.specs.declared.node.Node.TheVariants.{Element};
ghost use Rattle.rst_tree.specs.declared.tag.Tag.TheVariants.{Citation, Footnote, Reference, Target};
ghost use Rattle.rst_tree.specs.Forest.{bare};
ghost use Rattle.rst_transform_names.specs.declared.names.Holder.TheVariants.{Element as By, Nobody};
ghost use Rattle.rst_transform_names.specs.declared.names.Strength.TheVariants.{Explicit};
ghost use Rattle.rst_transform_names.specs.Trees.{counts, element, lists, says, text};
ghost use Rattle.rst_transform_work.specs.declared.document.Document.{Document};
ghost use Rattle.rst_transform_work.specs.Known.{Known};
ghost use Rattle.rst_transform_work.specs.Written.{plain_document, Shows};
ghost use Rattle.rst_transform_references.specs.declared.chains.Answer.TheVariants.{Missing};
ghost use Rattle.rst_transform_references.specs.declared.chains.Step.TheVariants.{Ends};
ghost use Rattle.rst_transform_references.specs.Anonymous.{anonymous, first_line, mismatch};
ghost use Rattle.rst_transform_references.specs.Chains.{indirect_name, step_to};
ghost use Rattle.rst_transform_references.specs.Indirect.{circular_text, indirect, missing_text, own_name, references_to};
ghost use Rattle.rst_transform_references.specs.Links.{links_of};
ghost use Rattle.rst_transform_references.specs.Written.{alias, holder_after, transformed_by};

/// Anonymous references take the anonymous targets in order (Markup Specification, 'Anonymous Hyperlinks').
pub fn anonymous()
    ensures to_a_uri { Shows (transformed_by anonymous [] (plain_document (element Reference (counts Anonymous 1 ∷ []) (text "a" ∷ [])
        ∷ element Target (counts Anonymous 1 ∷ lists Ids ("target-1" ∷ []) ∷ says Refuri "u" ∷ []) [] ∷ []))).0
        ("<document>" ∷ "    <reference anonymous=\"1\" refuri=\"u\">" ∷ "        a" ∷ "    <target anonymous=\"1\" ids=\"target-1\" refuri=\"u\">"
        ∷ []) }
    ensures in_order { Shows (transformed_by anonymous [] (plain_document (element Reference (counts Anonymous 1 ∷ []) [] ∷ element Target (says Refuri "x" ∷ []) []
        ∷ element Target (counts Anonymous 1 ∷ says Refuri "u" ∷ []) [] ∷ element Target (counts Anonymous 1 ∷ says Refid "v" ∷ []) []
        ∷ element Reference [] [] ∷ element Reference (counts Anonymous 1 ∷ []) [] ∷ []))).0
        ("<document>" ∷ "    <reference anonymous=\"1\" refuri=\"u\">" ∷ "    <target refuri=\"x\">" ∷ "    <target anonymous=\"1\" refuri=\"u\">"
        ∷ "    <target anonymous=\"1\" refid=\"v\">" ∷ "    <reference>" ∷ "    <reference anonymous=\"1\" refid=\"v\">" ∷ []) }
    ensures to_itself { Shows (transformed_by anonymous [] (plain_document (element Reference (counts Anonymous 1 ∷ []) [] ∷ element Target (counts Anonymous 1
        ∷ lists Ids ("target-1" ∷ []) ∷ []) [] ∷ []))).0
        ("<document>" ∷ "    <reference anonymous=\"1\" refid=\"target-1\">" ∷ "    <target anonymous=\"1\" ids=\"target-1\">" ∷ []) }
    ensures to_an_indirect_one { Shows (transformed_by anonymous [] (plain_document (element Reference (counts Anonymous 1 ∷ []) [] ∷ element Target (counts Anonymous 1
        ∷ lists Ids ("target-1" ∷ []) ∷ says Refname "b" ∷ []) [] ∷ []))).0
        ("<document>" ∷ "    <reference anonymous=\"1\">" ∷ "    <target anonymous=\"1\" ids=\"target-1\">" ∷ []) }
    ensures mismatched { let done : Document × Known = transformed_by anonymous [] (plain_document (Element Reference (counts Anonymous 1
        ∷ says Rawsource "a__" ∷ []) bare 3 ∷ element Reference [] [] ∷ element Reference (counts Anonymous 1 ∷ says Rawsource "b__" ∷ []) []
        ∷ element Target (counts Anonymous 1 ∷ []) [] ∷ [])) in
        Shows done.0 ("<document>" ∷ "    <problematic ids=\"problematic-1\" refid=\"system-message-1\">" ∷ "        a__" ∷ "    <reference>"
        ∷ "    <problematic ids=\"problematic-2\" refid=\"system-message-1\">" ∷ "        b__" ∷ "    <target anonymous=\"1\">" ∷ [])
        × (map (λ r. r.line) done.1.reports ≡ 3 ∷ [])
        × (map (λ r. r.text) done.1.reports ≡ codes "Anonymous hyperlink mismatch: 2 references but 1 targets." ∷ []) }
    ensures message { mismatch 2 10 ≡ codes "Anonymous hyperlink mismatch: 2 references but 10 targets." }
    ensures line_of_a_reference { first_line (0 ∷ 1 ∷ []) (2 ∷ []) (links_of (plain_document (Element Reference [] bare 5 ∷ Element Reference [] bare 6
        ∷ Element Target [] bare 3 ∷ [])))
        ≡ 5 }
    ensures line_of_a_target { first_line [] (0 ∷ 1 ∷ []) (links_of (plain_document (Element Target [] bare 3 ∷ Element Target [] bare 4 ∷ []))) ≡ 3 }
{}

/// Indirect targets, and the messages on those that fail (Markup Specification, 'Hyperlink Targets').
pub fn indirect()
    ensures name { map indirect_name (element Target (says Refname "b" ∷ []) [] ∷ element Reference (says Refname "b" ∷ []) []
        ∷ element Target [] [] ∷ [])
        ≡ Some (codes "b") ∷ None ∷ None ∷ [] }
    ensures lost_name { step_to [] (links_of (plain_document [])) (codes "a") (Some (record { holder = Nobody; strength = Explicit; id = codes "a"; uri = None }))
        ≡ Ends (Missing (codes "a")) }
    ensures missing { missing_text (codes "a") (codes "b")
        ≡ codes "Indirect hyperlink target \"a\" refers to target \"b\", which does not exist." }
    ensures circle { circular_text (own_name (element Target (says OwnName "a" ∷ []) [])) ≡ codes "Indirect hyperlink target \"a\" is circular." }
    ensures anonymous_target { circular_text (own_name (element Target [] [])) ≡ codes "Indirect hyperlink target \"\" is circular." }
    ensures one_message_each { map (λ r. r.line) (transformed_by indirect [] (plain_document (Element Target (says Refname "b" ∷ []) bare 3
        ∷ Element Target (says Refname "a" ∷ []) bare 4 ∷ []))).1.reports
        ≡ 3 ∷ 4 ∷ [] }
    ensures references { map (references_to (None ∷ Some 3 ∷ Some 4 ∷ None ∷ Some 3 ∷ [])) (3 ∷ 4 ∷ 0 ∷ []) ≡ (1 ∷ 4 ∷ []) ∷ (2 ∷ []) ∷ [] ∷ [] }
    ensures message_by_message { let done : Document × Known = transformed_by indirect ("a" ∷ "b" ∷ []) (plain_document (element Target (counts Serial 0
        ∷ says Refname "x" ∷ []) [] ∷ element Target (counts Serial 1 ∷ says Refname "y" ∷ []) [] ∷ element Reference (says Refname "b"
        ∷ says Rawsource "b_" ∷ []) [] ∷ element Reference (says Refname "a" ∷ says Rawsource "a_" ∷ []) [] ∷ [])) in
        Shows done.0 ("<document>" ∷ "    <target>" ∷ "    <target>" ∷ "    <problematic ids=\"problematic-2\" refid=\"system-message-2\">"
        ∷ "        b_" ∷ "    <problematic ids=\"problematic-1\" refid=\"system-message-1\">" ∷ "        a_" ∷ []) }
{}

/// Which element has a name that an alias has, too (Markup Specification, 'Embedded URIs and Aliases').
pub fn aliases()
    ensures first_of_two { holder_after (Some 0 ∷ Some 1 ∷ []) (alias 0 ∷ alias 1 ∷ []) [] ≡ Some (By 0) }
    ensures before_a_target { holder_after (Some 1 ∷ Some 0 ∷ []) (alias 1 ∷ element Target (says Refuri "u" ∷ []) [] ∷ []) ("a" ∷ []) ≡ Some (By 1) }
    ensures after_a_target { holder_after (Some 0 ∷ Some 1 ∷ []) (element Target (says Refuri "u" ∷ []) [] ∷ alias 1 ∷ []) ("a" ∷ []) ≡ Some (By 1) }
    ensures before_an_indirect_target { holder_after (Some 1 ∷ Some 0 ∷ []) (alias 1 ∷ element Target (says Refname "c" ∷ []) [] ∷ []) ("a" ∷ []) ≡ Some (By 1) }
    ensures after_an_indirect_target { holder_after (Some 0 ∷ Some 1 ∷ []) (element Target (says Refname "c" ∷ []) [] ∷ alias 1 ∷ []) ("a" ∷ []) ≡ Some (By 0) }
    ensures after_a_footnote { holder_after (Some 0 ∷ Some 1 ∷ []) (element Footnote [] [] ∷ alias 1 ∷ []) ("a" ∷ []) ≡ Some (By 0) }
    ensures before_a_citation { holder_after (Some 1 ∷ Some 0 ∷ []) (alias 1 ∷ element Citation [] [] ∷ []) ("a" ∷ []) ≡ Some (By 0) }
    ensures in_no_text { holder_after (Some 0 ∷ []) (element Target (says OwnName "a" ∷ says Refname "b" ∷ counts Serial 0 ∷ []) [] ∷ []) [] ≡ None }
{}

/// Indirect targets lead where their chains of names end (Markup Specification, 'Hyperlink Targets').
pub fn chains()
    ensures to_a_uri { Shows (transformed_by indirect ("a" ∷ "b" ∷ []) (plain_document (element Reference (counts Anonymous 1 ∷ []) (text "x" ∷ [])
        ∷ element Target (counts Anonymous 1 ∷ lists Ids ("target-1" ∷ []) ∷ says Refname "a" ∷ []) []
        ∷ element Target (counts Serial 0 ∷ says Refname "b" ∷ []) [] ∷ element Target (counts Serial 1 ∷ says Refuri "u" ∷ []) [] ∷ []))).0
        ("<document>" ∷ "    <reference anonymous=\"1\" refuri=\"u\">" ∷ "        x" ∷ "    <target anonymous=\"1\" ids=\"target-1\" refuri=\"u\">"
        ∷ "    <target refuri=\"u\">" ∷ "    <target refuri=\"u\">" ∷ []) }
    ensures to_an_id { Shows (transformed_by indirect ("a" ∷ "b" ∷ []) (plain_document (element Target (counts Serial 0 ∷ says Refname "b" ∷ []) []
        ∷ element Footnote (counts Serial 1 ∷ []) [] ∷ []))).0 ("<document>" ∷ "    <target refid=\"b\">" ∷ "    <footnote>" ∷ []) }
    ensures to_an_element_of_no_link { Shows (transformed_by indirect ("a" ∷ "b" ∷ []) (plain_document (element Target (counts Serial 0
        ∷ says Refname "b" ∷ []) [] ∷ []))).0 ("<document>" ∷ "    <target refid=\"b\">" ∷ []) }
    ensures circle { let done : Document × Known = transformed_by indirect ("a" ∷ "b" ∷ []) (plain_document (element Target (counts Serial 0
        ∷ says OwnName "a" ∷ says Refname "b" ∷ []) [] ∷ element Target (counts Serial 1 ∷ says OwnName "b" ∷ says Refname "a" ∷ []) []
        ∷ element Reference (says Refname "b" ∷ says Rawsource "b_" ∷ []) [] ∷ [])) in
        Shows done.0 ("<document>" ∷ "    <target>" ∷ "    <target>" ∷ "    <problematic ids=\"problematic-1\" refid=\"system-message-1\">"
        ∷ "        b_" ∷ [])
        × (map (λ r. r.text) done.1.reports ≡ codes "Indirect hyperlink target \"a\" is circular."
        ∷ codes "Indirect hyperlink target \"b\" is circular." ∷ []) }
    ensures into_a_circle { map (λ r. r.text) (transformed_by indirect ("a" ∷ "b" ∷ []) (plain_document (element Target (says OwnName "c"
        ∷ says Refname "a" ∷ []) [] ∷ element Target (counts Serial 0 ∷ says OwnName "a" ∷ says Refname "a" ∷ []) [] ∷ []))).1.reports
        ≡ codes "Indirect hyperlink target \"c\" is circular." ∷ codes "Indirect hyperlink target \"a\" is circular." ∷ [] }
    ensures missing_name { let done : Document × Known = transformed_by indirect ("a" ∷ []) (plain_document (element Target (says OwnName "c"
        ∷ says Refname "a" ∷ []) [] ∷ element Target (counts Serial 0 ∷ says OwnName "a" ∷ says Refname "b" ∷ []) []
        ∷ element Reference (says Refname "a" ∷ says Rawsource "a_" ∷ []) [] ∷ [])) in
        Shows done.0 ("<document>" ∷ "    <target>" ∷ "    <target>" ∷ "    <problematic ids=\"problematic-1\" refid=\"system-message-1\">"
        ∷ "        a_" ∷ [])
        × (map (λ r. r.text) done.1.reports ≡ codes "Indirect hyperlink target \"c\" refers to target \"b\", which does not exist."
        ∷ codes "Indirect hyperlink target \"a\" refers to target \"b\", which does not exist." ∷ []) }
    ensures alias_that_names_itself { Shows (transformed_by indirect ("a" ∷ "" ∷ []) (plain_document (element Target (counts Inline 1 ∷ says OwnName "a"
        ∷ says Refname "a" ∷ counts Serial 1 ∷ []) [] ∷ element Target (says Refuri "u" ∷ counts Serial 0 ∷ []) [] ∷ []))).0
        ("<document>" ∷ "    <target refuri=\"u\">" ∷ "    <target refuri=\"u\">" ∷ []) }
    ensures step_to_an_alias_before { Shows (transformed_by indirect ("c" ∷ "" ∷ "b" ∷ []) (plain_document (element Target (counts Inline 1 ∷ says OwnName "a"
        ∷ says Refname "c" ∷ counts Serial 1 ∷ []) [] ∷ element Target (says OwnName "b" ∷ says Refname "a" ∷ counts Serial 2 ∷ []) []
        ∷ element Target (says Refuri "u" ∷ counts Serial 0 ∷ []) [] ∷ []))).0
        ("<document>" ∷ "    <target refuri=\"u\">" ∷ "    <target refuri=\"u\">" ∷ "    <target refuri=\"u\">" ∷ []) }
    ensures no_step_to_an_alias_after { map (λ r. r.text) (transformed_by indirect ("c" ∷ "" ∷ "b" ∷ []) (plain_document (element Target (says OwnName "b" ∷ says Refname "a" ∷ counts Serial 2
        ∷ []) [] ∷ element Target (counts Inline 1 ∷ says OwnName "a" ∷ says Refname "c" ∷ counts Serial 1 ∷ []) [] ∷ []))).1.reports
        ≡ codes "Indirect hyperlink target \"b\" refers to target \"a\", which does not exist." ∷ [] }
    ensures left_to_a_later_transform { Shows (transformed_by indirect ("a" ∷ "b" ∷ []) (plain_document (element Reference (says Refname "a" ∷ []) []
        ∷ element Target (counts Serial 0 ∷ says Refname "b" ∷ []) [] ∷ element Target (counts Serial 1 ∷ says Refuri "u" ∷ []) [] ∷ []))).0
        ("<document>" ∷ "    <reference>" ∷ "    <target refuri=\"u\">" ∷ "    <target refuri=\"u\">" ∷ []) }
{}
