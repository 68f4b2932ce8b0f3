//! Worked examples of references by name and of what footnotes and citations list of them, as theorems on the definitions alone.
#![tactic(auto, unfolding(crate::proofs::Computing::rst_transform_references))]

ghost use Rattle.std.specs.Prelude.{◌≡◌, Some, None, codes, [], ◌∷◌, map};
ghost use Rattle.rst_tree.specs.declared.key.Key.TheVariants.{Auto, Backrefs, Ids, Rawsource, Refid, Refname, Refuri, Serial};
ghost use Rattle.rst_tree.specs.declared.node.Node.TheVariants.{Element};
ghost use Rattle.rst_tree.specs.declared.tag.Tag.TheVariants.{Citation, CitationReference, Footnote, FootnoteReference, Label, Reference, Target};
ghost use Rattle.rst_tree.specs.Forest.{bare};
ghost use Rattle.rst_transform_names.specs.declared.names.Holder.TheVariants.{Element as By, Nobody, Unregistered};
ghost use Rattle.rst_transform_names.specs.declared.names.Strength.TheVariants.{Explicit};
ghost use Rattle.rst_transform_names.specs.Trees.{counts, element, lists, says, text};
ghost use Rattle.rst_transform_work.specs.declared.document.Document.{Document};
ghost use Rattle.rst_transform_work.specs.Known.{Known};
ghost use Rattle.rst_transform_work.specs.Written.{plain_document, knowing, Shows};
ghost use Rattle.rst_transform_references.specs.declared.links.Change.TheVariants.{Lists, Stays};
ghost use Rattle.rst_transform_references.specs.Links.{links_of};
ghost use Rattle.rst_transform_references.specs.Resolving.{notes_of, references, resolves_to, with_backrefs};
ghost use Rattle.rst_transform_references.specs.Written.{transformed_by};

/// What becomes of a reference, by what is known of its name (Markup Specification, 'Hyperlink References').
pub fn meanings()
    ensures not_known { map (λ r. r.text) (resolves_to [] 0 (codes "a b") None (links_of (plain_document (element Reference [] [] ∷ []))) (knowing [])).1.reports
        ≡ codes "Unknown target name: \"a b\"." ∷ [] }
    ensures lost { map (λ r. r.text) (resolves_to [] 0 (codes "a") (Some (record { holder = Nobody; strength = Explicit; id = codes "a"; uri = None }))
        (links_of (plain_document (element Reference [] [] ∷ []))) (knowing [])).1.reports
        ≡ codes "Duplicate target name, cannot be used as a unique reference: \"a\"." ∷ [] }
    ensures of_a_target { (resolves_to (Some 1 ∷ []) 0 (codes "a") (Some (record { holder = By 0; strength = Explicit; id = codes "a"; uri = None }))
        (links_of (plain_document (element Reference [] [] ∷ element Target (says Refuri "u" ∷ []) [] ∷ []))) (knowing [])).0.changes
        ≡ Stays (Some (says Refuri "u")) None ∷ Stays None None ∷ [] }
    ensures of_a_paragraph { (resolves_to [] 0 (codes "a") (Some (record { holder = Unregistered; strength = Explicit; id = codes "a"; uri = None }))
        (links_of (plain_document (element Reference [] [] ∷ []))) (knowing [])).0.changes
        ≡ Stays (Some (says Refid "a")) None ∷ [] }
    ensures of_a_citation { (resolves_to (Some 1 ∷ []) 0 (codes "a") (Some (record { holder = By 0; strength = Explicit; id = codes "a"; uri = None }))
        (links_of (plain_document (element CitationReference [] [] ∷ element Citation [] [] ∷ []))) (knowing [])).0.changes
        ≡ Stays (Some (says Refid "a")) None ∷ Stays None None ∷ [] }
    ensures no_footnote { map (λ r. r.text) (resolves_to (Some 1 ∷ []) 0 (codes "a") (Some (record { holder = By 0; strength = Explicit; id = codes "a"; uri = None }))
        (links_of (plain_document (element FootnoteReference [] [] ∷ element Target (says Refuri "u" ∷ []) [] ∷ []))) (knowing [])).1.reports
        ≡ codes "Unknown target name: \"a\"." ∷ [] }
    ensures line { map (λ r. r.line) (resolves_to [] 0 (codes "a") None (links_of (plain_document (Element Reference [] bare 9 ∷ []))) (knowing [])).1.reports ≡ 9 ∷ [] }
{}

/// References by name in a document (Markup Specification, 'Hyperlink References').
pub fn resolved()
    ensures by_name { Shows (transformed_by references ("here" ∷ []) (plain_document (element Reference (says Refname "here" ∷ []) (text "here" ∷ [])
        ∷ element Target (counts Serial 0 ∷ says Refuri "u" ∷ []) [] ∷ []))).0
        ("<document>" ∷ "    <reference refuri=\"u\">" ∷ "        here" ∷ "    <target refuri=\"u\">" ∷ []) }
    ensures to_a_footnote { Shows (transformed_by references ("f1" ∷ []) (plain_document (element FootnoteReference (lists Ids ("r1" ∷ [])
        ∷ says Refname "f1" ∷ []) (text "1" ∷ []) ∷ element Footnote (lists Ids ("f1" ∷ []) ∷ counts Serial 0 ∷ []) [] ∷ []))).0
        ("<document>" ∷ "    <footnote_reference ids=\"r1\" refid=\"f1\">" ∷ "        1" ∷ "    <footnote backrefs=\"r1\" ids=\"f1\">" ∷ []) }
    ensures without_meaning { Shows (transformed_by references [] (plain_document (element Reference (says Rawsource "`a`_" ∷ says Refname "a"
        ∷ []) (text "a" ∷ []) ∷ element Reference (says Refuri "u" ∷ []) (text "u" ∷ []) ∷ []))).0
        ("<document>" ∷ "    <problematic ids=\"problematic-1\" refid=\"system-message-1\">" ∷ "        `a`_"
        ∷ "    <reference refuri=\"u\">" ∷ "        u" ∷ []) }
    ensures shows_the_label { Shows (transformed_by references ("a" ∷ []) (plain_document (element FootnoteReference (says Auto "1" ∷ says Refname "a" ∷ []) []
        ∷ element Footnote (lists Ids ("a" ∷ []) ∷ counts Serial 0 ∷ []) (element Label [] (text "7" ∷ []) ∷ []) ∷ []))).0
        ("<document>" ∷ "    <footnote_reference auto=\"1\" refid=\"a\">" ∷ "        7" ∷ "    <footnote ids=\"a\">" ∷ "        <label>" ∷ "            7" ∷ []) }
    ensures inside_one_that_fails { let done : Document × Known = transformed_by references [] (plain_document (element Reference (says Rawsource "a_"
        ∷ says Refname "a" ∷ []) (element Reference (says Refname "b" ∷ []) [] ∷ []) ∷ [])) in
        Shows done.0 ("<document>" ∷ "    <problematic ids=\"problematic-1\" refid=\"system-message-1\">" ∷ "        a_" ∷ [])
        × (map (λ r. r.text) done.1.reports ≡ codes "Unknown target name: \"a\"." ∷ []) }
{}

/// What footnotes and citations list of the references to them (Document Tree, 'Attribute Reference').
pub fn backrefs()
    ensures in_order { let known : Known = knowing ("a" ∷ "c" ∷ []) in (with_backrefs known.names (Some 2 ∷ Some 3 ∷ []) (links_of (plain_document
        (element FootnoteReference (lists Ids ("r1" ∷ []) ∷ says Refname "a" ∷ []) [] ∷ element CitationReference (lists Ids ("r2" ∷ []) ∷ says Refname "c"
        ∷ []) [] ∷ element Footnote [] [] ∷ element Citation [] [] ∷ element FootnoteReference (lists Ids ("r3" ∷ []) ∷ says Refname "a" ∷ []) [] ∷ [])))).changes
        ≡ Stays None None ∷ Stays None None ∷ Lists [] (codes "r1" ∷ codes "r3" ∷ []) ∷ Lists [] (codes "r2" ∷ []) ∷ Stays None None ∷ [] }
{}
