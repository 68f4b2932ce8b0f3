//! Worked examples of the elements that references join, of how those that fail end, of the orders of footnotes, and of where names lead, as
//! theorems on the definitions alone.
#![tactic(auto, unfolding(crate::proofs::Computing::rst_transform_references))]

ghost use Rattle.std.specs.Prelude.{◌≡◌, Some, None, codes, [], ◌∷◌, ℕ, map};
ghost use Rattle.rst_tree.specs.declared.key.Key.TheVariants.{Auto, Backrefs, Ids, Mark, Names, Rawsource, Refid, Refname, Refuri, Serial};
ghost use Rattle.rst_tree.specs.declared.node.Node.TheVariants.{Element};
ghost use Rattle.rst_tree.specs.declared.tag.Tag.TheVariants.{BlockQuote, Footnote, FootnoteReference, Label, Paragraph, Reference, Target};
ghost use Rattle.rst_tree.specs.Forest.{bare};
ghost use Rattle.rst_tree.specs.Nodes.{forest_of};
ghost use Rattle.rst_transform_names.specs.declared.names.Holder.TheVariants.{Element as By, Nobody, Unregistered};
ghost use Rattle.rst_transform_names.specs.declared.names.NameEntry.{NameEntry};
ghost use Rattle.rst_transform_names.specs.declared.names.Strength.TheVariants.{Explicit};
ghost use Rattle.rst_transform_names.specs.Trees.{counts, element, lists, says, text};
ghost use Rattle.rst_transform_work.specs.declared.document.Document.{Document};
ghost use Rattle.rst_transform_work.specs.Known.{Known};
ghost use Rattle.rst_transform_work.specs.Reading.{line_of};
ghost use Rattle.rst_transform_work.specs.Written.{plain_document, knowing, Shows};
ghost use Rattle.rst_transform_references.specs.declared.links.Change.TheVariants.{Failed, Lists, Stays};
ghost use Rattle.rst_transform_references.specs.declared.orders.Order.TheVariants.{Numbers, Symbols};
ghost use Rattle.rst_transform_references.specs.Changes.{changed_document};
ghost use Rattle.rst_transform_references.specs.Failing.{fail_for};
ghost use Rattle.rst_transform_references.specs.Holders.{holder_place, places_by_number};
ghost use Rattle.rst_transform_references.specs.Leads.{lead_at, name_lead};
ghost use Rattle.rst_transform_references.specs.Links.{each, links_of};
ghost use Rattle.rst_transform_references.specs.Orders.{pairs_by, references_by};
ghost use Rattle.rst_transform_references.specs.Written.{transformed_by};

/// The elements that references join, in the order of the document (Markup Specification, 'Hyperlink References').
pub fn linked()
    ensures in_order { map line_of (links_of (plain_document (Element Target [] bare 1 ∷ Element Footnote [] (forest_of (Element Reference [] (forest_of (element BlockQuote []
        (Element Target [] bare 4 ∷ []) ∷ [])) 3 ∷ Element Reference [] bare 5 ∷ [])) 2 ∷ []))).linked
        ≡ 1 ∷ 2 ∷ 3 ∷ 4 ∷ 5 ∷ [] }
    ensures stay { (links_of (plain_document (element Paragraph [] (element Reference [] [] ∷ []) ∷ element Target [] [] ∷ []))).changes
        ≡ Stays None None ∷ Stays None None ∷ [] }
{}

/// References without names find the footnotes of their kind in order (Markup Specification, 'Auto-Numbered Footnotes').
pub fn footnotes_by_order()
    ensures each_kind { map (λ order. pairs_by order (links_of (plain_document (element FootnoteReference (says Auto "1" ∷ []) []
        ∷ element FootnoteReference (says Auto "*" ∷ []) [] ∷ element FootnoteReference (says Auto "1" ∷ []) [] ∷ element Footnote (says Mark "*"
        ∷ []) [] ∷ element Footnote (says Mark "#" ∷ []) [] ∷ element Footnote (says Mark "#" ∷ []) [] ∷ [])))) (Numbers ∷ Symbols ∷ [])
        ≡ ((0, 4) ∷ (2, 5) ∷ []) ∷ ((1, 3) ∷ []) ∷ [] }
    ensures left_over { pairs_by Numbers (links_of (plain_document (element FootnoteReference (says Auto "1" ∷ []) []
        ∷ element FootnoteReference (says Auto "1" ∷ []) [] ∷ element Footnote (says Mark "#" ∷ []) [] ∷ [])))
        ≡ (0, 2) ∷ [] }
    ensures of_all { references_by Numbers (links_of (plain_document (element FootnoteReference (says Auto "1" ∷ []) []
        ∷ element FootnoteReference (says Auto "1" ∷ []) [] ∷ element Footnote (says Mark "#" ∷ []) [] ∷ [])))
        ≡ 0 ∷ 1 ∷ [] }
    ensures with_names { pairs_by Numbers (links_of (plain_document (element FootnoteReference (says Auto "1" ∷ says Refname "a" ∷ []) []
        ∷ element FootnoteReference (says Auto "1" ∷ []) [] ∷ element Footnote (says Mark "#a" ∷ []) [] ∷ element Footnote (says Mark "1" ∷ []) []
        ∷ element Footnote (says Mark "#" ∷ []) [] ∷ [])))
        ≡ (1, 4) ∷ [] }
{}

/// Where targets and names lead (Markup Specification, 'Hyperlink Targets').
pub fn leads()
    ensures to_a_uri { lead_at 0 (links_of (plain_document (element Target (says Refid "a" ∷ says Refuri "u" ∷ []) [] ∷ []))) ≡ Some (says Refuri "u") }
    ensures to_an_id { lead_at 0 (links_of (plain_document (element Target (lists Ids ("b" ∷ []) ∷ says Refid "a" ∷ []) [] ∷ []))) ≡ Some (says Refid "a") }
    ensures nowhere { lead_at 0 (links_of (plain_document (element Target (lists Ids ("b" ∷ []) ∷ []) [] ∷ []))) ≡ None }
    ensures through_a_target { name_lead (Some 0) (record { holder = By 0; strength = Explicit; id = codes "b"; uri = None }) (links_of (plain_document
        (element Target (says Refid "a" ∷ []) [] ∷ [])))
        ≡ says Refid "a" }
    ensures to_its_own_id { name_lead (Some 0) (record { holder = By 0; strength = Explicit; id = codes "x"; uri = None }) (links_of (plain_document
        (element Footnote (lists Ids ("footnote-1" ∷ "x" ∷ []) ∷ []) [] ∷ [])))
        ≡ says Refid "x" }
    ensures to_its_own_uri { name_lead None (record { holder = Unregistered; strength = Explicit; id = codes "x"; uri = Some (codes "u") }) (links_of (plain_document []))
        ≡ says Refuri "u" }
{}

/// The places of the elements that have names (Markup Specification, 'Hyperlink Targets').
pub fn holders()
    ensures last_of_a_number { places_by_number 2 (links_of (plain_document (element Target (counts Serial 0 ∷ []) [] ∷ element Target (counts Serial 1
        ∷ []) [] ∷ element Target (counts Serial 1 ∷ []) [] ∷ [])))
        ≡ Some 0 ∷ Some 2 ∷ [] }
    ensures no_element { map (holder_place (Some 0 ∷ None ∷ [])) (By 0 ∷ By 1 ∷ By 2 ∷ Nobody ∷ Unregistered ∷ []) ≡ Some 0 ∷ None ∷ None ∷ None ∷ None ∷ [] }
{}

/// What becomes of the elements (Markup Specification, 'Hyperlink Targets').
pub fn changes()
    ensures addition { Shows (changed_document (Stays (Some (says Refuri "u")) None ∷ Stays None (Some (codes "1")) ∷ Lists (codes "2" ∷ []) (codes "r1" ∷ [])
        ∷ []) (plain_document (element Reference [] (text "a" ∷ []) ∷ element Label [] (text "x" ∷ []) ∷ element Footnote [] [] ∷ [])))
        ("<document>" ∷ "    <reference refuri=\"u\">" ∷ "        a" ∷ "    <label>" ∷ "        1" ∷ "    <footnote backrefs=\"r1\" names=\"2\">" ∷ []) }
    ensures problematic { Shows (changed_document (Failed (lists Ids ("problematic-1" ∷ []) ∷ []) 1 ∷ Stays None None ∷ Stays (Some (says Refuri "u")) None
        ∷ []) (plain_document (element Reference (says Rawsource "`a`_" ∷ []) (element Reference [] [] ∷ []) ∷ element Reference [] [] ∷ [])))
        ("<document>" ∷ "    <problematic ids=\"problematic-1\">" ∷ "        `a`_" ∷ "    <reference refuri=\"u\">" ∷ []) }
{}

/// Elements that fail (Markup Specification, 'Error Handling').
pub fn failing()
    ensures gone_with_the_outer { let document : Document = plain_document (element Footnote (says Rawsource "b" ∷ []) (element Reference (says Rawsource "a" ∷ []) [] ∷ [])
        ∷ element Reference (says Rawsource "c" ∷ []) [] ∷ []) in
        Shows (transformed_by (fail_for (0 ∷ 1 ∷ 2 ∷ []) 1 (codes "It fails.")) [] document).0
        ("<document>" ∷ "    <problematic ids=\"problematic-1\" refid=\"system-message-1\">" ∷ "        b"
        ∷ "    <problematic ids=\"problematic-2\" refid=\"system-message-1\">" ∷ "        c" ∷ []) }
    ensures before_the_outer { let done : Document × Known = transformed_by (each (λ place. fail_for (place ∷ []) 1 (codes "It fails.")) (1 ∷ 0 ∷ [])) []
        (plain_document (element Footnote (says Rawsource "b" ∷ []) (element Reference (says Rawsource "a" ∷ []) [] ∷ []) ∷ [])) in
        Shows done.0 ("<document>" ∷ "    <problematic ids=\"problematic-2\" refid=\"system-message-2\">" ∷ "        b" ∷ [])
        × (map (λ r. r.backrefs) done.1.reports ≡ (codes "problematic-1" ∷ []) ∷ (codes "problematic-2" ∷ []) ∷ []) }
{}
