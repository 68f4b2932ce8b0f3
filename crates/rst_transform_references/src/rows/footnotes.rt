//! Worked examples of footnotes, their labels and the references that find them by the order, as theorems on the definitions alone.
#![tactic(auto, unfolding(crate::proofs::Computing::rst_transform_references))]

ghost use Rattle.std.specs.Prelude.{◌≡◌, Some, None, codes, encode_utf8_all, [], ◌∷◌, map};
ghost use Rattle.rst_tree.specs.declared.key.Key.TheVariants.{Auto, Ids, Mark, Names, Rawsource, Serial};
ghost use Rattle.rst_tree.specs.declared.node.Node.TheVariants.{Element};
ghost use Rattle.rst_tree.specs.declared.tag.Tag.TheVariants.{Citation, Footnote, FootnoteReference};
ghost use Rattle.rst_tree.specs.Forest.{bare};
ghost use Rattle.rst_transform_names.specs.declared.names.Holder.TheVariants.{Element as By};
ghost use Rattle.rst_transform_names.specs.declared.names.Strength.TheVariants.{Explicit};
ghost use Rattle.rst_transform_names.specs.Trees.{counts, element, lists, says, text};
ghost use Rattle.rst_transform_work.specs.declared.document.Document.{Document};
ghost use Rattle.rst_transform_work.specs.Known.{Known};
ghost use Rattle.rst_transform_work.specs.Written.{plain_document, Shows};
ghost use Rattle.rst_transform_references.specs.declared.orders.Order.TheVariants.{Numbers, Symbols};
ghost use Rattle.rst_transform_references.specs.FootnoteLabels.{labels, symbol_label};
ghost use Rattle.rst_transform_references.specs.Footnotes.{footnotes, too_many, with_number};
ghost use Rattle.rst_transform_references.specs.Links.{links_of};
ghost use Rattle.rst_transform_references.specs.Written.{transformed_by, footnote};

/// The labels of symbol footnotes (Markup Specification, 'Auto-Symbol Footnotes').
pub fn symbols()
    ensures in_order { map symbol_label (0 ∷ 1 ∷ 2 ∷ 3 ∷ 4 ∷ 5 ∷ 6 ∷ 7 ∷ 8 ∷ 9 ∷ [])
        ≡ map (λ one. encode_utf8_all (codes one)) ("*" ∷ "†" ∷ "‡" ∷ "§" ∷ "¶" ∷ "#" ∷ "♠" ∷ "♥" ∷ "♦" ∷ "♣" ∷ []) }
    ensures doubled { map symbol_label (10 ∷ 19 ∷ 21 ∷ []) ≡ map (λ one. encode_utf8_all (codes one)) ("**" ∷ "♣♣" ∷ "†††" ∷ []) }
{}

/// The labels of footnotes (Markup Specification, 'Auto-Numbered Footnotes').
pub fn numbers()
    ensures written_numbers { labels (links_of (plain_document (footnote "#" [] ∷ footnote "1" [] ∷ footnote "#a" [] ∷ footnote "3" []
        ∷ footnote "#" [] ∷ [])))
        ≡ (0, codes "2") ∷ (4, codes "4") ∷ (8, codes "5") ∷ [] }
    ensures leading_zero { labels (links_of (plain_document (element Footnote (says Mark "01" ∷ []) [] ∷ element Footnote (says Mark "#" ∷ []) []
        ∷ [])))
        ≡ (1, codes "1") ∷ [] }
    ensures named_by_a_number { labels (links_of (plain_document (element Footnote (says Mark "#1" ∷ []) [] ∷ element Footnote (says Mark "#" ∷ []) []
        ∷ [])))
        ≡ (0, codes "1") ∷ (1, codes "2") ∷ [] }
    ensures citation { labels (links_of (plain_document (element Citation [] [] ∷ element Footnote (says Mark "*" ∷ []) []
        ∷ element Footnote (says Mark "#" ∷ []) [] ∷ [])))
        ≡ (2, codes "1") ∷ (1, codes "*") ∷ [] }
{}

/// References without names, and the footnotes that they find (Markup Specification, 'Auto-Numbered Footnotes').
pub fn references()
    ensures numbered { Shows (transformed_by footnotes [] (plain_document (element FootnoteReference (says Auto "1" ∷ lists Ids ("footnote-reference-1" ∷ []) ∷ []) []
        ∷ footnote "#" (says Auto "1" ∷ lists Ids ("footnote-1" ∷ []) ∷ []) ∷ footnote "1" (lists Ids ("footnote-2" ∷ []) ∷ lists Names ("1" ∷ [])
        ∷ []) ∷ []))).0
        ("<document>" ∷ "    <footnote_reference auto=\"1\" ids=\"footnote-reference-1\" refid=\"footnote-1\">" ∷ "        2"
        ∷ "    <footnote auto=\"1\" ids=\"footnote-1\" names=\"2\">" ∷ "        <label>" ∷ "            2"
        ∷ "    <footnote ids=\"footnote-2\" names=\"1\">" ∷ "        <label>" ∷ "            1" ∷ []) }
    ensures symbol { Shows (transformed_by footnotes [] (plain_document (element FootnoteReference (says Auto "*" ∷ []) [] ∷ footnote "*" (says Auto "*"
        ∷ lists Ids ("footnote-1" ∷ "x" ∷ []) ∷ []) ∷ []))).0
        ("<document>" ∷ "    <footnote_reference auto=\"*\" refid=\"footnote-1\">" ∷ "        *" ∷ "    <footnote auto=\"*\" ids=\"footnote-1 x\">"
        ∷ "        <label>" ∷ "            *" ∷ []) }
    ensures of_a_name { Shows (transformed_by footnotes [] (plain_document (footnote "#a" (says Auto "1" ∷ lists Names ("a" ∷ []) ∷ []) ∷ []))).0
        ("<document>" ∷ "    <footnote auto=\"1\" names=\"a\">" ∷ "        <label>" ∷ "            1" ∷ []) }
    ensures further_name { Shows (transformed_by footnotes [] (plain_document (footnote "#" (lists Names ("x" ∷ []) ∷ []) ∷ []))).0
        ("<document>" ∷ "    <footnote names=\"x 1\">" ∷ "        <label>" ∷ "            1" ∷ []) }
{}

/// References that find no footnote (Markup Specification, 'Auto-Numbered Footnotes').
pub fn left_over()
    ensures numbered { too_many Numbers 1 ≡ codes "Too many autonumbered footnote references: only 1 corresponding footnotes available." }
    ensures symbol { too_many Symbols 0 ≡ codes "Too many symbol footnote references: only 0 corresponding footnotes available." }
    ensures known_number { with_number (codes "1") (footnote "#" (lists Ids ("footnote-1" ∷ []) ∷ counts Serial 4 ∷ [])) (λ name. None) (codes "1")
        ≡ Some (record { holder = By 4; strength = Explicit; id = codes "footnote-1"; uri = None }) }
    ensures problematics { let done : Document × Known = transformed_by footnotes [] (plain_document (Element FootnoteReference (says Auto "*"
        ∷ says Rawsource "[*]_" ∷ []) bare 2 ∷ element FootnoteReference (says Auto "1" ∷ []) [] ∷ footnote "#" (lists Ids ("footnote-1" ∷ []) ∷ [])
        ∷ Element FootnoteReference (says Auto "1" ∷ says Rawsource "[#]_" ∷ []) bare 4 ∷ [])) in
        Shows done.0 ("<document>" ∷ "    <problematic ids=\"problematic-2\" refid=\"system-message-2\">" ∷ "        [*]_"
        ∷ "    <footnote_reference auto=\"1\" refid=\"footnote-1\">" ∷ "        1" ∷ "    <footnote ids=\"footnote-1\" names=\"1\">"
        ∷ "        <label>" ∷ "            1" ∷ "    <problematic ids=\"problematic-1\" refid=\"system-message-1\">" ∷ "        [#]_" ∷ [])
        × (map (λ r. r.line) done.1.reports ≡ 4 ∷ 2 ∷ [])
        × (map (λ r. r.text) done.1.reports ≡ codes "Too many autonumbered footnote references: only 1 corresponding footnotes available."
        ∷ codes "Too many symbol footnote references: only 0 corresponding footnotes available." ∷ []) }
{}

/// Numbers that footnotes hold as names (Markup Specification, 'Auto-Numbered Footnotes').
pub fn numbers_as_names()
    ensures registered { map (transformed_by footnotes ("2" ∷ []) (plain_document (footnote "#" (lists Ids ("footnote-1" ∷ []) ∷ counts Serial 4 ∷ [])
        ∷ footnote "#a" (lists Ids ("a" ∷ []) ∷ counts Serial 5 ∷ []) ∷ footnote "#" (lists Ids ("footnote-2" ∷ []) ∷ counts Serial 6 ∷ [])
        ∷ []))).1.names (codes "1" ∷ codes "2" ∷ codes "3" ∷ [])
        ≡ Some (record { holder = By 4; strength = Explicit; id = codes "footnote-1"; uri = None })
        ∷ Some (record { holder = By 0; strength = Explicit; id = codes "2"; uri = None })
        ∷ Some (record { holder = By 6; strength = Explicit; id = codes "footnote-2"; uri = None }) ∷ [] }
{}
