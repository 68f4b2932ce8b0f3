//! Worked examples of records.
#![tactic(auto, unfolding(crate::proofs::Computing::rst_json))]

ghost use Rattle.std.specs.Prelude.{◌≡◌, ◌++◌, None, codes, [], ◌∷◌};
ghost use Rattle.std.specs.List.{flat_map};
ghost use Rattle.rst_json.specs.Records.{attr_record, node_record, word};
ghost use Rattle.rst_json.specs.Written.{eight, utf8};
ghost use Rattle.rst_tree.specs.Attributes.{attr};
ghost use Rattle.rst_tree.specs.Forest.{bare, element, words};
ghost use Rattle.rst_tree.specs.PrintedAttributes.{with_printed_attrs};
ghost use Rattle.rst_tree.specs.declared.attrs.Value.TheVariants.{Text, Number, List as Listed};
ghost use Rattle.rst_tree.specs.declared.key.Key.TheVariants as key;
ghost use Rattle.rst_tree.specs.declared.node.Node.TheVariants.{Element, Text as Words};
ghost use Rattle.rst_tree.specs.declared.tag.Tag.TheVariants as tag;

/// Numbers, and the records of nodes (Records, 'Nodes and attributes').
pub fn nodes()
    ensures number { word 258 ≡ 2 ∷ 1 ∷ 0 ∷ 0 ∷ 0 ∷ 0 ∷ 0 ∷ 0 ∷ [] }
    ensures number_of_eight_bytes { word 578437695752307201 ≡ 1 ∷ 2 ∷ 3 ∷ 4 ∷ 5 ∷ 6 ∷ 7 ∷ 8 ∷ [] }
    ensures largest_number { word 18446744073709551615 ≡ 255 ∷ 255 ∷ 255 ∷ 255 ∷ 255 ∷ 255 ∷ 255 ∷ 255 ∷ [] }
    ensures text { node_record (Words (codes "ab")) ≡ eight 3 ++ (0 ∷ codes "ab") }
    ensures empty_text { node_record (Words []) ≡ eight 1 ++ (0 ∷ []) }
    ensures text_beyond_ascii { node_record (Words (utf8 "é")) ≡ eight 3 ++ (0 ∷ 195 ∷ 169 ∷ []) }
    ensures without_nodes { node_record (Element tag.Transition [] bare 7) ≡ eight 35 ++ (1 ∷ (eight 7 ++ eight 10 ++ codes "transition" ++ eight 0)) }
    ensures with_nodes { node_record (Element tag.Paragraph [] (words (codes "ab") (element tag.Emphasis [] (words (codes "c") bare) 3 (words (codes ".") bare))) 2)
        ≡ eight 106 ++ (1 ∷ (eight 2 ++ eight 9 ++ codes "paragraph" ++ eight 0
        ++ eight 3 ++ (0 ∷ codes "ab")
        ++ eight 43 ++ (1 ∷ (eight 3 ++ eight 8 ++ codes "emphasis" ++ eight 0 ++ eight 2 ++ (0 ∷ codes "c")))
        ++ eight 2 ++ (0 ∷ codes "."))) }
{}

/// The records of attributes (Records, 'Nodes and attributes').
pub fn attributes()
    ensures text { attr_record (attr key.Refid (Text (codes "a-1"))) ≡ eight 17 ++ eight 5 ++ codes "refid" ++ (0 ∷ codes "a-1") }
    ensures empty_text { attr_record (attr key.Alt (Text [])) ≡ eight 12 ++ eight 3 ++ codes "alt" ++ (0 ∷ []) }
    ensures number { attr_record (attr key.Cols (Number 12)) ≡ eight 21 ++ eight 4 ++ codes "cols" ++ (1 ∷ eight 12) }
    ensures list { attr_record (attr key.Ids (Listed (codes "a" ∷ codes "bc" ∷ [])))
        ≡ eight 31 ++ eight 3 ++ codes "ids" ++ (2 ∷ (eight 1 ++ codes "a" ++ eight 2 ++ codes "bc")) }
    ensures empty_lists { flat_map (λ k. attr_record (attr k (Listed []))) (key.Backrefs ∷ key.Classes ∷ key.Dupnames ∷ key.Ids ∷ key.Names ∷ []) ≡ [] }
    ensures of_transforms { flat_map (λ k. attr_record (attr k (Number 1)))
        (key.Inline ∷ key.Mark ∷ key.Message ∷ key.OwnName ∷ key.Rawsource ∷ key.Refname ∷ key.Serial ∷ key.TextMessages ∷ []) ≡ [] }
    ensures message { node_record (with_printed_attrs None (Element tag.SystemMessage (attr key.Level (Number 2) ∷ []) bare 4))
        ≡ eight 126 ++ (1 ∷ (eight 4 ++ eight 14 ++ codes "system_message" ++ eight 87
        ++ eight 22 ++ eight 5 ++ codes "level" ++ (1 ∷ eight 2)
        ++ eight 21 ++ eight 4 ++ codes "line" ++ (1 ∷ eight 4)
        ++ eight 20 ++ eight 4 ++ codes "type" ++ (0 ∷ codes "WARNING"))) }
    ensures document { node_record (with_printed_attrs None (Element tag.Document
        (attr key.Ids (Listed (codes "a" ∷ [])) ∷ attr key.Names (Listed []) ∷ attr key.Title (Text (codes "A")) ∷ [])
        (element tag.Title [] (words (codes "A") bare) 1 (element tag.Paragraph [] (words (codes "b") bare) 4 bare)) 0))
        ≡ eight 185 ++ (1 ∷ (eight 0 ++ eight 8 ++ codes "document" ++ eight 52
        ++ eight 21 ++ eight 3 ++ codes "ids" ++ (2 ∷ (eight 1 ++ codes "a"))
        ++ eight 15 ++ eight 5 ++ codes "title" ++ (0 ∷ codes "A")
        ++ eight 40 ++ (1 ∷ (eight 1 ++ eight 5 ++ codes "title" ++ eight 0 ++ eight 2 ++ (0 ∷ codes "A")))
        ++ eight 44 ++ (1 ∷ (eight 4 ++ eight 9 ++ codes "paragraph" ++ eight 0 ++ eight 2 ++ (0 ∷ codes "b"))))) }
{}
