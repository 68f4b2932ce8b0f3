//! Worked examples of the reader of JSON.
#![tactic(auto, unfolding(crate::proofs::Computing::rst_json))]

ghost use Rattle.std.specs.Prelude.{◌≡◌, Some, None, codes, [], ◌∷◌};
ghost use Rattle.rst_json.specs.Json.{json_node};
ghost use Rattle.rst_json.specs.Reader.{json_tree};
ghost use Rattle.rst_tree.specs.Attributes.{attr};
ghost use Rattle.rst_tree.specs.Forest.{bare, element, words};
ghost use Rattle.rst_tree.specs.declared.attrs.Value.TheVariants.{Text, Number, List as Listed};
ghost use Rattle.rst_tree.specs.declared.key.Key.TheVariants as key;
ghost use Rattle.rst_tree.specs.declared.node.Node.TheVariants.{Element, Text as Words};
ghost use Rattle.rst_tree.specs.declared.tag.Tag.TheVariants as tag;

/// Texts and elements that are read (JSON, 'The document').
pub fn trees()
    ensures text { json_tree (codes "\"a\"") ≡ Some (Words (codes "a")) }
    ensures without_nodes { json_tree (codes "[\"transition\",12,{}]") ≡ Some (Element tag.Transition [] bare 12) }
    ensures with_a_text { json_tree (codes "[\"paragraph\",3,{},\"a\"]") ≡ Some (Element tag.Paragraph [] (words (codes "a") bare) 3) }
    ensures spaces { json_tree (codes "[ \"target\" ,\n\t1 , { } ]") ≡ Some (Element tag.Target [] bare 1) }
{}

/// Elements that are read with an attribute (JSON, 'The document').
pub fn attributes()
    ensures text { json_tree (codes "[\"entry\",1,{\"alt\":\"a\"}]") ≡ Some (Element tag.Entry (attr key.Alt (Text (codes "a")) ∷ []) bare 1) }
    ensures list { json_tree (codes "[\"entry\",1,{\"ids\":[\"a\"]}]") ≡ Some (Element tag.Entry (attr key.Ids (Listed (codes "a" ∷ [])) ∷ []) bare 1) }
{}

/// What a tree's JSON gives: the tree, without the attributes that aren't printed (JSON, 'The document').
pub fn trees_given_back()
    ensures without_left_out_attributes { json_tree (json_node (Element tag.Target (attr key.Ids (Listed (codes "a" ∷ [])) ∷ attr key.Names (Listed []) ∷ attr key.Rawsource (Text (codes "b"))
        ∷ attr key.Refuri (Text (codes "c\"\\\n\t")) ∷ attr key.Scale (Number 7) ∷ [])
        (words (codes "d") (element tag.Strong (attr key.Message (Number 1) ∷ []) (words (codes "e") bare) 2 bare)) 1))
        ≡ Some (Element tag.Target (attr key.Ids (Listed (codes "a" ∷ [])) ∷ attr key.Refuri (Text (codes "c\"\\\n\t")) ∷ attr key.Scale (Number 7) ∷ [])
        (words (codes "d") (element tag.Strong [] (words (codes "e") bare) 2 bare)) 1) }
{}

/// What is no JSON of a tree (JSON, 'The document').
pub fn refusals()
    ensures nothing { json_tree [] ≡ None }
    ensures number { json_tree (codes "1") ≡ None }
    ensures empty_array { json_tree (codes "[]") ≡ None }
    ensures word { json_tree (codes "a") ≡ None }
    ensures unended_string { json_tree (codes "\"a") ≡ None }
    ensures unended_array { json_tree (codes "[\"transition\",1,{}") ≡ None }
    ensures ended_twice { json_tree (codes "[\"transition\",1,{}]]") ≡ None }
    ensures comma_at_the_end { json_tree (codes "[\"transition\",1,{},]") ≡ None }
    ensures no_attributes { json_tree (codes "[\"transition\",1]") ≡ None }
    ensures other_order { json_tree (codes "[\"transition\",{},1]") ≡ None }
    ensures unknown_tag { json_tree (codes "[\"transitions\",1,{}]") ≡ None }
    ensures two { json_tree (codes "\"a\",\"b\"") ≡ None }
{}

/// Strings that are read, also with escapes that no JSON of a tree has (JSON, 'Strings').
pub fn strings()
    ensures quote_and_backslash { json_tree (codes "\"a\\\"b\\\\\"") ≡ Some (Words (codes "a\"b\\")) }
    ensures line_end { json_tree (codes "\"a\\nb\"") ≡ Some (Words (codes "a\nb")) }
    ensures digits { json_tree (codes "\"\\u0000\\u001f\\u001F\\u0041\"") ≡ Some (Words (0 ∷ 31 ∷ 31 ∷ 65 ∷ [])) }
    ensures letters { json_tree (codes "\"\\b\\f\\r\\t\\/\"") ≡ Some (Words (8 ∷ 12 ∷ 13 ∷ 9 ∷ 47 ∷ [])) }
    ensures beyond_ascii { json_tree (34 ∷ 195 ∷ 169 ∷ 34 ∷ []) ≡ Some (Words (195 ∷ 169 ∷ [])) }
{}
