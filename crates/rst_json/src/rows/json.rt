//! Worked examples of JSON.
#![tactic(auto, unfolding(crate::proofs::Computing::rst_json))]

ghost use Rattle.std.specs.Prelude.{◌≡◌, ◌++◌, Some, None, codes, map, [], ◌∷◌};
ghost use Rattle.std.specs.List.{flat_map};
ghost use Rattle.rst_json.specs.Json.{json_array, json_attr, json_node, json_note, json_string};
ghost use Rattle.rst_json.specs.Written.{utf8};
ghost use Rattle.rst_tree.specs.Attributes.{attr};
ghost use Rattle.rst_tree.specs.Forest.{bare, element, words};
ghost use Rattle.rst_tree.specs.PrintedAttributes.{with_printed_attrs};
ghost use Rattle.rst_tree.specs.declared.attrs.Value.TheVariants.{Text, Number, List as Listed};
ghost use Rattle.rst_tree.specs.declared.key.Key.TheVariants as key;
ghost use Rattle.rst_tree.specs.declared.node.Node.TheVariants.{Element, Text as Words};
ghost use Rattle.rst_tree.specs.declared.note.Level.TheVariants as level;
ghost use Rattle.rst_tree.specs.declared.tag.Tag.TheVariants as tag;

/// Strings: what is written after a backslash, and what stays as it is (JSON, 'Strings').
pub fn strings()
    ensures plain { json_string (codes "a b") ≡ codes "\"a b\"" }
    ensures empty { json_string [] ≡ codes "\"\"" }
    ensures quote { json_string (codes "say \"a\"") ≡ codes "\"say \\\"a\\\"\"" }
    ensures backslash { json_string (codes "a\\b\\") ≡ codes "\"a\\\\b\\\\\"" }
    ensures line_ends { json_string (codes "a\nb\n") ≡ codes "\"a\\nb\\n\"" }
    ensures controls { json_string (0 ∷ 1 ∷ 2 ∷ 3 ∷ 4 ∷ 5 ∷ 6 ∷ 7 ∷ 8 ∷ 9 ∷ 10 ∷ 11 ∷ 12 ∷ 13 ∷ 14 ∷ 15 ∷ [])
        ≡ codes "\"\\u0000\\u0001\\u0002\\u0003\\u0004\\u0005\\u0006\\u0007\\u0008\\u0009\\n\\u000b\\u000c\\u000d\\u000e\\u000f\"" }
    ensures controls_from_16 { json_string (16 ∷ 17 ∷ 18 ∷ 19 ∷ 20 ∷ 21 ∷ 22 ∷ 23 ∷ 24 ∷ 25 ∷ 26 ∷ 27 ∷ 28 ∷ 29 ∷ 30 ∷ 31 ∷ [])
        ≡ codes "\"\\u0010\\u0011\\u0012\\u0013\\u0014\\u0015\\u0016\\u0017\\u0018\\u0019\\u001a\\u001b\\u001c\\u001d\\u001e\\u001f\"" }
    ensures others { json_string (codes " !#/'<>&[]^{|}~") ≡ codes "\" !#/'<>&[]^{|}~\"" }
    ensures delete { json_string (127 ∷ []) ≡ 34 ∷ 127 ∷ 34 ∷ [] }
    ensures beyond_ascii { json_string (utf8 "aé€😀") ≡ utf8 "\"aé€😀\"" }
{}

/// Texts and elements (JSON, 'The document').
pub fn nodes()
    ensures text { json_node (Words (codes "a")) ≡ codes "\"a\"" }
    ensures document { json_node (Element tag.Document [] bare 0) ≡ codes "[\"document\",0,{}]" }
    ensures without_nodes { json_node (Element tag.Transition [] bare 12) ≡ codes "[\"transition\",12,{}]" }
    ensures with_a_text { json_node (Element tag.Paragraph [] (words (codes "a\n\"b\"") bare) 3) ≡ codes "[\"paragraph\",3,{},\"a\\n\\\"b\\\"\"]" }
    ensures nodes { json_node (Element tag.Paragraph [] (words (codes "a ") (element tag.Emphasis [] (words (codes "b") bare) 3 (words (codes ".") bare))) 3)
        ≡ codes "[\"paragraph\",3,{},\"a \",[\"emphasis\",3,{},\"b\"],\".\"]" }
    ensures nested { json_node (Element tag.BlockQuote [] (element tag.BulletList (attr key.Bullet (Text (codes "-")) ∷ [])
        (element tag.ListItem [] (element tag.Paragraph [] (words (codes "a") bare) 5 bare) 5 (element tag.ListItem [] bare 6 bare)) 5
        (element tag.Paragraph [] (words (codes "b") bare) 8 bare)) 5)
        ≡ codes "[\"block_quote\",5,{},[\"bullet_list\",5,{\"bullet\":\"-\"},[\"list_item\",5,{},[\"paragraph\",5,{},\"a\"]],[\"list_item\",6,{}]],[\"paragraph\",8,{},\"b\"]]" }
{}

/// Attributes: texts, numbers, lists, and what isn't printed (JSON, 'The document').
pub fn attributes()
    ensures text { json_attr (attr key.Title (Text (codes "a \"b\""))) ≡ codes "\"title\":\"a \\\"b\\\"\"" ∷ [] }
    ensures empty_text { json_attr (attr key.Alt (Text [])) ≡ codes "\"alt\":\"\"" ∷ [] }
    ensures colon { json_attr (attr key.XmlSpace (Text (codes "preserve"))) ≡ codes "\"xml:space\":\"preserve\"" ∷ [] }
    ensures number { json_attr (attr key.Colwidth (Number 120)) ≡ codes "\"colwidth\":120" ∷ [] }
    ensures zero { json_attr (attr key.Start (Number 0)) ≡ codes "\"start\":0" ∷ [] }
    ensures largest_number { json_attr (attr key.Scale (Number 18446744073709551615)) ≡ codes "\"scale\":18446744073709551615" ∷ [] }
    ensures list { json_attr (attr key.Names (Listed (codes "a b" ∷ codes "c\\d" ∷ codes "\"e\"" ∷ [])))
        ≡ codes "\"names\":[\"a b\",\"c\\\\d\",\"\\\"e\\\"\"]" ∷ [] }
    ensures list_of_one { json_attr (attr key.Ids (Listed (codes "a" ∷ []))) ≡ codes "\"ids\":[\"a\"]" ∷ [] }
    ensures empty_lists { flat_map (λ k. json_attr (attr k (Listed []))) (key.Backrefs ∷ key.Classes ∷ key.Dupnames ∷ key.Ids ∷ key.Names ∷ []) ≡ [] }
    ensures of_transforms { flat_map (λ k. json_attr (attr k (Number 1)))
        (key.Inline ∷ key.Mark ∷ key.Message ∷ key.OwnName ∷ key.Rawsource ∷ key.Refname ∷ key.Serial ∷ key.TextMessages ∷ []) ≡ [] }
    ensures in_an_object { json_node (Element tag.Target (attr key.Ids (Listed (codes "a" ∷ [])) ∷ attr key.Names (Listed []) ∷ attr key.Rawsource (Text (codes "b"))
        ∷ attr key.Refuri (Text (codes "c")) ∷ []) bare 1)
        ≡ codes "[\"target\",1,{\"ids\":[\"a\"],\"refuri\":\"c\"}]" }
    ensures first_left_out { json_node (Element tag.Entry (attr key.Classes (Listed []) ∷ attr key.Morecols (Number 1) ∷ attr key.Morerows (Number 2) ∷ []) bare 1)
        ≡ codes "[\"entry\",1,{\"morecols\":1,\"morerows\":2}]" }
    ensures all_left_out { json_node (Element tag.Section (attr key.Dupnames (Listed []) ∷ attr key.Refname (Text (codes "a")) ∷ []) bare 1)
        ≡ codes "[\"section\",1,{}]" }
{}

/// The line and the type of a message in the document, and a document without its source (JSON, 'The document').
pub fn printed_attributes()
    ensures message { json_node (with_printed_attrs None (Element tag.SystemMessage (attr key.Backrefs (Listed (codes "problematic-1" ∷ []))
        ∷ attr key.Ids (Listed (codes "system-message-1" ∷ [])) ∷ attr key.Level (Number 3) ∷ []) bare 7))
        ≡ codes "[\"system_message\",7,{\"backrefs\":[\"problematic-1\"],\"ids\":[\"system-message-1\"],\"level\":3,\"line\":7,\"type\":\"ERROR\"}]" }
    ensures page { json_node (with_printed_attrs None (Element tag.Document
        (attr key.Ids (Listed (codes "title" ∷ [])) ∷ attr key.Names (Listed (codes "title" ∷ [])) ∷ attr key.Title (Text (codes "Title")) ∷ [])
        (element tag.Title [] (words (codes "Title") bare) 1
        (element tag.Paragraph [] (words (codes "Some ") (element tag.Emphasis [] (words (codes "emphasis") bare) 4 (words (codes ", and a ")
        (element tag.Problematic (attr key.Ids (Listed (codes "problematic-1" ∷ [])) ∷ attr key.Refid (Text (codes "system-message-1")) ∷ [])
        (words (codes "*") bare) 4 (words (codes "word") bare))))) 4
        (element tag.SystemMessage (attr key.Backrefs (Listed (codes "problematic-1" ∷ [])) ∷ attr key.Ids (Listed (codes "system-message-1" ∷ []))
        ∷ attr key.Level (Number 2) ∷ [])
        (element tag.Paragraph [] (words (codes "Inline emphasis start-string without end-string.") bare) 4 bare) 4 bare))) 0))
        ≡ codes "[\"document\",0,{\"ids\":[\"title\"],\"names\":[\"title\"],\"title\":\"Title\"},"
        ++ codes "[\"title\",1,{},\"Title\"],"
        ++ codes "[\"paragraph\",4,{},\"Some \",[\"emphasis\",4,{},\"emphasis\"],\", and a \","
        ++ codes "[\"problematic\",4,{\"ids\":[\"problematic-1\"],\"refid\":\"system-message-1\"},\"*\"],\"word\"],"
        ++ codes "[\"system_message\",4,{\"backrefs\":[\"problematic-1\"],\"ids\":[\"system-message-1\"],\"level\":2,\"line\":4,\"type\":\"WARNING\"},"
        ++ codes "[\"paragraph\",4,{},\"Inline emphasis start-string without end-string.\"]]]" }
{}

/// Messages, each with its block where it has one (JSON, 'The messages').
pub fn messages()
    ensures without_a_block { json_note (record { level = level.Warning; line = 4; text = codes "a \"b\""; block = None })
        ≡ codes "{\"line\":4,\"level\":2,\"type\":\"WARNING\",\"text\":\"a \\\"b\\\"\"}" }
    ensures with_a_block { json_note (record { level = level.Severe; line = 10; text = codes "a"; block = Some (codes "b\nc") })
        ≡ codes "{\"line\":10,\"level\":4,\"type\":\"SEVERE\",\"text\":\"a\",\"block\":\"b\\nc\"}" }
    ensures with_an_empty_block { json_note (record { level = level.Error; line = 1; text = codes "a"; block = Some [] })
        ≡ codes "{\"line\":1,\"level\":3,\"type\":\"ERROR\",\"text\":\"a\",\"block\":\"\"}" }
    ensures list { json_array (map json_note (record { level = level.Info; line = 1; text = codes "a"; block = None }
        ∷ record { level = level.Error; line = 2; text = codes "b"; block = None } ∷ []))
        ≡ codes "[{\"line\":1,\"level\":1,\"type\":\"INFO\",\"text\":\"a\"},{\"line\":2,\"level\":3,\"type\":\"ERROR\",\"text\":\"b\"}]" }
    ensures none { json_array (map json_note []) ≡ codes "[]" }
{}
