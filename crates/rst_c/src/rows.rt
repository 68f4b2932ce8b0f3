//! Worked examples of what the calls answer, as theorems on the definitions alone: the prover computes it, and compares.
#![tactic(auto, unfolding(crate::proofs::Computing::rst_c))]

ghost use Rattle.std.specs.Prelude.{◌≡◌, ◌++◌, None, Some, Ok, Err, true, false, codes, map, [], ◌∷◌};
ghost use Rattle.rst_c.specs.Answers.{c_result_of, filled_room, form_wanted, messages_after, needs_memory, parts_as, print_wanted, tree_after};
ghost use Rattle.rst_c.specs.Options.{are_in_range, SetsOptions};
ghost use Rattle.rst_c.specs.Written.{made_wanted, usual_options};
ghost use Rattle.rst_c.specs.declared.answer.Refusal.TheVariants.{Options, Source, Text};
ghost use Rattle.rst_c.specs.declared.document.Form.TheVariants.{DocumentJson, DocumentRecords, MessagesJson};
ghost use Rattle.rst_settings.specs.Parts.{all_parts, handing};
ghost use Rattle.rst_settings.specs.declared.Threshold.TheVariants as threshold;
ghost use Rattle.rst_tree.specs.Forest.{bare, element, words};
ghost use Rattle.rst_tree.specs.declared.node.Node.TheVariants.{Element};
ghost use Rattle.rst_tree.specs.declared.note.Level.TheVariants as level;
ghost use Rattle.rst_tree.specs.declared.tag.Tag.TheVariants as tag;
ghost use Rattle.rst2pseudoxml_run.specs.Written.{usual};
ghost use Rattle.rst2pseudoxml_run.specs.declared.end.End.TheVariants.{TooLong, NotUtf8, TooDeep, NoMemory};

/// The least and the most of each option, and what is out of its range (Header, 'rst_options').
pub fn options()
    ensures usual { are_in_range usual_options ≡ true }
    ensures least { are_in_range (record usual_options { report = 1; halt = 1; exit_status = 1; tab_width = 1; line_length_limit = 1 }) ≡ true }
    ensures most { are_in_range (record usual_options
        { report = 5; halt = 5; exit_status = 5; tab_width = 99; line_length_limit = 16777216; no_doc_title = 1; no_doc_info = 1; profile = 1 }) ≡ true }
    ensures size { map (λ n. are_in_range (record usual_options { size = n })) (0 ∷ 15 ∷ 17 ∷ []) ≡ false ∷ false ∷ false ∷ [] }
    ensures report { map (λ n. are_in_range (record usual_options { report = n })) (0 ∷ 6 ∷ []) ≡ false ∷ false ∷ [] }
    ensures halt { map (λ n. are_in_range (record usual_options { halt = n })) (0 ∷ 6 ∷ []) ≡ false ∷ false ∷ [] }
    ensures exit_status { map (λ n. are_in_range (record usual_options { exit_status = n })) (0 ∷ 6 ∷ []) ≡ false ∷ false ∷ [] }
    ensures tab_width { map (λ n. are_in_range (record usual_options { tab_width = n })) (0 ∷ 100 ∷ []) ≡ false ∷ false ∷ [] }
    ensures line_length_limit { map (λ n. are_in_range (record usual_options { line_length_limit = n })) (0 ∷ 16777217 ∷ []) ≡ false ∷ false ∷ [] }
    ensures no_doc_title { are_in_range (record usual_options { no_doc_title = 2 }) ≡ false }
    ensures no_doc_info { are_in_range (record usual_options { no_doc_info = 2 }) ≡ false }
    ensures profile { map (λ n. are_in_range (record usual_options { profile = n })) (2 ∷ 255 ∷ []) ≡ false ∷ false ∷ [] }
    ensures unused { map (λ n. are_in_range (record usual_options { unused = n })) (1 ∷ 255 ∷ []) ≡ false ∷ false ∷ [] }
{}

/// The settings that options choose (Header, 'rst_options').
pub fn settings()
    ensures usual { SetsOptions usual_options None usual }
    ensures levels { SetsOptions (record usual_options { report = 1; halt = 2; exit_status = 3 }) None
        (record usual { report = threshold.Info; halt = threshold.Warning; exit = threshold.Error }) }
    ensures higher_levels { SetsOptions (record usual_options { report = 4; halt = 5; exit_status = 1 }) None
        (record usual { report = threshold.Severe; halt = threshold.Never; exit = threshold.Info }) }
    ensures no_doc_title { SetsOptions (record usual_options { no_doc_title = 1 }) None (record usual { title = false }) }
    ensures no_doc_info { SetsOptions (record usual_options { no_doc_info = 1 }) None (record usual { info = false }) }
    ensures profile { SetsOptions (record usual_options { profile = 1 }) None (record usual { parts = all_parts }) }
    ensures handed { SetsOptions usual_options (Some (codes ":ref")) (record usual { parts = record (handing ":ref") { unmarked = false; marks = false; mail = false; roles = false; directives = false; keywords = false } }) }
{}

/// The result of each end (Header, 'rst_end').
pub fn ends()
    ensures done { c_result_of (made_wanted "abc" "de" 12) ≡ record { end = 0; status = 12; at = 0; length = 3; messages = 2 } }
    ensures halted { c_result_of (made_wanted "" "a" 1) ≡ record { end = 0; status = 1; at = 0; length = 0; messages = 1 } }
    ensures bad_options { c_result_of (Err Options) ≡ record { end = 1; status = 0; at = 0; length = 0; messages = 0 } }
    ensures bad_source { c_result_of (Err Source) ≡ record { end = 2; status = 0; at = 0; length = 0; messages = 0 } }
    ensures too_long { c_result_of (Err (Text TooLong)) ≡ record { end = 3; status = 0; at = 0; length = 0; messages = 0 } }
    ensures not_utf8 { c_result_of (Err (Text (NotUtf8 7))) ≡ record { end = 4; status = 0; at = 7; length = 0; messages = 0 } }
    ensures too_deep { c_result_of (Err (Text (TooDeep 9))) ≡ record { end = 5; status = 0; at = 9; length = 0; messages = 0 } }
    ensures no_memory { c_result_of (Err (Text NoMemory)) ≡ record { end = 6; status = 0; at = 0; length = 0; messages = 0 } }
    ensures no_memory_in_place_of { map needs_memory (Err (Text (NotUtf8 0)) ∷ Err (Text (TooDeep 1)) ∷ made_wanted "" "" 0 ∷ []) ≡ true ∷ true ∷ true ∷ [] }
    ensures never_in_place_of { map needs_memory (Err Options ∷ Err Source ∷ Err (Text TooLong) ∷ []) ≡ false ∷ false ∷ false ∷ [] }
{}

/// The rooms after a call: a text is put at the start of its room if it fits (Header, 'rst_print').
pub fn rooms()
    ensures larger { filled_room (codes "abc") (1 ∷ 2 ∷ 3 ∷ 4 ∷ 5 ∷ []) ≡ codes "abc" ++ (4 ∷ 5 ∷ []) }
    ensures exact { filled_room (codes "abc") (1 ∷ 2 ∷ 3 ∷ []) ≡ codes "abc" }
    ensures too_small { filled_room (codes "abc") (1 ∷ 2 ∷ []) ≡ 1 ∷ 2 ∷ [] }
    ensures none { filled_room (codes "abc") [] ≡ [] }
    ensures nothing_to_put { filled_room [] (1 ∷ 2 ∷ []) ≡ 1 ∷ 2 ∷ [] }
    ensures tree { tree_after (made_wanted "ab" "c" 0) (1 ∷ 2 ∷ 3 ∷ []) ≡ codes "ab" ++ (3 ∷ []) }
    ensures messages { messages_after (made_wanted "ab" "c" 0) (1 ∷ 2 ∷ 3 ∷ []) ≡ codes "c" ++ (2 ∷ 3 ∷ []) }
    ensures tree_too_large { tree_after (made_wanted "abcd" "c" 0) (1 ∷ 2 ∷ 3 ∷ []) ≡ 1 ∷ 2 ∷ 3 ∷ [] }
    ensures messages_beside_it { messages_after (made_wanted "abcd" "c" 0) (1 ∷ 2 ∷ 3 ∷ []) ≡ codes "c" ++ (2 ∷ 3 ∷ []) }
    ensures refused { tree_after (Err (Text (NotUtf8 7))) (1 ∷ 2 ∷ []) ≡ 1 ∷ 2 ∷ [] }
    ensures refused_messages { messages_after (Err (Text (NotUtf8 7))) (1 ∷ 2 ∷ []) ≡ 1 ∷ 2 ∷ [] }
{}

/// The first of several reasons to make nothing (Header, 'rst_end').
pub fn refusals()
    ensures options { print_wanted None (255 ∷ []) (255 ∷ []) ≡ Err Options }
    ensures source { print_wanted (Some usual) (120 ∷ 255 ∷ []) (255 ∷ []) ≡ Err Source }
    ensures text { print_wanted (Some usual) (codes "x") (97 ∷ 255 ∷ []) ≡ Err (Text (NotUtf8 1)) }
    ensures options_for_json { form_wanted DocumentJson None (255 ∷ []) ≡ Err Options }
    ensures text_for_json { form_wanted DocumentJson (Some usual) (97 ∷ 98 ∷ 195 ∷ []) ≡ Err (Text (NotUtf8 2)) }
{}

/// What is made of a document and its messages: the document is whole also if a message halts the run (Header, 'rst_json').
pub fn forms()
    ensures json { parts_as DocumentJson usual
        (Element tag.Document [] (element tag.Paragraph [] (words (codes "a") bare) 1 bare) 0, record { level = level.Warning; line = 1; text = codes "b"; block = None } ∷ [])
        ≡ record { out = codes "[\"document\",0,{},[\"paragraph\",1,{},\"a\"]]"; err = []; status = 0 } }
    ensures json_of_a_halted_run { parts_as DocumentJson (record usual { halt = threshold.Warning })
        (Element tag.Document [] (element tag.Paragraph [] (words (codes "a") bare) 1 bare) 0, record { level = level.Warning; line = 1; text = codes "b"; block = None } ∷ [])
        ≡ record { out = codes "[\"document\",0,{},[\"paragraph\",1,{},\"a\"]]"; err = []; status = 1 } }
    ensures json_with_an_exit_status { parts_as DocumentJson (record usual { exit = threshold.Warning }) (
      Element tag.Document [] bare 0,
      record { level = level.Warning; line = 1; text = codes "b"; block = None }
          ∷ record { level = level.Error; line = 2; text = codes "c"; block = None } ∷ [],
    )
        ≡ record { out = codes "[\"document\",0,{}]"; err = []; status = 13 } }
    ensures records { parts_as DocumentRecords usual (Element tag.Document [] bare 0, [])
        ≡ record {
          out = 33 ∷ 0 ∷ 0 ∷ 0 ∷ 0 ∷ 0 ∷ 0 ∷ 0 ∷ 1 ∷ 0 ∷ 0 ∷ 0 ∷ 0 ∷ 0 ∷ 0 ∷ 0 ∷ 0 ∷ 8 ∷ 0 ∷ 0 ∷ 0 ∷ 0 ∷ 0 ∷ 0 ∷ 0 ∷ []
              ++ codes "document" ++ (0 ∷ 0 ∷ 0 ∷ 0 ∷ 0 ∷ 0 ∷ 0 ∷ 0 ∷ []);
          err = [];
          status = 0;
        } }
{}

/// The messages that are reported, and the one that halts the run (Header, 'rst_messages').
pub fn messages()
    ensures none { parts_as MessagesJson usual (Element tag.Document [] bare 0, []) ≡ record { out = codes "[]"; err = []; status = 0 } }
    ensures reported { parts_as MessagesJson (record usual { report = threshold.Error }) (
      Element tag.Document [] bare 0,
      record { level = level.Warning; line = 1; text = codes "a"; block = None }
          ∷ record { level = level.Error; line = 2; text = codes "b"; block = None } ∷ [],
    )
        ≡ record { out = codes "[{\"line\":2,\"level\":3,\"type\":\"ERROR\",\"text\":\"b\"}]"; err = []; status = 0 } }
    ensures halting { parts_as MessagesJson (record usual { report = threshold.Never; halt = threshold.Warning })
        (Element tag.Document [] bare 0, record { level = level.Warning; line = 1; text = codes "a"; block = None } ∷ [])
        ≡ record { out = codes "[{\"line\":1,\"level\":2,\"type\":\"WARNING\",\"text\":\"a\"}]"; err = []; status = 1 } }
{}

/// What is printed of a text, and what is where a message halts the run (Header, 'rst_print').
pub fn prints()
    ensures tree { print_wanted (Some usual) (codes "x") (codes "a\n") ≡ made_wanted "<document source=\"x\">\n    <paragraph>\n        a\n" "" 0 }
    ensures halted { print_wanted (Some (record usual { halt = threshold.Warning })) (codes "x") (codes "*a")
        ≡ made_wanted "" "x:1: (WARNING/2) Inline emphasis start-string without end-string.\nExiting due to level-2 (WARNING) system message.\n" 1 }
{}

/// What each form gives for a text (Header, 'rst_json').
pub fn texts()
    ensures json { form_wanted DocumentJson (Some usual) (codes "a\n") ≡ made_wanted "[\"document\",0,{},[\"paragraph\",1,{},\"a\"]]" "" 0 }
    ensures messages { form_wanted MessagesJson (Some usual) (codes "*a")
        ≡ made_wanted "[{\"line\":1,\"level\":2,\"type\":\"WARNING\",\"text\":\"Inline emphasis start-string without end-string.\"}]" "" 0 }
{}
