//! Worked examples of what replaces substitution references, as theorems on the definitions alone.
#![tactic(auto, unfolding(crate::proofs::Computing::rst_transform_substitutions))]

ghost use Rattle.std.specs.Prelude.{◌≡◌, nat_lt, Some, None, Ok, Err, codes, [], ◌∷◌, length, replicate, if◌then◌else◌};
ghost use Rattle.rst_tree.specs.declared.key.Key.TheVariants.{Name, Refname, Serial};
ghost use Rattle.rst_tree.specs.declared.tag.Tag.TheVariants.{Emphasis, Image, Paragraph, Reference, SubstitutionReference};
ghost use Rattle.rst_tree.specs.declared.node.Node.TheVariants.{Text as Words};
ghost use Rattle.rst_tree.specs.Attributes.{attr};
ghost use Rattle.rst_tree.specs.declared.attrs.Value.TheVariants.{Text as Says};
ghost use Rattle.rst_tree.specs.Forest.{bare, element as one, words};
ghost use Rattle.rst_tree.specs.Nodes.{forest_of};
ghost use Rattle.rst_transform_names.specs.Trees.{counts, element, says, text};
ghost use Rattle.rst_transform_substitutions.specs.declared.expansion.ExpansionFault.TheVariants.{Undefined, Circular, TooLarge};
ghost use Rattle.rst_transform_substitutions.specs.Expansion.{expanded_copies, expansion_fault_text, nodes_for};
ghost use Rattle.rst_transform_substitutions.specs.Written.{definition_node, reference_to_name, expansion_result, problem, reports, substitution, stands_for, stands_in};

/// Definitions and the names that find them (Markup Specification, 'Substitution Definitions').
pub fn definitions()
    ensures content { stands_for "a" (definition_node "a" (text "b " ∷ element Emphasis [] (text "c" ∷ []) ∷ []) ∷ [])
        ≡ Ok (text "b " ∷ element Emphasis [] (text "c" ∷ []) ∷ []) }
    ensures as_written { stands_for "A" (definition_node "A" (text "x" ∷ []) ∷ definition_node "a" (text "y" ∷ []) ∷ []) ≡ Ok (text "x" ∷ []) }
    ensures of_another_case { stands_for "a B" (definition_node "A b" (text "x" ∷ []) ∷ []) ≡ Ok (text "x" ∷ []) }
    ensures last_of_a_name { stands_for "a" (definition_node "a" (text "x" ∷ []) ∷ definition_node "a" (text "y" ∷ []) ∷ []) ≡ Ok (text "y" ∷ []) }
    ensures last_of_another_case { stands_for "aa" (definition_node "AA" (text "x" ∷ []) ∷ definition_node "Aa" (text "y" ∷ []) ∷ []) ≡ Ok (text "y" ∷ []) }
    ensures none { stands_for "x" (definition_node "a" [] ∷ []) ≡ Err (Undefined (codes "x")) }
{}

/// References in definitions (Markup Specification, 'Substitution References').
pub fn nested()
    ensures through_another { stands_for "a" (definition_node "a" (text "x" ∷ reference_to_name "b" ∷ text "z" ∷ []) ∷ definition_node "b" (text "y" ∷ []) ∷ [])
        ≡ Ok (text "x" ∷ text "y" ∷ text "z" ∷ []) }
    ensures in_an_element { stands_for "a" (definition_node "a" (element Reference [] (reference_to_name "b" ∷ []) ∷ []) ∷ definition_node "b" (text "y" ∷ []) ∷ [])
        ≡ Ok (element Reference [] (text "y" ∷ []) ∷ []) }
    ensures twice { stands_for "a" (definition_node "a" (reference_to_name "b" ∷ reference_to_name "b" ∷ []) ∷ definition_node "b" (text "y" ∷ []) ∷ [])
        ≡ Ok (text "y" ∷ text "y" ∷ []) }
    ensures copies_without_number { stands_for "a" (definition_node "a" (element Image (says Name "n" ∷ counts Serial 4 ∷ []) [] ∷ []) ∷ [])
        ≡ Ok (element Image (says Name "n" ∷ []) [] ∷ []) }
    ensures undefined_inside { stands_for "a" (definition_node "a" (reference_to_name "x" ∷ []) ∷ []) ≡ Err (Undefined (codes "x")) }
    ensures circle { stands_for "a" (definition_node "a" (reference_to_name "b" ∷ []) ∷ definition_node "b" (reference_to_name "a" ∷ []) ∷ []) ≡ Err (Circular (codes "a")) }
    ensures circle_of_another_case { stands_for "a" (definition_node "a" (reference_to_name "A" ∷ []) ∷ []) ≡ Err (Circular (codes "A")) }
    ensures of_itself { stands_in (Some 0) "a" (definition_node "a" (reference_to_name "a" ∷ []) ∷ []) ≡ Err (Circular (codes "a")) }
    ensures first_fault { stands_for "a" (definition_node "a" (reference_to_name "a" ∷ reference_to_name "x" ∷ []) ∷ []) ≡ Err (Circular (codes "a")) }
{}

/// How much may replace one reference. `found` finds a definition for each name, which refers to a name that is one character longer (Markup
/// Specification, 'Substitution References').
pub fn bounds()
    ensures hundred_definitions { nodes_for (λ name. Some (
      length name,
      if nat_lt (length name) 100 then one SubstitutionReference (attr Refname
          (Says (97 ∷ name)) ∷ []) bare 1 bare else words (codes "x") bare,
    )) None (codes "a")
        ≡ Ok (text "x" ∷ []) }
    ensures one_more_definition { nodes_for (λ name. Some (
      length name,
      if nat_lt (length name) 101 then one SubstitutionReference (attr Refname
          (Says (97 ∷ name)) ∷ []) bare 1 bare else words (codes "x") bare,
    )) None (codes "a")
        ≡ Err TooLarge }
    ensures ten_thousand { nodes_for (λ name. Some (0, words (replicate 9999 120) bare)) None (codes "a") ≡ Ok (Words (replicate 9999 120) ∷ []) }
    ensures one_more_character { nodes_for (λ name. Some (0, words (replicate 10000 120) bare)) None (codes "a") ≡ Err TooLarge }
    ensures characters_and_nodes { expanded_copies (λ name left. Err (Undefined name)) (forest_of (text "ab" ∷ element Emphasis [] (text "c" ∷ []) ∷ [])) 6
        ≡ Ok (text "ab" ∷ element Emphasis [] (text "c" ∷ []) ∷ [], 0) }
    ensures counted_first { expanded_copies (λ name left. Err (Undefined name)) (forest_of (reference_to_name "x" ∷ [])) 0 ≡ Err TooLarge }
{}

/// The texts of the messages on references that aren't replaced (Markup Specification, 'Substitution References').
pub fn messages()
    ensures undefined { expansion_fault_text (codes "a") (Undefined (codes "x")) ≡ codes "Undefined substitution referenced: \"x\"." }
    ensures circular { expansion_fault_text (codes "a") (Circular (codes "b")) ≡ codes "Circular substitution definition referenced: \"b\"." }
    ensures too_large { expansion_fault_text (codes "a") TooLarge ≡ codes "Substitution expansion too large: \"a\"." }
{}

/// Documents after the transform (Markup Specification, 'Substitution References').
pub fn documents()
    ensures replaced { expansion_result (element Paragraph [] (text "x " ∷ reference_to_name "a" ∷ text "." ∷ []) ∷ definition_node "a" (text "b" ∷ []) ∷ [])
        ≡ element Paragraph [] (text "x " ∷ text "b" ∷ text "." ∷ []) ∷ definition_node "a" (text "b" ∷ []) ∷ [] }
    ensures two { expansion_result (reference_to_name "a" ∷ element Emphasis [] (reference_to_name "b" ∷ []) ∷ definition_node "a" (text "x" ∷ text "y" ∷ []) ∷ definition_node "b" [] ∷ [])
        ≡ text "x" ∷ text "y" ∷ element Emphasis [] [] ∷ definition_node "a" (text "x" ∷ text "y" ∷ []) ∷ definition_node "b" [] ∷ [] }
    ensures in_a_definition { expansion_result (definition_node "a" (reference_to_name "b" ∷ []) ∷ definition_node "b" (text "y" ∷ []) ∷ [])
        ≡ definition_node "a" (text "y" ∷ []) ∷ definition_node "b" (text "y" ∷ []) ∷ [] }
    ensures undefined { expansion_result (substitution "x" "|x|" ∷ []) ≡ problem "problematic-1" 0 "system-message-1" "|x|" ∷ [] }
    ensures circular { expansion_result (substitution "a" "|A|" ∷ definition_node "a" (substitution "a" "|a|" ∷ []) ∷ [])
        ≡ problem "problematic-1" 0 "system-message-1" "|A|" ∷ definition_node "a" (problem "problematic-2" 1 "system-message-2" "|a|" ∷ []) ∷ [] }
    ensures messages { reports (element Emphasis [] (reference_to_name "x" ∷ []) ∷ reference_to_name "a" ∷ definition_node "a" (reference_to_name "a" ∷ []) ∷ [])
        ≡ codes "Undefined substitution referenced: \"x\"." ∷ codes "Circular substitution definition referenced: \"a\"."
        ∷ codes "Circular substitution definition referenced: \"a\"." ∷ [] }
{}
