//! Worked examples of the list of messages and of what is printed of a document, as theorems on the definitions alone.
#![tactic(auto, unfolding(crate::proofs::Computing::rst_transform_messages))]

ghost use Rattle.std.specs.Prelude.{◌≡◌, ◌==◌, true, false, Some, None, codes, [], ◌∷◌, map};
ghost use Rattle.rst_settings.specs.declared.Threshold.TheVariants.{Info as FromInfo, Warning as FromWarning, Error as FromError, Severe as FromSevere, Never};
ghost use Rattle.rst_tree.specs.declared.key.Key.TheVariants.{Level, Message};
ghost use Rattle.rst_tree.specs.declared.note.Level.TheVariants.{Info, Warning, Error, Severe};
ghost use Rattle.rst_tree.specs.declared.tag.Tag.TheVariants.{BlockQuote, Emphasis, LiteralBlock, Paragraph, Problematic, SystemMessage};
ghost use Rattle.rst_tree.specs.Nodes.{forest_of};
ghost use Rattle.rst_transform_names.specs.Trees.{counts, element, paragraph, text};
ghost use Rattle.rst_transform_work.specs.Written.{plain_document, Shows};
ghost use Rattle.rst_transform_messages.specs.Filtered.{with_filtered};
ghost use Rattle.rst_transform_messages.specs.Messages.{highest_level, is_number_reported, unnumbered_notes, until_halt};
ghost use Rattle.rst_transform_messages.specs.MessagesIn.{messages_among};
ghost use Rattle.rst_transform_messages.specs.Written.{note};

/// The list of messages ends with the first that halts the run (Configuration, 'halt_level').
pub fn halts()
    ensures at_the_level { until_halt FromError (note Warning "a" ∷ note Error "b" ∷ note Error "c" ∷ []) ≡ note Warning "a" ∷ note Error "b" ∷ [] }
    ensures above_the_level { until_halt FromError (note Severe "a" ∷ note Info "b" ∷ []) ≡ note Severe "a" ∷ [] }
    ensures never { until_halt Never (note Severe "a" ∷ note Info "b" ∷ []) ≡ note Severe "a" ∷ note Info "b" ∷ [] }
    ensures highest { highest_level (note Warning "a" ∷ note Error "b" ∷ note Info "c" ∷ []) ≡ 3 }
    ensures highest_of_none { highest_level [] ≡ 0 }
{}

/// The messages in a document, in its order (Markup Specification, 'Error Handling').
pub fn messages()
    ensures in_order { messages_among (forest_of (element BlockQuote [] (element SystemMessage (counts Level 2 ∷ counts Message 1 ∷ []) (paragraph "a"
        ∷ []) ∷ []) ∷ element SystemMessage (counts Level 1 ∷ []) (paragraph "b" ∷ []) ∷ []))
        ≡ (note Warning "a", Some 1) ∷ (note Info "b", None) ∷ [] }
    ensures with_a_block { unnumbered_notes (messages_among (forest_of (element SystemMessage (counts Level 4 ∷ []) (paragraph "a"
        ∷ element LiteralBlock [] (text "x" ∷ []) ∷ []) ∷ [])))
        ≡ record { level = Severe; line = 1; text = codes "a"; block = Some (codes "x") } ∷ [] }
{}

/// What is printed of a document: no message below the level, and no problematic whose message isn't printed (Configuration, 'report_level').
pub fn filters()
    ensures below_the_level { Shows (with_filtered FromWarning (λ n. false) (plain_document (element SystemMessage (counts Level 1 ∷ []) (paragraph "a"
        ∷ []) ∷ element SystemMessage (counts Level 2 ∷ []) [] ∷ [])))
        ("<document>" ∷ "    <system_message level=\"2\" line=\"1\" type=\"WARNING\">" ∷ []) }
    ensures in_a_quote { Shows (with_filtered FromSevere (λ n. false) (plain_document (element BlockQuote [] (element SystemMessage (counts Level 3
        ∷ []) [] ∷ paragraph "a" ∷ []) ∷ [])))
        ("<document>" ∷ "    <block_quote>" ∷ "        <paragraph>" ∷ "            a" ∷ []) }
    ensures problematics { Shows (with_filtered FromWarning (λ n. n == 1) (plain_document (element Paragraph [] (text "a"
        ∷ element Problematic (counts Message 0 ∷ []) (text "*" ∷ []) ∷ element Problematic (counts Message 1 ∷ []) (text "**" ∷ []) ∷ []) ∷ [])))
        ("<document>" ∷ "    <paragraph>" ∷ "        a" ∷ "        *" ∷ "        <problematic>" ∷ "            **" ∷ []) }
    ensures without_message { Shows (with_filtered FromInfo (λ n. true) (plain_document (element Problematic [] (text "a"
        ∷ element Emphasis [] (text "b" ∷ []) ∷ []) ∷ [])))
        ("<document>" ∷ "    ab" ∷ []) }
    ensures reported { map (is_number_reported FromError ((note Error "a", Some 0) ∷ (note Warning "b", Some 1) ∷ (note Error "c", None) ∷ [])) (0 ∷ 1 ∷ 2
        ∷ [])
        ≡ true ∷ false ∷ false ∷ [] }
{}
