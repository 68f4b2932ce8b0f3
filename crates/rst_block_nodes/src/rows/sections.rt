//! Worked examples of sections, as theorems on the definitions alone: the prover computes the document of nodes and titles that are written out.
#![tactic(auto, unfolding(crate::proofs::Computing::rst_block_nodes))]

ghost use Rattle.std.specs.Prelude.{[], ◌∷◌, true, false, Some, None, codes};
ghost use Rattle.rst_tree.specs.declared.note.Level.TheVariants.{Info, Warning};
ghost use Rattle.rst_tree.specs.declared.tag.Tag.TheVariants.{Paragraph};
ghost use Rattle.rst_block_nodes.specs.Elements.{plain_node};
ghost use Rattle.rst_block_nodes.specs.Texts.{message_node};
ghost use Rattle.rst_block_nodes.specs.Whole.{Says};
ghost use Rattle.rst_block_nodes.specs.Sections.{document_of, plain};
ghost use Rattle.rst_block_nodes.specs.Written.{title};

/// The levels of titles (Markup Specification, 'Sections').
pub fn levels()
    ensures none { Says (document_of (plain (plain_node Paragraph 1 (codes "a")) ∷ []) ∷ [])
        ("<document> 0" ∷ "    <paragraph> 1" ∷ "        a" ∷ []) }
    ensures two { Says (document_of (title 61 false 1 "A" [] None ∷ title 45 false 3 "B" [] None ∷ title 61 false 5 "C" [] None ∷ []) ∷ [])
        ("<document> 0" ∷ "    <section own_name=\"a\"> 1" ∷ "        <title> 1" ∷ "            A" ∷ "        <section own_name=\"b\"> 3"
        ∷ "            <title> 3" ∷ "                B" ∷ "    <section own_name=\"c\"> 5" ∷ "        <title> 5" ∷ "            C" ∷ []) }
    ensures overlined { Says (document_of (title 61 true 2 "A" [] None ∷ title 61 false 4 "B" [] None ∷ title 61 true 7 "C" [] None ∷ []) ∷ [])
        ("<document> 0" ∷ "    <section own_name=\"a\"> 2" ∷ "        <title> 2" ∷ "            A" ∷ "        <section own_name=\"b\"> 4"
        ∷ "            <title> 4" ∷ "                B" ∷ "    <section own_name=\"c\"> 7" ∷ "        <title> 7" ∷ "            C" ∷ []) }
    ensures inconsistent { Says (document_of (title 61 false 1 "A" [] None ∷ title 45 false 3 "B" [] None ∷ title 61 false 5 "C" [] None
        ∷ title 42 false 7 "D" [] None ∷ plain (plain_node Paragraph 9 (codes "e")) ∷ title 45 false 11 "F" [] None ∷ []) ∷ [])
        ("<document> 0" ∷ "    <section own_name=\"a\"> 1" ∷ "        <title> 1" ∷ "            A" ∷ "        <section own_name=\"b\"> 3"
        ∷ "            <title> 3" ∷ "                B" ∷ "    <section own_name=\"c\"> 5" ∷ "        <title> 5" ∷ "            C"
        ∷ "        <system_message level=\"4\"> 7" ∷ "            <paragraph> 7" ∷ "                Title level inconsistent:"
        ∷ "            <literal_block xml:space=\"preserve\"> 7" ∷ "                D" ∷ "        <paragraph> 9" ∷ "            e"
        ∷ "        <section own_name=\"f\"> 11" ∷ "            <title> 11" ∷ "                F" ∷ []) }
    ensures new_style_after_a_message { Says (document_of (title 61 false 1 "A" [] None ∷ title 45 false 3 "B" [] None ∷ title 61 false 5 "C" [] None
        ∷ title 42 false 7 "D" [] None ∷ title 45 false 9 "E" [] None ∷ title 43 false 11 "F" [] None ∷ []) ∷ [])
        ("<document> 0" ∷ "    <section own_name=\"a\"> 1" ∷ "        <title> 1" ∷ "            A" ∷ "        <section own_name=\"b\"> 3"
        ∷ "            <title> 3" ∷ "                B" ∷ "    <section own_name=\"c\"> 5" ∷ "        <title> 5" ∷ "            C"
        ∷ "        <system_message level=\"4\"> 7" ∷ "            <paragraph> 7" ∷ "                Title level inconsistent:"
        ∷ "            <literal_block xml:space=\"preserve\"> 7" ∷ "                D" ∷ "        <section own_name=\"e\"> 9"
        ∷ "            <title> 9" ∷ "                E" ∷ "            <section own_name=\"f\"> 11" ∷ "                <title> 11"
        ∷ "                    F" ∷ []) }
{}

/// What sections hold (Markup Specification, 'Sections').
pub fn contents()
    ensures before_the_first { Says (document_of (plain (plain_node Paragraph 1 (codes "a")) ∷ title 61 false 3 "B" [] None
        ∷ plain (plain_node Paragraph 5 (codes "c")) ∷ []) ∷ [])
        ("<document> 0" ∷ "    <paragraph> 1" ∷ "        a" ∷ "    <section own_name=\"b\"> 3" ∷ "        <title> 3" ∷ "            B"
        ∷ "        <paragraph> 5" ∷ "            c" ∷ []) }
    ensures messages { Says (document_of (
        title 61 false 1 "A" (message_node Info 1 (codes "b") None ∷ []) (Some (message_node Warning 2 (codes "c") None))
        ∷ plain (plain_node Paragraph 3 (codes "d")) ∷ []) ∷ [])
        ("<document> 0" ∷ "    <section own_name=\"a\" text_messages=\"2\"> 1" ∷ "        <title> 1" ∷ "            A"
        ∷ "        <system_message level=\"1\"> 1" ∷ "            <paragraph> 1" ∷ "                b" ∷ "        <system_message level=\"2\"> 2"
        ∷ "            <paragraph> 2" ∷ "                c" ∷ "        <paragraph> 3" ∷ "            d" ∷ []) }
{}
