//! Tables of contents, in documents.
#![tactic(auto, unfolding(crate::proofs::Computing::rst_block_state))]

ghost use Rattle.std.specs.Prelude.{[], ◌∷◌};
ghost use Rattle.rst_block_state.specs.Reads.{MeansWider};

/// Tables of contents, before their entries are made (Directives, 'Table of Contents').
pub fn tables_of_contents()
    ensures usual { MeansWider (".. contents::" ∷ []) 0
        ("<document> 0" ∷ "    <topic classes=\"contents\" own_name=\"contents\" text_messages=\"0\"> 1" ∷ "        <title> 1" ∷ "            Contents"
        ∷ "        <contents backlinks=\"entry\"> 1" ∷ []) }
    ensures titled { MeansWider (".. Contents:: All *of*" ∷ "   it" ∷ "   :class: a b" ∷ "   :depth: 2" ∷ "   :backlinks: Top" ∷ []) 0
        ("<document> 0" ∷ "    <topic classes=\"contents a b\" own_name=\"all of it\" text_messages=\"0\"> 1" ∷ "        <title> 1" ∷ "            All "
        ∷ "            <emphasis> 1" ∷ "                of" ∷ "            " ∷ "            it" ∷ "        <contents backlinks=\"top\" depth=\"2\"> 1" ∷ []) }
    ensures local { MeansWider (".. contents::" ∷ "   :local:" ∷ "   :class: a" ∷ "   :backlinks: none" ∷ []) 0
        ("<document> 0" ∷ "    <topic classes=\"contents a local\" own_name=\"contents\" text_messages=\"0\"> 1"
        ∷ "        <contents backlinks=\"none\" local=\"1\"> 1" ∷ []) }
    ensures local_with_a_title { MeansWider (".. contents:: A" ∷ "   :local:" ∷ []) 0
        ("<document> 0" ∷ "    <topic classes=\"contents local\" own_name=\"a\" text_messages=\"0\"> 1" ∷ "        <title> 1" ∷ "            A"
        ∷ "        <contents backlinks=\"entry\" local=\"1\"> 1" ∷ []) }
    ensures messages_on_the_title { MeansWider (".. contents::" ∷ "   *a" ∷ []) 1
        ("<document> 0" ∷ "    <topic classes=\"contents\" own_name=\"*a\" text_messages=\"1\"> 1" ∷ "        <title> 1"
        ∷ "            <problematic message=\"0\"> 1" ∷ "                *" ∷ "            a" ∷ "        <contents backlinks=\"entry\"> 1"
        ∷ "    <system_message level=\"2\" message=\"0\"> 1" ∷ "        <paragraph> 1"
        ∷ "            Inline emphasis start-string without end-string." ∷ []) }
    ensures in_an_item { MeansWider ("- .. contents::" ∷ []) 0
        ("<document> 0" ∷ "    <bullet_list bullet=\"-\"> 1" ∷ "        <list_item> 1" ∷ "            <system_message level=\"3\"> 1"
        ∷ "                <paragraph> 1" ∷ "                    The \"contents\" directive may not be used within topics or body elements."
        ∷ "                <literal_block xml:space=\"preserve\"> 1" ∷ "                    .. contents::" ∷ []) }
    ensures with_content { MeansWider (".. contents::" ∷ "" ∷ "   a" ∷ []) 0
        ("<document> 0" ∷ "    <system_message level=\"3\"> 1" ∷ "        <paragraph> 1" ∷ "            Error in \"contents\" directive:"
        ∷ "            no content permitted." ∷ "        <literal_block xml:space=\"preserve\"> 1" ∷ "            .. contents::" ∷ "            "
        ∷ "               a" ∷ []) }
{}
