//! Directives and roles that are handed back, in documents (JSON, 'Directives and roles handed back').
#![tactic(auto, unfolding(crate::proofs::Computing::rst_block_state))]

ghost use Rattle.std.specs.Prelude.{[], ◌∷◌};
ghost use Rattle.rst_block_state.specs.Reads.{MeansHanding};

/// A directive is its lines, where the message on an unknown one would be (JSON, 'Directives and roles handed back').
pub fn directives()
    ensures lines { MeansHanding "foo" ("a" ∷ "" ∷ ".. Foo:: a" ∷ "   :b: c" ∷ "" ∷ "     d" ∷ "" ∷ ".. bar::" ∷ []) 0
        ("<document> 0" ∷ "    <paragraph> 1" ∷ "        a" ∷ "    <handed kind=\"directive\" name=\"Foo\" xml:space=\"preserve\"> 3"
        ∷ "        .. Foo:: a" ∷ "           :b: c" ∷ "        " ∷ "             d"
        ∷ "    <system_message level=\"3\"> 8" ∷ "        <paragraph> 8" ∷ "            Unknown directive type \"bar\"."
        ∷ "        <literal_block xml:space=\"preserve\"> 8" ∷ "            .. bar::" ∷ []) }
    ensures known { MeansHanding "note\n:x" (".. note:: a" ∷ ".. tip:: b" ∷ []) 0
        ("<document> 0" ∷ "    <handed kind=\"directive\" name=\"note\" xml:space=\"preserve\"> 1" ∷ "        .. note:: a" ∷ "    <tip> 2"
        ∷ "        <paragraph> 2" ∷ "            b" ∷ []) }
    ensures in_an_item { MeansHanding "foo" ("- .. foo::" ∷ "     x" ∷ []) 0
        ("<document> 0" ∷ "    <bullet_list bullet=\"-\"> 1" ∷ "        <list_item> 1"
        ∷ "            <handed kind=\"directive\" name=\"foo\" xml:space=\"preserve\"> 1" ∷ "                .. foo::"
        ∷ "                   x" ∷ []) }
    ensures no_role { MeansHanding ":foo" (".. foo::" ∷ []) 0
        ("<document> 0" ∷ "    <system_message level=\"3\"> 1" ∷ "        <paragraph> 1" ∷ "            Unknown directive type \"foo\"."
        ∷ "        <literal_block xml:space=\"preserve\"> 1" ∷ "            .. foo::" ∷ []) }
{}

/// What is handed back may be what a substitution definition holds (JSON, 'Directives and roles handed back').
pub fn definitions()
    ensures directive { MeansHanding "foo" (".. |a  B| foo:: c" ∷ "   d" ∷ []) 0
        ("<document> 0" ∷ "    <substitution_definition own_name=\"a B\"> 1"
        ∷ "        <handed kind=\"directive\" name=\"foo\" xml:space=\"preserve\"> 1" ∷ "            .. |a  B| foo:: c"
        ∷ "               d" ∷ []) }
    ensures role { MeansHanding ":r" (".. |a| replace:: b :r:`c`" ∷ []) 0
        ("<document> 0" ∷ "    <substitution_definition own_name=\"a\"> 1" ∷ "        b "
        ∷ "        <handed kind=\"role\" name=\"r\" xml:space=\"preserve\"> 1" ∷ "            :r:`c`" ∷ []) }
{}

/// A role may be in a caption and in a cell (JSON, 'Directives and roles handed back').
pub fn roles()
    ensures caption { MeansHanding ":r" (".. figure:: a.png" ∷ "" ∷ "   :r:`b`" ∷ []) 0
        ("<document> 0" ∷ "    <figure> 1" ∷ "        <image uri=\"a.png\"> 1" ∷ "        <caption> 3"
        ∷ "            <handed kind=\"role\" name=\"r\" xml:space=\"preserve\"> 3" ∷ "                :r:`b`" ∷ []) }
    ensures cell { MeansHanding ":r" ("+--------+" ∷ "| :r:`b` |" ∷ "+--------+" ∷ []) 0
        ("<document> 0" ∷ "    <table> 1" ∷ "        <tgroup cols=\"1\"> 1" ∷ "            <colspec colwidth=\"8\"> 1" ∷ "            <tbody> 0"
        ∷ "                <row> 0" ∷ "                    <entry> 0" ∷ "                        <paragraph> 2"
        ∷ "                            <handed kind=\"role\" name=\"r\" xml:space=\"preserve\"> 2" ∷ "                                :r:`b`" ∷ []) }
{}
