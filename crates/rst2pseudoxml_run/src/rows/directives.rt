//! Directives.
#![tactic(auto, unfolding(crate::proofs::Computing::rst2pseudoxml_run))]

ghost use Rattle.std.specs.Prelude.{[], ◌∷◌};
ghost use Rattle.rst2pseudoxml_run.specs.Written.{usual, Outputs, Reports};

/// Directives, and those that are unknown or have unknown options (Markup Specification, 'Directives').
pub fn directives()
    ensures note_and_image { Outputs (".. note:: Hi" ∷ "" ∷ "   x" ∷ ".. image:: a.png" ∷ "   :scale: 50%" ∷ [])
        ("<document source=\"x\">" ∷ "    <note>" ∷ "        <paragraph>" ∷ "            Hi" ∷ "        <paragraph>" ∷ "            x"
        ∷ "    <image scale=\"50\" uri=\"a.png\">" ∷ []) }
    ensures unknown { Reports usual (".. foo:: x" ∷ [])
        ("<document source=\"x\">" ∷ "    <system_message level=\"3\" line=\"1\" source=\"x\" type=\"ERROR\">" ∷ "        <paragraph>"
        ∷ "            Unknown directive type \"foo\"." ∷ "        <literal_block xml:space=\"preserve\">" ∷ "            .. foo:: x" ∷ [])
        ("x:1: (ERROR/3) Unknown directive type \"foo\"." ∷ "" ∷ ".. foo:: x" ∷ []) 0 }
    ensures unknown_option { Reports usual (".. image::" ∷ "   :foo: 1" ∷ [])
        ("<document source=\"x\">" ∷ "    <system_message level=\"3\" line=\"1\" source=\"x\" type=\"ERROR\">" ∷ "        <paragraph>"
        ∷ "            Error in \"image\" directive:" ∷ "            unknown option: \"foo\"." ∷ "        <literal_block xml:space=\"preserve\">"
        ∷ "            .. image::" ∷ "               :foo: 1" ∷ [])
        ("x:1: (ERROR/3) Error in \"image\" directive:" ∷ "unknown option: \"foo\"." ∷ "" ∷ ".. image::" ∷ "   :foo: 1" ∷ []) 0 }
{}

/// An admonition with a title of its own (Directives, 'Generic Admonition').
pub fn admonitions()
    ensures titled { Outputs (".. admonition:: My Note" ∷ "" ∷ "   x" ∷ [])
        ("<document source=\"x\">" ∷ "    <admonition classes=\"admonition-my-note\">" ∷ "        <title>" ∷ "            My Note"
        ∷ "        <paragraph>" ∷ "            x" ∷ []) }
{}

/// Figures (Directives, 'Figure').
pub fn figures()
    ensures caption_and_legend { Outputs (".. figure:: a.png" ∷ "   :figwidth: 50%" ∷ "" ∷ "   cap" ∷ "" ∷ "   leg" ∷ [])
        ("<document source=\"x\">" ∷ "    <figure width=\"50%\">" ∷ "        <image uri=\"a.png\">" ∷ "        <caption>" ∷ "            cap"
        ∷ "        <legend>" ∷ "            <paragraph>" ∷ "                leg" ∷ []) }
{}

/// Program code (Directives, 'Code').
pub fn code()
    ensures language { Outputs (".. code:: py" ∷ "" ∷ "   x" ∷ "     y" ∷ [])
        ("<document source=\"x\">" ∷ "    <literal_block classes=\"code py\" xml:space=\"preserve\">" ∷ "        x" ∷ "          y" ∷ []) }
    ensures empty { Reports usual (".. code-block::" ∷ [])
        ("<document source=\"x\">" ∷ "    <system_message level=\"3\" line=\"1\" source=\"x\" type=\"ERROR\">" ∷ "        <paragraph>"
        ∷ "            Content block expected for the \"code-block\" directive; none found." ∷ "        <literal_block xml:space=\"preserve\">"
        ∷ "            .. code-block::" ∷ [])
        ("x:1: (ERROR/3) Content block expected for the \"code-block\" directive; none found." ∷ "" ∷ ".. code-block::" ∷ []) 0 }
{}
