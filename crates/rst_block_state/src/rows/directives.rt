//! Directives, in documents.
#![tactic(auto, unfolding(crate::proofs::Computing::rst_block_state))]

ghost use Rattle.std.specs.Prelude.{[], ◌∷◌};
ghost use Rattle.rst_block_state.specs.Reads.{Means, MeansWider, Reads};

/// Admonitions (Directives, 'Specific Admonitions').
pub fn admonitions()
    ensures kinds { Reads (".. attention:: a" ∷ ".. caution:: b" ∷ ".. danger:: c" ∷ [])
        ("<document>" ∷ "    <attention>" ∷ "        <paragraph>" ∷ "            a" ∷ "    <caution>" ∷ "        <paragraph>"
        ∷ "            b" ∷ "    <danger>" ∷ "        <paragraph>" ∷ "            c" ∷ []) }
    ensures further_kinds { Reads (".. error:: d" ∷ ".. hint:: e" ∷ ".. important:: f" ∷ [])
        ("<document>" ∷ "    <error>" ∷ "        <paragraph>" ∷ "            d" ∷ "    <hint>" ∷ "        <paragraph>" ∷ "            e"
        ∷ "    <important>" ∷ "        <paragraph>" ∷ "            f" ∷ []) }
    ensures last_kinds { Reads (".. note:: g" ∷ ".. tip:: h" ∷ ".. warning:: i" ∷ [])
        ("<document>" ∷ "    <note>" ∷ "        <paragraph>" ∷ "            g" ∷ "    <tip>" ∷ "        <paragraph>" ∷ "            h"
        ∷ "    <warning>" ∷ "        <paragraph>" ∷ "            i" ∷ []) }
    ensures options { Means (".. Note::" ∷ "   :class: A b C" ∷ "   :name: N  m" ∷ "" ∷ "   x" ∷ "" ∷ "   - y" ∷ []) 0
        ("<document> 0" ∷ "    <note classes=\"a b c\" own_name=\"n m\"> 1" ∷ "        <paragraph> 5" ∷ "            x"
        ∷ "        <bullet_list bullet=\"-\"> 7" ∷ "            <list_item> 7" ∷ "                <paragraph> 7" ∷ "                    y" ∷ []) }
    ensures content_beside_the_mark { Means (".. note:: a" ∷ "   b" ∷ "" ∷ "   c" ∷ []) 0
        ("<document> 0" ∷ "    <note> 1" ∷ "        <paragraph> 1" ∷ "            a" ∷ "            b" ∷ "        <paragraph> 4"
        ∷ "            c" ∷ []) }
    ensures two_blocks { Means (".. note:: - a" ∷ "   :class: c" ∷ "" ∷ "   - b" ∷ []) 0
        ("<document> 0" ∷ "    <note classes=\"c\"> 1" ∷ "        <bullet_list bullet=\"-\"> 1" ∷ "            <list_item> 1"
        ∷ "                <paragraph> 1" ∷ "                    a" ∷ "        <bullet_list bullet=\"-\"> 4" ∷ "            <list_item> 4"
        ∷ "                <paragraph> 4" ∷ "                    b" ∷ []) }
    ensures titled { Means (".. admonition:: A *b*" ∷ "   c" ∷ "" ∷ "   d" ∷ []) 0
        ("<document> 0" ∷ "    <admonition classes=\"admonition-a-b-c\"> 1" ∷ "        <title> 1" ∷ "            A "
        ∷ "            <emphasis> 1" ∷ "                b" ∷ "            " ∷ "            c" ∷ "        <paragraph> 4" ∷ "            d" ∷ []) }
    ensures class_of_the_options { Reads (".. admonition:: A" ∷ "   :class: b" ∷ "" ∷ "   c" ∷ [])
        ("<document>" ∷ "    <admonition classes=\"b\">" ∷ "        <title>" ∷ "            A" ∷ "        <paragraph>" ∷ "            c" ∷ []) }
    ensures messages_of_a_title { Means (".. admonition::" ∷ "   *a" ∷ "" ∷ "   b" ∷ []) 1
        ("<document> 0" ∷ "    <admonition classes=\"admonition-a\"> 1" ∷ "        <title text_messages=\"1\"> 2"
        ∷ "            <problematic message=\"0\"> 2" ∷ "                *" ∷ "            a"
        ∷ "        <system_message level=\"2\" message=\"0\"> 2" ∷ "            <paragraph> 2"
        ∷ "                Inline emphasis start-string without end-string." ∷ "        <paragraph> 4" ∷ "            b" ∷ []) }
    ensures without_content { Means ("x" ∷ "" ∷ ".. Tip::" ∷ []) 0
        ("<document> 0" ∷ "    <paragraph> 1" ∷ "        x" ∷ "    <system_message level=\"3\"> 3" ∷ "        <paragraph> 3"
        ∷ "            Content block expected for the \"Tip\" directive; none found." ∷ "        <literal_block xml:space=\"preserve\"> 3"
        ∷ "            .. Tip::" ∷ []) }
    ensures without_a_title { Reads (".. admonition::" ∷ "" ∷ "   :class: a" ∷ [])
        ("<document>" ∷ "    <system_message level=\"3\">" ∷ "        <paragraph>" ∷ "            Error in \"admonition\" directive:"
        ∷ "            1 argument(s) required, 0 supplied." ∷ "        <literal_block xml:space=\"preserve\">" ∷ "            .. admonition::"
        ∷ "            " ∷ "               :class: a" ∷ []) }
    ensures titled_without_content { Reads (".. admonition:: A" ∷ [])
        ("<document>" ∷ "    <system_message level=\"3\">" ∷ "        <paragraph>"
        ∷ "            Content block expected for the \"admonition\" directive; none found."
        ∷ "        <literal_block xml:space=\"preserve\">" ∷ "            .. admonition:: A" ∷ []) }
    ensures options_after_a_blank_line { Reads (".. note::" ∷ "" ∷ "   :class: x" ∷ "" ∷ "   t" ∷ [])
        ("<document>" ∷ "    <note classes=\"x\">" ∷ "        <paragraph>" ∷ "            t" ∷ []) }
    ensures class_of_a_digit { Reads (".. admonition:: :sub:`2`" ∷ "" ∷ "   a" ∷ [])
        ("<document>" ∷ "    <admonition classes=\"admonition-\">" ∷ "        <title>" ∷ "            <subscript>" ∷ "                2"
        ∷ "        <paragraph>" ∷ "            a" ∷ []) }
{}

/// Topics (Directives, 'Topic').
pub fn topics()
    ensures one { Reads (".. topic:: A" ∷ "   :class: b" ∷ "" ∷ "   c" ∷ [])
        ("<document>" ∷ "    <topic classes=\"b\">" ∷ "        <title>" ∷ "            A" ∷ "        <paragraph>" ∷ "            c" ∷ []) }
    ensures without_a_class { Reads (".. topic:: A" ∷ "" ∷ "   b" ∷ [])
        ("<document>" ∷ "    <topic>" ∷ "        <title>" ∷ "            A" ∷ "        <paragraph>" ∷ "            b" ∷ []) }
    ensures in_an_item { Means ("- .. topic:: A" ∷ "" ∷ "     b" ∷ []) 0
        ("<document> 0" ∷ "    <bullet_list bullet=\"-\"> 1" ∷ "        <list_item> 1" ∷ "            <system_message level=\"3\"> 1"
        ∷ "                <paragraph> 1" ∷ "                    The \"topic\" directive may not be used within topics or body elements."
        ∷ "                <literal_block xml:space=\"preserve\"> 1" ∷ "                    .. topic:: A" ∷ "                    "
        ∷ "                       b" ∷ []) }
    ensures in_an_item_without_content { Reads ("- .. topic:: A" ∷ [])
        ("<document>" ∷ "    <bullet_list bullet=\"-\">" ∷ "        <list_item>" ∷ "            <system_message level=\"3\">"
        ∷ "                <paragraph>" ∷ "                    Content block expected for the \"topic\" directive; none found."
        ∷ "                <literal_block xml:space=\"preserve\">" ∷ "                    .. topic:: A" ∷ []) }
{}

/// Images (Directives, 'Image').
pub fn images()
    ensures options { Means (".. image:: a" ∷ "   b.png" ∷ "   :alt: c d" ∷ "   :height: 3.5 em" ∷ "   :width: 50 %" ∷ "   :scale: 050 %"
        ∷ "   :align: middle" ∷ "   :class: E" ∷ "   :name: F" ∷ []) 0
        ("<document> 0"
        ∷ "    <image align=\"middle\" alt=\"c d\" classes=\"e\" height=\"3.5em\" own_name=\"f\" scale=\"50\" uri=\"ab.png\" width=\"50%\"> 1" ∷ []) }
    ensures target_by_name { Means (".. image:: a" ∷ "   :target: `B  c`_" ∷ []) 0
        ("<document> 0" ∷ "    <reference name=\"B c\" rawsource=\"`B  c`_\" refname=\"b c\"> 1" ∷ "        <image uri=\"a\"> 1" ∷ []) }
    ensures target_by_uri { Means (".. image:: a" ∷ "   :target: b c" ∷ []) 0
        ("<document> 0" ∷ "    <reference rawsource=\"b c\" refuri=\"bc\"> 1" ∷ "        <image uri=\"a\"> 1" ∷ []) }
    ensures uri_after_a_blank_line { Reads (".. image::" ∷ "" ∷ "   a.png" ∷ []) ("<document>" ∷ "    <image uri=\"a.png\">" ∷ []) }
    ensures empty_values { Means (".. image:: a" ∷ "   :alt:" ∷ "   :name:" ∷ []) 0
        ("<document> 0" ∷ "    <image alt=\"\" own_name=\"\" uri=\"a\"> 1" ∷ []) }
    ensures alignments { Reads (".. image:: a" ∷ "   :align: top" ∷ ".. image:: b" ∷ "   :align: bottom" ∷ [])
        ("<document>" ∷ "    <image align=\"top\" uri=\"a\">" ∷ "    <image align=\"bottom\" uri=\"b\">" ∷ []) }
    ensures horizontal_alignments { Reads (".. image:: c" ∷ "   :align: left" ∷ ".. image:: d" ∷ "   :align: center" ∷ ".. image:: e"
        ∷ "   :align: right" ∷ [])
        ("<document>" ∷ "    <image align=\"left\" uri=\"c\">" ∷ "    <image align=\"center\" uri=\"d\">"
        ∷ "    <image align=\"right\" uri=\"e\">" ∷ []) }
{}

/// Images that are wrong (Directives, 'Image').
pub fn wrong_images()
    ensures without_a_uri { Reads (".. image::" ∷ "   :alt: a" ∷ [])
        ("<document>" ∷ "    <system_message level=\"3\">" ∷ "        <paragraph>" ∷ "            Error in \"image\" directive:"
        ∷ "            1 argument(s) required, 0 supplied." ∷ "        <literal_block xml:space=\"preserve\">" ∷ "            .. image::"
        ∷ "               :alt: a" ∷ []) }
    ensures content { Reads (".. image:: a" ∷ "" ∷ "   b" ∷ [])
        ("<document>" ∷ "    <system_message level=\"3\">" ∷ "        <paragraph>" ∷ "            Error in \"image\" directive:"
        ∷ "            no content permitted." ∷ "        <literal_block xml:space=\"preserve\">" ∷ "            .. image:: a" ∷ "            "
        ∷ "               b" ∷ []) }
    ensures unknown_option { Means ("x" ∷ "" ∷ ".. image:: a" ∷ "   :scale: b" ∷ "   :c d: e" ∷ []) 0
        ("<document> 0" ∷ "    <paragraph> 1" ∷ "        x" ∷ "    <system_message level=\"3\"> 3" ∷ "        <paragraph> 3"
        ∷ "            Error in \"image\" directive:" ∷ "            unknown option: \"c d\"."
        ∷ "        <literal_block xml:space=\"preserve\"> 3" ∷ "            .. image:: a" ∷ "               :scale: b"
        ∷ "               :c d: e" ∷ []) }
    ensures duplicate_option { Reads (".. image:: a" ∷ "   :scale: b" ∷ "   :alt: c" ∷ "   :ALT: d" ∷ [])
        ("<document>" ∷ "    <system_message level=\"3\">" ∷ "        <paragraph>" ∷ "            Error in \"image\" directive:"
        ∷ "            duplicate option \"ALT\"." ∷ "        <literal_block xml:space=\"preserve\">" ∷ "            .. image:: a"
        ∷ "               :scale: b" ∷ "               :alt: c" ∷ "               :ALT: d" ∷ []) }
    ensures invalid_height { Reads (".. image:: a" ∷ "   :height: 50%" ∷ [])
        ("<document>" ∷ "    <system_message level=\"3\">" ∷ "        <paragraph>" ∷ "            Error in \"image\" directive:"
        ∷ "            invalid value of option \"height\"." ∷ "        <literal_block xml:space=\"preserve\">"
        ∷ "            .. image:: a" ∷ "               :height: 50%" ∷ []) }
    ensures invalid_scale { Reads (".. image:: a" ∷ "   :scale: 5.0" ∷ [])
        ("<document>" ∷ "    <system_message level=\"3\">" ∷ "        <paragraph>" ∷ "            Error in \"image\" directive:"
        ∷ "            invalid value of option \"scale\"." ∷ "        <literal_block xml:space=\"preserve\">"
        ∷ "            .. image:: a" ∷ "               :scale: 5.0" ∷ []) }
    ensures invalid_alignment { Reads (".. image:: a" ∷ "   :align: Left" ∷ [])
        ("<document>" ∷ "    <system_message level=\"3\">" ∷ "        <paragraph>" ∷ "            Error in \"image\" directive:"
        ∷ "            invalid value of option \"align\"." ∷ "        <literal_block xml:space=\"preserve\">"
        ∷ "            .. image:: a" ∷ "               :align: Left" ∷ []) }
    ensures invalid_class { Reads (".. image:: a" ∷ "   :class: 1" ∷ [])
        ("<document>" ∷ "    <system_message level=\"3\">" ∷ "        <paragraph>" ∷ "            Error in \"image\" directive:"
        ∷ "            invalid value of option \"class\"." ∷ "        <literal_block xml:space=\"preserve\">"
        ∷ "            .. image:: a" ∷ "               :class: 1" ∷ []) }
    ensures empty_target { Reads (".. image:: a" ∷ "   :target:" ∷ [])
        ("<document>" ∷ "    <system_message level=\"3\">" ∷ "        <paragraph>" ∷ "            Error in \"image\" directive:"
        ∷ "            invalid value of option \"target\"." ∷ "        <literal_block xml:space=\"preserve\">"
        ∷ "            .. image:: a" ∷ "               :target:" ∷ []) }
    ensures invalid_option_block { Reads (".. image:: a" ∷ "   :alt: b" ∷ "   c" ∷ [])
        ("<document>" ∷ "    <system_message level=\"3\">" ∷ "        <paragraph>" ∷ "            Error in \"image\" directive:"
        ∷ "            invalid option block." ∷ "        <literal_block xml:space=\"preserve\">" ∷ "            .. image:: a"
        ∷ "               :alt: b" ∷ "               c" ∷ []) }
    ensures unknown_option_and_no_uri { Reads (".. image::" ∷ "   :foo: 1" ∷ [])
        ("<document>" ∷ "    <system_message level=\"3\">" ∷ "        <paragraph>" ∷ "            Error in \"image\" directive:"
        ∷ "            unknown option: \"foo\"." ∷ "        <literal_block xml:space=\"preserve\">" ∷ "            .. image::"
        ∷ "               :foo: 1" ∷ []) }
{}

/// Figures (Directives, 'Figure').
pub fn figures()
    ensures caption_and_legend { Means (".. figure:: a.png" ∷ "" ∷ "   B *c*" ∷ "" ∷ "   d" ∷ "" ∷ "   - e" ∷ []) 0
        ("<document> 0" ∷ "    <figure> 1" ∷ "        <image uri=\"a.png\"> 1" ∷ "        <caption> 3" ∷ "            B "
        ∷ "            <emphasis> 3" ∷ "                c" ∷ "        <legend> 0" ∷ "            <paragraph> 5" ∷ "                d"
        ∷ "            <bullet_list bullet=\"-\"> 7" ∷ "                <list_item> 7" ∷ "                    <paragraph> 7"
        ∷ "                        e" ∷ []) }
    ensures alone { Reads (".. figure:: a.png" ∷ []) ("<document>" ∷ "    <figure>" ∷ "        <image uri=\"a.png\">" ∷ []) }
    ensures options { Reads (".. figure:: a.png" ∷ "   :figwidth: 50" ∷ "   :figclass: f G" ∷ "   :align: left" ∷ "   :alt: b"
        ∷ "   :width: 3em" ∷ "   :class: c" ∷ "   :target: u" ∷ "" ∷ "   D" ∷ [])
        ("<document>" ∷ "    <figure align=\"left\" classes=\"f g\" width=\"50px\">" ∷ "        <reference refuri=\"u\">"
        ∷ "            <image alt=\"b\" classes=\"c\" uri=\"a.png\" width=\"3em\">" ∷ "        <caption>" ∷ "            D" ∷ []) }
    ensures alignment_of_images { Reads (".. figure:: a" ∷ "   :align: top" ∷ [])
        ("<document>" ∷ "    <system_message level=\"3\">" ∷ "        <paragraph>" ∷ "            Error in \"figure\" directive:"
        ∷ "            invalid value of option \"align\"." ∷ "        <literal_block xml:space=\"preserve\">" ∷ "            .. figure:: a"
        ∷ "               :align: top" ∷ []) }
    ensures empty_comment { Reads (".. figure:: a" ∷ "" ∷ "   .." ∷ "" ∷ "   b" ∷ [])
        ("<document>" ∷ "    <figure>" ∷ "        <image uri=\"a\">" ∷ "        <legend>" ∷ "            <paragraph>" ∷ "                b" ∷ []) }
    ensures no_caption { Means (".. figure:: a" ∷ "" ∷ "   - b" ∷ "" ∷ "   *c" ∷ []) 1
        ("<document> 0" ∷ "    <figure> 1" ∷ "        <image uri=\"a\"> 1" ∷ "    <system_message level=\"3\"> 1" ∷ "        <paragraph> 1"
        ∷ "            Figure caption must be a paragraph or empty comment." ∷ "        <literal_block xml:space=\"preserve\"> 1"
        ∷ "            .. figure:: a" ∷ "            " ∷ "               - b" ∷ "            " ∷ "               *c" ∷ []) }
    ensures message_of_a_caption { Means (".. figure:: a" ∷ "" ∷ "   *b" ∷ "" ∷ "   c" ∷ []) 1
        ("<document> 0" ∷ "    <figure> 1" ∷ "        <image uri=\"a\"> 1" ∷ "        <caption text_messages=\"1\"> 3"
        ∷ "            <problematic message=\"0\"> 3" ∷ "                *" ∷ "            b" ∷ "        <legend> 0"
        ∷ "            <paragraph> 5" ∷ "                c" ∷ "    <system_message level=\"2\" message=\"0\"> 3" ∷ "        <paragraph> 3"
        ∷ "            Inline emphasis start-string without end-string." ∷ []) }
    ensures width_of_the_figure { Reads (".. figure:: a.png" ∷ "   :figwidth: 50%" ∷ "" ∷ "   cap" ∷ "" ∷ "   leg" ∷ [])
        ("<document>" ∷ "    <figure width=\"50%\">" ∷ "        <image uri=\"a.png\">" ∷ "        <caption>" ∷ "            cap"
        ∷ "        <legend>" ∷ "            <paragraph>" ∷ "                leg" ∷ []) }
    ensures comment_before_a_text { Means (".. figure:: a" ∷ "" ∷ "   .." ∷ "   b" ∷ []) 0
        ("<document> 0" ∷ "    <figure> 1" ∷ "        <image uri=\"a\"> 1" ∷ "        <legend> 0"
        ∷ "            <system_message level=\"2\"> 4" ∷ "                <paragraph> 4"
        ∷ "                    Explicit markup ends without a blank line; unexpected unindent." ∷ "            <paragraph> 4"
        ∷ "                b" ∷ []) }
    ensures info_first { Means (".. figure:: a" ∷ "" ∷ "   --" ∷ []) 0
        ("<document> 0" ∷ "    <figure> 1" ∷ "        <image uri=\"a\"> 1" ∷ "    <system_message level=\"3\"> 1" ∷ "        <paragraph> 1"
        ∷ "            Figure caption must be a paragraph or empty comment." ∷ "        <literal_block xml:space=\"preserve\"> 1"
        ∷ "            .. figure:: a" ∷ "            " ∷ "               --" ∷ []) }
    ensures comment_with_text { Reads (".. figure:: a" ∷ "" ∷ "   .. b" ∷ [])
        ("<document>" ∷ "    <figure>" ∷ "        <image uri=\"a\">" ∷ "    <system_message level=\"3\">" ∷ "        <paragraph>"
        ∷ "            Figure caption must be a paragraph or empty comment." ∷ "        <literal_block xml:space=\"preserve\">"
        ∷ "            .. figure:: a" ∷ "            " ∷ "               .. b" ∷ []) }
    ensures target_first { Reads (".. figure:: a" ∷ "" ∷ "   .. _b:" ∷ [])
        ("<document>" ∷ "    <figure>" ∷ "        <image uri=\"a\">" ∷ "    <system_message level=\"3\">" ∷ "        <paragraph>"
        ∷ "            Figure caption must be a paragraph or empty comment." ∷ "        <literal_block xml:space=\"preserve\">"
        ∷ "            .. figure:: a" ∷ "            " ∷ "               .. _b:" ∷ []) }
{}

/// Program code (Directives, 'Code').
pub fn code()
    ensures language { Reads (".. code:: C++" ∷ "" ∷ "   a" ∷ "     *b*" ∷ "" ∷ "   c" ∷ [])
        ("<document>" ∷ "    <literal_block classes=\"code C++\" xml:space=\"preserve\">" ∷ "        a" ∷ "          *b*" ∷ "        "
        ∷ "        c" ∷ []) }
    ensures without_a_language { Reads (".. code-block::" ∷ "" ∷ "   d" ∷ [])
        ("<document>" ∷ "    <literal_block classes=\"code\" xml:space=\"preserve\">" ∷ "        d" ∷ []) }
    ensures classes_of_source_code { Reads (".. sourcecode:: x" ∷ "   :class: E" ∷ "" ∷ "   f" ∷ [])
        ("<document>" ∷ "    <literal_block classes=\"code x e\" xml:space=\"preserve\">" ∷ "        f" ∷ []) }
    ensures two_words { Reads (".. code:: a" ∷ "   b" ∷ "" ∷ "   c" ∷ [])
        ("<document>" ∷ "    <system_message level=\"3\">" ∷ "        <paragraph>" ∷ "            Error in \"code\" directive:"
        ∷ "            at most 1 argument permitted." ∷ "        <literal_block xml:space=\"preserve\">" ∷ "            .. code:: a"
        ∷ "               b" ∷ "            " ∷ "               c" ∷ []) }
    ensures options_late { Reads (".. code::" ∷ "" ∷ "   :class: c" ∷ [])
        ("<document>" ∷ "    <literal_block classes=\"code\" xml:space=\"preserve\">" ∷ "        :class: c" ∷ []) }
    ensures without_content { Reads (".. code:: a" ∷ [])
        ("<document>" ∷ "    <system_message level=\"3\">" ∷ "        <paragraph>"
        ∷ "            Content block expected for the \"code\" directive; none found." ∷ "        <literal_block xml:space=\"preserve\">"
        ∷ "            .. code:: a" ∷ []) }
    ensures name { Means (".. code:: a" ∷ "   :name: B" ∷ "" ∷ "   c" ∷ []) 0
        ("<document> 0" ∷ "    <literal_block classes=\"code a\" own_name=\"b\" xml:space=\"preserve\"> 1" ∷ "        c" ∷ []) }
{}

/// Other directives, and where directives begin (Markup Specification, 'Directives').
pub fn directives()
    ensures unknown { Means ("x" ∷ "" ∷ ".. no.Such:: a" ∷ "   :b: c" ∷ "" ∷ "   d" ∷ "" ∷ "e" ∷ []) 0
        ("<document> 0" ∷ "    <paragraph> 1" ∷ "        x" ∷ "    <system_message level=\"3\"> 3" ∷ "        <paragraph> 3"
        ∷ "            Unknown directive type \"no.Such\"." ∷ "        <literal_block xml:space=\"preserve\"> 3"
        ∷ "            .. no.Such:: a" ∷ "               :b: c" ∷ "            " ∷ "               d" ∷ "    <paragraph> 8" ∷ "        e" ∷ []) }
    ensures rubric { Reads (".. rubric:: a" ∷ [])
        ("<document>" ∷ "    <system_message level=\"3\">" ∷ "        <paragraph>" ∷ "            Unknown directive type \"rubric\"."
        ∷ "        <literal_block xml:space=\"preserve\">" ∷ "            .. rubric:: a" ∷ []) }
    ensures math { Reads (".. math:: b" ∷ [])
        ("<document>" ∷ "    <system_message level=\"3\">" ∷ "        <paragraph>" ∷ "            Unknown directive type \"math\"."
        ∷ "        <literal_block xml:space=\"preserve\">" ∷ "            .. math:: b" ∷ []) }
    ensures raw { Reads (".. raw:: c" ∷ [])
        ("<document>" ∷ "    <system_message level=\"3\">" ∷ "        <paragraph>" ∷ "            Unknown directive type \"raw\"."
        ∷ "        <literal_block xml:space=\"preserve\">" ∷ "            .. raw:: c" ∷ []) }
    ensures space_before_the_colons { Reads (".. note :: a" ∷ [])
        ("<document>" ∷ "    <note>" ∷ "        <paragraph>" ∷ "            a" ∷ []) }
    ensures two_spaces_before_the_colons { Reads (".. note  :: b" ∷ [])
        ("<document>" ∷ "    <comment xml:space=\"preserve\">" ∷ "        note  :: b" ∷ []) }
    ensures no_space_after_the_colons { Reads (".. note::c" ∷ [])
        ("<document>" ∷ "    <comment xml:space=\"preserve\">" ∷ "        note::c" ∷ []) }
    ensures replace_outside { Reads (".. replace:: a" ∷ [])
        ("<document>" ∷ "    <system_message level=\"3\">" ∷ "        <paragraph>"
        ∷ "            Invalid context: the \"replace\" directive can only be used within a substitution definition."
        ∷ "        <literal_block xml:space=\"preserve\">" ∷ "            .. replace:: a" ∷ []) }
    ensures replace_outside_with_a_list { Reads (".. replace:: - a" ∷ [])
        ("<document>" ∷ "    <system_message level=\"3\">" ∷ "        <paragraph>" ∷ "            Error in \"replace\" directive:"
        ∷ "            may contain a single paragraph only." ∷ "        <literal_block xml:space=\"preserve\">"
        ∷ "            .. replace:: - a" ∷ []) }
    ensures note_and_image { Reads (".. note:: Hi" ∷ "" ∷ "   x" ∷ ".. image:: a.png" ∷ "   :scale: 50%" ∷ [])
        ("<document>" ∷ "    <note>" ∷ "        <paragraph>" ∷ "            Hi" ∷ "        <paragraph>" ∷ "            x"
        ∷ "    <image scale=\"50\" uri=\"a.png\">" ∷ []) }
{}

/// Sidebars (Directives, 'Sidebar').
pub fn sidebars()
    ensures titled { MeansWider (".. sidebar:: A" ∷ "   :subtitle: *b*" ∷ "   :class: c" ∷ "" ∷ "   d" ∷ []) 0
        ("<document> 0" ∷ "    <sidebar classes=\"c\"> 1" ∷ "        <title> 1" ∷ "            A" ∷ "        <subtitle> 1" ∷ "            <emphasis> 1"
        ∷ "                b" ∷ "        <paragraph> 5" ∷ "            d" ∷ []) }
    ensures messages { MeansWider (".. sidebar:: *a" ∷ "   :subtitle: *b" ∷ "" ∷ "   c" ∷ []) 2
        ("<document> 0" ∷ "    <sidebar> 1" ∷ "        <title text_messages=\"1\"> 1" ∷ "            <problematic message=\"0\"> 1" ∷ "                *"
        ∷ "            a" ∷ "        <subtitle text_messages=\"1\"> 1" ∷ "            <problematic message=\"1\"> 1" ∷ "                *"
        ∷ "            b" ∷ "        <system_message level=\"2\" message=\"0\"> 1" ∷ "            <paragraph> 1"
        ∷ "                Inline emphasis start-string without end-string." ∷ "        <system_message level=\"2\" message=\"1\"> 1"
        ∷ "            <paragraph> 1" ∷ "                Inline emphasis start-string without end-string." ∷ "        <paragraph> 4" ∷ "            c" ∷ []) }
    ensures without_a_title { MeansWider (".. sidebar::" ∷ "   :name: A b" ∷ "" ∷ "   c" ∷ []) 0
        ("<document> 0" ∷ "    <sidebar own_name=\"a b\"> 1" ∷ "        <paragraph> 4" ∷ "            c" ∷ []) }
    ensures subtitle_without_a_title { MeansWider (".. sidebar::" ∷ "   :subtitle: a" ∷ []) 0
        ("<document> 0" ∷ "    <system_message level=\"3\"> 1" ∷ "        <paragraph> 1"
        ∷ "            The \"subtitle\" option may not be used without a title." ∷ "        <literal_block xml:space=\"preserve\"> 1"
        ∷ "            .. sidebar::" ∷ "               :subtitle: a" ∷ []) }
    ensures in_an_item { MeansWider ("- .. Sidebar:: a" ∷ "" ∷ "     b" ∷ []) 0
        ("<document> 0" ∷ "    <bullet_list bullet=\"-\"> 1" ∷ "        <list_item> 1" ∷ "            <system_message level=\"3\"> 1"
        ∷ "                <paragraph> 1" ∷ "                    The \"Sidebar\" directive may not be used within topics or body elements."
        ∷ "                <literal_block xml:space=\"preserve\"> 1" ∷ "                    .. Sidebar:: a" ∷ "                    "
        ∷ "                       b" ∷ []) }
{}

/// Block quotes of a class (Directives, 'Epigraph').
pub fn classed_quotes()
    ensures attribution { MeansWider (".. epigraph::" ∷ "" ∷ "   a" ∷ "" ∷ "   -- b" ∷ []) 0
        ("<document> 0" ∷ "    <block_quote classes=\"epigraph\"> 3" ∷ "        <paragraph> 3" ∷ "            a" ∷ "        <attribution> 5"
        ∷ "            b" ∷ []) }
    ensures beside_the_mark { MeansWider (".. pull-quote:: a" ∷ "   b" ∷ []) 0
        ("<document> 0" ∷ "    <block_quote classes=\"pull-quote\"> 1" ∷ "        <paragraph> 1" ∷ "            a" ∷ "            b" ∷ []) }
    ensures several { MeansWider (".. highlights::" ∷ "" ∷ "   a" ∷ "" ∷ "   -- *b" ∷ "" ∷ "     c" ∷ []) 1
        ("<document> 0" ∷ "    <block_quote classes=\"highlights\"> 3" ∷ "        <paragraph> 3" ∷ "            a"
        ∷ "        <attribution text_messages=\"1\"> 5" ∷ "            <problematic message=\"0\"> 5" ∷ "                *" ∷ "            b"
        ∷ "    <system_message level=\"2\" message=\"0\"> 5" ∷ "        <paragraph> 5" ∷ "            Inline emphasis start-string without end-string."
        ∷ "    <block_quote classes=\"highlights\"> 7" ∷ "        <block_quote> 7" ∷ "            <paragraph> 7" ∷ "                c" ∷ []) }
    ensures field_list { MeansWider (".. epigraph::" ∷ "   :a: b" ∷ []) 0
        ("<document> 0" ∷ "    <block_quote classes=\"epigraph\"> 2" ∷ "        <field_list> 2" ∷ "            <field> 2" ∷ "                <field_name> 2"
        ∷ "                    a" ∷ "                <field_body> 2" ∷ "                    <paragraph> 2" ∷ "                        b" ∷ []) }
    ensures without_content { MeansWider (".. Epigraph::" ∷ []) 0
        ("<document> 0" ∷ "    <system_message level=\"3\"> 1" ∷ "        <paragraph> 1"
        ∷ "            Content block expected for the \"Epigraph\" directive; none found." ∷ "        <literal_block xml:space=\"preserve\"> 1"
        ∷ "            .. Epigraph::" ∷ []) }
{}

/// Classes of what is in a directive, or follows it (Directives, 'Class').
pub fn class_names()
    ensures content { MeansWider (".. class:: A_b" ∷ "   :name: x" ∷ "" ∷ "   a" ∷ "" ∷ "   .. note:: b" ∷ "      :class: c" ∷ []) 0
        ("<document> 0" ∷ "    <paragraph classes=\"a-b name x\"> 4" ∷ "        a" ∷ "    <note classes=\"c a-b name x\"> 6" ∷ "        <paragraph> 6"
        ∷ "            b" ∷ []) }
    ensures without_content { MeansWider (".. class:: a" ∷ "   b" ∷ "" ∷ "c" ∷ []) 0
        ("<document> 0" ∷ "    <class classes=\"a b\"> 1" ∷ "        .. class:: a" ∷ "           b" ∷ "    <paragraph> 4" ∷ "        c" ∷ []) }
    ensures one_in_another { MeansWider (".. class:: a" ∷ "" ∷ "   .. class:: b" ∷ "" ∷ "      c" ∷ "" ∷ "   .. class:: d" ∷ []) 0
        ("<document> 0" ∷ "    <paragraph classes=\"b a\"> 5" ∷ "        c" ∷ "    <class classes=\"d\"> 7" ∷ "        .. class:: d" ∷ []) }
    ensures message_in_it { MeansWider (".. class:: a" ∷ "" ∷ "   *b" ∷ []) 1
        ("<document> 0" ∷ "    <paragraph classes=\"a\" text_messages=\"1\"> 3" ∷ "        <problematic message=\"0\"> 3" ∷ "            *" ∷ "        b"
        ∷ "    <system_message classes=\"a\" level=\"2\" message=\"0\"> 3" ∷ "        <paragraph> 3"
        ∷ "            Inline emphasis start-string without end-string." ∷ []) }
    ensures in_a_figure { MeansWider (".. figure:: u" ∷ "" ∷ "   .. class:: a" ∷ "" ∷ "      b" ∷ []) 0
        ("<document> 0" ∷ "    <figure> 1" ∷ "        <image uri=\"u\"> 1" ∷ "        <caption> 5" ∷ "            b" ∷ []) }
    ensures no_word { MeansWider (".. class:: 1" ∷ []) 0
        ("<document> 0" ∷ "    <system_message level=\"3\"> 1" ∷ "        <paragraph> 1"
        ∷ "            Invalid class attribute value for \"class\" directive: \"1\"." ∷ "        <literal_block xml:space=\"preserve\"> 1"
        ∷ "            .. class:: 1" ∷ []) }
    ensures without_an_argument { MeansWider (".. class::" ∷ "" ∷ "   a" ∷ []) 0
        ("<document> 0" ∷ "    <system_message level=\"3\"> 1" ∷ "        <paragraph> 1" ∷ "            Error in \"class\" directive:"
        ∷ "            1 argument(s) required, 0 supplied." ∷ "        <literal_block xml:space=\"preserve\"> 1" ∷ "            .. class::"
        ∷ "            " ∷ "               a" ∷ []) }
{}

/// Directives of the wider profile (Directives, 'Rubric', 'Parsed Literal Block', 'Raw Data Pass-Through', 'Including an External Document
/// Fragment', 'Compound Paragraph', 'Container', 'Line Block', 'Math'), and a blank line after the first line of a directive (Markup Specification, 'Directives').
pub fn wider()
    ensures rubric { MeansWider (".. rubric:: A *small*" ∷ "   heading" ∷ "   :class: c" ∷ "   :name: My Name" ∷ []) 0
        ("<document> 0" ∷ "    <rubric classes=\"c\" own_name=\"my name\"> 1" ∷ "        A " ∷ "        <emphasis> 1" ∷ "            small" ∷ "        "
        ∷ "        heading" ∷ []) }
    ensures message_of_a_rubric { MeansWider (".. rubric:: a *b" ∷ []) 1
        ("<document> 0" ∷ "    <rubric text_messages=\"1\"> 1" ∷ "        a " ∷ "        <problematic message=\"0\"> 1" ∷ "            *" ∷ "        b"
        ∷ "    <system_message level=\"2\" message=\"0\"> 1" ∷ "        <paragraph> 1"
        ∷ "            Inline emphasis start-string without end-string." ∷ []) }
    ensures rubric_without_a_text { MeansWider (".. rubric::" ∷ []) 0
        ("<document> 0" ∷ "    <system_message level=\"3\"> 1" ∷ "        <paragraph> 1" ∷ "            Error in \"rubric\" directive:"
        ∷ "            1 argument(s) required, 0 supplied." ∷ "        <literal_block xml:space=\"preserve\"> 1" ∷ "            .. rubric::" ∷ []) }
    ensures parsed_literal { MeansWider (".. parsed-literal::" ∷ "" ∷ "   a *b*" ∷ "" ∷ "     c" ∷ []) 0
        ("<document> 0" ∷ "    <literal_block xml:space=\"preserve\"> 1" ∷ "        a " ∷ "        <emphasis> 1" ∷ "            b" ∷ "        " ∷ "        "
        ∷ "          c" ∷ []) }
    ensures text_beside_the_mark { MeansWider (".. parsed-literal:: a" ∷ "   :class: c" ∷ "" ∷ "" ∷ "   b" ∷ []) 0
        ("<document> 0" ∷ "    <literal_block classes=\"c\" xml:space=\"preserve\"> 1" ∷ "        a" ∷ "        " ∷ "        " ∷ "        b" ∷ []) }
    ensures raw { MeansWider (".. raw:: HTML  x.y" ∷ "" ∷ "     x" ∷ "" ∷ "   *y*" ∷ []) 0
        ("<document> 0" ∷ "    <raw format=\"html x.y\" xml:space=\"preserve\"> 1" ∷ "          x" ∷ "        " ∷ "        *y*" ∷ []) }
    ensures raw_file { MeansWider (".. raw:: html" ∷ "   :file: a" ∷ []) 0
        ("<document> 0" ∷ "    <system_message level=\"2\"> 1" ∷ "        <paragraph> 1" ∷ "            \"raw\" directive disabled."
        ∷ "        <literal_block xml:space=\"preserve\"> 1" ∷ "            .. raw:: html" ∷ "               :file: a" ∷ []) }
    ensures include { MeansWider (".. include:: inc.txt" ∷ []) 0
        ("<document> 0" ∷ "    <system_message level=\"2\"> 1" ∷ "        <paragraph> 1" ∷ "            \"include\" directive disabled."
        ∷ "        <literal_block xml:space=\"preserve\"> 1" ∷ "            .. include:: inc.txt" ∷ []) }
    ensures compound { MeansWider (".. compound::" ∷ "" ∷ "   a" ∷ "" ∷ "   b" ∷ []) 0
        ("<document> 0" ∷ "    <compound> 1" ∷ "        <paragraph> 3" ∷ "            a" ∷ "        <paragraph> 5" ∷ "            b" ∷ []) }
    ensures container { MeansWider (".. container:: A b" ∷ "   :name: c" ∷ "" ∷ "   x" ∷ []) 0
        ("<document> 0" ∷ "    <container classes=\"a b\" own_name=\"c\"> 1" ∷ "        <paragraph> 4" ∷ "            x" ∷ []) }
    ensures no_class_name { MeansWider (".. container:: 1" ∷ "" ∷ "   x" ∷ []) 0
        ("<document> 0" ∷ "    <system_message level=\"3\"> 1" ∷ "        <paragraph> 1"
        ∷ "            Invalid class attribute value for \"container\" directive: \"1\"." ∷ "        <literal_block xml:space=\"preserve\"> 1"
        ∷ "            .. container:: 1" ∷ "            " ∷ "               x" ∷ []) }
    ensures line_block { MeansWider (".. line-block:: a" ∷ "   :class: c" ∷ "   :name: N" ∷ "" ∷ "     b" ∷ "" ∷ "   d" ∷ []) 0
        ("<document> 0" ∷ "    <line_block classes=\"c\" own_name=\"n\"> 1" ∷ "        <line> 1" ∷ "            a" ∷ "        <line> 4"
        ∷ "        <line_block> 5" ∷ "            <line> 5" ∷ "                b" ∷ "            <line> 6" ∷ "        <line> 7" ∷ "            d" ∷ []) }
    ensures message_of_a_line { MeansWider (".. line-block::" ∷ "" ∷ "   a" ∷ "   *b" ∷ []) 1
        ("<document> 0" ∷ "    <line_block> 3" ∷ "        <line> 3" ∷ "            a" ∷ "        <line text_messages=\"1\"> 4"
        ∷ "            <problematic message=\"0\"> 4" ∷ "                *" ∷ "            b" ∷ "    <system_message level=\"2\" message=\"0\"> 4"
        ∷ "        <paragraph> 4" ∷ "            Inline emphasis start-string without end-string." ∷ []) }
    ensures white_before_verse { MeansWider (".. line-block::" ∷ "" ∷ "   a" ∷ "   \u{3000}b" ∷ []) 0
        ("<document> 0" ∷ "    <line_block> 3" ∷ "        <line> 3" ∷ "            a" ∷ "        <line_block> 4" ∷ "            <line> 4"
        ∷ "                b" ∷ []) }
    ensures math { MeansWider (".. math:: b" ∷ "   :class: k" ∷ "   :name: N" ∷ "" ∷ "   c" ∷ "     *d*" ∷ "" ∷ "" ∷ "   \\e" ∷ []) 0
        ("<document> 0" ∷ "    <math_block classes=\"k\" own_name=\"n\" xml:space=\"preserve\"> 1" ∷ "        b"
        ∷ "    <math_block classes=\"k\" xml:space=\"preserve\"> 1" ∷ "        c" ∷ "          *d*"
        ∷ "    <math_block classes=\"k\" xml:space=\"preserve\"> 1" ∷ "        " ∷ "        \\e" ∷ []) }
    ensures math_without_content { MeansWider (".. math::" ∷ []) 0
        ("<document> 0" ∷ "    <system_message level=\"3\"> 1" ∷ "        <paragraph> 1"
        ∷ "            Content block expected for the \"math\" directive; none found." ∷ "        <literal_block xml:space=\"preserve\"> 1"
        ∷ "            .. math::" ∷ []) }
    ensures late_options { MeansWider (".. tip::" ∷ "" ∷ "   :a: b" ∷ []) 0
        ("<document> 0" ∷ "    <tip> 1" ∷ "        <field_list> 3" ∷ "            <field> 3" ∷ "                <field_name> 3" ∷ "                    a"
        ∷ "                <field_body> 3" ∷ "                    <paragraph> 3" ∷ "                        b" ∷ []) }
{}
