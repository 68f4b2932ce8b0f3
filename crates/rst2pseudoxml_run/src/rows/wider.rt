//! The wider profile: all its parts.
#![tactic(auto, unfolding(crate::proofs::Computing::rst2pseudoxml_run))]

ghost use Rattle.std.specs.Prelude.{[], ◌∷◌};
ghost use Rattle.rst2pseudoxml_run.specs.Written.{wide, Reports};

/// E-mail addresses (Markup Specification, 'Standalone Hyperlinks').
pub fn addresses()
    ensures in_a_text { Reports wide ("me\\@example.org and m\\e@example.org" ∷ [])
        ("<document source=\"x\">" ∷ "    <paragraph>" ∷ "        me@example.org and " ∷ "        <reference refuri=\"mailto:me@example.org\">"
        ∷ "            me@example.org" ∷ []) [] 0 }
    ensures in_a_phrase { Reports wide ("`Me <me@example.org>`_ and me_." ∷ [])
        ("<document source=\"x\">" ∷ "    <paragraph>" ∷ "        <reference name=\"Me\" refuri=\"mailto:me@example.org\">" ∷ "            Me"
        ∷ "        <target ids=\"me\" names=\"me\" refuri=\"mailto:me@example.org\">" ∷ "         and "
        ∷ "        <reference name=\"me\" refuri=\"mailto:me@example.org\">" ∷ "            me" ∷ "        ." ∷ []) [] 0 }
    ensures as_a_target { Reports wide (".. _me: me@example.org" ∷ "" ∷ "Ask me_." ∷ [])
        ("<document source=\"x\">" ∷ "    <target ids=\"me\" names=\"me\" refuri=\"mailto:me@example.org\">" ∷ "    <paragraph>" ∷ "        Ask "
        ∷ "        <reference name=\"me\" refuri=\"mailto:me@example.org\">" ∷ "            me" ∷ "        ." ∷ []) [] 0 }
{}

/// References by numbers (Roles, 'Standard Roles').
pub fn roles()
    ensures of_requests_for_comments { Reports wide ("See :rfc:`2822` and :rfc:`2822#section-3`." ∷ [])
        ("<document source=\"x\">" ∷ "    <paragraph>" ∷ "        See " ∷ "        <reference refuri=\"https://tools.ietf.org/html/rfc2822.html\">"
        ∷ "            RFC 2822" ∷ "         and " ∷ "        <reference refuri=\"https://tools.ietf.org/html/rfc2822.html#section-3\">"
        ∷ "            RFC 2822" ∷ "        ." ∷ []) [] 0 }
    ensures behind_the_text { Reports wide ("`8`:pep-reference: and `2822`:rfc-reference:" ∷ [])
        ("<document source=\"x\">" ∷ "    <paragraph>" ∷ "        <reference refuri=\"https://peps.python.org/pep-0008\">" ∷ "            PEP 8"
        ∷ "         and " ∷ "        <reference refuri=\"https://tools.ietf.org/html/rfc2822.html\">" ∷ "            RFC 2822" ∷ []) [] 0 }
{}

/// Rubrics (Directives, 'Rubric').
pub fn rubrics()
    ensures heading { Reports wide (".. rubric:: A *small* heading" ∷ [])
        ("<document source=\"x\">" ∷ "    <rubric>" ∷ "        A " ∷ "        <emphasis>" ∷ "            small" ∷ "         heading" ∷ []) [] 0 }
    ensures with_a_target { Reports wide (".. _t:" ∷ "" ∷ ".. rubric:: a" ∷ "" ∷ "See t_." ∷ [])
        ("<document source=\"x\">" ∷ "    <target refid=\"t\">" ∷ "    <rubric ids=\"t\" names=\"t\">" ∷ "        a" ∷ "    <paragraph>"
        ∷ "        See " ∷ "        <reference name=\"t\" refid=\"t\">" ∷ "            t" ∷ "        ." ∷ []) [] 0 }
{}

/// Raw data (Directives, 'Raw Data Pass-Through').
pub fn raw_data()
    ensures html { Reports wide (".. raw:: html" ∷ "" ∷ "   <b>x</b>" ∷ "" ∷ "   y" ∷ [])
        ("<document source=\"x\">" ∷ "    <raw format=\"html\" xml:space=\"preserve\">" ∷ "        <b>x</b>" ∷ "        " ∷ "        y" ∷ []) [] 0 }
    ensures two_formats { Reports wide (".. raw:: HTML  latex" ∷ "   :class: c" ∷ "" ∷ "   x" ∷ [])
        ("<document source=\"x\">" ∷ "    <raw classes=\"c\" format=\"html latex\" xml:space=\"preserve\">" ∷ "        x" ∷ []) [] 0 }
{}

/// Literal blocks with markup (Directives, 'Parsed Literal Block').
pub fn parsed_literals()
    ensures markup { Reports wide (".. parsed-literal::" ∷ "" ∷ "   a *b* c_" ∷ "     ``d``" ∷ "" ∷ "   e" ∷ "" ∷ ".. _c: u" ∷ [])
        ("<document source=\"x\">" ∷ "    <literal_block xml:space=\"preserve\">" ∷ "        a " ∷ "        <emphasis>" ∷ "            b"
        ∷ "         " ∷ "        <reference name=\"c\" refuri=\"u\">" ∷ "            c" ∷ "        " ∷ "          " ∷ "        <literal>"
        ∷ "            d" ∷ "        " ∷ "        " ∷ "        e" ∷ "    <target ids=\"c\" names=\"c\" refuri=\"u\">" ∷ []) [] 0 }
    ensures escapes { Reports wide (".. parsed-literal::" ∷ "" ∷ "   \\* a\\" ∷ "   b" ∷ [])
        ("<document source=\"x\">" ∷ "    <literal_block xml:space=\"preserve\">" ∷ "        * ab" ∷ []) [] 0 }
{}

/// Line blocks and formulas (Directives, 'Line Block', 'Math').
pub fn verse_and_formulas()
    ensures verse { Reports wide (".. line-block::" ∷ "   :class: c" ∷ "" ∷ "   a" ∷ "     *b*" ∷ "" ∷ "   c" ∷ [])
        ("<document source=\"x\">" ∷ "    <line_block classes=\"c\">" ∷ "        <line>" ∷ "            a" ∷ "        <line_block>"
        ∷ "            <line>" ∷ "                <emphasis>" ∷ "                    b" ∷ "            <line>" ∷ "        <line>"
        ∷ "            c" ∷ []) [] 0 }
    ensures formulas { Reports wide (".. math:: a < b" ∷ "   :name: N" ∷ "" ∷ "   c &= \\alpha" ∷ "" ∷ "   *d*" ∷ [])
        ("<document source=\"x\">" ∷ "    <math_block ids=\"n\" names=\"n\" xml:space=\"preserve\">" ∷ "        a < b"
        ∷ "    <math_block xml:space=\"preserve\">" ∷ "        c &= \\alpha" ∷ "    <math_block xml:space=\"preserve\">" ∷ "        *d*" ∷ []) [] 0 }
{}

/// Classes of what is in a directive (Directives, 'Class').
pub fn class_names()
    ensures content { Reports wide (".. class:: special" ∷ "" ∷ "   .. a" ∷ "" ∷ "   b" ∷ "" ∷ "   - c" ∷ [])
        ("<document source=\"x\">" ∷ "    <comment classes=\"special\" xml:space=\"preserve\">" ∷ "        a" ∷ "    <paragraph classes=\"special\">"
        ∷ "        b" ∷ "    <bullet_list bullet=\"-\" classes=\"special\">" ∷ "        <list_item>" ∷ "            <paragraph>" ∷ "                c"
        ∷ []) [] 0 }
{}

/// Files, which aren't included (Directives, 'Including an External Document Fragment').
pub fn included_files()
    ensures disabled { Reports wide (".. include:: inc.txt" ∷ [])
        ("<document source=\"x\">" ∷ "    <system_message level=\"2\" line=\"1\" source=\"x\" type=\"WARNING\">" ∷ "        <paragraph>"
        ∷ "            \"include\" directive disabled." ∷ "        <literal_block xml:space=\"preserve\">" ∷ "            .. include:: inc.txt" ∷ [])
        ("x:1: (WARNING/2) \"include\" directive disabled." ∷ "" ∷ ".. include:: inc.txt" ∷ []) 0 }
{}

/// What follows a directive's line after a blank line is its content (Markup Specification, 'Directives').
pub fn late_content()
    ensures no_options { Reports wide (".. note::" ∷ "" ∷ "   :class: x" ∷ "" ∷ "   t" ∷ [])
        ("<document source=\"x\">" ∷ "    <note>" ∷ "        <field_list>" ∷ "            <field>" ∷ "                <field_name>"
        ∷ "                    class" ∷ "                <field_body>" ∷ "                    <paragraph>" ∷ "                        x"
        ∷ "        <paragraph>" ∷ "            t" ∷ []) [] 0 }
{}

/// A line that begins with a role is no field (Markup Specification, 'Field Lists').
pub fn roles_that_begin_lines()
    ensures role { Reports wide (":a:`b` c: d" ∷ [])
        ("<document source=\"x\">" ∷ "    <paragraph>" ∷ "        <problematic ids=\"problematic-1\" refid=\"system-message-1\">"
        ∷ "            :a:`b`" ∷ "         c: d"
        ∷ "    <system_message backrefs=\"problematic-1\" ids=\"system-message-1\" level=\"3\" line=\"1\" source=\"x\" type=\"ERROR\">"
        ∷ "        <paragraph>" ∷ "            Unknown interpreted text role \"a\"." ∷ [])
        ("x:1: (ERROR/3) Unknown interpreted text role \"a\"." ∷ []) 0 }
    ensures escaped_colon { Reports wide (":a\\:`b`: d" ∷ [])
        ("<document source=\"x\">" ∷ "    <docinfo>" ∷ "        <field classes=\"a\">" ∷ "            <field_name>" ∷ "                a:"
        ∷ "                <title_reference>" ∷ "                    b" ∷ "            <field_body>" ∷ "                <paragraph>"
        ∷ "                    d" ∷ []) [] 0 }
{}

/// Keywords of revision control (Markup Specification, 'RCS Keywords').
pub fn keywords()
    ensures dates_and_others { Reports wide (":Date: $Date: 2005/12/30 10:11:12 $" ∷ ":Revision: $Revision: 4231 $" ∷ ":Version: $RCSfile: a.txt,v $"
        ∷ [])
        ("<document source=\"x\">" ∷ "    <docinfo>" ∷ "        <date>" ∷ "            2005-12-30" ∷ "        <revision>" ∷ "            4231"
        ∷ "        <version>" ∷ "            a.txt" ∷ []) [] 0 }
    ensures first_form_alone { Reports wide (":Date: x $Date: 2005-12-30T10:11:12Z (Fri) $ y $Id: z $" ∷ ":Other: $Id: a b $ c"
        ∷ ":More: *x* $Id: a $" ∷ ":Copyright: $Date$ $id: q $" ∷ [])
        ("<document source=\"x\">" ∷ "    <docinfo>" ∷ "        <date>" ∷ "            x 2005-12-30 y $Id: z $" ∷ "        <field classes=\"other\">"
        ∷ "            <field_name>" ∷ "                Other" ∷ "            <field_body>" ∷ "                <paragraph>"
        ∷ "                    a b c" ∷ "        <field classes=\"more\">" ∷ "            <field_name>" ∷ "                More"
        ∷ "            <field_body>" ∷ "                <paragraph>" ∷ "                    <emphasis>" ∷ "                        x"
        ∷ "                     $Id: a $" ∷ "        <copyright>" ∷ "            $Date$ q" ∷ []) [] 0 }
{}
