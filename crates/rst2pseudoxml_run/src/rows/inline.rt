//! Inline markup.
#![tactic(auto, unfolding(crate::proofs::Computing::rst2pseudoxml_run))]

ghost use Rattle.std.specs.Prelude.{[], ◌∷◌};
ghost use Rattle.rst2pseudoxml_run.specs.Written.{usual, Outputs, Reports};

/// Emphasis, and asterisks that begin none (Markup Specification, 'Emphasis').
pub fn emphasis()
    ensures without_an_end { Reports usual ("*a" ∷ [])
        ("<document source=\"x\">" ∷ "    <paragraph>" ∷ "        <problematic ids=\"problematic-1\" refid=\"system-message-1\">" ∷ "            *"
        ∷ "        a"
        ∷ "    <system_message backrefs=\"problematic-1\" ids=\"system-message-1\" level=\"2\" line=\"1\" source=\"x\" type=\"WARNING\">"
        ∷ "        <paragraph>" ∷ "            Inline emphasis start-string without end-string." ∷ [])
        ("x:1: (WARNING/2) Inline emphasis start-string without end-string." ∷ []) 0 }
    ensures end_inside_a_word { Reports usual ("*a*b" ∷ [])
        ("<document source=\"x\">" ∷ "    <paragraph>" ∷ "        <problematic ids=\"problematic-1\" refid=\"system-message-1\">" ∷ "            *"
        ∷ "        a*b"
        ∷ "    <system_message backrefs=\"problematic-1\" ids=\"system-message-1\" level=\"2\" line=\"1\" source=\"x\" type=\"WARNING\">"
        ∷ "        <paragraph>" ∷ "            Inline emphasis start-string without end-string." ∷ [])
        ("x:1: (WARNING/2) Inline emphasis start-string without end-string." ∷ []) 0 }
{}

/// Asterisks that begin no inline markup (Markup Specification, 'Inline markup recognition rules').
pub fn recognition()
    ensures before_a_space { Outputs ("2 * 3 * 4" ∷ []) ("<document source=\"x\">" ∷ "    <paragraph>" ∷ "        2 * 3 * 4" ∷ []) }
    ensures in_quotes { Outputs ("\"*\"" ∷ []) ("<document source=\"x\">" ∷ "    <paragraph>" ∷ "        \"*\"" ∷ []) }
{}

/// Backslashes (Markup Specification, 'Escaping Mechanism').
pub fn escapes()
    ensures asterisk { Outputs ("\\*a*" ∷ []) ("<document source=\"x\">" ∷ "    <paragraph>" ∷ "        *a*" ∷ []) }
    ensures space { Outputs ("*a*\\ *b*" ∷ [])
        ("<document source=\"x\">" ∷ "    <paragraph>" ∷ "        <emphasis>" ∷ "            a" ∷ "        <emphasis>" ∷ "            b" ∷ []) }
    ensures alone { Outputs ("\\" ∷ []) ("<document source=\"x\">" ∷ "    <paragraph>" ∷ []) }
{}

/// Strong emphasis, a literal and a role in one text (Markup Specification, 'Inline Markup').
pub fn pieces()
    ensures one_after_the_other { Outputs ("a **b** ``\\x`` :sub:`2`" ∷ [])
        ("<document source=\"x\">" ∷ "    <paragraph>" ∷ "        a " ∷ "        <strong>" ∷ "            b" ∷ "         " ∷ "        <literal>"
        ∷ "            \\x" ∷ "         " ∷ "        <subscript>" ∷ "            2" ∷ []) }
{}

/// Roles (Markup Specification, 'Interpreted Text').
pub fn roles()
    ensures unknown { Reports usual (":x:`y`" ∷ [])
        ("<document source=\"x\">" ∷ "    <paragraph>" ∷ "        <problematic ids=\"problematic-1\" refid=\"system-message-1\">"
        ∷ "            :x:`y`"
        ∷ "    <system_message backrefs=\"problematic-1\" ids=\"system-message-1\" level=\"3\" line=\"1\" source=\"x\" type=\"ERROR\">"
        ∷ "        <paragraph>" ∷ "            Unknown interpreted text role \"x\"." ∷ [])
        ("x:1: (ERROR/3) Unknown interpreted text role \"x\"." ∷ []) 0 }
{}
