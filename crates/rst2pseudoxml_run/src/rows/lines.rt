//! Lines and characters.
#![tactic(auto, unfolding(crate::proofs::Computing::rst2pseudoxml_run))]

ghost use Rattle.std.specs.Prelude.{[], ◌∷◌, codes};
ghost use Rattle.rst2pseudoxml_run.specs.Written.{usual, ReportsOn};

/// Characters that end a line (Markup Specification, 'Whitespace').
pub fn line_ends()
    ensures carriage_returns { ReportsOn usual (codes "a\tb\r\n\r\n-\tc\rd\u{c}e\u{2028}")
        ("<document source=\"x\">" ∷ "    <paragraph>" ∷ "        a       b" ∷ "    <bullet_list bullet=\"-\">" ∷ "        <list_item>"
        ∷ "            <paragraph>" ∷ "                c" ∷ "    <system_message level=\"2\" line=\"4\" source=\"x\" type=\"WARNING\">"
        ∷ "        <paragraph>" ∷ "            Bullet list ends without a blank line; unexpected unindent." ∷ "    <paragraph>" ∷ "        d e" ∷ [])
        ("x:4: (WARNING/2) Bullet list ends without a blank line; unexpected unindent." ∷ []) 0 }
    ensures past_ascii { ReportsOn usual (codes "a\u{85}b\u{2028}c\u{2029}d")
        ("<document source=\"x\">" ∷ "    <paragraph>" ∷ "        a" ∷ "        b" ∷ "        c" ∷ "        d" ∷ []) [] 0 }
    ensures separators { ReportsOn usual (codes "a\u{1c}b\u{1d}c\u{1e}d")
        ("<document source=\"x\">" ∷ "    <paragraph>" ∷ "        a" ∷ "        b" ∷ "        c" ∷ "        d" ∷ []) [] 0 }
    ensures no_line_end { ReportsOn usual (codes "a\u{1f}b") ("<document source=\"x\">" ∷ "    <paragraph>" ∷ "        a\u{1f}b" ∷ []) [] 0 }
{}

/// Characters that become spaces, or that a line loses at its end (Markup Specification, 'Whitespace').
pub fn white()
    ensures vertical_tab_and_form_feed { ReportsOn usual (codes "a\u{b}b\u{c}c")
        ("<document source=\"x\">" ∷ "    <paragraph>" ∷ "        a b c" ∷ []) [] 0 }
    ensures at_the_end { ReportsOn usual (codes "a\u{3000}\n=")
        ("<document ids=\"a\" names=\"a\" source=\"x\" title=\"a\">" ∷ "    <title>" ∷ "        a" ∷ []) [] 0 }
    ensures tab_after_a_wide_character { ReportsOn usual (codes "中\tb") ("<document source=\"x\">" ∷ "    <paragraph>" ∷ "        中       b" ∷ []) []
        0 }
{}

/// Characters that are kept, and a byte order mark (Markup Specification, 'Whitespace').
pub fn characters()
    ensures null { ReportsOn usual (codes "a\0b") ("<document source=\"x\">" ∷ "    <paragraph>" ∷ "        a\0b" ∷ []) [] 0 }
    ensures byte_order_mark { ReportsOn usual (codes "\u{feff}a\n=\n\n\u{feff}b")
        ("<document ids=\"a\" names=\"a\" source=\"x\" title=\"a\">" ∷ "    <title>" ∷ "        a" ∷ "    <paragraph>" ∷ "        \u{feff}b" ∷ []) []
        0 }
    ensures two_byte_order_marks { ReportsOn usual (codes "\u{feff}\u{feff}a")
        ("<document source=\"x\">" ∷ "    <paragraph>" ∷ "        \u{feff}a" ∷ []) [] 0 }
{}
