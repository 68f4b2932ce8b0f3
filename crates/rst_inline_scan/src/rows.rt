//! Worked examples of the pieces of an inline text, as theorems on the definitions alone: the prover computes what a definition gives for a text
//! that is written out.
#![tactic(auto, unfolding(crate::proofs::Computing::rst_inline_scan))]

ghost use Rattle.std.specs.Prelude.{◌≡◌, true, false, codes, filter, map, [], ◌∷◌};
ghost use Rattle.rst_inline_scan.specs.Characters.{may_follow, may_precede_start};
ghost use Rattle.rst_inline_scan.specs.Reads.{Cuts, CutsMail, CutsWider, contents};
ghost use Rattle.rst_inline_scan.specs.Mail.{is_address_char, is_address};
ghost use Rattle.rst_inline_scan.specs.Uri.{is_uri_char, is_uri_trail};
ghost use Rattle.rst_inline_scan.specs.Registered.{is_uric, is_link_last};
ghost use Rattle.rst_inline_scan.specs.declared.piece.Kind.TheVariants.{Plain, Marked, Unended, Label, Reference, Uri, Address};
ghost use Rattle.rst_inline_scan.specs.declared.piece.Markup.TheVariants.{Strong, Emphasis, Literal, Target, Substitution, Interpreted};
ghost use Rattle.rst_inline_scan.specs.declared.piece.Suffix.TheVariants.{Bare, Role, Named, Anonymous};

/// The characters that may occur before a start and after an end (Markup Specification, 'Inline markup recognition rules').
pub fn characters()
    ensures before { filter may_precede_start (codes "!\"#$%&'()*+,-./:;<=>?@[\\]^_`{|}~ aZ09") ≡ codes "\"'(-/:<[{ " }
    ensures after { filter may_follow (codes "!\"#$%&'()*+,-./:;<=>?@[\\]^_`{|}~ aZ09") ≡ codes "!\"'),-./:;>?\\]} " }
    ensures before_past_ascii { filter may_precede_start (codes "«»“”‘’「」¡–€‿ä") ≡ codes "«»“”‘’「¡–" }
    ensures after_past_ascii { filter may_follow (codes "«»“”‘’「」¡–€‿ä") ≡ codes "«»“”‘’」¡–" }
{}

/// Where a start may occur (Markup Specification, 'Inline markup recognition rules').
pub fn starts()
    ensures inside_a_word { Cuts "a*b*" ((Plain, "a*b*") ∷ []) }
    ensures after_punctuation_past_ascii { Cuts "。*c*" ((Plain, "。") ∷ (Marked Emphasis Bare, "*c*") ∷ []) }
    ensures beside_white_past_ascii { Cuts "a\u{3000}*b*\u{2003}c" ((Plain, "a\u{3000}") ∷ (Marked Emphasis Bare, "*b*") ∷ (Plain, "\u{2003}c") ∷ []) }
    ensures before_white { Cuts "2 * 3 * 4" ((Plain, "2 * 3 * 4") ∷ []) }
    ensures quoted { Cuts "'*' \"*\" <*> (*) [*] {*}" ((Plain, "'*' \"*\" <*> (*) [*] {*}") ∷ []) }
    ensures quoted_after_a_quoted { Cuts "'*'*' <*>*>" ((Plain, "'*'*' <*>*>") ∷ []) }
    ensures quoted_past_ascii { Cuts "«*»" ((Plain, "«") ∷ (Unended Emphasis, "*") ∷ (Plain, "»") ∷ []) }
    ensures other_bracket { Cuts "(*]" ((Plain, "(") ∷ (Unended Emphasis, "*") ∷ (Plain, "]") ∷ []) }
    ensures quoted_role { Cuts "(:sub:`)x`" ((Plain, "(:sub:") ∷ (Marked Interpreted Bare, "`)x`") ∷ []) }
    ensures escaped { Cuts "\\*a*" ((Plain, "\\*a*") ∷ []) }
    ensures before_escaped_white { Cuts "*\\ * ** b**" ((Marked Emphasis Bare, "*\\ * **") ∷ (Plain, " b**") ∷ []) }
    ensures escaped_white { Cuts "*a*\\ *b*" ((Marked Emphasis Bare, "*a*") ∷ (Plain, "\\ ") ∷ (Marked Emphasis Bare, "*b*") ∷ []) }
    ensures after_a_start { Cuts "**a_" ((Unended Strong, "**") ∷ (Plain, "a_") ∷ []) }
{}

/// Where an end may occur (Markup Specification, 'Inline markup recognition rules').
pub fn ends()
    ensures inside_a_word { Cuts "*a*b*" ((Marked Emphasis Bare, "*a*b*") ∷ []) }
    ensures after_white { Cuts "*a * b*" ((Marked Emphasis Bare, "*a * b*") ∷ []) }
    ensures before_a_letter { Cuts "*a*b" ((Unended Emphasis, "*") ∷ (Plain, "a*b") ∷ []) }
    ensures first { Cuts "*a* b*" ((Marked Emphasis Bare, "*a*") ∷ (Plain, " b*") ∷ []) }
    ensures character_between { Cuts "**** a**" ((Marked Strong Bare, "**** a**") ∷ []) }
    ensures escaped { Cuts "*a\\* b*" ((Marked Emphasis Bare, "*a\\* b*") ∷ []) }
    ensures escaped_backslash { Cuts "*a\\\\* b*" ((Marked Emphasis Bare, "*a\\\\*") ∷ (Plain, " b*") ∷ []) }
    ensures literal_backslash { Cuts "``a\\`` b``" ((Marked Literal Bare, "``a\\``") ∷ (Plain, " b``") ∷ []) }
{}

/// The strings of each kind of markup (Markup Specification, 'Inline Markup').
pub fn strings()
    ensures ended { Cuts "**a** *b* ``c`` _`d` |e| `f`"
        ((Marked Strong Bare, "**a**") ∷ (Plain, " ") ∷ (Marked Emphasis Bare, "*b*") ∷ (Plain, " ") ∷ (Marked Literal Bare, "``c``") ∷ (Plain, " ")
        ∷ (Marked Target Bare, "_`d`") ∷ (Plain, " ") ∷ (Marked Substitution Bare, "|e|") ∷ (Plain, " ") ∷ (Marked Interpreted Bare, "`f`") ∷ []) }
    ensures unended { Cuts "**a *b ``c _`d |e `f"
        ((Unended Strong, "**") ∷ (Plain, "a ") ∷ (Unended Emphasis, "*") ∷ (Plain, "b ") ∷ (Unended Literal, "``") ∷ (Plain, "c ")
        ∷ (Unended Target, "_`") ∷ (Plain, "d ") ∷ (Unended Substitution, "|") ∷ (Plain, "e ") ∷ (Unended Interpreted, "`") ∷ (Plain, "f") ∷ []) }
    ensures star_in_strong { Cuts "**a*b**" ((Marked Strong Bare, "**a*b**") ∷ []) }
    ensures two_stars_end_emphasis { Cuts "*a**" ((Marked Emphasis Bare, "*a**") ∷ []) }
    ensures three_backquotes { Cuts "```a```" ((Marked Literal Bare, "```a```") ∷ []) }
    ensures doubled { Cuts "`` a` ||b|" ((Plain, "`` a` ||b|") ∷ []) }
    ensures bar_after_white { Cuts "|z |a|" ((Marked Substitution Bare, "|z |a|") ∷ []) }
    ensures target_is_no_reference { Cuts "_`a`_" ((Unended Target, "_`") ∷ (Plain, "a`_") ∷ []) }
{}

/// What may follow a substitution and interpreted text (Markup Specification, 'Hyperlink References').
pub fn tails()
    ensures substitutions { Cuts "|a| |a|_ |a|__"
        ((Marked Substitution Bare, "|a|") ∷ (Plain, " ") ∷ (Marked Substitution Named, "|a|_") ∷ (Plain, " ")
        ∷ (Marked Substitution Anonymous, "|a|__") ∷ []) }
    ensures phrases { Cuts "`a` `a`_ `a`__"
        ((Marked Interpreted Bare, "`a`") ∷ (Plain, " ") ∷ (Marked Interpreted Named, "`a`_") ∷ (Plain, " ") ∷ (Marked Interpreted Anonymous, "`a`__")
        ∷ []) }
    ensures substitution_before_a_letter { Cuts "|a|_b" ((Unended Substitution, "|") ∷ (Plain, "a|_b") ∷ []) }
    ensures three_underscores { Cuts "`a`___" ((Unended Interpreted, "`") ∷ (Plain, "a`___") ∷ []) }
    ensures phrase_of_white { Cuts "`a ` b`_" ((Marked Interpreted Named, "`a ` b`_") ∷ []) }
    ensures role_after { Cuts "`a`:sub:" ((Marked Interpreted Role, "`a`:sub:") ∷ []) }
    ensures role_before_a_letter { Cuts "`a`:sub:b" ((Marked Interpreted Bare, "`a`") ∷ (Plain, ":sub:b") ∷ []) }
    ensures role_before_an_underscore { Cuts "`a`:sub:_" ((Marked Interpreted Bare, "`a`") ∷ (Plain, ":sub:_") ∷ []) }
    ensures role_between { Cuts "`a`:sub:`b`" ((Marked Interpreted Bare, "`a`") ∷ (Plain, ":sub:") ∷ (Marked Interpreted Bare, "`b`") ∷ []) }
{}

/// Roles before interpreted text (Markup Specification, 'Interpreted Text').
pub fn roles()
    ensures one { Cuts "a :sub:`b`" ((Plain, "a ") ∷ (Marked Interpreted Bare, ":sub:`b`") ∷ []) }
    ensures two { Cuts ":sub:`a`:sup:" ((Marked Interpreted Role, ":sub:`a`:sup:") ∷ []) }
    ensures with_underscore { Cuts ":sub:`a`_" ((Marked Interpreted Named, ":sub:`a`_") ∷ []) }
    ensures unended { Cuts ":sub:`a" ((Unended Interpreted, ":sub:`") ∷ (Plain, "a") ∷ []) }
    ensures with_white { Cuts ":a b:`c`" ((Plain, ":a b:") ∷ (Marked Interpreted Bare, "`c`") ∷ []) }
    ensures two_colons { Cuts ":a::`b`" ((Plain, ":a::") ∷ (Marked Interpreted Bare, "`b`") ∷ []) }
    ensures joined { Cuts ":a:b-c:`d`" ((Marked Interpreted Bare, ":a:b-c:`d`") ∷ []) }
{}

/// References by a simple name (Markup Specification, 'Hyperlink References').
pub fn references()
    ensures named { Cuts "(a_) b__." ((Plain, "(") ∷ (Reference Named, "a_") ∷ (Plain, ") ") ∷ (Reference Anonymous, "b__") ∷ (Plain, ".") ∷ []) }
    ensures joined { Cuts "a.b-c:d+e_f_" ((Reference Named, "a.b-c:d+e_f_") ∷ []) }
    ensures two_joints { Cuts "a--b_" ((Plain, "a--") ∷ (Reference Named, "b_") ∷ []) }
    ensures joint_at_the_end { Cuts "a._" ((Plain, "a._") ∷ []) }
    ensures before_a_letter { Cuts "a_b a__b" ((Plain, "a_b a__b") ∷ []) }
    ensures before_a_bracket { Cuts "a_(" ((Plain, "a_(") ∷ []) }
    ensures three_underscores { Cuts "e___" ((Plain, "e___") ∷ []) }
    ensures after_a_comma { Cuts "g_,h_" ((Reference Named, "g_") ∷ (Plain, ",h_") ∷ []) }
    ensures underscore_before { Cuts "_a_" ((Plain, "_a_") ∷ []) }
    ensures letter_past_ascii { Cuts "ß_" ((Reference Named, "ß_") ∷ []) }
    ensures digit_past_ascii { Cuts "²_" ((Reference Named, "²_") ∷ []) }
    ensures symbol_past_ascii { Cuts "€_" ((Plain, "€_") ∷ []) }
    ensures escaped { Cuts "a\\_ \\b_" ((Plain, "a\\_ \\b_") ∷ []) }
{}

/// References to footnotes and citations (Markup Specification, 'Footnote References').
pub fn labels()
    ensures number { Cuts "[1]_" ((Label, "[1]_") ∷ []) }
    ensures number_sign { Cuts "[#]_" ((Label, "[#]_") ∷ []) }
    ensures name_after_a_number_sign { Cuts "[#a]_" ((Label, "[#a]_") ∷ []) }
    ensures star { Cuts "[*]_" ((Label, "[*]_") ∷ []) }
    ensures citation { Cuts "[a.b]_" ((Label, "[a.b]_") ∷ []) }
    ensures anonymous { Cuts "[1]__" ((Plain, "[1]__") ∷ []) }
    ensures side_by_side { Cuts "[1]_[2]_" ((Plain, "[1]_[2]_") ∷ []) }
    ensures inside_a_word { Cuts "a[1]_" ((Plain, "a[1]_") ∷ []) }
    ensures with_white { Cuts "[a b]_" ((Plain, "[a b]_") ∷ []) }
    ensures joint_at_the_end { Cuts "[a-]_ [#-]_" ((Plain, "[a-]_ [#-]_") ∷ []) }
    ensures before_a_letter { Cuts "[2]_x" ((Plain, "[2]_x") ∷ []) }
    ensures escaped { Cuts "\\[1]_" ((Plain, "\\[1]_") ∷ []) }
    ensures reference_in_brackets { Cuts "[a_]_" ((Plain, "[") ∷ (Reference Named, "a_") ∷ (Plain, "]_") ∷ []) }
    ensures symbol_with_a_name { Cuts "[*a]_" ((Plain, "[") ∷ (Unended Emphasis, "*") ∷ (Plain, "a]_") ∷ []) }
{}

/// Standalone URIs (Markup Specification, 'Standalone Hyperlinks').
pub fn uris()
    ensures characters { filter is_uri_char (codes "!\"#$%&'()*+,-./:;<=>?@[\\]^_`{|}~ aZ09ä") ≡ codes "!#$%&'()*+,-./:;=?@[]_~aZ09" }
    ensures trailing_characters { filter is_uri_trail (codes "!\"#$%&'()*+,-./:;<=>?@[\\]^_`{|}~") ≡ codes "!'),.:;?]" }
    ensures file { Cuts "file:///a" ((Uri, "file:///a") ∷ []) }
    ensures ftp { Cuts "ftp://a" ((Uri, "ftp://a") ∷ []) }
    ensures https { Cuts "https://a" ((Uri, "https://a") ∷ []) }
    ensures http { Cuts "http://a" ((Uri, "http://a") ∷ []) }
    ensures irc { Cuts "irc://a" ((Uri, "irc://a") ∷ []) }
    ensures colon_schemes { Cuts "mailto:a@b news:a" ((Uri, "mailto:a@b") ∷ (Plain, " ") ∷ (Uri, "news:a") ∷ []) }
    ensures punctuation_first { Cuts "mailto:x, news: news:!a" ((Uri, "mailto:x") ∷ (Plain, ", news: ") ∷ (Uri, "news:!a") ∷ []) }
    ensures other_scheme { Cuts "gopher://a" ((Plain, "gopher://a") ∷ []) }
    ensures letter_before_a_scheme { Cuts "xhttp://a" ((Plain, "xhttp://a") ∷ []) }
    ensures one_slash { Cuts "http:/a" ((Plain, "http:/a") ∷ []) }
    ensures any_case { Cuts "HttP://A" ((Uri, "HttP://A") ∷ []) }
    ensures query_and_fragment { Cuts "HTTP://a/?b#c." ((Uri, "HTTP://a/?b#c") ∷ (Plain, ".") ∷ []) }
    ensures punctuation { Cuts "(http://a.b/c.)" ((Plain, "(") ∷ (Uri, "http://a.b/c") ∷ (Plain, ".)") ∷ []) }
    ensures bracket_in_it { Cuts "http://a/(b)" ((Uri, "http://a/(b") ∷ (Plain, ")") ∷ []) }
    ensures nothing { Cuts "http:// http://." ((Plain, "http:// http://.") ∷ []) }
    ensures not_free { Cuts "http://x< http://xé" ((Plain, "http://x< http://xé") ∷ []) }
    ensures reference_first { Cuts "mailto:a_ http://a_" ((Reference Named, "mailto:a_") ∷ (Plain, " ") ∷ (Uri, "http://a_") ∷ []) }
    ensures escaped { Cuts "\\http://a" ((Plain, "\\http://a") ∷ []) }
{}

/// Standalone URIs of registered schemes (Markup Specification, 'Standalone Hyperlinks').
pub fn registered_uris()
    ensures characters { filter is_uric (codes "!\"#$%&'()*+,-./:;<=>?@[\\]^_`{|}~ aZ09ä") ≡ codes "!$%&'()*+,-./:;=@[]_~aZ09" }
    ensures schemes { CutsWider "ssh://x.org, git://y.org" ((Uri, "ssh://x.org") ∷ (Plain, ", git://y.org") ∷ []) }
    ensures no_slashes { CutsWider "http:a urn:isbn:1 a:b" ((Uri, "http:a") ∷ (Plain, " ") ∷ (Uri, "urn:isbn:1") ∷ (Plain, " a:b") ∷ []) }
    ensures joints_in_schemes { CutsWider "whois++:a z39.50r:b GSM-SMS:c whois:d"
        ((Uri, "whois++:a") ∷ (Plain, " ") ∷ (Uri, "z39.50r:b") ∷ (Plain, " ") ∷ (Uri, "GSM-SMS:c") ∷ (Plain, " whois:d") ∷ []) }
    ensures letter_before_a_scheme { CutsWider "xhttp:a x-http:a" ((Plain, "xhttp:a x-") ∷ (Uri, "http:a") ∷ []) }
    ensures last_characters { CutsWider "http:c- http:c=; http:c~ (http:c)d)"
        ((Uri, "http:c") ∷ (Plain, "- ") ∷ (Uri, "http:c=") ∷ (Plain, "; ") ∷ (Uri, "http:c~") ∷ (Plain, " (") ∷ (Uri, "http:c)d") ∷ (Plain, ")") ∷ []) }
    ensures cut_back { CutsWider "http:a.b<d> http:é" ((Uri, "http:a") ∷ (Plain, ".b<d> http:é") ∷ []) }
    ensures before_an_angle { CutsWider "<http:a.> <http:b.\\>" ((Plain, "<") ∷ (Uri, "http:a.") ∷ (Plain, "> <") ∷ (Uri, "http:b.\\") ∷ (Plain, ">") ∷ []) }
    ensures query_and_fragment { CutsWider "http:a?b=c#d http:a#b?c" ((Uri, "http:a?b=c#d") ∷ (Plain, " ") ∷ (Uri, "http:a#b") ∷ (Plain, "?c") ∷ []) }
    ensures two_fragments { CutsWider "http:a?b#c#d" ((Uri, "http:a") ∷ (Plain, "?b#c#d") ∷ []) }
    ensures empty_parts { CutsWider "http:a?#b http:a? http:/" ((Uri, "http:a") ∷ (Plain, "?#b ") ∷ (Uri, "http:a") ∷ (Plain, "? ") ∷ (Uri, "http:/") ∷ []) }
    ensures punctuation_before_a_query { CutsWider "http:a-?b" ((Uri, "http:a") ∷ (Plain, "-?b") ∷ []) }
    ensures nothing { CutsWider "http: http:- http:." ((Plain, "http: http:- http:.") ∷ []) }
    ensures escapes { CutsWider "http:/\\*x http:c\\ d http:a\\\\b"
        ((Uri, "http:/\\*x") ∷ (Plain, " ") ∷ (Uri, "http:c") ∷ (Plain, "\\ d ") ∷ (Uri, "http:a") ∷ (Plain, "\\\\b") ∷ []) }
    ensures escaped { CutsWider "\\http:a" ((Plain, "\\http:a") ∷ []) }
    ensures after_a_start { CutsWider "*http:a" ((Unended Emphasis, "*") ∷ (Uri, "http:a") ∷ []) }
    ensures name_first { CutsWider "news:a_" ((Reference Named, "news:a_") ∷ []) }
    ensures beside_an_address { CutsWider "mailto:a@b.c d@e.f" ((Uri, "mailto:a@b.c") ∷ (Plain, " ") ∷ (Address, "d@e.f") ∷ []) }
{}

/// E-mail addresses (Markup Specification, 'Standalone Hyperlinks').
pub fn addresses()
    ensures characters { filter is_address_char (codes "!\"#$%&'()*+,-./:;<=>?@[\\]^_`{|}~ aZ09ä") ≡ codes "!#$%&'*+-/=?^_`{|}~aZ09" }
    ensures last_characters { filter is_link_last (codes "!\"#$%&'()*+,-./:;<=>?@[\\]^_`{|}~ aZ09ä") ≡ codes "*+/=_~aZ09" }
    ensures before_a_period { CutsMail "to me@example.org." ((Plain, "to ") ∷ (Address, "me@example.org") ∷ (Plain, ".") ∷ []) }
    ensures not_asked_for { Cuts "to me@example.org." ((Plain, "to me@example.org.") ∷ []) }
    ensures one_character { CutsMail "a@b a@bc" ((Plain, "a@b ") ∷ (Address, "a@bc") ∷ []) }
    ensures dot_first { CutsMail "a@b.c a@.cd" ((Address, "a@b.c") ∷ (Plain, " a@.cd") ∷ []) }
    ensures brackets { CutsMail "<me@a.b>, (aa@bb) \"cc@dd\"" ((Plain, "<") ∷ (Address, "me@a.b") ∷ (Plain, ">, (") ∷ (Address, "aa@bb") ∷ (Plain, ") \"") ∷ (Address, "cc@dd") ∷ (Plain, "\"") ∷ []) }
    ensures last_ends { CutsMail "me@ab? me@ab... me@ab-." ((Address, "me@ab") ∷ (Plain, "? ") ∷ (Address, "me@ab") ∷ (Plain, "... ") ∷ (Address, "me@ab") ∷ (Plain, "-.") ∷ []) }
    ensures before_an_angle { CutsMail "<a@bc.> <a@bc)> <a@bc?>"
        ((Plain, "<") ∷ (Address, "a@bc.") ∷ (Plain, "> <") ∷ (Address, "a@bc)") ∷ (Plain, "> <") ∷ (Address, "a@bc") ∷ (Plain, "?>") ∷ []) }
    ensures letters_past_ascii { CutsMail "émile@b.c xé@b.c" ((Plain, "émile@b.c xé@b.c") ∷ []) }
    ensures one_side { CutsMail "@user a@ @ a@b@c" ((Plain, "@user a@ @ a@b@c") ∷ []) }
    ensures uri_first { CutsMail "ftp://me@a.b/x mailto:me@a.b" ((Uri, "ftp://me@a.b/x") ∷ (Plain, " ") ∷ (Uri, "mailto:me@a.b") ∷ []) }
    ensures markup_first { CutsMail "*me@a.b* ``me@a.b`` |me@a.b"
        ((Marked Emphasis Bare, "*me@a.b*") ∷ (Plain, " ") ∷ (Marked Literal Bare, "``me@a.b``") ∷ (Plain, " ") ∷ (Unended Substitution, "|") ∷ (Address, "me@a.b") ∷ []) }
    ensures both_parts { CutsMail "a+b{c}@d.e?f=x&y=z" ((Address, "a+b{c}@d.e?f=x&y=z") ∷ []) }
    ensures dots { CutsMail "a.b@cd a.b.@cd a..b@cd .a@bc" ((Address, "a.b@cd") ∷ (Plain, " a.b.@cd a..b@cd .a@bc") ∷ []) }
    ensures underscores { CutsMail "john_@a.org me@a.org_ me@ab.org`" ((Address, "john_@a.org") ∷ (Plain, " ") ∷ (Address, "me@a.org_") ∷ (Plain, " ") ∷ (Address, "me@ab") ∷ (Plain, ".org`") ∷ []) }
    ensures escapes { CutsMail "me\\@a.org m\\e@a.org m\\\\e@a.org" ((Plain, "me\\@a.org ") ∷ (Address, "m\\e@a.org") ∷ (Plain, " m\\\\e@a.org") ∷ []) }
    ensures escaped_angle { CutsMail "<a@bc.\\>" ((Plain, "<") ∷ (Address, "a@bc.\\") ∷ (Plain, ">") ∷ []) }
    ensures least_place { CutsMail "me/*b@cd.ef* x" ((Address, "me/*b@cd.ef*") ∷ (Plain, " x") ∷ []) }
    ensures whole { map is_address (codes "x@y.z" ∷ codes "m+e@yz" ∷ []) ≡ true ∷ true ∷ [] }
    ensures not_whole { map is_address (codes "é@y.z" ∷ codes "a@bcx " ∷ codes "a@bc." ∷ codes "mailto:a@bc" ∷ codes "m\\e@bc" ∷ codes "a@b" ∷ [] ∷ [])
        ≡ false ∷ false ∷ false ∷ false ∷ false ∷ false ∷ false ∷ [] }
{}

/// What the markup of pieces encloses (Markup Specification, 'Inline Markup').
pub fn enclosed()
    ensures marked { contents "**a** *b* ``c`` _`d` |e|__"
        ≡ codes "a" ∷ codes " " ∷ codes "b" ∷ codes " " ∷ codes "c" ∷ codes " " ∷ codes "d" ∷ codes " " ∷ codes "e" ∷ [] }
    ensures interpreted { contents ":s:`a`:t: `b`__" ≡ codes "a" ∷ codes " " ∷ codes "b" ∷ [] }
    ensures names { contents "[#a]_ b_ http://c" ≡ codes "#a" ∷ codes " " ∷ codes "b" ∷ codes " " ∷ codes "http://c" ∷ [] }
    ensures unended { contents ":s:`a" ≡ [] ∷ codes "a" ∷ [] }
{}
