//! Worked examples of inline markup, as theorems on the definitions alone: the prover computes what a text that is written out means, and prints
//! its nodes with all their attributes, and then its messages.
#![tactic(auto, unfolding(crate::proofs::Computing::rst_inline))]

ghost use Rattle.std.specs.Prelude.{◌≡◌, true, false, Some, None, codes, map, [], ◌∷◌};
ghost use Rattle.rst_inline.specs.Reads.{Shows, ShowsBy, ShowsWider};
ghost use Rattle.rst_inline.specs.Results.{nodes_from, notes_of};
ghost use Rattle.rst_inline.specs.Roles.{is_wider_role, role_named};
ghost use Rattle.rst_inline.specs.declared.roles.Role.TheVariants as Role;
ghost use Rattle.rst_inline_scan.specs.Reading.{pieces_of};
ghost use Rattle.rst_settings.specs.Parts.{handing, no_parts};
ghost use Rattle.rst_tree.specs.Forest.{bare, words};
ghost use Rattle.rst_tree.specs.declared.node.Node.TheVariants.{Element};
ghost use Rattle.rst_tree.specs.declared.tag.Tag.TheVariants.{Emphasis, Strong, Literal, Subscript, Superscript, TitleReference};

/// What roles make (Markup Specification, 'Interpreted Text').
pub fn roles()
    ensures text { map (role_named false) (codes "emphasis" ∷ codes "strong" ∷ codes "literal" ∷ [])
        ≡ Some (Role.Element Emphasis) ∷ Some (Role.Element Strong) ∷ Some (Role.Element Literal) ∷ [] }
    ensures low_and_high { map (role_named false) (codes "subscript" ∷ codes "sub" ∷ codes "superscript" ∷ codes "sup" ∷ [])
        ≡ Some (Role.Element Subscript) ∷ Some (Role.Element Subscript) ∷ Some (Role.Element Superscript) ∷ Some (Role.Element Superscript) ∷ [] }
    ensures titles { map (role_named false) (codes "title-reference" ∷ codes "title" ∷ codes "t" ∷ [])
        ≡ Some (Role.Element TitleReference) ∷ Some (Role.Element TitleReference) ∷ Some (Role.Element TitleReference) ∷ [] }
    ensures exactly { map (role_named false) (codes "Sub" ∷ codes "title_reference" ∷ []) ≡ None ∷ None ∷ [] }
    ensures others { map (role_named false) (codes "code" ∷ codes "math" ∷ codes "raw" ∷ codes "pep" ∷ codes "rfc" ∷ [])
        ≡ None ∷ None ∷ None ∷ None ∷ None ∷ [] }
    ensures role_before { Shows ":sub:`a`" ("<subscript>" ∷ "    a" ∷ []) }
    ensures role_after { Shows "`a`:sub:" ("<subscript>" ∷ "    a" ∷ []) }
    ensures by_default { Shows "`a`" ("<title_reference>" ∷ "    a" ∷ []) }
{}

/// Roles of the wider profile (Roles, 'Standard Roles').
pub fn wider_roles()
    ensures any_case { ShowsWider ":SUB:`a` `b`:Sup:" ("<subscript>" ∷ "    a" ∷ " " ∷ "<superscript>" ∷ "    b" ∷ []) }
    ensures letters { ShowsWider ":ac:`a` :acronym:`b` :ab:`c` :abbreviation:`d`"
        ("<acronym>" ∷ "    a" ∷ " " ∷ "<acronym>" ∷ "    b" ∷ " " ∷ "<abbreviation>" ∷ "    c" ∷ " " ∷ "<abbreviation>" ∷ "    d" ∷ []) }
    ensures as_written { ShowsWider ":math:`\\a\\ b` :code:`c\\d`" ("<math>" ∷ "    \\a\\ b" ∷ " " ∷ "<literal classes=\"code\">" ∷ "    c\\d" ∷ []) }
    ensures raw { ShowsWider ":Raw:`x`"
        ("<problematic message=\"0\">" ∷ "    :Raw:`x`" ∷ "ERROR: No format (Writer name) is associated with this role: \"Raw\"."
        ∷ "The \"raw\" role cannot be used directly."
        ∷ "Instead, use the \"role\" directive to create a new role with an associated format." ∷ []) }
    ensures not_made { ShowsWider ":index:`z` :Uri:`w`"
        ("<problematic message=\"0\">" ∷ "    :index:`z`" ∷ " " ∷ "<problematic message=\"1\">" ∷ "    :Uri:`w`"
        ∷ "ERROR: Interpreted text role \"index\" not implemented." ∷ "ERROR: Interpreted text role \"Uri\" not implemented." ∷ []) }
    ensures unknown { ShowsWider ":m:`x`" ("<problematic message=\"0\">" ∷ "    :m:`x`" ∷ "ERROR: Unknown interpreted text role \"m\"." ∷ []) }
    ensures not_asked_for { Shows ":pep:`8`" ("<problematic message=\"0\">" ∷ "    :pep:`8`" ∷ "ERROR: Unknown interpreted text role \"pep\"." ∷ []) }
    ensures alone { map is_wider_role (codes "pep" ∷ codes "Sub" ∷ codes "MATH" ∷ codes "target" ∷ []) ≡ true ∷ true ∷ true ∷ true ∷ [] }
    ensures both { map is_wider_role (codes "sub" ∷ codes "t" ∷ codes "m" ∷ codes "" ∷ []) ≡ false ∷ false ∷ false ∷ false ∷ [] }
{}

/// Roles that are handed back, also one that the profile knows (JSON, 'Directives and roles handed back').
pub fn handed_roles()
    ensures before_and_after { ShowsBy (handing ":ref\n:PY:func") ":Ref:`x\\ y` `z`:py:func:"
        ("<handed kind=\"role\" name=\"Ref\" xml:space=\"preserve\">" ∷ "    :Ref:`x\\ y`" ∷ " "
        ∷ "<handed kind=\"role\" name=\"py:func\" xml:space=\"preserve\">" ∷ "    `z`:py:func:" ∷ []) }
    ensures known { ShowsBy (handing ":emphasis") ":emphasis:`a` :strong:`b`"
        ("<handed kind=\"role\" name=\"emphasis\" xml:space=\"preserve\">" ∷ "    :emphasis:`a`" ∷ " " ∷ "<strong>" ∷ "    b" ∷ []) }
    ensures default_role { ShowsBy (handing ":") "`a` `b`_"
        ("<handed kind=\"role\" name=\"\" xml:space=\"preserve\">" ∷ "    `a`" ∷ " "
        ∷ "<reference name=\"b\" rawsource=\"`b`_\" refname=\"b\">" ∷ "    b" ∷ []) }
    ensures no_directive { ShowsBy (handing "m\n:r") ":m:`x`"
        ("<problematic message=\"0\">" ∷ "    :m:`x`" ∷ "ERROR: Unknown interpreted text role \"m\"." ∷ []) }
    ensures faults { ShowsBy (handing ":r") ":r:`x`_"
        ("<problematic message=\"0\">" ∷ "    :r:`x`_" ∷ "WARNING: Mismatch: both interpreted text role and reference suffix." ∷ []) }
{}

/// References by the number of a document (Roles, 'Standard Roles').
pub fn numbers()
    ensures pep { ShowsWider ":pep:`8` :PEP:`0257`"
        ("<reference rawsource=\":pep:`8`\" refuri=\"https://peps.python.org/pep-0008\">" ∷ "    PEP 8" ∷ " "
        ∷ "<reference rawsource=\":PEP:`0257`\" refuri=\"https://peps.python.org/pep-0257\">" ∷ "    PEP 0257" ∷ []) }
    ensures highest { ShowsWider "`0`:pep-reference: :pep:`\\ 009999`"
        ("<reference rawsource=\"`0`:pep-reference:\" refuri=\"https://peps.python.org/pep-0000\">" ∷ "    PEP 0" ∷ " "
        ∷ "<reference rawsource=\":pep:`\\ 009999`\" refuri=\"https://peps.python.org/pep-9999\">" ∷ "    PEP 009999" ∷ []) }
    ensures wrong_pep { ShowsWider ":pep:`x\\*y` :pep:`10000`"
        ("<problematic message=\"0\">" ∷ "    :pep:`x\\*y`" ∷ " " ∷ "<problematic message=\"1\">" ∷ "    :pep:`10000`"
        ∷ "ERROR: PEP number must be a number from 0 to 9999; \"x*y\" is invalid."
        ∷ "ERROR: PEP number must be a number from 0 to 9999; \"10000\" is invalid." ∷ []) }
    ensures rfc { ShowsWider ":rfc:`2822` `2822#section-3`:rfc-reference:"
        ("<reference rawsource=\":rfc:`2822`\" refuri=\"https://tools.ietf.org/html/rfc2822.html\">" ∷ "    RFC 2822" ∷ " "
        ∷ "<reference rawsource=\"`2822#section-3`:rfc-reference:\" refuri=\"https://tools.ietf.org/html/rfc2822.html#section-3\">" ∷ "    RFC 2822" ∷ []) }
    ensures fragments { ShowsWider ":rfc:`02822#a b` :rfc:`2822#`"
        ("<reference rawsource=\":rfc:`02822#a b`\" refuri=\"https://tools.ietf.org/html/rfc2822.html#a b\">" ∷ "    RFC 2822" ∷ " "
        ∷ "<reference rawsource=\":rfc:`2822#`\" refuri=\"https://tools.ietf.org/html/rfc2822.html#\">" ∷ "    RFC 2822" ∷ []) }
    ensures wrong_rfc { ShowsWider ":rfc:`00#a` :rfc:`x`"
        ("<problematic message=\"0\">" ∷ "    :rfc:`00#a`" ∷ " " ∷ "<problematic message=\"1\">" ∷ "    :rfc:`x`"
        ∷ "ERROR: RFC number must be a number greater than or equal to 1; \"00#a\" is invalid."
        ∷ "ERROR: RFC number must be a number greater than or equal to 1; \"x\" is invalid." ∷ []) }
{}

/// Text between start-strings and end-strings (Markup Specification, 'Inline Markup').
pub fn markup()
    ensures kinds { Shows "a *b* **c** ``d``"
        ("a " ∷ "<emphasis>" ∷ "    b" ∷ " " ∷ "<strong>" ∷ "    c" ∷ " " ∷ "<literal>" ∷ "    d" ∷ []) }
    ensures escapes { Shows "*a\\*b\\ c*" ("<emphasis>" ∷ "    a*bc" ∷ []) }
    ensures literal_escapes { Shows "``a\\ b``" ("<literal>" ∷ "    a\\ b" ∷ []) }
    ensures nothing_between { Shows "*a*\\ *b*" ("<emphasis>" ∷ "    a" ∷ "<emphasis>" ∷ "    b" ∷ []) }
    ensures last_backslash { Shows "a\\" ("a" ∷ []) }
    ensures backslash_alone { Shows "\\" [] }
    ensures two_lines { Shows "*a\nb* c\nd" ("<emphasis>" ∷ "    a" ∷ "    b" ∷ " c" ∷ "d" ∷ []) }
    ensures target { Shows "_`A  b\\_`" ("<target inline=\"1\" own_name=\"a b_\">" ∷ "    A  b_" ∷ []) }
    ensures line { nodes_from no_parts (codes "*a*") 7 0 (pieces_of false false (codes "*a*")) ≡ Element Emphasis [] (words (codes "a") bare) 7 ∷ [] }
{}

/// References by a name and by a phrase (Markup Specification, 'Hyperlink References').
pub fn references()
    ensures name { Shows "A.b_" ("<reference name=\"A.b\" rawsource=\"A.b_\" refname=\"a.b\">" ∷ "    A.b" ∷ []) }
    ensures anonymous { Shows "a__" ("<reference anonymous=\"1\" name=\"a\" rawsource=\"a__\">" ∷ "    a" ∷ []) }
    ensures phrase { Shows "`A  b`_" ("<reference name=\"A b\" rawsource=\"`A  b`_\" refname=\"a b\">" ∷ "    A  b" ∷ []) }
    ensures anonymous_phrase { Shows "`A b`__" ("<reference anonymous=\"1\" name=\"A b\" rawsource=\"`A b`__\">" ∷ "    A b" ∷ []) }
    ensures phrase_of_two_lines { Shows "`c\n d`_"
        ("<reference name=\"c d\" rawsource=\"`c\n d`_\" refname=\"c d\">" ∷ "    c" ∷ "     d" ∷ []) }
    ensures escapes { Shows "`\\  a\\_`_" ("<reference name=\"a_\" rawsource=\"`\\  a\\_`_\" refname=\"a_\">" ∷ "     a_" ∷ []) }
    ensures escaped_backquote { Shows "`d\\`e`_" ("<reference name=\"d`e\" rawsource=\"`d\\`e`_\" refname=\"d`e\">" ∷ "    d`e" ∷ []) }
    ensures uri { Shows "HTTP://A.b" ("<reference rawsource=\"HTTP://A.b\" refuri=\"HTTP://A.b\">" ∷ "    HTTP://A.b" ∷ []) }
{}

/// URIs and aliases in phrases (Markup Specification, 'Embedded URIs and Aliases').
pub fn embedded()
    ensures uri { Shows "`A <http://b>`_"
        ("<reference name=\"A\" rawsource=\"`A <http://b>`_\" refuri=\"http://b\">" ∷ "    A"
        ∷ "<target inline=\"1\" own_name=\"a\" refuri=\"http://b\">" ∷ []) }
    ensures anonymous_uri { Shows "`A <u>`__" ("<reference name=\"A\" rawsource=\"`A <u>`__\" refuri=\"u\">" ∷ "    A" ∷ []) }
    ensures text_of_nothing { Shows "`\\ <u>`__" ("<reference name=\"\" rawsource=\"`\\ <u>`__\" refuri=\"u\">" ∷ []) }
    ensures alias { Shows "`A <B  c_>`_" ("<reference name=\"A\" rawsource=\"`A <B  c_>`_\" refname=\"b c\">" ∷ "    A" ∷ []) }
    ensures anonymous_alias { Shows "`A <b_>`__" ("<reference name=\"A\" rawsource=\"`A <b_>`__\" refname=\"b\">" ∷ "    A" ∷ []) }
    ensures uri_like_alias { Shows "`a <http://x.org/b_>`_"
        ("<reference name=\"a\" rawsource=\"`a <http://x.org/b_>`_\" refname=\"http://x.org/b\">" ∷ "    a" ∷ []) }
    ensures white_in_a_uri { Shows "`a <u v>`_"
        ("<reference name=\"a\" rawsource=\"`a <u v>`_\" refuri=\"uv\">" ∷ "    a" ∷ "<target inline=\"1\" own_name=\"a\" refuri=\"uv\">" ∷ []) }
    ensures uri_alone { Shows "`<U v>`_"
        ("<reference name=\"Uv\" rawsource=\"`<U v>`_\" refuri=\"Uv\">" ∷ "    Uv" ∷ "<target inline=\"1\" own_name=\"uv\" refuri=\"Uv\">" ∷ []) }
    ensures alias_alone { Shows "`<Foo  Bar_>`_"
        ("<reference name=\"Foo Bar\" rawsource=\"`<Foo  Bar_>`_\" refname=\"foo bar\">" ∷ "    Foo  Bar" ∷ []) }
    ensures escaped_underscore { Shows "`<b\\_>`_"
        ("<reference name=\"b_\" rawsource=\"`<b\\_>`_\" refuri=\"b_\">" ∷ "    b_" ∷ "<target inline=\"1\" own_name=\"b_\" refuri=\"b_\">" ∷ []) }
    ensures underscore_alone { Shows "`a <_>`_"
        ("<reference name=\"a\" rawsource=\"`a <_>`_\" refuri=\"_\">" ∷ "    a" ∷ "<target inline=\"1\" own_name=\"a\" refuri=\"_\">" ∷ []) }
    ensures escaped_white { Shows "`a\\ <u>`_"
        ("<reference name=\"a\" rawsource=\"`a\\ <u>`_\" refuri=\"u\">" ∷ "    a" ∷ "<target inline=\"1\" own_name=\"a\" refuri=\"u\">" ∷ []) }
    ensures last_angle { Shows "`a <b> <c>`_"
        ("<reference name=\"a <b>\" rawsource=\"`a <b> <c>`_\" refuri=\"c\">" ∷ "    a <b>" ∷ "<target inline=\"1\" own_name=\"a <b>\" refuri=\"c\">"
        ∷ []) }
    ensures angle_inside { Shows "`a <>>`_"
        ("<reference name=\"a\" rawsource=\"`a <>>`_\" refuri=\">\">" ∷ "    a" ∷ "<target inline=\"1\" own_name=\"a\" refuri=\">\">" ∷ []) }
{}

/// URIs of registered schemes (Markup Specification, 'Standalone Hyperlinks').
pub fn registered_uris()
    ensures alone { ShowsWider "to ssh://x.org-" ("to " ∷ "<reference rawsource=\"ssh://x.org\" refuri=\"ssh://x.org\">" ∷ "    ssh://x.org" ∷ "-" ∷ []) }
    ensures escaped { ShowsWider "http:/\\*x" ("<reference rawsource=\"http:/\\*x\" refuri=\"http:/*x\">" ∷ "    http:/*x" ∷ []) }
    ensures base { Shows "http:a ssh://x" ("http:a ssh://x" ∷ []) }
{}

/// Aliases that leave targets (Markup Specification, 'Embedded URIs and Aliases').
pub fn aliases()
    ensures named { ShowsWider "`A  B <C d_>`_"
        ("<reference name=\"A B\" rawsource=\"`A  B <C d_>`_\" refname=\"c d\">" ∷ "    A  B" ∷ "<target inline=\"1\" own_name=\"a b\" refname=\"c d\">"
        ∷ []) }
    ensures alone { ShowsWider "`<B_>`_" ("<reference name=\"B\" rawsource=\"`<B_>`_\" refname=\"b\">" ∷ "    B" ∷ "<target inline=\"1\" own_name=\"b\" refname=\"b\">" ∷ []) }
    ensures anonymous { ShowsWider "`A <b_>`__" ("<reference name=\"A\" rawsource=\"`A <b_>`__\" refname=\"b\">" ∷ "    A" ∷ []) }
{}

/// E-mail addresses, alone and in phrases (Markup Specification, 'Standalone Hyperlinks').
pub fn addresses()
    ensures alone { ShowsWider "to me@example.org." ("to " ∷ "<reference rawsource=\"me@example.org\" refuri=\"mailto:me@example.org\">" ∷ "    me@example.org" ∷ "." ∷ []) }
    ensures escaped { ShowsWider "m\\e@a.org" ("<reference rawsource=\"m\\e@a.org\" refuri=\"mailto:me@a.org\">" ∷ "    me@a.org" ∷ []) }
    ensures not_asked_for { Shows "me@a.org" ("me@a.org" ∷ []) }
    ensures embedded { ShowsWider "`Me <me@a.org>`_"
        ("<reference name=\"Me\" rawsource=\"`Me <me@a.org>`_\" refuri=\"mailto:me@a.org\">" ∷ "    Me"
        ∷ "<target inline=\"1\" own_name=\"me\" refuri=\"mailto:me@a.org\">" ∷ []) }
    ensures embedded_alone { ShowsWider "`<me@a.org>`__" ("<reference name=\"mailto:me@a.org\" rawsource=\"`<me@a.org>`__\" refuri=\"mailto:me@a.org\">" ∷ "    mailto:me@a.org" ∷ []) }
    ensures white { ShowsWider "`A <me@a.org x>`__" ("<reference name=\"A\" rawsource=\"`A <me@a.org x>`__\" refuri=\"mailto:me@a.orgx\">" ∷ "    A" ∷ []) }
    ensures no_address { ShowsWider "`A <é@a.org>`__" ("<reference name=\"A\" rawsource=\"`A <é@a.org>`__\" refuri=\"é@a.org\">" ∷ "    A" ∷ []) }
    ensures alias { ShowsWider "`A <me@a.org_>`__" ("<reference name=\"A\" rawsource=\"`A <me@a.org_>`__\" refname=\"me@a.org\">" ∷ "    A" ∷ []) }
    ensures phrase { ShowsWider "`me@a.org`_" ("<reference name=\"me@a.org\" rawsource=\"`me@a.org`_\" refname=\"me@a.org\">" ∷ "    me@a.org" ∷ []) }
{}

/// Phrases with angle brackets in which nothing is embedded (Markup Specification, 'Embedded URIs and Aliases').
pub fn plain_angles()
    ensures no_white { Shows "`x<u>`_" ("<reference name=\"x<u>\" rawsource=\"`x<u>`_\" refname=\"x<u>\">" ∷ "    x<u>" ∷ []) }
    ensures leading_white { Shows "`a < u>`_" ("<reference name=\"a < u>\" rawsource=\"`a < u>`_\" refname=\"a < u>\">" ∷ "    a < u>" ∷ []) }
    ensures white_at_the_end { Shows "`a <u >`_" ("<reference name=\"a <u >\" rawsource=\"`a <u >`_\" refname=\"a <u >\">" ∷ "    a <u >" ∷ []) }
    ensures nothing { Shows "`a <>`_" ("<reference name=\"a <>\" rawsource=\"`a <>`_\" refname=\"a <>\">" ∷ "    a <>" ∷ []) }
    ensures text_after { Shows "`a <u> b`_" ("<reference name=\"a <u> b\" rawsource=\"`a <u> b`_\" refname=\"a <u> b\">" ∷ "    a <u> b" ∷ []) }
    ensures escaped_opening { Shows "`a \\<u>`_" ("<reference name=\"a <u>\" rawsource=\"`a \\<u>`_\" refname=\"a <u>\">" ∷ "    a <u>" ∷ []) }
    ensures escaped_closing { Shows "`a <u\\>`_" ("<reference name=\"a <u>\" rawsource=\"`a <u\\>`_\" refname=\"a <u>\">" ∷ "    a <u>" ∷ []) }
    ensures no_reference { Shows "`a <u>`" ("<title_reference>" ∷ "    a <u>" ∷ []) }
{}

/// Substitution references (Markup Specification, 'Substitution References').
pub fn substitutions()
    ensures alone { Shows "|A  b|" ("<substitution_reference rawsource=\"|A  b|\" refname=\"A b\">" ∷ "    A  b" ∷ []) }
    ensures bar_inside { Shows "|z |a|" ("<substitution_reference rawsource=\"|z |a|\" refname=\"z |a\">" ∷ "    z |a" ∷ []) }
    ensures with_a_reference { Shows "|A|_"
        ("<reference rawsource=\"|A|_\" refname=\"a\">" ∷ "    <substitution_reference rawsource=\"|A|\" refname=\"A\">" ∷ "        A" ∷ []) }
    ensures anonymous { Shows "|a|__"
        ("<reference anonymous=\"1\" rawsource=\"|a|__\">" ∷ "    <substitution_reference rawsource=\"|a|\" refname=\"a\">" ∷ "        a" ∷ []) }
{}

/// References to footnotes and citations (Markup Specification, 'Footnote References').
pub fn labels()
    ensures digits { Shows "[0129]_" ("<footnote_reference rawsource=\"[0129]_\" refname=\"0129\">" ∷ "    0129" ∷ []) }
    ensures autonumbered { Shows "[#]_" ("<footnote_reference auto=\"1\" rawsource=\"[#]_\">" ∷ []) }
    ensures named { Shows "[#A]_" ("<footnote_reference auto=\"1\" rawsource=\"[#A]_\" refname=\"a\">" ∷ []) }
    ensures symbol { Shows "[*]_" ("<footnote_reference auto=\"*\" rawsource=\"[*]_\">" ∷ []) }
    ensures citation { Shows "[Ab]_" ("<citation_reference rawsource=\"[Ab]_\" refname=\"ab\">" ∷ "    Ab" ∷ []) }
    ensures digit_and_letter { Shows "[1a]_" ("<citation_reference rawsource=\"[1a]_\" refname=\"1a\">" ∷ "    1a" ∷ []) }
    ensures other_digits { Shows "[१]_" ("<citation_reference rawsource=\"[१]_\" refname=\"१\">" ∷ "    १" ∷ []) }
{}

/// Messages (Markup Specification, 'Error Handling').
pub fn messages()
    ensures unended { Shows "**a *b ``c"
        ("<problematic message=\"0\">" ∷ "    **" ∷ "a " ∷ "<problematic message=\"1\">" ∷ "    *" ∷ "b " ∷ "<problematic message=\"2\">" ∷ "    ``"
        ∷ "c"
        ∷ "WARNING: Inline strong start-string without end-string." ∷ "WARNING: Inline emphasis start-string without end-string."
        ∷ "WARNING: Inline literal start-string without end-string." ∷ []) }
    ensures unended_names { Shows "_`a |b `c"
        ("<problematic message=\"0\">" ∷ "    _`" ∷ "a " ∷ "<problematic message=\"1\">" ∷ "    |" ∷ "b " ∷ "<problematic message=\"2\">" ∷ "    `"
        ∷ "c"
        ∷ "WARNING: Inline target start-string without end-string." ∷ "WARNING: Inline substitution_reference start-string without end-string."
        ∷ "WARNING: Inline interpreted text or phrase reference start-string without end-string." ∷ []) }
    ensures unended_role { Shows ":sub:`a"
        ("<problematic message=\"0\">" ∷ "    :sub:`" ∷ "a" ∷ "WARNING: Inline interpreted text or phrase reference start-string without end-string."
        ∷ []) }
    ensures unknown_role { Shows ":Nope:`a`"
        ("<problematic message=\"0\">" ∷ "    :Nope:`a`" ∷ "ERROR: Unknown interpreted text role \"Nope\"." ∷ []) }
    ensures two_roles { Shows ":nope:`a`:sub:"
        ("<problematic message=\"0\">" ∷ "    :nope:`a`:sub:"
        ∷ "WARNING: Multiple roles in interpreted text (both prefix and suffix present; only one allowed)." ∷ []) }
    ensures mismatch { Shows ":sub:`a`_"
        ("<problematic message=\"0\">" ∷ "    :sub:`a`_" ∷ "WARNING: Mismatch: both interpreted text role and reference suffix." ∷ []) }
    ensures anonymous_mismatch { Shows ":sub:`a`__"
        ("<problematic message=\"0\">" ∷ "    :sub:`a`__" ∷ "WARNING: Mismatch: both interpreted text role and reference suffix." ∷ []) }
    ensures line { map (λ note. note.line) (notes_of no_parts (codes "a\n*b") 7 (pieces_of false false (codes "a\n*b"))) ≡ 7 ∷ [] }
{}
