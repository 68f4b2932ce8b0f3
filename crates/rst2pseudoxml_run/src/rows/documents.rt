//! Documents, and titles of documents and sections.
#![tactic(auto, unfolding(crate::proofs::Computing::rst2pseudoxml_run))]

ghost use Rattle.std.specs.Prelude.{[], ◌∷◌, codes};
ghost use Rattle.rst_settings.specs.declared.Threshold.TheVariants.{Info, Error, Never};
ghost use Rattle.rst2pseudoxml_run.specs.Written.{usual, Outputs, OutputsJson, ReportsOn, Reports};

/// Documents of no line, and of a line without an end (Markup Specification, 'Document'); a document as JSON (RFC 8259).
pub fn documents()
    ensures empty { Outputs [] ("<document source=\"x\">" ∷ []) }
    ensures one_line { ReportsOn usual (codes "Hello, world") ("<document source=\"x\">" ∷ "    <paragraph>" ∷ "        Hello, world" ∷ []) [] 0 }
    ensures json { OutputsJson ("A *b*" ∷ []) "[\"document\",0,{},[\"paragraph\",1,{},\"A \",[\"emphasis\",1,{},\"b\"]]]\n" }
{}

/// Titles and subtitles of documents (Markup Specification, 'Document Title').
pub fn document_titles()
    ensures title { Outputs ("Title" ∷ "=====" ∷ "" ∷ "Text." ∷ [])
        ("<document ids=\"title\" names=\"title\" source=\"x\" title=\"Title\">" ∷ "    <title>" ∷ "        Title" ∷ "    <paragraph>"
        ∷ "        Text." ∷ []) }
    ensures subtitle { Outputs ("A" ∷ "=" ∷ "" ∷ "B" ∷ "-" ∷ "" ∷ "x" ∷ [])
        ("<document ids=\"a\" names=\"a\" source=\"x\" title=\"A\">" ∷ "    <title>" ∷ "        A" ∷ "    <subtitle ids=\"b\" names=\"b\">"
        ∷ "        B" ∷ "    <paragraph>" ∷ "        x" ∷ []) }
    ensures comment_before { Outputs (".. c" ∷ "" ∷ "A" ∷ "=" ∷ "" ∷ "b" ∷ [])
        ("<document ids=\"a\" names=\"a\" source=\"x\" title=\"A\">" ∷ "    <title>" ∷ "        A" ∷ "    <comment xml:space=\"preserve\">"
        ∷ "        c" ∷ "    <paragraph>" ∷ "        b" ∷ []) }
    ensures two_sections { Outputs ("A" ∷ "=" ∷ "" ∷ "B" ∷ "=" ∷ "" ∷ [])
        ("<document source=\"x\">" ∷ "    <section ids=\"a\" names=\"a\">" ∷ "        <title>" ∷ "            A"
        ∷ "    <section ids=\"b\" names=\"b\">" ∷ "        <title>" ∷ "            B" ∷ []) }
{}

/// Underlines that are shorter than their titles (Markup Specification, 'Sections').
pub fn short_underlines()
    ensures too_short { Reports usual ("Title" ∷ "====" ∷ [])
        ("<document ids=\"title\" names=\"title\" source=\"x\" title=\"Title\">" ∷ "    <title>" ∷ "        Title"
        ∷ "    <system_message level=\"2\" line=\"2\" source=\"x\" type=\"WARNING\">" ∷ "        <paragraph>"
        ∷ "            Title underline too short." ∷ "        <literal_block xml:space=\"preserve\">" ∷ "            Title" ∷ "            ====" ∷ [])
        ("x:2: (WARNING/2) Title underline too short." ∷ "" ∷ "Title" ∷ "====" ∷ []) 0 }
    ensures taken_as_text { Outputs ("Title" ∷ "===" ∷ []) ("<document source=\"x\">" ∷ "    <paragraph>" ∷ "        Title" ∷ "        ===" ∷ []) }
    ensures taken_as_text_with_all_messages { Reports (record usual { report = Info }) ("Title" ∷ "===" ∷ [])
        ("<document source=\"x\">" ∷ "    <system_message level=\"1\" line=\"2\" source=\"x\" type=\"INFO\">" ∷ "        <paragraph>"
        ∷ "            Possible title underline, too short for the title." ∷ "            Treating it as ordinary text because it's so short."
        ∷ "    <paragraph>" ∷ "        Title" ∷ "        ===" ∷ [])
        ("x:2: (INFO/1) Possible title underline, too short for the title." ∷ "Treating it as ordinary text because it's so short." ∷ []) 0 }
{}

/// Titles that aren't allowed where they are (Markup Specification, 'Sections').
pub fn refused_titles()
    ensures in_an_item { Reports usual ("- Title" ∷ "  =====" ∷ []) []
        ("x:2: (SEVERE/4) Unexpected section title." ∷ "" ∷ "Title" ∷ "=====" ∷ "Exiting due to level-4 (SEVERE) system message." ∷ []) 1 }
    ensures in_an_item_without_a_halt { Reports (record usual { halt = Never; exit = Error }) ("- Title" ∷ "  =====" ∷ [])
        ("<document source=\"x\">" ∷ "    <bullet_list bullet=\"-\">" ∷ "        <list_item>"
        ∷ "            <system_message level=\"4\" line=\"2\" source=\"x\" type=\"SEVERE\">" ∷ "                <paragraph>"
        ∷ "                    Unexpected section title." ∷ "                <literal_block xml:space=\"preserve\">" ∷ "                    Title"
        ∷ "                    =====" ∷ []) ("x:2: (SEVERE/4) Unexpected section title." ∷ "" ∷ "Title" ∷ "=====" ∷ []) 14 }
    ensures inconsistent_level { Reports usual ("A" ∷ "=" ∷ "" ∷ "B" ∷ "-" ∷ "" ∷ "C" ∷ "=" ∷ "" ∷ "E" ∷ "~" ∷ []) []
        ("x:10: (SEVERE/4) Title level inconsistent:" ∷ "" ∷ "E" ∷ "~" ∷ "Exiting due to level-4 (SEVERE) system message." ∷ []) 1 }
{}
