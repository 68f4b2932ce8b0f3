//! Which messages are printed, which halt the run, and the exit status.
#![tactic(auto, unfolding(crate::proofs::Computing::rst2pseudoxml_run))]

ghost use Rattle.std.specs.Prelude.{[], ◌∷◌};
ghost use Rattle.rst_settings.specs.declared.Threshold.TheVariants.{Info, Warning, Error, Severe, Never};
ghost use Rattle.rst2pseudoxml_run.specs.Written.{usual, Reports};

/// Messages below the report level are left out, and problematics whose messages are become texts (Configuration, 'report_level').
pub fn report_levels()
    ensures none { Reports (record usual { report = Never }) ("*a" ∷ [])
        ("<document source=\"x\">" ∷ "    <paragraph>" ∷ "        *" ∷ "        a" ∷ []) [] 0 }
    ensures text_of_a_problematic { Reports (record usual { report = Error }) ("a" ∷ "*b" ∷ [])
        ("<document source=\"x\">" ∷ "    <paragraph>" ∷ "        a" ∷ "        *" ∷ "        b" ∷ []) [] 0 }
    ensures infos { Reports (record usual { report = Info }) ("x" ∷ "" ∷ "A" ∷ "=" ∷ "" ∷ "A" ∷ "=" ∷ [])
        ("<document source=\"x\">" ∷ "    <paragraph>" ∷ "        x" ∷ "    <section dupnames=\"a\" ids=\"a\">" ∷ "        <title>" ∷ "            A"
        ∷ "    <section dupnames=\"a\" ids=\"a-1\">" ∷ "        <title>" ∷ "            A"
        ∷ "        <system_message backrefs=\"a-1\" level=\"1\" line=\"6\" source=\"x\" type=\"INFO\">" ∷ "            <paragraph>"
        ∷ "                Duplicate implicit target name: \"a\"." ∷ []) ("x:6: (INFO/1) Duplicate implicit target name: \"a\"." ∷ []) 0 }
{}

/// A message at or above the halt level ends the run without a document (Configuration, 'halt_level').
pub fn halt_levels()
    ensures halted { Reports (record usual { halt = Warning }) ("a" ∷ "*b" ∷ []) []
        ("x:1: (WARNING/2) Inline emphasis start-string without end-string." ∷ "Exiting due to level-2 (WARNING) system message." ∷ []) 1 }
    ensures halted_below_the_report_level { Reports (record usual { report = Severe; halt = Warning }) ("*a" ∷ []) []
        ("x:1: (WARNING/2) Inline emphasis start-string without end-string." ∷ "Exiting due to level-2 (WARNING) system message." ∷ []) 1 }
{}

/// The exit status gives the highest level of the messages, if that is high enough (Configuration, 'exit_status_level').
pub fn exit_statuses()
    ensures warning { Reports (record usual { exit = Warning }) ("a" ∷ "*b" ∷ [])
        ("<document source=\"x\">" ∷ "    <paragraph>" ∷ "        a" ∷ "        <problematic ids=\"problematic-1\" refid=\"system-message-1\">"
        ∷ "            *" ∷ "        b"
        ∷ "    <system_message backrefs=\"problematic-1\" ids=\"system-message-1\" level=\"2\" line=\"1\" source=\"x\" type=\"WARNING\">"
        ∷ "        <paragraph>" ∷ "            Inline emphasis start-string without end-string." ∷ [])
        ("x:1: (WARNING/2) Inline emphasis start-string without end-string." ∷ []) 12 }
    ensures level_too_low { Reports (record usual { exit = Error }) ("*a" ∷ [])
        ("<document source=\"x\">" ∷ "    <paragraph>" ∷ "        <problematic ids=\"problematic-1\" refid=\"system-message-1\">" ∷ "            *"
        ∷ "        a"
        ∷ "    <system_message backrefs=\"problematic-1\" ids=\"system-message-1\" level=\"2\" line=\"1\" source=\"x\" type=\"WARNING\">"
        ∷ "        <paragraph>" ∷ "            Inline emphasis start-string without end-string." ∷ [])
        ("x:1: (WARNING/2) Inline emphasis start-string without end-string." ∷ []) 0 }
    ensures below_the_report_level { Reports (record usual { report = Severe; exit = Warning }) ("*a" ∷ [])
        ("<document source=\"x\">" ∷ "    <paragraph>" ∷ "        *" ∷ "        a" ∷ []) [] 12 }
    ensures halted { Reports (record usual { halt = Warning; exit = Warning }) ("*a" ∷ []) []
        ("x:1: (WARNING/2) Inline emphasis start-string without end-string." ∷ "Exiting due to level-2 (WARNING) system message." ∷ []) 1 }
    ensures highest_before_the_last { Reports (record usual { report = Info; exit = Info }) ("*a" ∷ "" ∷ "3. b" ∷ [])
        ("<document source=\"x\">" ∷ "    <paragraph>" ∷ "        <problematic ids=\"problematic-1\" refid=\"system-message-1\">" ∷ "            *"
        ∷ "        a"
        ∷ "    <system_message backrefs=\"problematic-1\" ids=\"system-message-1\" level=\"2\" line=\"1\" source=\"x\" type=\"WARNING\">"
        ∷ "        <paragraph>" ∷ "            Inline emphasis start-string without end-string."
        ∷ "    <enumerated_list enumtype=\"arabic\" prefix=\"\" start=\"3\" suffix=\".\">" ∷ "        <list_item>" ∷ "            <paragraph>"
        ∷ "                b" ∷ "    <system_message level=\"1\" line=\"3\" source=\"x\" type=\"INFO\">" ∷ "        <paragraph>"
        ∷ "            Enumerated list start value not ordinal-1: \"3\" (ordinal 3)" ∷ [])
        ("x:1: (WARNING/2) Inline emphasis start-string without end-string."
        ∷ "x:3: (INFO/1) Enumerated list start value not ordinal-1: \"3\" (ordinal 3)" ∷ []) 12 }
{}
