//! Worked examples of argument words, as theorems on the definitions alone: the prover computes what the words choose, or their fault.
#![tactic(auto, unfolding(crate::proofs::Computing::rst2pseudoxml_options))]

ghost use Rattle.std.specs.Prelude.{◌≡◌, [], ◌∷◌, Some, None, codes, true, false, map};
ghost use Rattle.clap.specs.declared.error.kind.ErrorKind.TheVariants.{ArgumentConflict, DisplayHelp, DisplayVersion, InvalidValue, UnknownArgument, ValueValidation};
ghost use Rattle.rst_settings.specs.Parts.{all_parts, no_parts};
ghost use Rattle.rst_settings.specs.declared.Threshold.TheVariants.{Info, Warning, Error, Severe, Never};
ghost use Rattle.rst2pseudoxml_options.specs.Options.{usual};
ghost use Rattle.rst2pseudoxml_options.specs.Values.{threshold_of};
ghost use Rattle.rst2pseudoxml_options.specs.Written.{Fails, Names, Sets, TreeRefuses, TreeTakes};
ghost use Rattle.rst2pseudoxml_options.specs.declared.format.Format.TheVariants.{PseudoXml, Json};
ghost use Rattle.rst2pseudoxml_options.specs.declared.fault.OptionFault.TheVariants.{Usage, BadLevel, BadTab, BadLimit, TwoLevels};

/// Each option, and the settings that it leaves as they are (The command line, 'Options').
pub fn settings()
    ensures none { Sets [] (record { report = Warning; halt = Severe; exit = Never; title = true; info = true; tab = 8; limit = 10000; parts = no_parts }) }
    ensures report { Sets ("--report=3" ∷ []) (record usual { report = Error }) }
    ensures verbose { Sets ("--verbose" ∷ []) (record usual { report = Info }) }
    ensures quiet { Sets ("--quiet" ∷ []) (record usual { report = Never }) }
    ensures halt { Sets ("--halt=3" ∷ []) (record usual { halt = Error }) }
    ensures strict { Sets ("--strict" ∷ []) (record usual { halt = Info }) }
    ensures exit_status { Sets ("--exit-status=2" ∷ []) (record usual { exit = Warning }) }
    ensures no_doc_title { Sets ("--no-doc-title" ∷ []) (record usual { title = false }) }
    ensures no_doc_info { Sets ("--no-doc-info" ∷ []) (record usual { info = false }) }
    ensures tab_width { Sets ("--tab-width=4" ∷ []) (record usual { tab = 4 }) }
    ensures line_length_limit { Sets ("--line-length-limit=200" ∷ []) (record usual { limit = 200 }) }
    ensures verbose_with_strict { Sets ("--strict" ∷ "-v" ∷ []) (record usual { report = Info; halt = Info }) }
    ensures all { Sets ("--no-doc-info" ∷ "--tab-width" ∷ "2" ∷ "-q" ∷ "--halt" ∷ "none" ∷ "--line-length-limit=90" ∷ "--exit-status=info" ∷ "--no-doc-title" ∷ [])
        (record { report = Never; halt = Never; exit = Info; title = false; info = false; tab = 2; limit = 90; parts = no_parts }) }
{}

/// The forms of an option, and of its value (The command line, 'Options').
pub fn forms()
    ensures long { Sets ("--report" ∷ "3" ∷ []) (record usual { report = Error }) }
    ensures short { Sets ("-r" ∷ "3" ∷ []) (record usual { report = Error }) }
    ensures short_joined { Sets ("-r3" ∷ []) (record usual { report = Error }) }
    ensures short_with_equals { Sets ("-r=3" ∷ []) (record usual { report = Error }) }
    ensures v { Sets ("-v" ∷ []) (record usual { report = Info }) }
    ensures q { Sets ("-q" ∷ []) (record usual { report = Never }) }
    ensures combined { Fails ("-vr" ∷ "3" ∷ []) TwoLevels }
    ensures combined_and_joined { Fails ("-qr3" ∷ []) TwoLevels }
    ensures value_alone { Fails ("--report" ∷ "-3" ∷ []) Usage }
    ensures value_after_equals { Fails ("--report=-3" ∷ []) BadLevel }
    ensures value_joined { Fails ("-r-3" ∷ []) BadLevel }
    ensures value_hyphen { Fails ("--tab-width" ∷ "-" ∷ []) BadTab }
    ensures part_of_a_name { Fails ("--rep" ∷ "3" ∷ []) Usage }
    ensures upper_case_name { Fails ("--Verbose" ∷ []) Usage }
{}

/// SOURCE, and `--`, which only SOURCE may follow (The command line, 'Options').
pub fn sources()
    ensures alone { Names ("a.rst" ∷ []) "a.rst" }
    ensures after_hyphens { Names ("--" ∷ "a.rst" ∷ []) "a.rst" }
    ensures before_hyphens { Names ("a.rst" ∷ "--" ∷ []) "a.rst" }
    ensures hyphens_alone { Sets ("--" ∷ []) usual }
    ensures as_written { Names (" ./-a " ∷ []) " ./-a " }
    ensures before_an_option { Fails ("a" ∷ "-vq" ∷ []) TwoLevels }
    ensures hyphen { Fails ("-" ∷ []) Usage }
    ensures dashed { Fails ("--" ∷ "-a" ∷ []) Usage }
    ensures option_after_hyphens { Fails ("--" ∷ "--verbose" ∷ []) Usage }
    ensures hyphens_twice { Fails ("--" ∷ "--" ∷ []) Usage }
    ensures second { Fails ("a" ∷ "b" ∷ []) Usage }
    ensures second_after_hyphens { Fails ("a" ∷ "--" ∷ "b" ∷ []) Usage }
{}

/// The levels, by number and by name (The command line, 'Options').
pub fn levels()
    ensures by_number { map threshold_of (codes "1" ∷ codes "2" ∷ codes "3" ∷ codes "4" ∷ codes "5" ∷ [])
        ≡ Some Info ∷ Some Warning ∷ Some Error ∷ Some Severe ∷ Some Never ∷ [] }
    ensures by_name { map threshold_of (codes "info" ∷ codes "warning" ∷ codes "error" ∷ codes "severe" ∷ codes "none" ∷ [])
        ≡ Some Info ∷ Some Warning ∷ Some Error ∷ Some Severe ∷ Some Never ∷ [] }
    ensures none { map threshold_of (codes "" ∷ codes "0" ∷ codes "6" ∷ codes "03" ∷ codes "+3" ∷ codes "3 " ∷ codes "ERROR" ∷ codes "warn" ∷ codes "errors" ∷ [])
        ≡ None ∷ None ∷ None ∷ None ∷ None ∷ None ∷ None ∷ None ∷ None ∷ [] }
{}

/// The least and the most of each number, and what is none (The command line, 'Options').
pub fn numbers()
    ensures least_tab { Sets ("--tab-width=1" ∷ []) (record usual { tab = 1 }) }
    ensures most_tab { Sets ("--tab-width=99" ∷ []) (record usual { tab = 99 }) }
    ensures least_limit { Sets ("--line-length-limit=1" ∷ []) (record usual { limit = 1 }) }
    ensures most_limit { Sets ("--line-length-limit=16777216" ∷ []) (record usual { limit = 16777216 }) }
    ensures no_tab { Fails ("--tab-width=0" ∷ []) BadTab }
    ensures wide_tab { Fails ("--tab-width=100" ∷ []) BadTab }
    ensures no_limit { Fails ("--line-length-limit=0" ∷ []) BadLimit }
    ensures large_limit { Fails ("--line-length-limit=16777217" ∷ []) BadLimit }
    ensures leading_zero { Fails ("--tab-width=08" ∷ []) BadTab }
    ensures sign { Fails ("--tab-width=+8" ∷ []) BadTab }
    ensures letter { Fails ("--line-length-limit=80x" ∷ []) BadLimit }
    ensures space { Fails ("--line-length-limit" ∷ "80 " ∷ []) BadLimit }
    ensures empty { Fails ("--tab-width=" ∷ []) BadTab }
{}

/// Each fault (The command line, 'Faults').
pub fn faults()
    ensures unknown { Fails ("--nope" ∷ []) Usage }
    ensures unknown_letter { Fails ("-x" ∷ []) Usage }
    ensures help { Fails ("--help" ∷ []) Usage }
    ensures help_letter { Fails ("-h" ∷ []) Usage }
    ensures version { Fails ("--version" ∷ []) Usage }
    ensures flag_twice { Fails ("-v" ∷ "-v" ∷ []) Usage }
    ensures flag_in_two_forms { Fails ("-q" ∷ "--quiet" ∷ []) Usage }
    ensures option_twice { Fails ("--halt=3" ∷ "--halt=3" ∷ []) Usage }
    ensures option_in_two_forms { Fails ("-r3" ∷ "--report" ∷ "2" ∷ []) Usage }
    ensures no_value { Fails ("--halt" ∷ []) Usage }
    ensures no_value_before_an_option { Fails ("--halt" ∷ "--quiet" ∷ []) Usage }
    ensures no_value_of_a_letter { Fails ("-r" ∷ []) Usage }
    ensures flag_with_a_value { Fails ("--strict=yes" ∷ []) Usage }
    ensures flag_with_an_empty_value { Fails ("--verbose=" ∷ []) Usage }
    ensures report_level { Fails ("--report=loud" ∷ []) BadLevel }
    ensures halt_level { Fails ("--halt=ERROR" ∷ []) BadLevel }
    ensures empty_level { Fails ("--halt=" ∷ []) BadLevel }
    ensures exit_status_level { Fails ("--exit-status=6" ∷ []) BadLevel }
    ensures report_and_verbose { Fails ("-v" ∷ "--report=3" ∷ []) TwoLevels }
    ensures report_and_quiet { Fails ("-q" ∷ "-r5" ∷ []) TwoLevels }
    ensures verbose_and_quiet { Fails ("-v" ∷ "-q" ∷ []) TwoLevels }
    ensures halt_and_strict { Fails ("--halt=1" ∷ "--strict" ∷ []) TwoLevels }
{}

/// The first of several faults, whichever argument has it (The command line, 'Faults').
pub fn first_faults()
    ensures arguments_before_level { Fails ("--report=loud" ∷ "-" ∷ []) Usage }
    ensures arguments_before_two_levels { Fails ("-v" ∷ "-q" ∷ "-v" ∷ []) Usage }
    ensures level_before_tab { Fails ("--tab-width=0" ∷ "--exit-status=0" ∷ []) BadLevel }
    ensures level_before_limit { Fails ("--line-length-limit=0" ∷ "--halt=0" ∷ []) BadLevel }
    ensures level_before_two_levels { Fails ("-v" ∷ "--report=0" ∷ []) BadLevel }
    ensures tab_before_limit { Fails ("--line-length-limit=0" ∷ "--tab-width=0" ∷ []) BadTab }
    ensures tab_before_two_levels { Fails ("-v" ∷ "-q" ∷ "--tab-width=0" ∷ []) BadTab }
    ensures limit_before_two_levels { Fails ("-v" ∷ "-q" ∷ "--line-length-limit=0" ∷ []) BadLimit }
    ensures all { Fails ("--line-length-limit=0" ∷ "--tab-width=0" ∷ "--halt=0" ∷ "--strict" ∷ "a" ∷ "b" ∷ []) Usage }
{}

/// The profile, the format, the settings and SOURCE of `rst-tree` (The command line, 'The options of rst-tree').
pub fn tree()
    ensures none { TreeTakes [] (record usual { parts = all_parts }, PseudoXml, None) }
    ensures base { TreeTakes ("--profile=base" ∷ []) (usual, PseudoXml, None) }
    ensures docutils { TreeTakes ("--profile" ∷ "docutils" ∷ []) (record usual { parts = all_parts }, PseudoXml, None) }
    ensures json { TreeTakes ("--format=json" ∷ "--profile=base" ∷ []) (usual, Json, None) }
    ensures pseudoxml { TreeTakes ("--format" ∷ "pseudoxml" ∷ "--profile=base" ∷ []) (usual, PseudoXml, None) }
    ensures source { TreeTakes ("--profile=base" ∷ "a.rst" ∷ []) (usual, PseudoXml, Some (codes "a.rst")) }
    ensures hyphen { TreeTakes ("-" ∷ "--profile=base" ∷ []) (usual, PseudoXml, None) }
    ensures dashed { TreeTakes ("--profile=base" ∷ "--" ∷ "-a" ∷ []) (usual, PseudoXml, Some (codes "-a")) }
    ensures level { TreeTakes ("-r3" ∷ "--profile=base" ∷ "--halt=none" ∷ []) (record usual { report = Error; halt = Never }, PseudoXml, None) }
    ensures numbers { TreeTakes ("--tab-width=99" ∷ "--profile=base" ∷ "--line-length-limit" ∷ "16777216" ∷ []) (record usual { tab = 99; limit = 16777216 }, PseudoXml, None) }
{}

/// What `rst-tree` refuses, or answers by itself (The command line, 'The options of rst-tree').
pub fn tree_refusals()
    ensures help { TreeRefuses ("--help" ∷ []) DisplayHelp }
    ensures version { TreeRefuses ("-V" ∷ []) DisplayVersion }
    ensures unknown { TreeRefuses ("--nope" ∷ []) UnknownArgument }
    ensures second { TreeRefuses ("a" ∷ "b" ∷ []) UnknownArgument }
    ensures level { TreeRefuses ("--report=loud" ∷ []) InvalidValue }
    ensures profile { TreeRefuses ("--profile=sphinx" ∷ []) InvalidValue }
    ensures format { TreeRefuses ("--format=xml" ∷ []) InvalidValue }
    ensures no_value { TreeRefuses ("--format" ∷ []) InvalidValue }
    ensures tab { TreeRefuses ("--tab-width=100" ∷ []) ValueValidation }
    ensures limit { TreeRefuses ("--line-length-limit=16777217" ∷ []) ValueValidation }
    ensures leading_zero { TreeRefuses ("--tab-width=08" ∷ []) ValueValidation }
    ensures twice { TreeRefuses ("--strict" ∷ "--strict" ∷ []) ArgumentConflict }
    ensures two_levels { TreeRefuses ("-v" ∷ "-q" ∷ []) ArgumentConflict }
{}
