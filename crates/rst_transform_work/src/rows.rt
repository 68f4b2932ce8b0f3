//! Worked examples of messages of transforms, their problematics, and names and ids that pass on, as theorems on the definitions alone.
#![tactic(auto, unfolding(crate::proofs::Computing::rst_transform_work))]

ghost use Rattle.std.specs.Prelude.{◌≡◌, true, false, Some, codes, [], ◌∷◌, map};
ghost use Rattle.rst_text.specs.Names.{identifier, name_in};
ghost use Rattle.rst_tree.specs.declared.key.Key.TheVariants.{Dupnames, Ids, Names};
ghost use Rattle.rst_tree.specs.declared.note.Level.TheVariants.{Error, Warning};
ghost use Rattle.rst_tree.specs.declared.node.Node.TheVariants.{Element};
ghost use Rattle.rst_tree.specs.declared.tag.Tag.TheVariants.{Comment, Paragraph, Problematic, Raw, Section, Subtitle, SubstitutionDefinition, SystemMessage, Target, Title};
ghost use Rattle.rst_tree.specs.Forest.{bare};
ghost use Rattle.rst_transform_names.specs.Trees.{element, lists, paragraph, text, IsPrintedIn};
ghost use Rattle.rst_transform_work.specs.Lists.{named};
ghost use Rattle.rst_transform_work.specs.Problematics.{problematic_attrs, referring_report};
ghost use Rattle.rst_transform_work.specs.Reading.{is_title, may_precede};
ghost use Rattle.rst_transform_work.specs.Reports.{next_report, report_node};

/// Messages, and the problematics that belong to them (Markup Specification, 'Error Handling').
pub fn messages()
    ensures first_number { (next_report 3 [] Error 7 (codes "a") true).number ≡ 3 }
    ensures next_number { (next_report 3 (next_report 3 [] Error 7 (codes "a") true ∷ []) Warning 9 (codes "b") false).number ≡ 4 }
    ensures without_problematics { IsPrintedIn (report_node (next_report 0 [] Warning 7 (codes "It fails.") false))
        ("<system_message level=\"2\" line=\"7\" type=\"WARNING\">" ∷ "    <paragraph>" ∷ "        It fails." ∷ []) }
    ensures with_problematics { IsPrintedIn (report_node (referring_report (codes "system-message-1") (codes "problematic-2") (referring_report
        (codes "system-message-1") (codes "problematic-1") (next_report 0 [] Error 1 (codes "It fails.") true))))
        ("<system_message backrefs=\"problematic-1 problematic-2\" ids=\"system-message-1\" level=\"3\" line=\"1\" type=\"ERROR\">"
        ∷ "    <paragraph>" ∷ "        It fails." ∷ []) }
    ensures problematic { IsPrintedIn (Element Problematic (problematic_attrs (codes "problematic-1") (Some (0, codes "system-message-1"))) bare 1)
        ("<problematic ids=\"problematic-1\" refid=\"system-message-1\">" ∷ []) }
{}

/// Ids and names that go to an element: they come after its own (Document Tree, 'Attribute Reference').
pub fn passed_on()
    ensures after_its_own { IsPrintedIn (named (lists Ids ("a" ∷ "b" ∷ []) ∷ lists Names ("c" ∷ []) ∷ []) (element Paragraph (lists Ids ("x" ∷ [])
        ∷ lists Names ("y" ∷ []) ∷ []) []))
        ("<paragraph ids=\"x a b\" names=\"y c\">" ∷ []) }
    ensures lost_names { IsPrintedIn (named (lists Dupnames ("a" ∷ []) ∷ []) (element Paragraph (lists Dupnames ("x" ∷ []) ∷ []) []))
        ("<paragraph dupnames=\"x a\">" ∷ []) }
    ensures to_none { IsPrintedIn (named (lists Ids ("a b" ∷ []) ∷ []) (element Paragraph [] [])) ("<paragraph ids=\"a\\ b\">" ∷ []) }
{}

/// What may come before the lone section of a document, and what a title is (Markup Specification, 'Document Title').
pub fn before_a_section()
    ensures allowed { map may_precede (element Comment [] [] ∷ element Target [] [] ∷ element SubstitutionDefinition [] []
        ∷ element Raw [] [] ∷ element SystemMessage [] [] ∷ [])
        ≡ true ∷ true ∷ true ∷ true ∷ true ∷ [] }
    ensures refused { map may_precede (paragraph "a" ∷ element Section [] [] ∷ element Title [] [] ∷ text "a" ∷ [])
        ≡ false ∷ false ∷ false ∷ false ∷ [] }
    ensures titles { map is_title (element Title [] [] ∷ element Subtitle [] [] ∷ paragraph "a" ∷ text "a" ∷ [])
        ≡ true ∷ true ∷ false ∷ false ∷ [] }
{}

/// The name and the id that a text gives (Markup Specification, 'Reference Names').
pub fn names()
    ensures name { name_in (codes "A  b") ≡ codes "a b" }
    ensures id { identifier (codes "X y: 1") ≡ codes "x-y-1" }
{}
