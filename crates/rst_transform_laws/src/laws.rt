//! Laws on what transforms add to trees, each by a function that does nothing and whose contract is the law.
ghost use Rattle.std.specs.Prelude.{ℕ, ◌+◌, ◌≤◌, Bool, List, ◌-◌, max};
ghost use Rattle.rst_settings.specs.declared.Parts.{Parts};
ghost use Rattle.rst_settings.specs.declared.Threshold.{Threshold};
ghost use Rattle.rst_tree.specs.Forest.{height};
ghost use Rattle.rst_tree.specs.Nodes.{node_height};
ghost use Rattle.rst_tree.specs.declared.node.Node.{Node};
ghost use Rattle.rst_transform_names.specs.Registering.{registration};
ghost use Rattle.rst_transform_work.specs.States.{document_in};
ghost use Rattle.rst_transform_work.specs.declared.document.Document.{Document};
ghost use Rattle.rst_transform_work.specs.Known.{Known};
ghost use Rattle.rst_transform_substitutions.specs.Expanded.{with_expansions};
ghost use Rattle.rst_transform_references.specs.declared.links.Change.{Change};
ghost use Rattle.rst_transform_references.specs.Changes.{changed_document};
ghost use Rattle.rst_transform_structure.specs.Classes.{with_classes};
ghost use Rattle.rst_transform_structure.specs.LastSection.{with_last_section};
ghost use Rattle.rst_transform_structure.specs.Targets.{with_targets};
ghost use Rattle.rst_transform_structure.specs.Title.{with_title};
ghost use Rattle.rst_transform_structure.specs.Transitions.{with_transitions};
ghost use Rattle.rst_transform_contents.specs.Contents.{with_contents};
ghost use Rattle.rst_transform_docinfo.specs.Docinfo.{with_docinfo};
ghost use Rattle.rst_transform_messages.specs.Filtered.{with_filtered};
ghost use Rattle.rst_tree_index.specs.Parsed.{AreFlat, levels_by};

/// Registration adds at most the levels of a message on a name, also to replacement texts.
pub fn names_add_little()
    ensures levels { (messages : ℕ) (document : Node) → node_height (registration messages document).root ≤ node_height document + 3 }
    ensures replaced { (h messages : ℕ) (document : Node)
        → levels_by (h + 3) (document_in (registration messages document).root).children ≤ levels_by h (document_in document).children + 3 }
    ensures flat { (h messages : ℕ) (document : Node)
        → AreFlat h (document_in document).children → AreFlat (h + 3) (document_in (registration messages document).root).children }
{}

/// Classes by directives add at most one level, targets and titles none, transitions with the messages on them two, and the last section has four.
pub fn structure_adds_little()
    ensures classes { (directives : Bool) (document : Document) → height (with_classes directives document).children ≤ height document.children + 1 }
    ensures targets { (unmarked : Bool) (document : Document) (known : Known) → height ((with_targets unmarked document known).0).children ≤ height document.children }
    ensures title { (document : Document) (known : Known) → height ((with_title document known).0).children ≤ height document.children }
    ensures transitions { (document : Document) (known : Known) → height ((with_transitions document known).0).children ≤ height document.children + 2 }
    ensures last_section { (report : Threshold) (document : Document) (known : Known)
        → height ((with_last_section report document known).0).children ≤ max (height document.children) 4 }
{}

/// What is printed of a finished document has no more levels than the document.
pub fn filter_adds_nothing()
    ensures { (report : Threshold) (reported : ℕ → Bool) (document : Document)
        → height (with_filtered report reported document).children ≤ height document.children }
{}

/// Bibliographic fields add at most the levels of a message in the body of a field.
pub fn docinfo_adds_little()
    ensures { (parts : Parts) (document : Document) (known : Known) → height ((with_docinfo parts document known).0).children ≤ height document.children + 3 }
{}

/// Tables of contents add at most 194 levels.
pub fn contents_add_levels()
    ensures { (document : Document) (known : Known) → height ((with_contents document known).0).children ≤ height document.children + 194 }
{}

/// Where each replacement text has at most `h` levels, with each substitution reference in it counted as `h`, a document whose references are
/// replaced has no more levels than with each of its references counted as `h`. So it has at most `h - 1` more than before.
pub fn substitutions_add_little()
    ensures replaced { (h : ℕ) (document : Document) (known : Known) → 2 ≤ h → AreFlat h document.children
        → height ((with_expansions document known).0).children ≤ levels_by h document.children }
    ensures levels { (h : ℕ) (document : Document) (known : Known) → 2 ≤ h → AreFlat h document.children
        → height ((with_expansions document known).0).children ≤ height document.children + (h - 1) }
{}

/// Writing the changes of references and targets into a document adds at most one level, whatever they are.
pub fn links_add_little()
    ensures { (changes : List Change) (document : Document) → height (changed_document changes document).children ≤ height document.children + 1 }
{}
