//! Laws on the definitions, each by a function that does nothing and whose contract is the law.
ghost use Rattle.std.specs.Prelude.{ℕ, ◌+◌, ◌≤◌, Bool};
ghost use Rattle.rst_settings.specs.Profile.{Profile};
ghost use Rattle.rst_settings.specs.declared.Settings.{Settings};
ghost use Rattle.rst_tree.specs.Nodes.{children_in, node_height};
ghost use Rattle.rst_tree.specs.declared.node.Node.{Node};
ghost use Rattle.rst_tree.specs.Tree.{most_levels};
ghost use Rattle.rst_tree_index.specs.Parsed.{AreFlat, IsParsed};
ghost use Rattle.rst_tree_laws.specs.Trees.{IsTree};
ghost use Rattle.rst_tree_laws.specs.Texts.{Kept, NodeHas, Spells, Suits};
ghost use Rattle.rst_transform_references.specs.FootnoteLabels.{symbols};
ghost use Rattle.rst_transform.specs.Law.{ShowsWhatIsAsked};
ghost use Rattle.rst_transform.specs.Finishing.{leaves};

/// No message in what is left of a document is below the report level, and no message but the last halts the run.
pub fn reported_messages()
    ensures { ShowsWhatIsAsked }
{}

/// A finished document has at most 205 levels more than the parsed one, if each replacement text has at most two.
pub fn finishing_adds_little()
    ensures levels { (messages : ℕ) (profile : Profile) (settings : Settings) (document : Node) → AreFlat 2 (children_in document)
        → node_height (leaves messages profile settings document).0 ≤ node_height document + 205 }
    ensures tree { (messages : ℕ) (profile : Profile) (settings : Settings) (document : Node) → AreFlat 2 (children_in document)
        → node_height document ≤ 1345 → node_height (leaves messages profile settings document).0 ≤ most_levels }
{}

/// The texts of a finished document consist of characters of the parsed document's texts, of those that these fold to, of fixed ones and of the
/// symbols of footnotes.
pub fn finishing_keeps_texts()
    ensures { (P : ℕ → Bool) (messages : ℕ) (profile : Profile) (settings : Settings) (document : Node) → Suits P → Kept P symbols → AreFlat 2 (children_in document)
        → NodeHas (Spells P) document → NodeHas (Spells P) (leaves messages profile settings document).0 }
{}

/// What is left of a parsed document is a tree.
pub fn finished_documents_are_trees()
    ensures { (messages : ℕ) (profile : Profile) (settings : Settings) (document : Node) → IsParsed document
        → IsTree (leaves messages profile settings document).0 }
{}
