//! Laws on the trees of blocks, each by a function that does nothing and whose contract is the law: first on levels, then on texts, then on both.
ghost use Rattle.std.specs.Prelude.{ℕ, ◌+◌, ◌*◌, ◌≤◌, Bool, List, IfOk};
ghost use Rattle.rst_settings.specs.declared.Parts.{Parts};
ghost use Rattle.rst_settings.specs.Profile.{Profile};
ghost use Rattle.rst_text.specs.Characters.{Text};
ghost use Rattle.rst_text.specs.Block.{Block};
ghost use Rattle.rst_tree.specs.Nodes.{children_in, node_height};
ghost use Rattle.rst_tree_laws.specs.Levels.{Low};
ghost use Rattle.rst_tree_index.specs.Parsed.{AreFlat, IsParsed};
ghost use Rattle.rst_tree_laws.specs.Texts.{BlockKept, Kept, NodeHas, NodesHave, NotesHave, Spells, Suits, is_text_character};
ghost use Rattle.rst_inline_scan.specs.declared.piece.Piece.{Piece};
ghost use Rattle.rst_inline.specs.Results.{nodes_from, notes_of};
ghost use Rattle.rst_block_state.specs.Nodes.{inner_nodes};
ghost use Rattle.rst_block_state.specs.Documents.{document};

/// The nodes of a text have at most three levels.
pub fn texts_are_low()
    ensures { (parts : Parts) (t : Text) (line number : ℕ) (pieces : List Piece) → Low 3 (nodes_from parts t line number pieces) }
{}

/// The nodes of a block have at most five levels for each level of blocks that is left, and one more.
pub fn blocks_are_low()
    ensures { (code : Bool) (levels : ℕ) (B : Block) (number : ℕ) → IfOk (inner_nodes code levels B number) (λ read. Low (5 * levels + 1) read.0) }
{}

/// A document has at most five levels for each level of blocks, and 72 more: 1,322 where blocks nest 250 deep.
pub fn documents_are_low()
    ensures { (profile : Profile) (B : Block) (number : ℕ) → IfOk (document profile B number) (λ read. node_height read.0 ≤ 5 * profile.nesting + 72) }
{}

/// Each replacement text of a parsed document has at most two levels, where each substitution reference in it counts as two.
pub fn replacements_are_flat()
    ensures { (profile : Profile) (B : Block) (number : ℕ) → profile.nesting ≤ 250
        → IfOk (document profile B number) (λ read. AreFlat 2 (children_in read.0)) }
{}

/// The texts in the nodes and messages of a text, and the values that become texts, consist of its characters, of those that these fold to, and of
/// fixed ones.
pub fn texts_stay()
    ensures nodes { (P : ℕ → Bool) (parts : Parts) (t : Text) (line number : ℕ) (pieces : List Piece) → Suits P → Kept P t → NodesHave (Spells P) (nodes_from parts t line number pieces) }
    ensures notes { (P : ℕ → Bool) (parts : Parts) (t : Text) (line : ℕ) (pieces : List Piece) → Suits P → Kept P t → NotesHave (Spells P) (notes_of parts t line pieces) }
{}

/// The texts of blocks and of a document consist of characters of their lines, of those that these fold to, and of fixed ones.
pub fn blocks_keep_texts()
    ensures blocks { (P : ℕ → Bool) (code : Bool) (levels : ℕ) (B : Block) (number : ℕ) → Suits P → BlockKept P B
        → IfOk (inner_nodes code levels B number) (λ read. NodesHave (Spells P) read.0) }
    ensures document { (P : ℕ → Bool) (profile : Profile) (B : Block) (number : ℕ) → Suits P → BlockKept P B
        → IfOk (document profile B number) (λ read. NodeHas (Spells P) read.0) }
{}

/// What is read of lines of text characters is a parsed document, where blocks nest at most 250 deep.
pub fn documents_are_parsed()
    ensures { (profile : Profile) (B : Block) (number : ℕ) → profile.nesting ≤ 250 → BlockKept is_text_character B
        → IfOk (document profile B number) (λ read. IsParsed read.0) }
{}
