//! Laws on texts of trees, each by a function that does nothing and whose contract is the law.
ghost use Rattle.std.specs.Prelude.{◌≡◌, ℕ, List, true};
ghost use Rattle.std.specs.Str.{all_scalars};
ghost use Rattle.rst_settings.specs.declared.Parts.{Parts};
ghost use Rattle.rst_text.specs.Characters.{Text};
ghost use Rattle.rst_text.specs.Lines.{lines_of};
ghost use Rattle.rst_tree.specs.Tree.{is_lines};
ghost use Rattle.rst_tree_laws.specs.Texts.{BlockKept, Spells, Suits, is_text_character};

/// The lines of a text consist of characters of texts, which fixed texts do, too, and texts of these have no line end but LF.
pub fn lines_hold_text_characters()
    ensures suits { Suits is_text_character }
    ensures lines { (parts : Parts) (tab : ℕ) (text : Text) → all_scalars text ≡ true → BlockKept is_text_character (lines_of parts tab text) }
    ensures texts { (t : List ℕ) → Spells is_text_character t → is_lines t ≡ true }
{}
