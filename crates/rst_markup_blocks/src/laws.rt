//! Laws of the definitions.
ghost use Rattle.std.specs.Prelude.{◌≡◌, ◌≤◌, Bool, List, length, take, IsTrue};
ghost use Rattle.rst_text.specs.Block.{Block};
ghost use Rattle.rst_markup_blocks.specs.Ends.{row_reach, row_size};
ghost use Rattle.rst_markup_blocks.specs.Kinds.{row_holds};
ghost use Rattle.rst_markup_blocks.specs.declared.kind.Kind.{Kind};
ghost use Rattle.rst_markup_blocks.specs.Partition.{Span, IsPartition, spans};

/// A block has exactly one partition: `spans` is it, the list of the lines of its constructs (Markup Specification, 'Body Elements').
pub fn one_partition()
    ensures some { (titles : Bool) (B : Block) → IsPartition titles B (spans titles B) }
    ensures only { (titles : Bool) (B : Block) (S : List Span) → IsPartition titles B S → S ≡ spans titles B }
{}

/// What begins has a line or more, and ends within its block (Markup Specification, 'Body Elements'); its reach has its lines, and ends
/// within the block, too. Whether it begins depends on three lines alone.
pub fn constructs_stand_in_their_blocks()
    ensures within { (kind : Kind) (titles : Bool) (X : Block) → 1 ≤ length X → IsTrue (row_holds kind X)
        → (1 ≤ row_size kind titles X) × (row_size kind titles X ≤ length X) }
    ensures reaches { (kind : Kind) (titles : Bool) (X : Block) → 1 ≤ length X → IsTrue (row_holds kind X)
        → (row_size kind titles X ≤ row_reach kind titles X) × (row_reach kind titles X ≤ length X) }
    ensures on_three { (kind : Kind) (X Y : Block) → take 3 X ≡ take 3 Y → row_holds kind X ≡ row_holds kind Y }
{}
