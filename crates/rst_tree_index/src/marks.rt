//! Where marked elements are among some nodes.
ghost use Rattle.std.specs.Prelude.{◌≡◌, ◌≢◌, ◌∷◌, ◌++◌, [], true, false, map, IfOk};
ghost use Rattle.rst_tree_index.specs.MarkPaths.{AreUsed, node_paths, paths_in};

use rst_tree::Result;
use std::alloc::Global;
use std::marker::Model;

/// A node that is marked, or that has marked elements in it.
#[derive(Debug, Drop)]
#[cycle(marks)]
pub(crate) struct Mark {
    /// Its place among the nodes.
    pub place: usize,
    /// Whether it is marked itself.
    pub own: bool,
    /// The marks in it.
    pub inner: Marks,
}

/// The marks among some nodes, which contracts see as the paths of what they mark, in preorder. They are kept as a tree: so where
/// the nodes are put into another one, that costs the same however many marks there are, and however deep.
#[derive(Debug, Drop)]
#[cycle(marks)]
pub(crate) struct Marks {
    list: Vec<Mark>,
}

impl Model for Marks {
    ghost use Rattle.std.specs.Prelude.{ℕ, List};

    ghost Value = { List (List ℕ) };

    ghost use Rattle.rst_tree_index.specs.MarkPaths.{AreUsed, longest, paths_in};

    ghost view = { λ m. paths_in m.list.items };

    ghost invariant = { λ m. AreUsed m.list.items };

    ghost size = { longest };

    ghost use Rattle.std.proofs.Common.{arith};
    ghost use Rattle.rst_tree_index.specs.MarkLengths.{most_le-longest};

    ghost size_decreases = { λ a h. Prim.omega (arith, most_le-longest a.list.items h) };
}

/// Whether a node is marked itself, or has marks in it.
#[inline(always)]
pub(crate) fn is_used(own: bool, inner: &Marks) -> bool
    ensures used { result ≡ true → node_paths own inner.now ≢ [] }
    ensures unused { result ≡ false → node_paths own inner.now ≡ [] }
{
    if own {
        return true;
    }
    !inner.list.is_empty()
}

impl Marks {
    /// No mark.
    pub fn none(alloc: Global) -> Marks
        ensures { result ≡ [] }
    {
        Marks {
            list: Vec::new(alloc),
        }
    }

    /// The marks of a list, each of a node that is marked or has marks in it.
    #[inline(always)]
    pub fn of_used(list: Vec<Mark>) -> Marks
        requires { AreUsed list.items }
        ensures { result ≡ paths_in list.items }
    {
        Marks { list }
    }

    /// The marks, one for each node.
    pub fn as_slice(&self) -> &[Mark]
        ensures paths { self.now ≡ paths_in result.now }
        ensures used { AreUsed result.now }
    {
        self.list.as_slice()
    }

    /// Puts the marks of the node at a place after the others: its own, if it is marked, and those in it.
    #[inline(always)]
    pub fn push(&mut self, place: usize, own: bool, inner: Marks) -> Result<()>
        ensures { IfOk result (λ _. self.new ≡ self.old ++ map (λ p. place ∷ p) (node_paths own inner)) }
    {
        if is_used(own, &inner) {
            self.list.push(Mark { place, own, inner })?;
        }
        Ok(())
    }
}
