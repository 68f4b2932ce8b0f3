//! What is refused.
#![tactic(auto, unfolding(crate::proofs::Computing::rst2pseudoxml_run))]

ghost use Rattle.std.specs.Prelude.{◌≡◌, ◌++◌, [], ◌∷◌, replicate, Err, codes};
ghost use Rattle.std.specs.List.{concat};
ghost use Rattle.rst_settings.specs.Profile.{profile_of};
ghost use Rattle.rst_settings.specs.declared.Threshold.TheVariants.{Warning};
ghost use Rattle.rst2pseudoxml_options.specs.declared.format.Format.TheVariants.{PseudoXml};
ghost use Rattle.rst2pseudoxml_run.specs.declared.end.End.TheVariants.{NotUtf8, TooDeep};
ghost use Rattle.rst2pseudoxml_run.specs.RunResult.{result_of};
ghost use Rattle.rst2pseudoxml_run.specs.Written.{usual, ReportsOn};

/// Blocks that are nested as deeply as allowed, and one level deeper. A message halts the run, so that no tree is printed (Markup Specification,
/// 'Body Elements').
pub fn nesting()
    ensures two_hundred_and_fifty_levels { ReportsOn (record usual { halt = Warning }) (concat (replicate 250 (codes "- ")) ++ codes "*a") []
        ("x:1: (WARNING/2) Inline emphasis start-string without end-string." ∷ "Exiting due to level-2 (WARNING) system message." ∷ []) 1 }
    ensures empty_item_in_these { ReportsOn (record usual { halt = Warning }) (concat (replicate 250 (codes "- ")) ++ codes "-\n\n*a") []
        ("x:3: (WARNING/2) Inline emphasis start-string without end-string." ∷ "Exiting due to level-2 (WARNING) system message." ∷ []) 1 }
    ensures one_level_more { result_of PseudoXml (profile_of usual) usual (codes "x") (concat (replicate 251 (codes "- ")) ++ codes "a") ≡ Err (TooDeep 1) }
    ensures two_levels_where_one_is_allowed { result_of PseudoXml (record (profile_of usual) { nesting = 1 }) usual (codes "x") (codes "- - a") ≡ Err (TooDeep 1) }
{}

/// Bytes that aren't UTF-8 (Markup Specification, 'Document').
pub fn bytes()
    ensures not_utf8 { result_of PseudoXml (profile_of usual) usual (codes "x") (97 ∷ 255 ∷ []) ≡ Err (NotUtf8 1) }
{}
