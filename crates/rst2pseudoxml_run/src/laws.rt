//! Laws on the definitions, each by a function that does nothing and whose contract is the law.
ghost use Rattle.std.specs.Prelude.{ℕ, None, false, ◌+◌, ◌*◌, ◌≤◌, List, IfOk, Result};
ghost use Rattle.std.specs.declared.alloc.AllocError.{AllocError};
ghost use Rattle.rst_settings.specs.Profile.{Profile, profile_of};
ghost use Rattle.rst_settings.specs.declared.Settings.{Settings};
ghost use Rattle.rst_text.specs.Block.{Block};
ghost use Rattle.rst_text.specs.Text.{text_of};
ghost use Rattle.rst_tree.specs.Nodes.{node_height};
ghost use Rattle.rst_tree.specs.declared.node.Node.{Node};
ghost use Rattle.rst_tree.specs.Tree.{most_levels};
ghost use Rattle.rst_tree.specs.declared.note.Note.{Note};
ghost use Rattle.rst_tree_laws.specs.Trees.{IsTree};
ghost use Rattle.rst_transform.specs.Finishing.{leaves, Finishes};
ghost use Rattle.rst_transform.specs.declared.finishing.Finished.{Finished};
ghost use Rattle.rst_block_state.specs.Documents.{document};
ghost use Rattle.rst2pseudoxml_run.specs.OneEnd.{HasOneEnd};
ghost use Rattle.rst_inline_scan.specs.Mail.{holds_at_sign};
ghost use Rattle.rst_settings.specs.Parts.{no_parts};
ghost use Rattle.rst2pseudoxml_run.specs.Marks.{holds_dollar_sign, holds_handed, holds_mark, holds_role_end, holds_wider_directive, holds_wider_role};
ghost use Rattle.rst2pseudoxml_run.specs.Parts.{NeedsMark};
ghost use Rattle.rst2pseudoxml_run.specs.Profiles.{IsFirstProfile, ProfilesAgree};
ghost use Rattle.rst2pseudoxml_run.specs.RunResult.{IsJudged};
ghost use Rattle.rst2pseudoxml_run.specs.Reading.{IsLeftOf, read_of};

/// Each input has a result: what is printed for it, or its refusal as too long, no UTF-8 or nested too deeply.
pub fn judged()
    ensures { IsJudged }
{}

/// Runs whose readers have the same bytes have one end, lack of memory and failed reads and writes aside: they end alike, and their
/// writers gain the same.
pub fn one_end()
    ensures { HasOneEnd }
{}

/// The profile that the program ran under at first is the present one with lines of 10,000 characters and without bibliographic fields, but
/// for 100 levels of nesting and no program code.
pub fn first_profile()
    ensures { IsFirstProfile }
{}

/// The profile that the program ran under at first and the present one have the same result where lines may have 10,000 characters, no line
/// calls program code, no block is nested too deeply for the first one, and bibliographic fields aren't looked for or no field list leads
/// the document.
pub fn profiles_agree()
    ensures { ProfilesAgree }
{}

/// It makes no difference that a part of the wider profile is asked for, or that names are handed back, where the text doesn't hold its mark. Without
/// any mark, the result is that of a run that asks for no part but, if it is asked for, `unmarked`, which has no mark, and that hands no name back.
/// Without the mark of one part, it is that of a run that doesn't ask for this part: `marks`, `mail`, `roles`, `directives` or `keywords`. Where none
/// of the names that are handed back may stand in the text, it is that of a run that hands none back.
pub fn parts_need_their_marks()
    ensures parts { NeedsMark (λ asked. record no_parts { unmarked = asked.unmarked }) holds_mark }
    ensures marks { NeedsMark (λ asked. record asked { marks = false }) (λ asked. holds_role_end) }
    ensures mail { NeedsMark (λ asked. record asked { mail = false }) (λ asked. holds_at_sign) }
    ensures roles { NeedsMark (λ asked. record asked { roles = false }) (λ asked. holds_wider_role) }
    ensures directives { NeedsMark (λ asked. record asked { directives = false }) (λ asked. holds_wider_directive) }
    ensures keywords { NeedsMark (λ asked. record asked { keywords = false }) (λ asked. holds_dollar_sign) }
    ensures handed { NeedsMark (λ asked. record asked { handed = None }) holds_handed }
{}

/// Where blocks nest at most 250 deep, a finished document has at most 1,527 levels, for all settings.
pub fn finished_documents_are_low()
    ensures levels { (profile : Profile) (settings : Settings) (B : Block) (number : ℕ) → profile.nesting ≤ 250
        → IfOk (document profile B number) (λ read. node_height (leaves read.1 profile settings read.0).0 ≤ 5 * profile.nesting + 277) }
    ensures tree { (profile : Profile) (settings : Settings) (B : Block) (number : ℕ) → profile.nesting ≤ 250
        → IfOk (document profile B number) (λ read. node_height (leaves read.1 profile settings read.0).0 ≤ most_levels) }
    ensures finish { (settings : Settings) (B : Block) (number : ℕ) (result : Result Finished AllocError)
        → IfOk (document (profile_of settings) B number)
        (λ read. Finishes read.1 (profile_of settings) settings read.0 result → IfOk result (λ done. node_height done.tree ≤ most_levels)) }
{}

/// No document that the program prints has more levels than a tree may have, for all settings. That includes the document that says that a line
/// is too long.
pub fn printed_documents_are_low()
    ensures { (settings : Settings) (lines : Block)
        → IfOk (read_of (profile_of settings) lines) (λ read. node_height (leaves read.1 (profile_of settings) settings read.0).0 ≤ most_levels) }
{}

/// For all inputs and all settings, what is left of the document that is read is a tree: it has no more levels than a tree may have, and no text in
/// it has a line end but LF. That includes the document that says that a line is too long.
pub fn printed_documents_are_trees()
    ensures { (settings : Settings) (bytes : List ℕ) (document : Node) (notes : List Note)
        → IsLeftOf (profile_of settings) settings (text_of bytes) document notes → IsTree document }
{}
