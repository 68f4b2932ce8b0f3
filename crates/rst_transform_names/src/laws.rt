//! Laws on the definitions, each by a function that does nothing and whose contract is the law.
ghost use Rattle.std.specs.Prelude.{◌≡◌, None};
ghost use Rattle.rst_tree.specs.declared.node.Node.{Node};
ghost use Rattle.rst_transform_names.specs.NameMessages.{with_name_messages};

/// Without messages on equal names the document is the same.
pub fn without_name_messages()
    ensures { (document : Node) → with_name_messages (λ number. None) document ≡ document }
{}
