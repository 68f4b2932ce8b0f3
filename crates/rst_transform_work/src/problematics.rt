//! The attributes of problematics.
ghost use Rattle.std.specs.Prelude.{◌≡◌, Some, IfOk};
ghost use Rattle.rst_transform_work.specs.Problematics.{problematic_attrs};

use rst_tree::{Attrs, Entry, Key, Result, Text, Texts, Value};
use std::alloc::Global;
use std::marker::Model;
use std::mem;

/// The id and the message of a problematic, which contracts see as its attributes (Document Tree, 'problematic'). A document can have many that
/// wait for their places in the tree, and this takes no memory of its own.
#[derive(Drop)]
pub struct ProblematicAttrs {
    pub(crate) id: Text,
    /// The number and the id of its message, if it has one.
    pub(crate) message: Option<(u64, Text)>,
}

impl Model for ProblematicAttrs {
    ghost use Rattle.std.specs.Prelude.{List};
    ghost use Rattle.rst_tree.specs.declared.attrs.Attr.{Attr};
    ghost use Rattle.rst_transform_work.specs.Problematics.{problematic_attrs};

    ghost Value = { List Attr };

    ghost view = { λ p. problematic_attrs p.id p.message };
}

impl ProblematicAttrs {
    /// Writes it into an element in place of its attributes, in the room that they had.
    #[tactic(auto, using(crate::proofs::Orders::problematic_in_order))]
    pub fn tell(self, alloc: Global, attrs: &mut Attrs) -> Result<()>
        ensures { IfOk result (λ _. attrs.new ≡ self) }
    {
        let mut list = mem::replace(attrs, Attrs::new(alloc)).into_list();
        list.clear();
        list.reserve_exact(3)?;
        let id = Value::List(Texts::lone(alloc, self.id));
        list.push(Entry::new(Key::Ids, id))?;
        if let Some((number, own)) = self.message {
            list.push(Entry::new(Key::Message, Value::Number(number)))?;
            list.push(Entry::new(Key::Refid, Value::Text(own)))?;
        }
        *attrs = Attrs::of(list);
        Ok(())
    }
}
