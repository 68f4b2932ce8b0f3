//! Elements that fail for a message.
ghost use Rattle.std.specs.Prelude.{IfOk};
ghost use Rattle.rst_transform_references.specs.Failing.{fail_for};
ghost use Rattle.rst_transform_work.specs.Known.{Makes};

use crate::links::Links;
use rst_transform_work::Context;
use rst_tree::{Level, Result, Text};

/// Lets the elements at some places become problematics of one ERROR.
pub fn fail_for(
    context: &mut Context,
    links: &mut Links<'_>,
    places: &[usize],
    line: usize,
    text: Text,
) -> Result<()>
    ensures { IfOk result (λ _. Makes (fail_for places.now line text links.old) context.old context.new links.new) }
{
    let message = context.report(Level::Error, line, text, true)?;
    for place in places {
        links.fail(context, message, *place)?;
    }
    Ok(())
}
