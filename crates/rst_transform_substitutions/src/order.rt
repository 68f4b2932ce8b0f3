//! The order in which definitions are measured.
use crate::definitions::Definitions;
use crate::listing::Listed;
use rst_tree::Result;
use std::alloc::Global;

/// What a search over the definitions does next with one of them.
#[derive(Clone, Copy)]
enum Step {
    /// Goes on to those that it refers to, unless it was met before.
    Enter(usize),
    /// Puts it after those that it refers to.
    Leave(usize),
}

/// The places of the definitions that some names lead to, each after those that it refers to, but for those that lead back to it.
pub fn order_of(alloc: Global, definitions: &Definitions, names: &[&str]) -> Result<Vec<usize>> {
    let count = definitions.contents.len();
    let mut order = Vec::new(alloc);
    let mut entered = vec![in alloc; false; count]?;
    let mut steps = Vec::new(alloc);
    enter_all(alloc, definitions, names, &mut steps)?;
    for _ in 0..usize::MAX {
        match steps.pop() {
            None => break,
            Some(Step::Leave(place)) => order.push(place)?,
            Some(Step::Enter(place)) => {
                enter(alloc, definitions, place, &mut entered, &mut steps)?;
            }
        }
    }
    Ok(order)
}

/// Enters the definition at a place, unless it was met before: those that it refers to come next, and then it is left.
fn enter(
    alloc: Global,
    definitions: &Definitions,
    place: usize,
    entered: &mut [bool],
    steps: &mut Vec<Step>,
) -> Result<()> {
    let (Some(false), Some(content)) = (entered.get(place).copied(), definitions.content(place))
    else {
        return Ok(());
    };
    entered[place] = true;
    steps.push(Step::Leave(place))?;
    let listed = Listed::of(alloc, content)?;
    enter_all(alloc, definitions, &listed.names, steps)
}

/// Lets the definitions be entered that names find.
fn enter_all(
    alloc: Global,
    definitions: &Definitions,
    names: &[&str],
    steps: &mut Vec<Step>,
) -> Result<()> {
    for name in names {
        if let Some(place) = definitions.find(alloc, name)? {
            steps.push(Step::Enter(place))?;
        }
    }
    Ok(())
}
