//! The chains of indirect targets: where each ends.
ghost use Rattle.std.specs.Prelude.{IfOk, ◌≡◌, is_some, MatchOption, None, Some};
ghost use Rattle.rst_transform_references.specs.Chains.{answers_of, indirect_name, joined, next_on, stopped};
ghost use Rattle.rst_transform_work.specs.Lists.{at_place};

use crate::leads::{Lead, is_target};
use rst_transform_work::{at_place, item_at, put_at, text_of_attribute};
use rst_tree::{Key, Node, Result, Text};
use std::alloc::Global;

/// What an indirect target comes to, through further ones.
#[derive(Drop)]
pub enum Answer {
    /// It leads where this attribute points.
    Leads(Lead),
    /// The last name in its chain belongs to no element.
    Missing(Text),
    /// Its chain runs into a circle.
    Circular,
}

/// The first step from an indirect target.
#[derive(Drop)]
pub enum Step {
    /// To another indirect target, at this place.
    To(usize),
    /// It comes to this.
    Ends(Answer),
}

/// Whether a node is an indirect target.
pub fn is_indirect(node: &Node) -> bool
    ensures { result ≡ is_some (indirect_name node.now) }
{
    indirect_name(node).is_some()
}

/// The name that an indirect target refers to.
pub fn indirect_name<'a>(node: &'a Node) -> Option<&'a str>
    ensures { MatchOption result (indirect_name node.now ≡ None) (λ name. indirect_name node.now ≡ Some name.now) }
{
    if !is_target(node) {
        return None;
    }
    text_of_attribute(node, Key::Refname)
}

impl Answer {
    /// An equal answer.
    fn copy(&self) -> Result<Answer>
        ensures { IfOk result (λ answer. answer ≡ self.now) }
    {
        match self {
            Answer::Leads(lead) => Ok(Answer::Leads(lead.copy()?)),
            Answer::Missing(name) => Ok(Answer::Missing(name.copy()?)),
            Answer::Circular => Ok(Answer::Circular),
        }
    }
}

/// What each indirect target comes to, by its place and its first step; there is nothing for the other elements.
///
/// Each chain is followed to its end, or to the first place that a chain came to before. No step is taken twice.
pub fn answers(alloc: Global, steps: &[Option<Step>]) -> Result<Vec<Option<Answer>>>
    ensures { IfOk result (λ answers. answers.items ≡ answers_of steps.now) }
{
    let mut answers = Vec::with_capacity(alloc, steps.len())?;
    // For each place where the first chain began that came to it.
    let mut starts = vec![in alloc; None; steps.len()]?;
    for start in 0..steps.len() {
        let mut place = start;
        while let Some(next) = next_on(steps, &starts, place) {
            put_at(&mut starts, place, Some(start));
            place = next;
        }
        let answer = stopped(steps, &starts, answers.as_slice(), place)?;
        answers.push(answer)?;
    }
    Ok(answers)
}

/// The next place in a chain, if there is one and no chain came to this one before.
fn next_on(steps: &[Option<Step>], starts: &[Option<usize>], place: usize) -> Option<usize>
    ensures { result ≡ next_on steps.now starts.now place }
{
    if at_place(starts, place).is_some() {
        return None;
    }
    match item_at(steps, place) {
        Some(Step::To(next)) => Some(*next),
        _ => None,
    }
}

/// What a chain comes to that stops at a place.
fn stopped(
    steps: &[Option<Step>],
    starts: &[Option<usize>],
    answers: &[Option<Answer>],
    place: usize,
) -> Result<Option<Answer>>
    ensures { IfOk result (λ answer. answer ≡ stopped (at_place steps.now place) (at_place starts.now place) answers.now) }
{
    match item_at(steps, place) {
        None => Ok(None),
        Some(Step::Ends(answer)) => Ok(Some(answer.copy()?)),
        Some(Step::To(_)) => joined(answers, at_place(starts, place)),
    }
}

/// What the chain from a start comes to. It is a circle if that isn't known yet.
fn joined(answers: &[Option<Answer>], start: Option<usize>) -> Result<Option<Answer>>
    ensures { IfOk result (λ answer. answer ≡ joined start answers.now) }
{
    let Some(start) = start else {
        return Ok(Some(Answer::Circular));
    };
    match answers.get(start) {
        Some(Some(answer)) => Ok(Some(answer.copy()?)),
        Some(None) => Ok(None),
        None => Ok(Some(Answer::Circular)),
    }
}
