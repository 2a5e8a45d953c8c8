ghost use Rattle.std.specs.Prelude.{◌≡◌, IfOk, option_map};
ghost use Rattle.std.specs.List.{list_all};
ghost use Rattle.kp_names_semantics.specs.Strip.{past, is_digit, is_number, is_merge_operator, action_of};
ghost use Rattle.kp_plans.specs.Adding.{Adds};
ghost use Rattle.kp_plans.specs.Stripping.{AnswersStrip};

use crate::decoding::decode;
use crate::step::PlanStep;
use kp_base::{GroundName, Memory, Refused, Row, Stop};
use std::alloc::Global;

// What stands behind the front of a text that begins with it.
fn past<'a>(front: &[u8], text: &'a [u8]) -> Option<&'a [u8]>
    ensures { option_map (λ rest. rest.now) result ≡ past front.now text.now }
{
    if text.starts_with(front) {
        Some(&text[front.len()..])
    } else {
        None
    }
}

// Whether each byte is a digit.
fn all_digits(text: &[u8]) -> bool
    ensures { result ≡ list_all is_digit text.now }
{
    text.iter().all(|b| b.is_ascii_digit())
}

// Whether the text is a number in decimal: digits, the first of several not 0.
fn is_number(text: &[u8]) -> bool
    ensures { result ≡ is_number text.now }
{
    match text {
        [] => false,
        [digit] => digit.is_ascii_digit(),
        [first, ..] => *first != b'0' && all_digits(text),
    }
}

// Whether the name is that of a merge's operator.
fn is_merge_operator(operator: &[u8]) -> bool
    ensures { result ≡ is_merge_operator operator.now }
{
    match past(b"merge_-", operator) {
        Some(number) => is_number(number),
        None => false,
    }
}

// The action of the operator of this name.
fn action_of(alloc: Global, operator: &[u8]) -> Result<Option<GroundName>, Memory>
    ensures { IfOk result (λ found. found ≡ action_of operator.now) }
{
    match past(b"do_-", operator) {
        Some(word) => decode(alloc, word),
        None => Ok(None),
    }
}

// Adds what a step comes to, if it is an operator's: tells whether it is.
fn strip_step(
    alloc: Global,
    actions: &mut Row<GroundName>,
    step: &GroundName,
) -> Result<bool, Memory>
    ensures { IfOk result (λ is_operator. Adds actions.old actions.new step.now is_operator) }
{
    if step.objects.len() > 0 {
        return Ok(false);
    }
    if is_merge_operator(step.head.slice()) {
        return Ok(true);
    }
    match action_of(alloc, step.head.slice())? {
        Some(action) => {
            actions.push(action)?;
            Ok(true)
        }
        None => Ok(false),
    }
}

/// The actions of the steps of a plan of the written files: an action's operator gives its name, a merge's gives nothing.
///
/// The first step that is none of the two is refused with `PlanSyntax` at its place.
pub fn strip(alloc: Global, steps: &Row<PlanStep>) -> Result<Row<GroundName>, Stop>
    ensures { AnswersStrip steps.now result }
{
    let mut actions = Row::new(alloc);
    for step in steps.slice() {
        if !strip_step(alloc, &mut actions, &step.name)? {
            return Err(Stop::Refused(Refused::PlanSyntax(step.place)));
        }
    }
    Ok(actions)
}
