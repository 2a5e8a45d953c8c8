ghost use Rattle.std.specs.Prelude.{◌≡◌, ◌<◌, ◌≤◌, ◌+◌, ◌==◌, count_by, length, IfOk, IfErr};
ghost use Rattle.kp_base.specs.declared.refused.Part.TheVariants as parts;
ghost use Rattle.kp_base.specs.Files.{most_bytes};
ghost use Rattle.kp_lex.specs.Cutting.{Cut};
ghost use Rattle.kp_lex.specs.Places.{place_of};
ghost use Rattle.kp_plans.specs.PlanFiles.{AnswersPlan};
ghost use Rattle.kp_plans.specs.Steps.{Ascends, StepStands, StepStops, AnswersTokens, AnswersCut, IsTold};

use crate::step::PlanStep;
use crate::words::name_of;
use kp_base::{Part, Place, Refused, Row, Stop};
use kp_lex::{Token, place, tokens};
use kp_tree_cursor::{Class, Halt, Tokens, byte_of, close, is_left, lower_case, peek, words};
use std::alloc::Global;

// How many line feeds there are.
fn line_feeds(bytes: &[u8]) -> u32
    requires { length bytes.now ≤ most_bytes }
    ensures value { result ≡ count_by (λ b. b == 10) bytes.now }
    ensures few { result ≤ length bytes.now }
{
    bytes.iter().filter(|b| **b == b'\n').count() as u32
}

// The place of a byte at or behind another byte, whose place is known.
fn place_behind(known: Place, bytes: &[u8], byte: u32) -> Place
    requires short { length bytes.now ≤ most_bytes }
    requires place { known ≡ place_of parts.Plan bytes.now known.byte }
    requires onward { known.byte ≤ byte }
    requires within { byte ≤ length bytes.now }
    ensures { result ≡ place_of parts.Plan bytes.now byte }
{
    let line_feeds = line_feeds(&bytes[known.byte as usize..byte as usize]);
    Place {
        part: known.part,
        line: known.line + line_feeds,
        byte,
    }
}

// The words of a step that stands at a place, and the place behind it.
fn step_at<'t, 'a>(tokens: &Tokens<'t, 'a>, at: usize) -> Result<(Tokens<'t, 'a>, usize), Halt>
    ensures found { IfOk result (λ x. StepStands tokens.now at x.0 x.1) }
    ensures stopped { IfErr result (λ e. StepStops tokens.now at e) }
    ensures onward { IfOk result (λ x. (0 < length x.0) × (at + 1 + length x.0 < x.1) × (x.1 ≤ length tokens.now)) }
{
    if !is_left(tokens, at) {
        return Err(Halt::Syntax(at));
    }
    let words = words(tokens, at + 1, Class::Name)?;
    let behind = close(tokens, at + 1 + words.len())?;
    Ok((words, behind))
}

// The steps that all the tokens are.
fn steps(alloc: Global, bytes: &[u8], tokens: &Tokens) -> Result<Row<PlanStep>, Halt>
    requires short { length bytes.now ≤ most_bytes }
    requires ascends { Ascends 0 tokens.now (length bytes.now) }
    ensures { AnswersTokens bytes.now tokens.now result }
{
    let mut steps = Row::new(alloc);
    let mut known = place(Part::Plan, bytes, 0);
    let mut at = 0;
    'steps: while is_left(tokens, at) {
        let (words, behind) = step_at(tokens, at)?;
        known = place_behind(known, bytes, words.token(0).byte);
        let name = name_of(alloc, &words)?;
        steps.push(PlanStep { name, place: known })?;
        at = behind;
    }
    match peek(tokens, at) {
        None => Ok(steps),
        Some(_) => Err(Halt::Syntax(at)),
    }
}

// The steps of a text that is cut into the tokens.
fn read_tokens(alloc: Global, bytes: &[u8], tokens: &[Token]) -> Result<Row<PlanStep>, Halt>
    requires short { length bytes.now ≤ most_bytes }
    requires cut { Cut 0 bytes.now tokens.now }
    ensures { AnswersCut bytes.now tokens.now result }
{
    let lower = lower_case(alloc, bytes)?;
    let seen = Tokens::new(&lower, tokens);
    steps(alloc, bytes, &seen)
}

// What ends the call where no steps were read.
fn told(bytes: &[u8], tokens: &[Token], halt: Halt) -> Stop
    requires short { length bytes.now ≤ most_bytes }
    requires cut { Cut 0 bytes.now tokens.now }
    ensures { IsTold bytes.now tokens.now halt result }
{
    match halt {
        Halt::Memory => Stop::Memory,
        Halt::Syntax(number) | Halt::Unsupported(number) => {
            let byte = byte_of(bytes, tokens, number);
            Stop::Refused(Refused::PlanSyntax(place(Part::Plan, bytes, byte)))
        }
    }
}

/// The steps of a plan file, each with the place of its head.
///
/// A file with a byte that begins no token is refused with `BadToken` there. Any other file that is no plan is refused
/// with `PlanSyntax` at the first token that is wrong, or at its end. Brackets may go as deep as they like.
pub fn read_plan(alloc: Global, bytes: &[u8]) -> Result<Row<PlanStep>, Stop>
    requires { length bytes.now ≤ most_bytes }
    ensures { AnswersPlan bytes.now result }
{
    let tokens = tokens(alloc, Part::Plan, bytes)?;
    match read_tokens(alloc, bytes, tokens.slice()) {
        Ok(steps) => Ok(steps),
        Err(halt) => Err(told(bytes, tokens.slice(), halt)),
    }
}
