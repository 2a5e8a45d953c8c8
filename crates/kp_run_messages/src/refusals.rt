ghost use Rattle.std.specs.Prelude.{◌≡◌, ◌++◌, IfOk, OnOk, codes};
ghost use Rattle.kp_run_messages.specs.Refusals.{nothing, state_line, target_line, title_of, lines_of, refusal_text};
ghost use Rattle.kp_plans_spelling.specs.Spelling.{number_line};

use crate::clash::put_clash_among;
use crate::lines::{put_file, put_place, put_state, put_step, put_tag, put_target};
use kp_base::{Action, AtomId, GroundName, Lit, Memory, Refused, Row};
use kp_plans_spelling::{put, put_count};
use std::alloc::Global;
use std::marker::Model;

/// What a refusal may name by number.
#[derive(Drop)]
pub struct Nameable<'a> {
    /// The atoms of the ground problem.
    pub atoms: &'a [GroundName],
    /// Its actions.
    pub actions: &'a [Action],
    /// The steps of the plan.
    pub steps: &'a [GroundName],
}

impl<'a> Model for Nameable<'a> {
    ghost use Rattle.kp_run_messages.specs.Refusals.{Nameable as Names};

    ghost Value = { Names };

    ghost view = { λ n. record { atoms = n.atoms.now; actions = n.actions.now; steps = n.steps.now } };
}

impl<'a> Nameable<'a> {
    /// Nothing can be named yet.
    pub fn nothing() -> Nameable<'a>
        ensures { result ≡ nothing }
    {
        Nameable {
            atoms: &[],
            actions: &[],
            steps: &[],
        }
    }
}

// The number and the name of a refusal.
fn title(refused: &Refused) -> &'static str
    ensures { result.now ≡ title_of refused.now }
{
    match refused {
        Refused::TooLong(_) => "refused 1 TooLong\n",
        Refused::BadToken(_) => "refused 2 BadToken\n",
        Refused::Syntax(_) => "refused 3 Syntax\n",
        Refused::Unsupported(_) => "refused 4 Unsupported\n",
        Refused::UnknownName(_) => "refused 5 UnknownName\n",
        Refused::DeclaredTwice(_) => "refused 6 DeclaredTwice\n",
        Refused::WrongUse(_) => "refused 7 WrongUse\n",
        Refused::BindingsOver => "refused 8 BindingsOver\n",
        Refused::AtomsOver => "refused 9 AtomsOver\n",
        Refused::ActionsOver => "refused 10 ActionsOver\n",
        Refused::EffectsOver => "refused 10 EffectsOver\n",
        Refused::ImplicatesOver { .. } => "refused 11 ImplicatesOver\n",
        Refused::NoInitialState => "refused 12 NoInitialState\n",
        Refused::Clash(_) => "refused 13 Clash\n",
        Refused::MergeSyntax(_) => "refused 14 MergeSyntax\n",
        Refused::TagInconsistent { .. } => "refused 15 TagInconsistent\n",
        Refused::MergeInvalid { .. } => "refused 16 MergeInvalid\n",
        Refused::TagsOver => "refused 17 TagsOver\n",
        Refused::FactsOver => "refused 18 FactsOver\n",
        Refused::WeightOver => "refused 18 WeightOver\n",
        Refused::PlanSyntax(_) => "refused 19 PlanSyntax\n",
        Refused::StepUnknown { .. } => "refused 20 StepUnknown\n",
        Refused::SetsOver { .. } => "refused 21 SetsOver\n",
        Refused::NotClassical(_) => "refused 22 NotClassical\n",
    }
}

// Adds the lines of a merge that is invalid: its number, and a state outside all its tags.
fn put_invalid(
    out: &mut Vec<u8>,
    atoms: &[GroundName],
    merge: u32,
    state: &[AtomId],
) -> Result<(), Memory>
    ensures { OnOk result (out.new.items ≡ out.old.items ++ (number_line (codes "merge ") merge ++ state_line atoms.now state.now)) }
{
    put_count(out, b"merge ", u64::from(merge))?;
    put_state(out, atoms, state)
}

// Adds the lines of a target that has too many sets of a size.
fn put_sets(out: &mut Vec<u8>, atoms: &[GroundName], target: Lit, size: u32) -> Result<(), Memory>
    ensures { OnOk result (out.new.items ≡ out.old.items ++ (target_line atoms.now target ++ number_line (codes "size ") size)) }
{
    put_target(out, atoms, target)?;
    put_count(out, b"size ", u64::from(size))
}

// Adds the lines of what a refusal carries.
fn put_lines(out: &mut Vec<u8>, named: &Nameable<'_>, refused: &Refused) -> Result<(), Memory>
    ensures { OnOk result (out.new.items ≡ out.old.items ++ lines_of named.now refused.now) }
{
    match refused {
        Refused::TooLong(part) => put_file(out, *part),
        Refused::BadToken(place)
        | Refused::Syntax(place)
        | Refused::Unsupported(place)
        | Refused::UnknownName(place)
        | Refused::DeclaredTwice(place)
        | Refused::WrongUse(place)
        | Refused::MergeSyntax(place)
        | Refused::PlanSyntax(place)
        | Refused::NotClassical(place) => put_place(out, place),
        Refused::ImplicatesOver { prefix } => put_count(out, b"prefix ", *prefix),
        Refused::Clash(at) => put_clash_among(out, named.atoms, named.actions, at),
        Refused::TagInconsistent { merge, tag } => put_tag(out, *merge, *tag),
        Refused::MergeInvalid { merge, state } => {
            put_invalid(out, named.atoms, *merge, state.slice())
        }
        Refused::StepUnknown { step } => put_step(out, named.steps, *step),
        Refused::SetsOver { target, size } => put_sets(out, named.atoms, *target, *size),
        Refused::BindingsOver
        | Refused::AtomsOver
        | Refused::ActionsOver
        | Refused::EffectsOver
        | Refused::NoInitialState
        | Refused::TagsOver
        | Refused::FactsOver
        | Refused::WeightOver => Ok(()),
    }
}

/// The lines of a refusal.
pub fn refusal(alloc: Global, named: &Nameable<'_>, refused: &Refused) -> Result<Row<u8>, Memory>
    ensures { IfOk result (λ text. text ≡ refusal_text named.now refused.now) }
{
    let mut out = Vec::new(alloc);
    put(&mut out, title(refused).as_bytes())?;
    put_lines(&mut out, named, refused)?;
    Ok(Row::from_vec(out))
}
