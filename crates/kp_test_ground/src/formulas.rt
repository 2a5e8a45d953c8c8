use kp_base::{AtomId, Initial, Limits, Lit, LitSet, Memory, Row, Stop};
use kp_ground::ground;
use kp_init::initial;
use kp_names::Lifted;
use kp_names_semantics::{GroundLit, Item};
use std::alloc::Global;

// The atom of a predicate without objects, as a literal.
fn literal(alloc: Global, pred: u32) -> GroundLit {
    GroundLit {
        positive: true,
        pred,
        objects: Row::new(alloc),
    }
}

fn literals(alloc: Global, preds: &[u32]) -> Result<Row<GroundLit>, Memory> {
    let mut row = Row::new(alloc);
    for pred in preds {
        row.push(literal(alloc, *pred))?;
    }
    Ok(row)
}

// The problem of these items and this goal.
fn problem_of(alloc: Global, init: Row<Item>, goal: Row<GroundLit>) -> Lifted {
    Lifted {
        objects: Row::new(alloc),
        predicates: Row::new(alloc),
        schemas: Row::new(alloc),
        init,
        goal,
        unsure: None,
    }
}

// The formula of a problem, with its ground problem.
fn formula_of(alloc: Global, lifted: &Lifted) -> Result<Initial, Stop> {
    let ground = ground(alloc, lifted, &Limits::usual())?;
    let formula = initial(alloc, lifted, &ground)?;
    Ok(formula)
}

// The formula of these items, where the goal names these atoms, and so they are the ground atoms.
fn formula(alloc: Global, init: Row<Item>, goal: &[u32]) -> Result<Initial, Stop> {
    let lifted = problem_of(alloc, init, literals(alloc, goal)?);
    let formula = formula_of(alloc, &lifted)?;
    Ok(formula)
}

// Whether a clause is that of these atoms, each with its sign.
fn is_clause(clause: &LitSet, wanted: &[(u32, bool)]) -> bool {
    clause.slice().len() == wanted.len()
        && clause.slice().iter().zip(wanted).all(|(lit, (number, positive))| {
            *lit == Lit {
                atom: AtomId(*number),
                positive: *positive,
            }
        })
}

// Whether these are the clauses, in order.
fn are_clauses(clauses: &[LitSet], wanted: &[&[(u32, bool)]]) -> bool {
    clauses.len() == wanted.len()
        && clauses
            .iter()
            .zip(wanted)
            .all(|(clause, wanted)| is_clause(clause, wanted))
}

fn one_of_three(alloc: Global) -> Result<Row<Item>, Memory> {
    let mut init = Row::new(alloc);
    init.push(Item::OneOf(literals(alloc, &[0, 1, 2, 1])?))?;
    Ok(init)
}

fn is_one_of_three(alloc: Global) -> Result<bool, Stop> {
    let formula = formula(alloc, one_of_three(alloc)?, &[0, 1, 2])?;
    Ok(
        formula.closed.len() == 0
            && are_clauses(
                formula.clauses.slice(),
                &[
                    &[(0, true), (1, true), (2, true)],
                    &[(0, false), (1, false)],
                    &[(0, false), (2, false)],
                    &[(1, false), (2, false)],
                ],
            ),
    )
}

#[test]
fn exactly_one_of_three(rt: HostRuntime) {
    let answer = is_one_of_three(rt.alloc());
    assert!(rt; matches!(answer, Ok(true)));
}

// `(or (a) (b))`, `(unknown (c))`, and a literal of none of the five atoms.
fn three_items(alloc: Global) -> Result<Row<Item>, Memory> {
    let mut init = Row::new(alloc);
    init.push(Item::AnyOf(literals(alloc, &[0, 1])?))?;
    init.push(Item::Unknown(literal(alloc, 2)))?;
    init.push(Item::One(literal(alloc, 7)))?;
    Ok(init)
}

fn closes_the_others(alloc: Global) -> Result<bool, Stop> {
    let formula = formula(alloc, three_items(alloc)?, &[0, 1, 2, 3, 4])?;
    Ok(
        formula.closed.slice() == [AtomId(3), AtomId(4)].as_slice()
            && are_clauses(formula.clauses.slice(), &[&[(0, true), (1, true)]]),
    )
}

#[test]
fn what_no_item_names_is_closed(rt: HostRuntime) {
    let answer = closes_the_others(rt.alloc());
    assert!(rt; matches!(answer, Ok(true)));
}
