use crate::running::refuses;
use kp_base::Memory;
use std::alloc::Global;
use std::test::Fail;

// An action for each three objects.
const OF_THREE: &str =
    "(define (domain d) (:predicates (p ?x)) (:action a :parameters (?x ?y ?z) :effect (p ?x)))";

// An action with an effect for each three objects.
const FORALL_THREE: &str =
    "(define (domain d) (:predicates (p ?x)) (:action a :effect (forall (?x ?y ?z) (p ?x))))";

// An action and an atom for each two objects.
const OF_TWO: &str =
    "(define (domain d) (:predicates (p ?x ?y)) (:action a :parameters (?x ?y) :effect (p ?x ?y)))";

// A problem with so many objects.
fn problem_of(alloc: Global, objects: u32) -> Result<Vec<u8>, Memory> {
    let mut problem = b"(define (problem e) (:domain d) (:init) (:goal ()) (:objects"
        .as_slice()
        .to_vec(alloc)?;
    for number in 0..objects {
        let name = format!(in alloc; " o{number}")?;
        problem.extend_from_slice(name.as_bytes())?;
    }
    problem.extend_from_slice(b"))".as_slice())?;
    Ok(problem)
}

fn refuses_with(alloc: Global, domain: &str, objects: u32, printed: &str) -> Result<bool, Memory> {
    let problem = problem_of(alloc, objects)?;
    refuses(alloc, domain.as_bytes(), &problem, printed)
}

// 101 objects have 1,030,301 bindings of three variables, and 100 have just as many as are allowed:
// too many actions. 159 objects have 4,019,679 effects of one action, and 65 have 4,225 atoms.
#[test]
fn limits_of_grounding(rt: HostRuntime) -> Result<(), Fail> {
    let cases = [
        (OF_THREE, 101, "refused 8 BindingsOver\n"),
        (OF_THREE, 100, "refused 10 ActionsOver\n"),
        (FORALL_THREE, 159, "refused 10 EffectsOver\n"),
        (OF_TWO, 65, "refused 9 AtomsOver\n"),
    ];
    for (domain, objects, printed) in cases {
        assert!(rt; refuses_with(rt.alloc(), domain, objects, printed)?);
    }
    Ok(())
}
