use kp_tree_grammar::{
    AtomTree, CondTree, Domain, EffTree, ItemTree, LitTree, Problem, SchemaTree,
};
use std::alloc::{AllocError, Global};

// Files without objects, as they are meant: a state says of each declared predicate whether it holds.

fn number(domain: &Domain, atom: &AtomTree) -> usize {
    for (number, predicate) in domain.predicates.slice().iter().enumerate() {
        if predicate.head.text.slice() == atom.head.text.slice() {
            return number;
        }
    }
    domain.predicates.len()
}

fn has(domain: &Domain, state: &[bool], atom: &AtomTree) -> bool {
    state.get(number(domain, atom)).copied().unwrap_or(false)
}

fn holds(domain: &Domain, state: &[bool], cond: &CondTree) -> bool {
    match cond {
        CondTree::All(parts) => {
            for part in parts.slice() {
                if !holds(domain, state, part) {
                    return false;
                }
            }
            true
        }
        CondTree::Atom(positive, atom) => has(domain, state, atom) == *positive,
        CondTree::Same(..) => false,
    }
}

fn set(domain: &Domain, atom: &AtomTree, value: bool, state: &mut [bool]) {
    if let Some(held) = state.get_mut(number(domain, atom)) {
        *held = value;
    }
}

// The adds of an effect, or its deletes; conditions are read in the state before.
fn apply(domain: &Domain, effect: &EffTree, adds: bool, before: &[bool], state: &mut [bool]) {
    match effect {
        EffTree::All(parts) => {
            for part in parts.slice() {
                apply(domain, part, adds, before, state);
            }
        }
        EffTree::When(condition, body) => {
            if holds(domain, before, condition) {
                apply(domain, body, adds, before, state);
            }
        }
        EffTree::Each(..) => {}
        EffTree::Atom(positive, atom) => {
            if *positive == adds {
                set(domain, atom, adds, state);
            }
        }
    }
}

fn after(
    alloc: Global,
    domain: &Domain,
    schema: &SchemaTree,
    state: &[bool],
) -> Result<Vec<bool>, AllocError> {
    let mut next = state.to_vec(alloc)?;
    apply(domain, &schema.effect, false, state, &mut next);
    apply(domain, &schema.effect, true, state, &mut next);
    Ok(next)
}

// The state of files whose `:init` has nothing but facts that hold.
fn first(alloc: Global, domain: &Domain, problem: &Problem) -> Result<Vec<bool>, AllocError> {
    let mut state = Vec::new(alloc);
    for _ in domain.predicates.slice() {
        state.push(false)?;
    }
    for item in problem.init.slice() {
        if let ItemTree::Lit(true, atom) = item {
            set(domain, atom, true, &mut state);
        }
    }
    Ok(state)
}

// How many of these literals are true.
fn true_of(domain: &Domain, state: &[bool], literals: &[LitTree]) -> usize {
    literals
        .iter()
        .filter(|literal| has(domain, state, &literal.atom) == literal.positive)
        .count()
}

// Whether an item of `:init` is true, where the literals of a `oneof` are different ones.
fn is_true(domain: &Domain, state: &[bool], item: &ItemTree) -> bool {
    match item {
        ItemTree::All(parts) => {
            for part in parts.slice() {
                if !is_true(domain, state, part) {
                    return false;
                }
            }
            true
        }
        ItemTree::Lit(positive, atom) => has(domain, state, atom) == *positive,
        ItemTree::OneOf(_, literals) => true_of(domain, state, literals.slice()) == 1,
        ItemTree::AnyOf(_, literals) => true_of(domain, state, literals.slice()) > 0,
        ItemTree::Unknown(..) => true,
    }
}

// Notes the atoms that an item names.
fn note(domain: &Domain, item: &ItemTree, named: &mut [bool]) {
    match item {
        ItemTree::All(parts) => {
            for part in parts.slice() {
                note(domain, part, named);
            }
        }
        ItemTree::Lit(_, atom) => set(domain, atom, true, named),
        ItemTree::OneOf(_, literals) | ItemTree::AnyOf(_, literals) => {
            for literal in literals.slice() {
                set(domain, &literal.atom, true, named);
            }
        }
        ItemTree::Unknown(_, atom) => set(domain, atom, true, named),
    }
}

// Each state with one value more: false, where no item names the next atom.
fn with_value(
    alloc: Global,
    states: &[Vec<bool>],
    named: bool,
) -> Result<Vec<Vec<bool>>, AllocError> {
    let mut longer = Vec::new(alloc);
    for state in states {
        for value in [false, true] {
            if named || !value {
                let mut next = state.to_vec(alloc)?;
                next.push(value)?;
                longer.push(next)?;
            }
        }
    }
    Ok(longer)
}

// Which atoms an item of `:init` names.
fn named_atoms(alloc: Global, domain: &Domain, problem: &Problem) -> Result<Vec<bool>, AllocError> {
    let mut named = Vec::new(alloc);
    for _ in domain.predicates.slice() {
        named.push(false)?;
    }
    for item in problem.init.slice() {
        note(domain, item, &mut named);
    }
    Ok(named)
}

// The states that have no atom that none names.
fn states_over(alloc: Global, named: &[bool]) -> Result<Vec<Vec<bool>>, AllocError> {
    let mut states = Vec::new(alloc);
    states.push(Vec::new(alloc))?;
    for named in named {
        states = with_value(alloc, &states, *named)?;
    }
    Ok(states)
}

fn named_states(
    alloc: Global,
    domain: &Domain,
    problem: &Problem,
) -> Result<Vec<Vec<bool>>, AllocError> {
    let named = named_atoms(alloc, domain, problem)?;
    let states = states_over(alloc, &named);
    drop(named);
    states
}

fn is_initial(domain: &Domain, problem: &Problem, state: &[bool]) -> bool {
    problem
        .init
        .slice()
        .iter()
        .all(|item| is_true(domain, state, item))
}

// The states in which each item is true and that have no atom that none names.
fn initial_states(
    alloc: Global,
    domain: &Domain,
    problem: &Problem,
) -> Result<Vec<Vec<bool>>, AllocError> {
    let states = named_states(alloc, domain, problem)?;
    let mut initial = Vec::new(alloc);
    for state in states {
        if is_initial(domain, problem, &state) {
            initial.push(state)?;
        }
    }
    Ok(initial)
}

// A state, and the actions that led to it.
#[derive(Drop)]
struct Path {
    state: Vec<bool>,
    plan: Vec<usize>,
}

// The paths with one action more.
fn longer(alloc: Global, domain: &Domain, paths: &[Path]) -> Result<Vec<Path>, AllocError> {
    let mut longer = Vec::new(alloc);
    for path in paths {
        for (action, schema) in domain.schemas.slice().iter().enumerate() {
            if holds(domain, &path.state, &schema.pre) {
                let state = after(alloc, domain, schema, &path.state)?;
                let mut plan = path.plan.to_vec(alloc)?;
                plan.push(action)?;
                longer.push(Path { state, plan })?;
            }
        }
    }
    Ok(longer)
}

/// A list of fewer than so many actions that leads from the start to the goal.
pub fn find(
    alloc: Global,
    domain: &Domain,
    problem: &Problem,
    most: usize,
) -> Result<Option<Vec<usize>>, AllocError> {
    let mut paths = Vec::new(alloc);
    paths.push(Path {
        state: first(alloc, domain, problem)?,
        plan: Vec::new(alloc),
    })?;
    for _ in 0..most {
        for path in &paths {
            if holds(domain, &path.state, &problem.goal) {
                return Ok(Some(path.plan.to_vec(alloc)?));
            }
        }
        paths = longer(alloc, domain, &paths)?;
    }
    Ok(None)
}

// Whether the operator is that of an action without objects and underscores.
fn is_operator_of(operator: &[u8], action: &[u8]) -> bool {
    operator.strip_prefix(b"do_-".as_slice()) == Some(action)
}

// Whether the operators of the written files, stripped, lead to the goal of the given ones from this state.
fn leads(
    alloc: Global,
    given: &Domain,
    problem: &Problem,
    written: &Domain,
    plan: &[usize],
    start: &[bool],
) -> Result<bool, AllocError> {
    let mut state = start.to_vec(alloc)?;
    for operator in plan {
        let mut taken = false;
        for schema in given.schemas.slice() {
            let named = match written.schemas.slice().get(*operator) {
                Some(operator) => is_operator_of(
                    operator.name.text.slice(),
                    schema.name.text.slice(),
                ),
                None => false,
            };
            if named && !taken && holds(given, &state, &schema.pre) {
                state = after(alloc, given, schema, &state)?;
                taken = true;
            }
        }
        if !taken {
            return Ok(false);
        }
    }
    Ok(holds(given, &state, &problem.goal))
}

/// Whether there is an initial state, and from each of them the operators lead to the goal.
pub fn solves(
    alloc: Global,
    given: &Domain,
    problem: &Problem,
    written: &Domain,
    plan: &[usize],
) -> Result<bool, AllocError> {
    let starts = initial_states(alloc, given, problem)?;
    for start in &starts {
        if !leads(alloc, given, problem, written, plan, start)? {
            return Ok(false);
        }
    }
    Ok(!starts.is_empty())
}
