ghost use Rattle.std.specs.Prelude.{◌≡◌, ◌<◌, ◌+◌, true, [], IfOk, OnOk};
ghost use Rattle.kp_base.specs.Lit.{negative};
ghost use Rattle.kp_base.specs.LitSet.{with_lit};
ghost use Rattle.kp_base.specs.Implicates.{are_below};
ghost use Rattle.kp_primes.specs.Held.{formula};
ghost use Rattle.kp_primes_first_model.specs.Asked.{is_wanted, passes_one, IsWitness, AnswersFind};
ghost use Rattle.kp_primes_first_model.specs.Ordered.{AreFirst, AnswersFirst};
ghost use Rattle.kp_primes_first_model.specs.Chosen.{IsChosen};

use crate::Question;
use crate::finding::find_any;
use kp_base::{AtomId, Lit, LitSet, Memory, Row};
use kp_primes::Primes;
use std::alloc::Global;

// What `find_any` may answer for the tag without this atom, where a tag that it answered for the tag is there.
fn find_without<T: Question + Drop>(
    alloc: Global,
    primes: &Primes,
    question: &T,
    tag: &LitSet,
    found: &LitSet,
    atom: AtomId,
) -> Result<Option<LitSet>, Memory>
    requires ready { T.ready question.now }
    requires atoms { T.atoms question.now ≡ primes.now.atoms }
    requires below { are_below primes.now.atoms tag.now ≡ true }
    requires in_range { atom.0 < primes.now.atoms }
    requires witness { IsWitness primes.now.atoms (formula primes.now) (passes_one (T.tests question.now)) tag.now found.now }
    ensures { IfOk result (AnswersFind primes.now.atoms (formula primes.now) (passes_one (T.tests question.now)) (with_lit (negative atom.0) tag.now)) }
{
    let absent = Lit {
        atom,
        positive: false,
    };
    let more = found.with(alloc, absent)?;
    if primes.consistent(&more) {
        return Ok(Some(more));
    }
    let without = tag.with(alloc, absent)?;
    let rest = find_any(alloc, primes, question, &without)?;
    Ok(rest)
}

// Decides the next atom: it is absent where some model of what was chosen passes without it.
fn choose_one<T: Question + Drop>(
    alloc: Global,
    primes: &Primes,
    question: &T,
    atom: AtomId,
    tag: &mut LitSet,
    found: &mut LitSet,
    present: &mut Row<AtomId>,
) -> Result<(), Memory>
    requires ready { T.ready question.now }
    requires atoms { T.atoms question.now ≡ primes.now.atoms }
    requires in_range { atom.0 < primes.now.atoms }
    requires chosen { IsChosen primes.now.atoms atom.0 (formula primes.now) (passes_one (T.tests question.now)) tag.old found.old present.old }
    ensures { OnOk result (IsChosen primes.now.atoms (atom.0 + 1) (formula primes.now) (passes_one (T.tests question.now)) tag.new found.new present.new) }
{
    match find_without(alloc, primes, question, tag, found, atom)? {
        Some(other) => {
            *found = other;
            tag.insert(Lit {
                atom,
                positive: false,
            })?;
            Ok(())
        }
        None => {
            tag.insert(Lit {
                atom,
                positive: true,
            })?;
            present.push(atom)?;
            Ok(())
        }
    }
}

// The atoms of the first model that passes, where a tag is there whose models pass.
fn choose<T: Question + Drop>(
    alloc: Global,
    primes: &Primes,
    question: &T,
    start: LitSet,
) -> Result<Row<AtomId>, Memory>
    requires ready { T.ready question.now }
    requires atoms { T.atoms question.now ≡ primes.now.atoms }
    requires witness { IsWitness primes.now.atoms (formula primes.now) (passes_one (T.tests question.now)) [] start }
    ensures { IfOk result (AreFirst primes.now.atoms (is_wanted (formula primes.now) (passes_one (T.tests question.now)))) }
{
    // Taken for what its contract says of the clauses, which the loop's invariant cites.
    let clauses = primes.clauses();
    let atoms = primes.atoms();
    let mut found = start;
    let mut tag = LitSet::new(alloc);
    let mut present = Row::new(alloc);
    for p in 0..atoms {
        choose_one(
            alloc,
            primes,
            question,
            AtomId(p),
            &mut tag,
            &mut found,
            &mut present,
        )?;
    }
    Ok(present)
}

/// The first model that passes one of the tests: at the first atom in which two models differ, the one without it comes
/// first. Its atoms, in order; none where no model passes.
pub fn first<T: Question + Drop>(
    alloc: Global,
    primes: &Primes,
    question: &T,
) -> Result<Option<Row<AtomId>>, Memory>
    requires ready { T.ready question.now }
    requires atoms { T.atoms question.now ≡ primes.now.atoms }
    ensures { IfOk result (AnswersFirst primes.now.atoms (is_wanted (formula primes.now) (passes_one (T.tests question.now)))) }
{
    match find_any(alloc, primes, question, &LitSet::new(alloc))? {
        Some(start) => {
            let present = choose(alloc, primes, question, start)?;
            Ok(Some(present))
        }
        None => Ok(None),
    }
}
