ghost use Rattle.std.specs.Prelude.{◌≡◌, ◌<◌, true, false, length, IfOk, IfSome};
ghost use Rattle.std.specs.List.{list_all};
ghost use Rattle.kp_base.specs.Steps.{holds};
ghost use Rattle.kp_base.specs.Lit.{negative, positive};
ghost use Rattle.kp_base.specs.LitSet.{with_lit};
ghost use Rattle.kp_base.specs.Implicates.{are_below};
ghost use Rattle.kp_primes.specs.Held.{formula};
ghost use Rattle.kp_primes_first_model.specs.Known.{is_decided};
ghost use Rattle.kp_primes_first_model.specs.Asked.{AnswersFind, AskTheSame, JudgesTag, is_wanted, passes_one, test_at};

use crate::{Question, Seen, Truth};
use kp_base::{AtomId, Lit, LitSet, Memory};
use kp_primes::Primes;
use std::alloc::Global;

// The tag with one literal more, where the tag itself is of no more use.
fn with_more(mut tag: LitSet, lit: Lit) -> Result<LitSet, Memory>
    ensures { IfOk result (λ set. set ≡ with_lit lit tag) }
{
    tag.insert(lit)?;
    Ok(tag)
}

// What is seen of a tag's models; the test isn't passed where there are none.
fn judge_tag<T: Question + Drop>(
    alloc: Global,
    primes: &Primes,
    question: &T,
    number: usize,
    tag: &LitSet,
) -> Result<Seen<T>, Memory>
    requires ready { T.ready question.now }
    requires atoms { T.atoms question.now ≡ primes.now.atoms }
    requires in_range { number < length (T.tests question.now) }
    requires below { are_below primes.now.atoms tag.now ≡ true }
    ensures truth { IfOk result (λ seen. JudgesTag primes.now.atoms (formula primes.now) (test_at (T.tests question.now) number) tag.now seen.truth) }
    ensures same_atoms { IfOk result (λ seen. IfSome seen.less (λ less. T.atoms less ≡ primes.now.atoms)) }
    ensures still_ready { IfOk result (λ seen. IfSome seen.less (λ less. T.ready less)) }
    ensures same { IfOk result (λ seen. IfSome seen.less (λ less. AskTheSame (is_wanted (formula primes.now) (λ s. list_all (holds s) tag.now)) (T.tests question.now) (T.tests less))) }
{
    match primes.closure(alloc, tag)? {
        Some(known) => {
            let seen = question.judge(alloc, number, &known)?;
            Ok(seen)
        }
        None => Ok(Seen {
            truth: Truth::No,
            less: None,
        }),
    }
}

// A tag within this one all of whose models pass the test with this number, and that has one. None where no model of
// the tag passes.
#[cycle(find)]
fn find<T: Question + Drop>(
    alloc: Global,
    primes: &Primes,
    question: &T,
    number: usize,
    tag: LitSet,
) -> Result<Option<LitSet>, Memory>
    requires ready { T.ready question.now }
    requires atoms { T.atoms question.now ≡ primes.now.atoms }
    requires in_range { number < length (T.tests question.now) }
    requires below { are_below primes.now.atoms tag ≡ true }
    ensures { IfOk result (AnswersFind primes.now.atoms (formula primes.now) (test_at (T.tests question.now) number) tag) }
{
    let seen = judge_tag(alloc, primes, question, number, &tag)?;
    match seen.truth {
        Truth::Yes => Ok(Some(tag)),
        Truth::No => Ok(None),
        Truth::Open(atom) => {
            let found = match &seen.less {
                Some(less) => find_either_way(alloc, primes, less, number, tag, atom),
                None => find_either_way(alloc, primes, question, number, tag, atom),
            };
            drop(seen);
            found
        }
    }
}

// The same of a tag that leaves an atom open: first without it.
#[cycle(find)]
fn find_either_way<T: Question + Drop>(
    alloc: Global,
    primes: &Primes,
    question: &T,
    number: usize,
    tag: LitSet,
    atom: AtomId,
) -> Result<Option<LitSet>, Memory>
    requires ready { T.ready question.now }
    requires atoms { T.atoms question.now ≡ primes.now.atoms }
    requires in_range { number < length (T.tests question.now) }
    requires below { are_below primes.now.atoms tag ≡ true }
    requires open_below { atom.0 < primes.now.atoms }
    requires undecided { is_decided tag atom.0 ≡ false }
    ensures { IfOk result (AnswersFind primes.now.atoms (formula primes.now) (test_at (T.tests question.now) number) tag) }
{
    match find_absent(alloc, primes, question, number, &tag, atom)? {
        Some(found) => Ok(Some(found)),
        None => find_present(alloc, primes, question, number, tag, atom),
    }
}

// The same of the tag without the atom.
#[cycle(find)]
fn find_absent<T: Question + Drop>(
    alloc: Global,
    primes: &Primes,
    question: &T,
    number: usize,
    tag: &LitSet,
    atom: AtomId,
) -> Result<Option<LitSet>, Memory>
    requires ready { T.ready question.now }
    requires atoms { T.atoms question.now ≡ primes.now.atoms }
    requires in_range { number < length (T.tests question.now) }
    requires below { are_below primes.now.atoms tag.now ≡ true }
    requires open_below { atom.0 < primes.now.atoms }
    requires undecided { is_decided tag.now atom.0 ≡ false }
    ensures { IfOk result (AnswersFind primes.now.atoms (formula primes.now) (test_at (T.tests question.now) number) (with_lit (negative atom.0) tag.now)) }
{
    let absent = Lit {
        atom,
        positive: false,
    };
    let without = tag.with(alloc, absent)?;
    find(alloc, primes, question, number, without)
}

// The same of the tag with the atom.
#[cycle(find)]
fn find_present<T: Question + Drop>(
    alloc: Global,
    primes: &Primes,
    question: &T,
    number: usize,
    tag: LitSet,
    atom: AtomId,
) -> Result<Option<LitSet>, Memory>
    requires ready { T.ready question.now }
    requires atoms { T.atoms question.now ≡ primes.now.atoms }
    requires in_range { number < length (T.tests question.now) }
    requires below { are_below primes.now.atoms tag ≡ true }
    requires open_below { atom.0 < primes.now.atoms }
    requires undecided { is_decided tag atom.0 ≡ false }
    ensures { IfOk result (AnswersFind primes.now.atoms (formula primes.now) (test_at (T.tests question.now) number) (with_lit (positive atom.0) tag)) }
{
    let present = Lit {
        atom,
        positive: true,
    };
    let with = with_more(tag, present)?;
    find(alloc, primes, question, number, with)
}

/// A tag within this one all of whose models pass one of the tests, and that has one. None where no model of the tag
/// passes any.
pub fn find_any<T: Question + Drop>(
    alloc: Global,
    primes: &Primes,
    question: &T,
    tag: &LitSet,
) -> Result<Option<LitSet>, Memory>
    requires ready { T.ready question.now }
    requires atoms { T.atoms question.now ≡ primes.now.atoms }
    requires below { are_below primes.now.atoms tag.now ≡ true }
    ensures { IfOk result (AnswersFind primes.now.atoms (formula primes.now) (passes_one (T.tests question.now)) tag.now) }
{
    if !primes.consistent(tag) {
        return Ok(None);
    }
    let count = question.count();
    for number in 0..count {
        match find(alloc, primes, question, number, tag.copy(alloc)?)? {
            Some(found) => return Ok(Some(found)),
            None => {}
        }
    }
    Ok(None)
}
