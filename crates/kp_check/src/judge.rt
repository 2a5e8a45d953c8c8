ghost use Rattle.std.specs.Prelude.{◌≡◌, ◌<◌, true, length, map, nat_lt, IfOk};
ghost use Rattle.std.specs.List.{list_all};
ghost use Rattle.kp_primes.specs.Held.{formula};
ghost use Rattle.kp_primes_first_model.specs.Asked.{is_wanted};
ghost use Rattle.kp_primes_first_model.specs.Ordered.{AnswersFirst};
ghost use Rattle.kp_base.specs.Implicates.{IsOfItsAtoms};
ghost use Rattle.kp_check.specs.Judging.{fails};
ghost use Rattle.kp_check.specs.Marks.{is_false_at, IsReady, AreInEach, AreMarks};

use crate::failing::At;
use crate::marks::{open_marks, truth_later};
use crate::values::start;
use kp_base::{AtomId, Ground, LitSet, Memory, Row};
use kp_primes::Primes;
use kp_primes_first_model::{Question, Seen, Truth, first, first_goes_by_what_passes};
use std::alloc::Global;

// The states in which one of these literals is false in its turn.
#[derive(Drop)]
pub struct Failing<'a> {
    pub atoms: u32,
    pub ground: &'a Ground,
    pub steps: &'a [u32],
    pub marks: &'a [At],
}

impl<'a> Question for Failing<'a> {
    ghost atoms = { λ q. q.atoms };

    ghost tests = { λ q. map (is_false_at q.ground.now q.steps.now) q.marks.now };

    ghost ready = { λ q. IsReady q.atoms q.ground.now q.marks.now };

    fn count(&self) -> usize {
        self.marks.len()
    }

    // Each test looks at one literal alone, so nothing falls away.
    fn judge(&self, alloc: Global, number: usize, known: &LitSet) -> Result<Seen<Self>, Memory> {
        match self.marks.get(number) {
            Some(mark) => {
                let from = start(alloc, self.atoms, known)?;
                let truth = truth_later(alloc, self.ground, self.steps, *mark, from)?;
                Ok(Seen {
                    truth: truth.negated(),
                    less: None,
                })
            }
            None => Ok(Seen {
                truth: Truth::No,
                less: None,
            }),
        }
    }
}

// Literals that are true in each initial state.
fn known_at_start(alloc: Global, primes: &Primes) -> Result<LitSet, Memory>
    ensures { IfOk result (AreInEach (formula primes.now)) }
{
    match primes.closure(alloc, &LitSet::new(alloc))? {
        Some(known) => Ok(known),
        None => Ok(LitSet::new(alloc)),
    }
}

// The literals that decide whether the steps fail.
fn marks_of(
    alloc: Global,
    ground: &Ground,
    primes: &Primes,
    steps: &[u32],
) -> Result<Vec<At>, Memory>
    requires number { length ground.now.atoms ≡ primes.now.atoms }
    requires ground { IsOfItsAtoms ground.now }
    requires inside { list_all (λ m. nat_lt m (length ground.now.actions)) steps.now ≡ true }
    requires few { length steps.now < 2147483648 }
    ensures { IfOk result (λ marks. AreMarks primes.now.atoms ground.now (formula primes.now) steps.now marks.items) }
{
    let known = known_at_start(alloc, primes)?;
    let from = start(alloc, primes.atoms(), &known)?;
    let marks = open_marks(alloc, ground, steps, from)?;
    Ok(marks)
}

/// The first initial state from which the steps fail: its atoms, in order; none where they fail from none.
pub fn first_failing(
    alloc: Global,
    ground: &Ground,
    primes: &Primes,
    steps: &[u32],
) -> Result<Option<Row<AtomId>>, Memory>
    requires number { length ground.now.atoms ≡ primes.now.atoms }
    requires ground { IsOfItsAtoms ground.now }
    requires inside { list_all (λ m. nat_lt m (length ground.now.actions)) steps.now ≡ true }
    requires few { length steps.now < 2147483648 }
    ensures { IfOk result (AnswersFirst primes.now.atoms (is_wanted (formula primes.now) (fails ground.now steps.now))) }
{
    first_goes_by_what_passes();
    let marks = marks_of(alloc, ground, primes, steps)?;
    let failing = Failing {
        atoms: primes.atoms(),
        ground,
        steps,
        marks: &marks,
    };
    let state = first(alloc, primes, &failing)?;
    Ok(state)
}
