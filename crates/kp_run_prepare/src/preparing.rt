ghost use Rattle.std.specs.Prelude.{◌≡◌, ◌≤◌, Some, Err, List, ℕ, IfOk, IfErr, length};
ghost use Rattle.kp_base.specs.declared.refused.Refused.TheVariants as refusals;
ghost use Rattle.kp_base.specs.declared.refused.Stop.TheVariants as causes;
ghost use Rattle.kp_base.specs.Planning.{IsOfItsAtoms, IsClashFree, IsCounted, most_bytes};
ghost use Rattle.kp_names_semantics.specs.Numbered.{Lifted as Numbers};
ghost use Rattle.kp_ground_semantics.specs.Ground.{ground_of};
ghost use Rattle.kp_init.specs.Initial.{initial_of};
ghost use Rattle.kp_names.specs.View.{lifted_view};
ghost use Rattle.kp_outside.specs.Outside.{IsFront, IsWithin};
ghost use Rattle.kp_primes.specs.Answers.{HoldsPrimes};
ghost use Rattle.kp_primes.specs.Held.{formula};
ghost use Rattle.kp_run_prepare.specs.Prepared.{AnswersPrepared};
ghost use Rattle.kp_run_prepare.specs.Refusing.{named_in, EndsBy};
ghost use Rattle.kp_run_prepare.specs.Numbered.{AnswersGround, AnswersNumbers};

use crate::files::read_files;
use crate::prepared::{Early, Prepared};
use crate::refusing::{ended_by, ended_in};
use kp_base::{ClashAt, Ground, Limits, Refused, Stop};
use kp_clash::{clash_test, exclusive};
use kp_ground::ground;
use kp_init::initial;
use kp_names::Lifted;
use kp_outside::Got;
use kp_primes::Primes;
use std::alloc::Global;

// A command ends with a clash in a ground problem.
fn ended_at_clash(alloc: Global, ground: &Ground, at: ClashAt) -> Early
    ensures { EndsBy (named_in ground.now) (causes.Refused (refusals.Clash at)) result }
{
    ended_in(alloc, ground, Stop::Refused(Refused::Clash(at)))
}

// Nothing where no action clashes under the exclusive pairs, or how a command ends at the first clash.
fn judge_clashes(alloc: Global, ground: &Ground, primes: &Primes) -> Result<(), Early>
    requires counted { IsCounted ground.now }
    requires atoms { primes.now.atoms ≡ length ground.now.atoms }
    ensures free { IfOk result (λ _. IsClashFree ground.now (formula primes.now)) }
    ensures ends { (l : Numbers) (limit : ℕ) → ground.now ≡ ground_of l → HoldsPrimes (initial_of l) (length ground.now.atoms) limit primes.now → IfErr result (λ e. AnswersGround limit l (Err e)) }
{
    let pairs = exclusive(alloc, ground, primes)?;
    match clash_test(ground, &pairs) {
        Ok(()) => Ok(()),
        Err(at) => Err(ended_at_clash(alloc, ground, at)),
    }
}

// What a command goes on with, if no action clashes.
fn without_clash(alloc: Global, ground: Ground, primes: Primes) -> Result<Prepared, Early>
    requires counted { IsCounted ground }
    requires of_atoms { IsOfItsAtoms ground }
    requires atoms { primes.atoms ≡ length ground.atoms }
    ensures { (l : Numbers) (limit : ℕ) → ground ≡ ground_of l → HoldsPrimes (initial_of l) (length ground.atoms) limit primes → AnswersGround limit l result }
{
    match judge_clashes(alloc, &ground, &primes) {
        Ok(()) => Ok(Prepared { ground, primes }),
        Err(early) => Err(early),
    }
}

// The same of a ground problem, with the prime implicates of its initial formula.
fn on_ground(
    alloc: Global,
    implicates: u32,
    lifted: &Lifted,
    made: Ground,
) -> Result<Prepared, Early>
    requires ground { made ≡ ground_of (lifted_view lifted.now) }
    requires few { length made.atoms ≤ 4096 }
    requires counted { IsCounted made }
    requires of_atoms { IsOfItsAtoms made }
    ensures { AnswersGround implicates (lifted_view lifted.now) result }
{
    let formula = initial(alloc, lifted, &made)?;
    let atoms = made.atoms.len() as u32;
    match Primes::build(alloc, &formula, atoms, implicates) {
        Ok(primes) => without_clash(alloc, made, primes),
        Err(stop) => Err(ended_by(alloc, stop)),
    }
}

// The same of a problem by number: by its ground problem, or at a limit.
fn on_problem(alloc: Global, implicates: u32, lifted: &Lifted) -> Result<Prepared, Early>
    ensures { AnswersNumbers implicates (lifted_view lifted.now) result }
{
    match ground(alloc, lifted, &Limits::usual()) {
        Ok(made) => on_ground(alloc, implicates, lifted, made),
        Err(stop) => Err(ended_by(alloc, stop)),
    }
}

/// The ground problem and the prime implicates with which a command goes on, from the contents of its two
/// files, at most 16,777,216 bytes of each of which were read; or the outcome with which it ends early.
pub fn prepare(alloc: Global, implicates: u32, domain: Got, problem: Got) -> Result<Prepared, Early>
    requires domain { IsWithin most_bytes domain }
    requires problem { IsWithin most_bytes problem }
    ensures { (d p : List ℕ) → IsFront (Some d) most_bytes domain → IsFront (Some p) most_bytes problem → AnswersPrepared implicates d p result }
{
    match read_files(alloc, domain, problem) {
        Ok(lifted) => on_problem(alloc, implicates, &lifted),
        Err(stop) => Err(ended_by(alloc, stop)),
    }
}
