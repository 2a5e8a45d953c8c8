ghost use Rattle.std.specs.Prelude.{◌≡◌, ◌∷◌, [], true, not, slice_get, IfOk, IfSome};
ghost use Rattle.std.specs.List.{list_all};
ghost use Rattle.kp_base.specs.Implicates.{are_below};
ghost use Rattle.kp_cover.specs.Inside.{all_truth, truth_at, any_truth, satisfies_one_of, still_left};

use crate::left::still_left;
use kp_base::{Lit, LitSet, Memory, Row};
use kp_primes_first_model::{Question, Seen, Truth, truth_in};
use std::alloc::Global;

// Whether a tag's literals are true.
fn all_truth(known: &LitSet, tag: &[Lit]) -> Truth
    ensures { result ≡ all_truth known.now tag.now }
{
    let mut all = Truth::Yes;
    for lit in tag {
        match truth_in(known, *lit) {
            Truth::No => return Truth::No,
            truth => all = all.and(truth),
        }
    }
    all
}

// Whether those of the tag at a place are.
fn truth_at(known: &LitSet, tags: &[LitSet], place: usize) -> Truth
    ensures { result ≡ truth_at known.now (slice_get tags.now place) }
{
    match tags.get(place) {
        Some(tag) => all_truth(known, tag.slice()),
        None => Truth::No,
    }
}

// One more, if it is open.
fn more_open(number: usize, truth: Truth) -> usize {
    match truth {
        Truth::Open(_) => number.saturating_add(1),
        Truth::Yes | Truth::No => number,
    }
}

// Whether those of some tag at these places are; and, unless they are, for how many of the tags it is open.
fn any_truth(known: &LitSet, tags: &[LitSet], places: &[usize]) -> (Truth, usize)
    ensures { result.0 ≡ any_truth known.now tags.now places.now }
{
    let mut any = Truth::No;
    let mut open: usize = 0;
    for place in places {
        match truth_at(known, tags, *place) {
            Truth::Yes => return (Truth::Yes, 0),
            truth => {
                any = any.or(truth);
                open = more_open(open, truth);
            }
        }
    }
    (any, open)
}

/// The states that satisfy none of the tags at the places that are left.
#[derive(Drop)]
pub struct Outside<'a> {
    pub atoms: u32,
    pub tags: &'a [LitSet],
    pub left: Row<usize>,
}

impl<'a> Outside<'a> {
    // The same question where some literals are known, if at most half of the tags that it asks about are open there. So
    // all rows that are kept at one time have no more than twice as many places as there are tags.
    fn narrowed(
        &self,
        alloc: Global,
        known: &LitSet,
        open: usize,
    ) -> Result<Option<Outside<'a>>, Memory>
        ensures { IfOk result (λ o. IfSome o (λ less. (less.atoms ≡ self.now.atoms) × ((less.tags.now ≡ self.now.tags.now) × (less.left ≡ still_left known.now self.now.tags.now self.now.left)))) }
    {
        if open == 0 || open > self.left.len() / 2 {
            return Ok(None);
        }
        let left = still_left(alloc, self.tags, known, self.left.slice())?;
        Ok(Some(Outside {
            atoms: self.atoms,
            tags: self.tags,
            left,
        }))
    }
}

impl<'a> Question for Outside<'a> {
    ghost atoms = { λ q. q.atoms };

    ghost tests = { λ q. (λ s. not (satisfies_one_of q.tags.now q.left s)) ∷ [] };

    ghost ready = { λ q. list_all (are_below q.atoms) q.tags.now ≡ true };

    fn count(&self) -> usize {
        1
    }

    fn judge(&self, alloc: Global, _number: usize, known: &LitSet) -> Result<Seen<Self>, Memory> {
        let (any, open) = any_truth(known, self.tags, self.left.slice());
        let less = self.narrowed(alloc, known, open)?;
        Ok(Seen {
            truth: any.negated(),
            less,
        })
    }
}
