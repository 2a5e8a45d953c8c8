ghost use Rattle.std.specs.Prelude.{◌≡◌, ◌⊎◌, ◌<◌, ◌∷◌, ◌++◌, [], fold, take, slice_get, OnOk, OnErr, IfOk, IsTrue};
ghost use Rattle.std.specs.List.{list_any};
ghost use Rattle.kp_base.specs.Lists.{Member};
ghost use Rattle.kp_base.specs.Implicates.{is_within};
ghost use Rattle.kp_clauses.specs.Stored.{subsumed, AreNeeded};
ghost use Rattle.kp_clauses.specs.Sieved.{key_of, keys, stands, tried, common_at, narrowed, AreKept, AreMarked, IsMark, IsSieve, IsUnlike};
ghost use Rattle.kp_clauses.specs.Listed.{row};
ghost use Rattle.kp_clauses.specs.Rests.{AreRests};

use crate::clause::{common, subsumes};
use crate::lists::{list, make_lists};
use crate::mark::{mark, mark_but, marks_within};
use crate::rests::{Marks, put_rests};
use kp_base::{Lit, LitSet, Memory, Row};
use std::alloc::Global;
use std::marker::Model;

/// Where a clause stands, and its mark.
#[derive(Clone, Copy)]
pub struct Spot {
    pub(crate) mark: u64,
    pub(crate) place: usize,
}

/// Clauses in the order in which they came, among which one within another clause is found soon. Contracts see the
/// list of them.
#[derive(Drop)]
pub struct Sieve {
    alloc: Global,
    clauses: Row<LitSet>,
    lists: Vec<Row<Spot>>,
    marks: Vec<u64>,
}

impl Model for Sieve {
    ghost use Rattle.std.specs.Prelude.{List};
    ghost use Rattle.kp_base.specs.declared.lit.Lit.{Lit};
    ghost use Rattle.kp_clauses.specs.Sieved.{IsSieve};

    ghost Value = { List (List Lit) };

    ghost view = { λ s. s.clauses };

    ghost invariant = { λ s. IsSieve s.lists.items s.marks.items s.clauses };
}

impl Sieve {
    /// No clauses.
    pub fn new(alloc: Global) -> Sieve
        ensures { result ≡ [] }
    {
        Sieve {
            alloc,
            clauses: Row::new(alloc),
            lists: Vec::new(alloc),
            marks: Vec::new(alloc),
        }
    }

    /// The clauses.
    pub fn clauses(&self) -> &Row<LitSet>
        ensures { result.now ≡ self.now }
    {
        &self.clauses
    }

    /// The clauses, in a vector.
    pub fn into_clauses(self) -> Vec<LitSet>
        ensures { result.items ≡ self }
    {
        self.clauses.into_vec()
    }

    /// Whether some clause is within this one.
    pub fn subsumes(&self, c: &LitSet) -> bool
        ensures { result ≡ subsumed self.now c.now }
    {
        let clauses = self.clauses.slice();
        if clauses.is_empty() {
            return false;
        }
        let word = mark(c);
        any_listed(clauses, &self.lists, 0, word, c)
            || any_of_literals(clauses, &self.lists, word, c)
    }

    /// The literals of a clause that none within it lacks: without one of them no clause is within it.
    pub fn needed(&self, c: &LitSet) -> Result<LitSet, Memory>
        ensures { IfOk result (AreNeeded self.now c.now) }
    {
        let clauses = self.clauses.slice();
        let word = mark(c);
        let mut set = c.copy(self.alloc)?;
        let spots = list(&self.lists, 0);
        narrow_by(self.alloc, &mut set, clauses, spots, word, c)?;
        narrow_by_literals(self.alloc, &mut set, clauses, &self.lists, word, c)?;
        Ok(set)
    }

    /// Whether this clause is within one of those at the places.
    pub fn holds_at(&self, c: &LitSet, places: &[usize]) -> bool
        ensures { result ≡ list_any (λ i. stands (is_within c.now) (slice_get self.now i)) places.now }
    {
        any_holds(self.clauses.slice(), &self.marks, places, mark(c), c)
    }

    /// What clauses have beside one without a literal, of some that have little. Where one of these is within another
    /// clause, a clause of the sieve is within the resolvent of the two on the literal.
    pub fn rests(&self, e: &LitSet, lit: Lit) -> Result<Sieve, Memory>
        ensures { IfOk result (AreRests self.now e.now lit) }
    {
        let clauses = self.clauses.slice();
        let marks = Marks {
            all: mark(e),
            others: mark_but(e, lit),
        };
        let mut rests = Sieve::new(self.alloc);
        put_rests(self.alloc, &mut rests, clauses, &self.lists, marks, e, lit)?;
        Ok(rests)
    }

    /// Adds a clause at the end. At `Memory` the clauses are as they were, and this one is gone.
    pub fn push(&mut self, clause: LitSet) -> Result<(), Memory>
        ensures ok { OnOk result (self.new ≡ self.old ++ clause ∷ []) }
        ensures err { OnErr result (self.new ≡ self.old) }
    {
        let clauses = self.clauses.slice();
        note_clause(
            self.alloc,
            &mut self.lists,
            &mut self.marks,
            clauses,
            &clause,
        )?;
        self.clauses.push(clause)?;
        Ok(())
    }
}

// The number of a literal's list. A fixed number of lists serves any number of literals.
fn key(lit: Lit) -> usize
    ensures { result ≡ key_of lit }
{
    (lit.code() % 4096) as usize + 1
}

// Whether a clause stands at the place, and is within this one.
fn stands(clauses: &[LitSet], place: usize, c: &LitSet) -> bool
    ensures { result ≡ stands (λ d. is_within d c.now) (slice_get clauses.now place) }
{
    match clauses.get(place) {
        Some(d) => subsumes(d, c),
        None => false,
    }
}

// Whether the clause of a spot is within this one.
fn is_tried(clauses: &[LitSet], spot: &Spot, word: u64, c: &LitSet) -> bool
    ensures { result ≡ tried clauses.now c.now word spot.now }
{
    marks_within(spot.mark, word) && stands(clauses, spot.place, c)
}

// Whether that of some spot in a list is.
fn any_listed(clauses: &[LitSet], lists: &[Row<Spot>], key: usize, word: u64, c: &LitSet) -> bool
    ensures { result ≡ list_any (tried clauses.now c.now word) (row lists.now key) }
{
    list(lists, key)
        .iter()
        .any(|s| is_tried(clauses, s, word, c))
}

// Whether that of some spot in the lists of this clause's literals is.
fn any_of_literals(clauses: &[LitSet], lists: &[Row<Spot>], word: u64, c: &LitSet) -> bool
    ensures { result ≡ list_any (λ l. list_any (tried clauses.now c.now word) (row lists.now (key_of l))) c.now }
{
    c.slice()
        .iter()
        .any(|l| any_listed(clauses, lists, key(*l), word, c))
}

// Leaves in a set what the clause at the place has, too.
fn narrow_at(
    alloc: Global,
    set: &mut LitSet,
    clauses: &[LitSet],
    place: usize,
) -> Result<(), Memory>
    ensures { OnOk result (set.new ≡ common_at set.old (slice_get clauses.now place)) }
{
    if let Some(d) = clauses.get(place) {
        *set = common(alloc, set, d)?;
    }
    Ok(())
}

// The same with the clause of a spot, where it is within this one.
fn narrow(
    alloc: Global,
    set: &mut LitSet,
    clauses: &[LitSet],
    spot: &Spot,
    word: u64,
    c: &LitSet,
) -> Result<(), Memory>
    ensures { OnOk result (set.new ≡ narrowed clauses.now c.now word set.old spot.now) }
{
    if is_tried(clauses, spot, word, c) {
        narrow_at(alloc, set, clauses, spot.place)?;
    }
    Ok(())
}

// The same with each of these spots.
fn narrow_by(
    alloc: Global,
    set: &mut LitSet,
    clauses: &[LitSet],
    spots: &[Spot],
    word: u64,
    c: &LitSet,
) -> Result<(), Memory>
    ensures { OnOk result (set.new ≡ fold (narrowed clauses.now c.now word) set.old spots.now) }
{
    for s in spots {
        narrow(alloc, set, clauses, s, word, c)?;
    }
    Ok(())
}

// The same with the spots in the lists of this clause's literals.
fn narrow_by_literals(
    alloc: Global,
    set: &mut LitSet,
    clauses: &[LitSet],
    lists: &[Row<Spot>],
    word: u64,
    c: &LitSet,
) -> Result<(), Memory>
    ensures { OnOk result (set.new ≡ fold (λ rest l. fold (narrowed clauses.now c.now word) rest (row lists.now (key_of l))) set.old c.now) }
{
    let lits = c.slice();
    for l in lits {
        narrow_by(alloc, set, clauses, list(lists, key(*l)), word, c)?;
    }
    Ok(())
}

// The shorter of two lists, where the first is that of the empty clause the second.
fn shorter(lists: &[Row<Spot>], best: usize, key: usize) -> usize
    ensures { (result ≡ best) ⊎ (result ≡ key) }
{
    if best == 0 || list(lists, key).len() < list(lists, best).len() {
        return key;
    }
    best
}

// The shortest of a clause's lists; while there are few clauses, the one that is looked at for each.
fn choose(lists: &[Row<Spot>], c: &LitSet, few: bool) -> usize
    ensures { Member (keys c.now) result }
{
    if few {
        return 0;
    }
    let lits = c.slice();
    let mut best = 0;
    for l in lits {
        best = shorter(lists, best, key(*l));
    }
    best
}

// Puts a spot into a list.
fn note(alloc: Global, lists: &mut Vec<Row<Spot>>, key: usize, spot: Spot) -> Result<(), Memory>
    requires { key < 4097 }
    ensures kept { AreKept lists.old.items lists.new.items }
    ensures there { OnOk result (Member (row lists.new.items key) spot) }
{
    make_lists(alloc, lists, key)?;
    lists[key].push(spot)?;
    Ok(())
}

// Puts in a spot and the mark of a clause that is to stand behind the others.
fn note_clause(
    alloc: Global,
    lists: &mut Vec<Row<Spot>>,
    marks: &mut Vec<u64>,
    clauses: &[LitSet],
    c: &LitSet,
) -> Result<(), Memory>
    requires { IsSieve lists.old.items marks.old.items clauses.now }
    ensures same { IsSieve lists.new.items marks.new.items clauses.now }
    ensures more { OnOk result (IsSieve lists.new.items marks.new.items (clauses.now ++ c.now ∷ [])) }
{
    let spot = Spot {
        mark: mark(c),
        place: clauses.len(),
    };
    put_mark(marks, spot.place, spot.mark)?;
    let key = choose(lists, c, spot.place < 16);
    note(alloc, lists, key, spot)?;
    Ok(())
}

// Puts a mark at a place, behind those before it.
fn put_mark(marks: &mut Vec<u64>, place: usize, word: u64) -> Result<(), Memory>
    ensures ok { OnOk result (marks.new.items ≡ take place marks.old.items ++ word ∷ []) }
    ensures err { OnErr result (marks.new.items ≡ take place marks.old.items) }
{
    marks.truncate(place);
    marks.push(word)?;
    Ok(())
}

// Whether the mark at a place tells that the clause there doesn't hold one with this mark.
fn is_unlike(marks: &[u64], place: usize, word: u64) -> bool
    ensures { IsTrue result → IsUnlike marks.now place word }
{
    match marks.get(place) {
        Some(other) => !marks_within(word, *other),
        None => false,
    }
}

// Whether a clause is within the one at a place.
fn holds(clauses: &[LitSet], place: usize, c: &LitSet) -> bool
    ensures { result ≡ stands (is_within c.now) (slice_get clauses.now place) }
{
    match clauses.get(place) {
        Some(d) => subsumes(c, d),
        None => false,
    }
}

// The same, where the marks are looked at first.
fn is_held_at(clauses: &[LitSet], marks: &[u64], place: usize, word: u64, c: &LitSet) -> bool
    requires marked { AreMarked marks.now clauses.now }
    requires word { IsMark c.now word }
    ensures { result ≡ stands (is_within c.now) (slice_get clauses.now place) }
{
    if is_unlike(marks, place, word) {
        return false;
    }
    holds(clauses, place, c)
}

// Whether it is within one of those at these places.
fn any_holds(clauses: &[LitSet], marks: &[u64], places: &[usize], word: u64, c: &LitSet) -> bool
    requires marked { AreMarked marks.now clauses.now }
    requires word { IsMark c.now word }
    ensures { result ≡ list_any (λ i. stands (is_within c.now) (slice_get clauses.now i)) places.now }
{
    for i in places {
        if is_held_at(clauses, marks, *i, word, c) {
            return true;
        }
    }
    false
}
