ghost use Rattle.std.specs.Prelude.{◌≡◌, ◌≢◌, ◌<◌, ◌*◌, ◌/◌, ◌%◌, ◌↔◌, ℕ, true, false, IfSome};
ghost use Rattle.std.specs.Int.{bit_at};
ghost use Rattle.kp_clash_exclusive.specs.Paired.{is_pair, is_marked, place_of, words_of, IsSquare, IsWritten};
ghost use Rattle.kp_clash_exclusive.specs.Removed.{IsWithout};

use kp_base::AtomId;
use kp_bits::Bits;
use std::marker::Model;

/// Pairs of different atoms, in no order. Contracts see a list of them, the smaller atom first.
#[derive(Drop)]
pub struct Pairs {
    atoms: u32,
    // A row for each atom, of the atoms that it is a pair with.
    table: Bits,
}

impl Model for Pairs {
    ghost use Rattle.std.specs.Prelude.{List, ℕ};
    ghost use Rattle.kp_clash_exclusive.specs.Paired.{marked, IsSquare};

    ghost Value = { List (ℕ × ℕ) };

    ghost view = { λ p. marked p.atoms p.table };

    ghost invariant = { λ p. IsSquare p.atoms p.table };
}

/// How many words a row takes.
pub fn words_of(atoms: u32) -> u32
    ensures { result ≡ words_of atoms }
{
    atoms.div_ceil(64)
}

/// The bits of a table for so many atoms, if a `u32` counts them.
pub fn table_size(atoms: u32) -> Option<u32>
    ensures { IfSome result (λ size. (size ≡ atoms * (words_of atoms * 64)) × (atoms * (words_of atoms * 64) < 4294967296)) }
{
    words_of(atoms).checked_mul(64)?.checked_mul(atoms)
}

// The place of the bit q of the row p.
fn place(atoms: u32, p: u32, q: u32) -> u32
    requires counted { atoms * (words_of atoms * 64) < 4294967296 }
    requires first { p < atoms }
    requires second { q < atoms }
    ensures { result ≡ place_of atoms p q }
{
    p * (words_of(atoms) * 64) + q
}

// Whether the bit q of the row p is set.
fn is_marked(atoms: u32, table: &Bits, p: u32, q: u32) -> bool
    requires { IsSquare atoms table.now }
    ensures { result ≡ is_marked atoms table.now p q }
{
    if p < atoms && q < atoms {
        table.get(place(atoms, p, q))
    } else {
        false
    }
}

/// Marks the pair.
pub(crate) fn mark(atoms: u32, table: &mut Bits, p: u32, q: u32)
    requires square { IsSquare atoms table.old }
    requires different { p ≢ q }
    requires first { p < atoms }
    requires second { q < atoms }
    ensures { IsWritten atoms table.old table.new p q true }
{
    table.set(place(atoms, p, q));
    table.set(place(atoms, q, p));
}

impl Pairs {
    /// The pairs that are marked.
    pub fn of_table(atoms: u32, table: Bits) -> Pairs
        requires { IsSquare atoms table }
        ensures { (p q : ℕ) → is_pair result p q ≡ is_marked atoms table p q }
    {
        Pairs { atoms, table }
    }

    /// A number that all atoms of pairs are below.
    pub fn atoms(&self) -> u32
        ensures below { (p q : ℕ) → is_pair self.now p q ≡ true → q < result }
        ensures different { (p : ℕ) → is_pair self.now p p ≡ false }
        ensures few { result < 65536 }
    {
        self.atoms
    }

    /// Removes the pair.
    pub fn remove(&mut self, p: AtomId, q: AtomId)
        requires { is_pair self.old p.0 q.0 ≡ true }
        ensures { IsWithout p.0 q.0 self.old self.new }
    {
        self.table.clear(place(self.atoms, p.0, q.0));
        self.table.clear(place(self.atoms, q.0, p.0));
    }

    /// Which of the 64 atoms from 64 k on are pairs with the atom.
    pub fn row_word(&self, p: AtomId, k: u32) -> u64
        ensures { (q : ℕ) → q / 64 ≡ k → (bit_at result (q % 64) ≡ 1) ↔ (is_pair self.now p.0 q ≡ true) }
    {
        let words = words_of(self.atoms);
        if p.0 < self.atoms && k < words {
            self.table.word(p.0 * words + k)
        } else {
            0
        }
    }

    /// Whether the two atoms are one of the pairs, in either order.
    pub fn has(&self, p: AtomId, q: AtomId) -> bool
        ensures pair { result ≡ is_pair self.now p.0 q.0 }
        ensures different { p.0 ≡ q.0 → result ≡ false }
    {
        is_marked(self.atoms, &self.table, p.0, q.0)
    }
}
