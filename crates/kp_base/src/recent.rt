ghost use Rattle.std.specs.Prelude.{◌≡◌, ◌%◌, replicate, slice_index, slice_set};

use std::marker::Model;

/// For each of some predicates the place where an atom was found last. The next is likely to be there or right behind.
#[derive(Drop)]
pub struct Recent {
    places: [u32; 16],
}

impl Model for Recent {
    ghost use Rattle.std.specs.Prelude.{ℕ, List};

    ghost Value = { List ℕ };

    ghost view = { λ r. r.places };
}

impl Recent {
    /// All at the first place.
    pub fn new() -> Recent
        ensures { result ≡ replicate 16 0 }
    {
        Recent { places: [0; 16] }
    }

    /// The place of this predicate, or of another that shares its room.
    pub fn of(&self, pred: u32) -> u32
        ensures { result ≡ slice_index self.now (pred % 16) }
    {
        self.places[(pred % 16) as usize]
    }

    /// Notes a place for a predicate.
    pub fn note(&mut self, pred: u32, place: u32)
        ensures { self.new ≡ slice_set self.old (pred % 16) place }
    {
        self.places[(pred % 16) as usize] = place;
    }
}
