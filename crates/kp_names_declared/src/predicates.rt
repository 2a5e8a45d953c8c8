ghost use Rattle.std.specs.Prelude.{◌≡◌, ◌≤◌, [], fold, length, map, IfOk, OnOk};
ghost use Rattle.kp_tree_grammar.specs.View.{pred_view};
ghost use Rattle.kp_names_declared.specs.NameTables.{entries_from, with_entry, entry_of};

use indexmap::IndexMap;
use kp_base::Memory;
use kp_tree_grammar::PredTree;
use std::alloc::Global;
use std::marker::Model;

/// A predicate by number, with the number of its terms.
#[derive(Clone, Copy)]
pub struct Declared {
    /// How many declarations come before it.
    pub number: u32,
    /// How many parameters it has.
    pub arity: usize,
}

/// Predicates under their names. Where a name is declared twice, the first declaration counts.
#[derive(Drop)]
pub struct Predicates<'a> {
    first: IndexMap<&'a [u8], Declared>,
}

impl<'a> Model for Predicates<'a> {
    ghost use Rattle.std.specs.Prelude.{List, ℕ, map};
    ghost use Rattle.kp_names_declared.specs.declared.predicates.Declared.{Declared};

    ghost Value = { List (List ℕ × Declared) };

    ghost view = { λ p. map (λ e. (e.0.now, e.1)) p.first.entries };
}

impl<'a> Predicates<'a> {
    fn new(alloc: Global) -> Predicates<'a>
        ensures { result ≡ [] }
    {
        Predicates {
            first: IndexMap::new(alloc),
        }
    }

    // Adds a declaration, where its name is new.
    fn insert(&mut self, name: &'a [u8], declared: Declared) -> Result<(), Memory>
        ensures { OnOk result (self.new ≡ with_entry self.old (name.now, declared)) }
    {
        if !self.first.contains_key(name) {
            self.first.insert(name, declared)?;
        }
        Ok(())
    }

    /// The predicates of some declarations.
    pub fn of(alloc: Global, declarations: &'a [PredTree]) -> Result<Predicates<'a>, Memory>
        ensures entries { IfOk result (λ p. p ≡ fold with_entry [] (entries_from 0 (map pred_view declarations.now))) }
        ensures few { OnOk result (length declarations.now ≤ 4294967295) }
    {
        let mut predicates = Predicates::new(alloc);
        let mut number = 0u32;
        for predicate in declarations {
            let declared = Declared {
                number,
                arity: predicate.params.len(),
            };
            predicates.insert(predicate.head.text.slice(), declared)?;
            number = number.checked_add(1).ok_or(Memory)?;
        }
        Ok(predicates)
    }

    /// The first declaration of a name.
    pub fn get(&self, name: &[u8]) -> Option<Declared>
        ensures { result ≡ entry_of self.now name.now }
    {
        self.first.get(name).copied()
    }
}
