ghost use Rattle.std.specs.Prelude.{◌≡◌, ◌<◌, [], ℕ, List, Some, None, if◌then◌else◌, length, map, IfOk, OnOk};
ghost use Rattle.std.specs.Option.{option_or};
ghost use Rattle.kp_names_semantics.specs.Names.{same};
ghost use Rattle.kp_names_semantics.specs.Encoding.{encoded};
ghost use Rattle.kp_plans.specs.Found.{action_names};
ghost use Rattle.kp_plans.specs.WordTables.{number_under, IsTableOf};

use crate::encoding::word_of;
use indexmap::IndexMap;
use kp_base::{Action, GroundName, Memory};
use std::alloc::Global;
use std::marker::Model;

/// Ground atoms or actions by name. Where several have one name, the first counts.
#[derive(Drop)]
pub struct NameTable {
    first: IndexMap<Vec<u8>, u32>,
}

impl Model for NameTable {
    ghost use Rattle.std.specs.Prelude.{List, ℕ, map};

    ghost Value = { List (List ℕ × ℕ) };

    ghost view = { λ t. map (λ e. (e.0.items, e.1)) t.first.entries };
}

impl NameTable {
    // No names.
    fn new(alloc: Global) -> NameTable
        ensures { result ≡ [] }
    {
        NameTable {
            first: IndexMap::new(alloc),
        }
    }

    // Notes the number of a name, unless the name has one.
    fn note(&mut self, alloc: Global, name: &GroundName, number: u32) -> Result<(), Memory>
        ensures { OnOk result ((x : List ℕ) → number_under self.new x ≡ option_or (number_under self.old x) (if same x (encoded name.now) then Some number else None)) }
    {
        let word = word_of(alloc, name)?;
        if !self.first.contains_key(word.as_slice()) {
            self.first.insert(word, number)?;
        }
        Ok(())
    }

    /// The atoms of a ground problem by name.
    pub fn of_atoms(alloc: Global, atoms: &[GroundName]) -> Result<NameTable, Memory>
        requires { length atoms.now < 2147483648 }
        ensures { IfOk result (λ table. IsTableOf table atoms.now) }
    {
        let mut table = NameTable::new(alloc);
        for (number, atom) in atoms.iter().enumerate() {
            table.note(alloc, atom, number as u32)?;
        }
        Ok(table)
    }

    /// The actions of a ground problem by name.
    pub fn of_actions(alloc: Global, actions: &[Action]) -> Result<NameTable, Memory>
        requires { length actions.now < 2147483648 }
        ensures { IfOk result (λ table. IsTableOf table (action_names actions.now)) }
    {
        let mut table = NameTable::new(alloc);
        for (number, action) in actions.iter().enumerate() {
            table.note(alloc, &action.name, number as u32)?;
        }
        Ok(table)
    }

    /// The number of the first that has this name, if one has it.
    pub fn find(&self, alloc: Global, name: &GroundName) -> Result<Option<u32>, Memory>
        ensures { IfOk result (λ number. number ≡ number_under self.now (encoded name.now)) }
    {
        let word = word_of(alloc, name)?;
        Ok(self.first.get(word.as_slice()).copied())
    }
}
