ghost use Rattle.std.specs.Prelude.{◌≡◌, [], ◌∷◌, drop, map, OnOk, OnErr};
ghost use Rattle.kp_tree_grammar.specs.View.{typed_view};
ghost use Rattle.kp_names_semantics.specs.Faults.{inside};
ghost use Rattle.kp_names_semantics.specs.Numbering.{variable_number};
ghost use Rattle.kp_names_semantics.specs.Types.{declared};

use indexmap::IndexMap;
use kp_base::Memory;
use kp_tree_grammar::Typed;
use std::alloc::Global;
use std::marker::Model;

// A variable, and the number that its name had outside it; 0 where none had the name.
#[derive(Clone, Copy)]
struct Variable<'a> {
    name: &'a [u8],
    before: u32,
}

/// The variables round a place. Contracts see the innermost first.
#[derive(Drop)]
pub struct Scope<'a> {
    // The outermost first.
    variables: Vec<Variable<'a>>,
    // Under each name the number of the innermost variable that has it; 0 where none has it any more.
    innermost: IndexMap<&'a [u8], u32>,
}

impl<'a> Model for Scope<'a> {
    ghost use Rattle.std.specs.Prelude.{List, ℕ, map};
    ghost use Rattle.kp_names_declared.specs.Scopes.{inward, IsScope};

    ghost Value = { List (List ℕ) };

    ghost view = { λ s. inward s.variables.items };

    ghost invariant = { λ s. IsScope s.variables.items (map (λ e. (e.0.now, e.1)) s.innermost.entries) };
}

impl<'a> Scope<'a> {
    /// No variables.
    pub fn new(alloc: Global) -> Scope<'a>
        ensures { result ≡ [] }
    {
        Scope {
            variables: Vec::new(alloc),
            innermost: IndexMap::new(alloc),
        }
    }

    // Puts a variable inside.
    fn push(&mut self, name: &'a [u8]) -> Result<(), Memory>
        ensures inside { OnOk result (self.new ≡ name.now ∷ self.old) }
        ensures kept { OnErr result (self.new ≡ self.old) }
    {
        let place = self.variables.len();
        let Ok(number) = u32::try_from(place) else {
            return Err(Memory);
        };
        let before = self.number(name);
        self.variables.push(Variable { name, before })?;
        let Ok(_) = self.innermost.insert(name, number) else {
            self.variables.truncate(place);
            return Err(Memory);
        };
        Ok(())
    }

    // Takes the innermost variable out, if there is one.
    fn pop(&mut self) -> Result<(), Memory>
        ensures outside { OnOk result (self.new ≡ drop 1 self.old) }
        ensures kept { OnErr result (self.new ≡ self.old) }
    {
        let len = self.variables.len();
        if len > 0 {
            let last = self.variables.as_slice()[len - 1];
            self.innermost.insert(last.name, last.before)?;
            self.variables.truncate(len - 1);
        }
        Ok(())
    }

    /// Puts variables inside. More than a `u32` counts are want of memory; then some of them may be inside.
    pub fn enter(&mut self, variables: &'a [Typed]) -> Result<(), Memory>
        ensures { OnOk result (self.new ≡ inside (declared (map typed_view variables.now)) self.old) }
    {
        for variable in variables {
            self.push(variable.word.text.slice())?;
        }
        Ok(())
    }

    /// Takes this many variables out, the innermost first. Where memory is wanting, some of them may be out.
    pub fn leave(&mut self, number: usize) -> Result<(), Memory>
        ensures { OnOk result (self.new ≡ drop number self.old) }
    {
        for _ in 0..number {
            self.pop()?;
        }
        Ok(())
    }

    /// The number of a variable: how many stand outside the innermost of this name. It is 0 where none has the name.
    pub fn number(&self, name: &[u8]) -> u32
        ensures { result ≡ variable_number self.now name.now }
    {
        match self.innermost.get(name) {
            Some(number) => *number,
            None => 0,
        }
    }
}
