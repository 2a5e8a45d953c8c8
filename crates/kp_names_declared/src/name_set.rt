ghost use Rattle.std.specs.Prelude.{◌≡◌, [], not, length, map, option_map, slice_get, take, IfOk, OnOk};
ghost use Rattle.kp_names_semantics.specs.Names.{is_among};
ghost use Rattle.kp_names_declared.specs.Steps.{with_name};
ghost use Rattle.kp_names_declared.specs.NameTables.{number_of};

use indexmap::IndexSet;
use kp_base::{Memory, Row, Text};
use std::alloc::Global;
use std::marker::Model;

/// Names, each once, in order of first mention. The number of a name is its position.
#[derive(Drop)]
pub struct NameSet<'a> {
    set: IndexSet<&'a [u8]>,
}

impl<'a> Model for NameSet<'a> {
    ghost use Rattle.std.specs.Prelude.{List, ℕ, ◌≤◌, map, length};

    ghost Value = { List (List ℕ) };

    ghost view = { λ n. map (λ k. k.now) n.set.keys };

    ghost invariant = { λ n. length n.set.keys ≤ 4294967295 };
}

impl<'a> NameSet<'a> {
    /// No names.
    pub fn new(alloc: Global) -> NameSet<'a>
        ensures { result ≡ [] }
    {
        NameSet {
            set: IndexSet::new(alloc),
        }
    }

    /// Adds a name, where it is new, and tells whether it is. More names than a `u32` counts are want of memory.
    pub fn insert(&mut self, name: &'a [u8]) -> Result<bool, Memory>
        ensures new { IfOk result (λ new. new ≡ not (is_among self.old name.now)) }
        ensures names { OnOk result (self.new ≡ with_name self.old name.now) }
    {
        if self.set.len() >= u32::MAX as usize {
            return Err(Memory);
        }
        Ok(self.set.insert(name)?)
    }

    /// Whether the name is one of them.
    pub fn has(&self, name: &[u8]) -> bool
        ensures { result ≡ is_among self.now name.now }
    {
        self.set.contains(name)
    }

    /// The number of a name, if it is one of them.
    pub(crate) fn find(&self, name: &[u8]) -> Option<u32>
        ensures { result ≡ number_of self.now name.now }
    {
        match self.set.get_index_of(name) {
            Some(number) => Some(number as u32),
            None => None,
        }
    }

    /// The name of a number.
    pub fn get(&self, number: u32) -> Option<&'a [u8]>
        ensures { option_map (λ n. n.now) result ≡ slice_get self.now number }
    {
        self.set.get_index(number as usize).copied()
    }

    /// The names, in order of number.
    pub fn names(&self) -> &[&'a [u8]]
        ensures { map (λ n. n.now) result.now ≡ self.now }
    {
        self.set.as_slice()
    }

    /// How many there are.
    pub fn len(&self) -> u32
        ensures { result ≡ length self.now }
    {
        self.set.len() as u32
    }

    /// Copies of the names, in order.
    pub(crate) fn texts(&self, alloc: Global) -> Result<Row<Text>, Memory>
        ensures { IfOk result (λ row. row ≡ self.now) }
    {
        let mut texts = Row::new(alloc);
        for name in self.set.as_slice() {
            texts.push(Text::from_slice(alloc, name)?)?;
        }
        Ok(texts)
    }

    /// Takes the later names out, so that this many stay.
    pub fn truncate(&mut self, len: u32)
        ensures { self.new ≡ take len self.old }
    {
        self.set.truncate(len as usize);
    }
}
