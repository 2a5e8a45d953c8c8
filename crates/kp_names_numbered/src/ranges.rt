ghost use Rattle.std.specs.Prelude.{◌≡◌, ◌++◌, [], ◌∷◌, List, map, IfOk, IfSome, OnOk};
ghost use Rattle.kp_tree_grammar.specs.View.{typed_view, domain_view, problem_view};
ghost use Rattle.kp_names_semantics.specs.Names.{Name};
ghost use Rattle.kp_names_semantics.specs.Types.{names, or_object, is_of_type};
ghost use Rattle.kp_names_semantics.specs.Numbering.{numbered_range};
ghost use Rattle.kp_names_declared.specs.Steps.{range_of, HoldTypes};
ghost use Rattle.kp_names_numbered.specs.Alike.{AreAlike, HaveSame};

use crate::alike::Alike;
use indexmap::IndexMap;
use kp_base::{Memory, Row};
use kp_names_declared::{
    NameSet, Names, OBJECT, below_type, below_types, inhabited_types, objects_of,
};
use kp_names_semantics::Range;
use kp_tree_grammar::{Typed, Word};
use std::alloc::Global;

/// The numbers of names, and the objects of each type that was asked for, or of the type in whose place it may stand.
#[derive(Drop)]
pub struct Ranges<'a> {
    /// The names.
    pub names: Names<'a>,
    inhabited: NameSet<'a>,
    ghost inhabited_right: { HoldTypes (domain_view names.domain) (problem_view names.problem) inhabited },
    alike: Alike<'a>,
    ghost alike_right: { (o : Name) → AreAlike (is_of_type (domain_view names.domain) (problem_view names.problem) o) alike },
    known: IndexMap<&'a [u8], Row<u32>>,
    ghost known_right: { map (λ e. e.1) known.entries ≡ map (λ e. range_of (domain_view names.domain) (problem_view names.problem) (e.0.now ∷ [])) known.entries },
}

// The only name of some, where there is just one.
fn only<'a>(names: &NameSet<'a>) -> Option<&'a [u8]>
    ensures { IfSome result (λ n. names.now ≡ n.now ∷ []) }
{
    if names.len() == 1 { names.get(0) } else { None }
}

impl<'a> Ranges<'a> {
    /// No type was asked for yet.
    pub fn new(alloc: Global, names: Names<'a>) -> Result<Ranges<'a>, Memory>
        ensures { IfOk result (λ r. r.names ≡ names.entry) }
    {
        let Ok(inhabited) = inhabited_types(alloc, names.domain(), names.problem()) else {
            drop(names);
            return Err(Memory);
        };
        Ranges::with_inhabited(alloc, names, inhabited)
    }

    // The same, given the types that may have objects.
    fn with_inhabited(
        alloc: Global,
        names: Names<'a>,
        inhabited: NameSet<'a>,
    ) -> Result<Ranges<'a>, Memory>
        requires { HoldTypes (domain_view names.domain) (problem_view names.problem) inhabited }
        ensures { IfOk result (λ r. r.names ≡ names.entry) }
    {
        let Ok(alike) = Alike::of(alloc, &names, &inhabited) else {
            drop(names);
            drop(inhabited);
            return Err(Memory);
        };
        Ok(Ranges {
            names,
            inhabited,
            alike,
            known: IndexMap::new(alloc),
        })
    }

    // The objects of a type, from its declaration and those of the objects.
    fn found(&self, alloc: Global, name: &'a [u8]) -> Result<Row<u32>, Memory>
        ensures { IfOk result (λ row. row ≡ range_of (domain_view self.now.names.domain) (problem_view self.now.names.problem) (name.now ∷ [])) }
    {
        let below = below_type(alloc, &self.names, name)?;
        let objects = objects_of(alloc, &self.names, &below)?;
        Ok(objects)
    }

    // The objects of a type. The first time they are looked for, and later copied.
    fn kept(&mut self, alloc: Global, name: &'a [u8]) -> Result<Row<u32>, Memory>
        ensures kept { self.new.names ≡ self.old.names }
        ensures row { IfOk result (λ row. row ≡ range_of (domain_view self.old.names.domain) (problem_view self.old.names.problem) (name.now ∷ [])) }
    {
        if let Some(objects) = self.known.get(name) {
            return Row::from_slice(alloc, objects.slice());
        }
        let objects = self.found(alloc, name)?;
        let copy = Row::from_slice(alloc, objects.slice())?;
        self.known.insert(name, objects)?;
        Ok(copy)
    }

    // The objects of a type, which are those of the last type on the way down from it. Many types have none.
    fn of_type(&mut self, alloc: Global, name: &'a [u8]) -> Result<Row<u32>, Memory>
        ensures kept { self.new.names ≡ self.old.names }
        ensures row { IfOk result (λ row. row ≡ range_of (domain_view self.old.names.domain) (problem_view self.old.names.problem) (name.now ∷ [])) }
    {
        if !self.inhabited.has(name) {
            return Ok(Row::new(alloc));
        }
        let last = self.alike.last(name)?;
        let row = self.kept(alloc, last)?;
        Ok(row)
    }

    // Adds the last type on the way down from one, if that may have objects.
    fn add_last(&mut self, tops: &mut NameSet<'a>, name: &'a [u8]) -> Result<(), Memory>
        ensures kept { self.new.names ≡ self.old.names }
        ensures tops { (ts : List Name) → HaveSame (domain_view self.old.names.domain) (problem_view self.old.names.problem) tops.old ts → OnOk result (HaveSame (domain_view self.old.names.domain) (problem_view self.old.names.problem) tops.new (ts ++ name.now ∷ [])) }
    {
        if self.inhabited.has(name) {
            let last = self.alike.last(name)?;
            tops.insert(last)?;
        }
        Ok(())
    }

    // The last types on the ways down from some.
    fn lasts(&mut self, alloc: Global, words: &'a [Word]) -> Result<NameSet<'a>, Memory>
        ensures kept { self.new.names ≡ self.old.names }
        ensures tops { IfOk result (λ tops. HaveSame (domain_view self.old.names.domain) (problem_view self.old.names.problem) tops (names words.now)) }
    {
        let mut tops = NameSet::new(alloc);
        for word in words {
            self.add_last(&mut tops, word.text.slice())?;
        }
        Ok(tops)
    }

    // The objects of one of several types.
    fn of_tops(&mut self, alloc: Global, tops: NameSet<'a>) -> Result<Row<u32>, Memory>
        ensures kept { self.new.names ≡ self.old.names }
        ensures row { IfOk result (λ row. row ≡ range_of (domain_view self.old.names.domain) (problem_view self.old.names.problem) tops.entry) }
    {
        if let Some(name) = only(&tops) {
            drop(tops);
            return self.kept(alloc, name);
        }
        let below = below_types(&self.names, tops)?;
        let objects = objects_of(alloc, &self.names, &below)?;
        Ok(objects)
    }

    // The objects of one of several types, which are those of the last types on the ways down from them.
    fn of_types(&mut self, alloc: Global, words: &'a [Word]) -> Result<Row<u32>, Memory>
        ensures kept { self.new.names ≡ self.old.names }
        ensures row { IfOk result (λ row. row ≡ range_of (domain_view self.old.names.domain) (problem_view self.old.names.problem) (names words.now)) }
    {
        let tops = self.lasts(alloc, words)?;
        let row = self.of_tops(alloc, tops)?;
        Ok(row)
    }

    // The objects of one of the types that are written behind a variable. Where none is, all objects are.
    fn of_kinds(&mut self, alloc: Global, kinds: &'a [Word]) -> Result<Row<u32>, Memory>
        ensures kept { self.new.names ≡ self.old.names }
        ensures row { IfOk result (λ row. row ≡ range_of (domain_view self.old.names.domain) (problem_view self.old.names.problem) (or_object (names kinds.now))) }
    {
        match kinds {
            [] => Ok(self.of_type(alloc, OBJECT)?),
            [word] => Ok(self.of_type(alloc, word.text.slice())?),
            words => Ok(self.of_types(alloc, words)?),
        }
    }

    fn of_variable(&mut self, alloc: Global, variable: &'a Typed) -> Result<Range, Memory>
        ensures kept { self.new.names ≡ self.old.names }
        ensures range { IfOk result (λ r. r ≡ numbered_range (domain_view self.old.names.domain) (problem_view self.old.names.problem) (typed_view variable.now)) }
    {
        let objects = self.of_kinds(alloc, variable.kinds.slice())?;
        Ok(Range { objects })
    }

    /// The objects that each of some variables stands for.
    pub fn of_variables(
        &mut self,
        alloc: Global,
        variables: &'a [Typed],
    ) -> Result<Row<Range>, Memory>
        ensures kept { self.new.names ≡ self.old.names }
        ensures ranges { IfOk result (λ row. row ≡ map (numbered_range (domain_view self.old.names.domain) (problem_view self.old.names.problem)) (map typed_view variables.now)) }
    {
        let mut ranges = Row::new(alloc);
        for variable in variables {
            ranges.push(self.of_variable(alloc, variable)?)?;
        }
        Ok(ranges)
    }
}
