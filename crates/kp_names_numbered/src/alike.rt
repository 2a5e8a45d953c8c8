ghost use Rattle.std.specs.Prelude.{◌≡◌, [], Bool, false, fold, option_map, IfOk, IfSome, OnOk, OnErr};
ghost use Rattle.std.specs.List.{list_any};
ghost use Rattle.std.specs.Map.{lookup};
ghost use Rattle.indexmap.specs.IndexMap.{insert_entry};
ghost use Rattle.kp_tree_grammar.specs.View.{domain_view, problem_view};
ghost use Rattle.kp_names_semantics.specs.Names.{Name, same, is_among};
ghost use Rattle.kp_names_semantics.specs.Types.{is_of_type};
ghost use Rattle.kp_names_declared.specs.Steps.{with_name, own_types, HoldTypes};
ghost use Rattle.kp_names_numbered.specs.Alike.{fits, AreAlike};

use indexmap::IndexMap;
use kp_base::Memory;
use kp_names_declared::{NameSet, Names, types_of_objects, types_under};
use std::alloc::Global;
use std::marker::Model;

/// Types, each with one that has the same objects. Contracts see pairs of names.
#[derive(Drop)]
pub struct Alike<'a> {
    leads: IndexMap<&'a [u8], &'a [u8]>,
}

impl<'a> Model for Alike<'a> {
    ghost use Rattle.std.specs.Prelude.{List, ℕ, map};

    ghost Value = { List (List ℕ × List ℕ) };

    ghost view = { λ a. map (λ e. (e.0.now, e.1.now)) a.leads.entries };
}

impl<'a> Alike<'a> {
    fn new(alloc: Global) -> Alike<'a>
        ensures { result ≡ [] }
    {
        Alike {
            leads: IndexMap::new(alloc),
        }
    }

    fn get(&self, name: &[u8]) -> Option<&'a [u8]>
        ensures { option_map (λ n. n.now) result ≡ lookup (same name.now) self.now }
    {
        self.leads.get(name).copied()
    }

    fn insert(&mut self, name: &'a [u8], other: &'a [u8]) -> Result<(), Memory>
        ensures inserted { OnOk result (self.new ≡ insert_entry same self.old name.now other.now) }
        ensures kept { OnErr result (self.new ≡ self.old) }
    {
        self.leads.insert(name, other)?;
        Ok(())
    }
}

// How it is used: what a type leads to is looked up, and the way there made short.
impl<'a> Alike<'a> {
    // Two steps on from a type, if it leads on; it leads there from now on.
    fn step(&mut self, name: &'a [u8]) -> Result<Option<&'a [u8]>, Memory>
        ensures kept { (f : Name → Bool) → AreAlike f self.old → AreAlike f self.new }
        ensures alike { (f : Name → Bool) → AreAlike f self.old → IfOk result (λ o. IfSome o (λ n. f name.now ≡ f n.now)) }
    {
        match self.get(name) {
            Some(next) if next != name => {
                let after = self.get(next).unwrap_or(next);
                self.insert(name, after)?;
                Ok(Some(after))
            }
            _ => Ok(None),
        }
    }

    // The last type on the way from this one. Each step makes a way round shorter, so that one has an end too; it takes
    // no more steps than there are types that lead on.
    fn walked(&mut self, name: &'a [u8]) -> Result<&'a [u8], Memory>
        ensures kept { (f : Name → Bool) → AreAlike f self.old → AreAlike f self.new }
        ensures alike { (f : Name → Bool) → AreAlike f self.old → IfOk result (λ n. f name.now ≡ f n.now) }
    {
        let mut at = name;
        for _ in 0..self.leads.len() {
            match self.step(at)? {
                Some(next) => at = next,
                None => return Ok(at),
            }
        }
        Ok(at)
    }

    // Lets a type lead to the last one, and tells where it led before, if that was another.
    fn lead(&mut self, name: &'a [u8], last: &'a [u8]) -> Result<Option<&'a [u8]>, Memory>
        ensures kept { (f : Name → Bool) → AreAlike f self.old → f name.now ≡ f last.now → AreAlike f self.new }
        ensures alike { (f : Name → Bool) → AreAlike f self.old → IfOk result (λ o. IfSome o (λ n. f name.now ≡ f n.now)) }
    {
        match self.get(name) {
            Some(next) if next != last => {
                self.insert(name, last)?;
                Ok(Some(next))
            }
            _ => Ok(None),
        }
    }

    // Lets the types that are met on the way lead to the last one.
    fn lead_all(&mut self, name: &'a [u8], last: &'a [u8]) -> Result<(), Memory>
        ensures { (f : Name → Bool) → AreAlike f self.old → f name.now ≡ f last.now → AreAlike f self.new }
    {
        let mut at = name;
        for _ in 0..self.leads.len() {
            match self.lead(at, last)? {
                Some(next) => at = next,
                None => return Ok(()),
            }
        }
        Ok(())
    }

    /// The type in whose place this one may stand. What was met on the way there leads to it from now on.
    pub fn last(&mut self, name: &'a [u8]) -> Result<&'a [u8], Memory>
        ensures kept { (f : Name → Bool) → AreAlike f self.old → AreAlike f self.new }
        ensures alike { (f : Name → Bool) → AreAlike f self.old → IfOk result (λ n. f name.now ≡ f n.now) }
    {
        let last = self.walked(name)?;
        self.lead_all(name, last)?;
        Ok(last)
    }
}

// Whether it is the name that was found, where one was.
fn fits(found: Option<&[u8]>, name: &[u8]) -> bool
    ensures { result ≡ fits (option_map (λ n. n.now) found.entry) name.now }
{
    match found {
        Some(other) => other == name,
        None => true,
    }
}

// How the table is made: a type without an object of its own leads on, where all types under it that have objects lead
// to the same one.
impl<'a> Alike<'a> {
    // The type to which some lead, leaving out those without objects. There is none where they lead to several.
    fn common(
        &mut self,
        inhabited: &NameSet,
        names: &NameSet<'a>,
    ) -> Result<Option<&'a [u8]>, Memory>
        ensures kept { (f : Name → Bool) → AreAlike f self.old → AreAlike f self.new }
        ensures alike { (f : Name → Bool) → AreAlike f self.old → ((n : Name) → is_among inhabited.now n ≡ false → f n ≡ false) → IfOk result (λ o. IfSome o (λ c. list_any f names.now ≡ f c.now)) }
    {
        let mut found: Option<&'a [u8]> = None;
        for name in names.names() {
            if inhabited.has(name) {
                let last = self.last(name)?;
                if !fits(found, last) {
                    return Ok(None);
                }
                found = Some(last);
            }
        }
        Ok(found)
    }

    // Lets a type lead on, where it can, and tells whether it does so now.
    fn settle(
        &mut self,
        alloc: Global,
        names: &Names<'a>,
        inhabited: &NameSet,
        own: &NameSet,
        name: &'a [u8],
    ) -> Result<bool, Memory>
        requires held { HoldTypes (domain_view names.now.domain) (problem_view names.now.problem) inhabited.now }
        requires own { own.now ≡ fold with_name [] (own_types (domain_view names.now.domain) (problem_view names.now.problem)) }
        ensures { (o : Name) → AreAlike (is_of_type (domain_view names.now.domain) (problem_view names.now.problem) o) self.old → OnOk result (AreAlike (is_of_type (domain_view names.now.domain) (problem_view names.now.problem) o) self.new) }
    {
        if own.has(name) || self.get(name).is_some() {
            return Ok(false);
        }
        let under = types_under(alloc, names, name)?;
        let Some(other) = self.common(inhabited, &under)? else {
            return Ok(false);
        };
        self.insert(name, other)?;
        Ok(true)
    }

    // The same of all types that may have objects, as they were found from those of objects upward.
    fn settle_all(
        &mut self,
        alloc: Global,
        names: &Names<'a>,
        inhabited: &NameSet<'a>,
        own: &NameSet,
    ) -> Result<bool, Memory>
        requires held { HoldTypes (domain_view names.now.domain) (problem_view names.now.problem) inhabited.now }
        requires own { own.now ≡ fold with_name [] (own_types (domain_view names.now.domain) (problem_view names.now.problem)) }
        ensures { (o : Name) → AreAlike (is_of_type (domain_view names.now.domain) (problem_view names.now.problem) o) self.old → OnOk result (AreAlike (is_of_type (domain_view names.now.domain) (problem_view names.now.problem) o) self.new) }
    {
        let mut more = false;
        for name in inhabited.names() {
            let settled = self.settle(alloc, names, inhabited, own, name)?;
            more = more || settled;
        }
        Ok(more)
    }

    // The same the other way round.
    fn settle_back(
        &mut self,
        alloc: Global,
        names: &Names<'a>,
        inhabited: &NameSet<'a>,
        own: &NameSet,
    ) -> Result<bool, Memory>
        requires held { HoldTypes (domain_view names.now.domain) (problem_view names.now.problem) inhabited.now }
        requires own { own.now ≡ fold with_name [] (own_types (domain_view names.now.domain) (problem_view names.now.problem)) }
        ensures { (o : Name) → AreAlike (is_of_type (domain_view names.now.domain) (problem_view names.now.problem) o) self.old → OnOk result (AreAlike (is_of_type (domain_view names.now.domain) (problem_view names.now.problem) o) self.new) }
    {
        let mut more = false;
        let mut left = inhabited.len();
        while left > 0 {
            left -= 1;
            if let Some(name) = inhabited.get(left) {
                let settled = self.settle(alloc, names, inhabited, own, name)?;
                more = more || settled;
            }
        }
        Ok(more)
    }

    // The same there and back, as long as types come to lead on, and at most eight times.
    fn settle_on(
        &mut self,
        alloc: Global,
        names: &Names<'a>,
        inhabited: &NameSet<'a>,
        own: &NameSet,
    ) -> Result<(), Memory>
        requires held { HoldTypes (domain_view names.now.domain) (problem_view names.now.problem) inhabited.now }
        requires own { own.now ≡ fold with_name [] (own_types (domain_view names.now.domain) (problem_view names.now.problem)) }
        ensures { (o : Name) → AreAlike (is_of_type (domain_view names.now.domain) (problem_view names.now.problem) o) self.old → OnOk result (AreAlike (is_of_type (domain_view names.now.domain) (problem_view names.now.problem) o) self.new) }
    {
        for _ in 0..8 {
            let there = self.settle_all(alloc, names, inhabited, own)?;
            let back = self.settle_back(alloc, names, inhabited, own)?;
            if !there && !back {
                return Ok(());
            }
        }
        Ok(())
    }

    /// The types of two trees that have the objects of another, given those that may have objects.
    pub fn of(
        alloc: Global,
        names: &Names<'a>,
        inhabited: &NameSet<'a>,
    ) -> Result<Alike<'a>, Memory>
        requires { HoldTypes (domain_view names.now.domain) (problem_view names.now.problem) inhabited.now }
        ensures { (o : Name) → IfOk result (λ a. AreAlike (is_of_type (domain_view names.now.domain) (problem_view names.now.problem) o) a) }
    {
        let own = types_of_objects(alloc, names.domain(), names.problem())?;
        let mut alike = Alike::new(alloc);
        alike.settle_on(alloc, names, inhabited, &own)?;
        Ok(alike)
    }
}
