ghost use Rattle.std.specs.Prelude.{◌≡◌, ◌∷◌, ◌++◌, fold, map, IfOk, OnOk};
ghost use Rattle.kp_tree_grammar.specs.View.{typed_view, domain_view, problem_view};
ghost use Rattle.kp_names_semantics.specs.Types.{object_lines};
ghost use Rattle.kp_names_declared.specs.Steps.{with_name, with_line_under, with_line_over, lines_under, lines_over, under};
ghost use Rattle.kp_names_declared.specs.Chains.{AreChained, pairs_of};

use crate::name_set::NameSet;
use indexmap::IndexMap;
use kp_base::Memory;
use kp_tree_grammar::{Domain, Problem, Typed};
use std::alloc::Global;
use std::marker::Model;

// A name under a type, and the place behind the name that came before it under the same type; 0 where none did.
#[derive(Clone, Copy)]
struct Link<'a> {
    kind: &'a [u8],
    name: &'a [u8],
    before: usize,
}

/// Names under types: the names of typed lists, each under the types that stand behind it. Contracts see pairs of
/// type and name, the last first.
#[derive(Drop)]
pub struct Under<'a> {
    links: Vec<Link<'a>>,
    // Under each type, the place behind its last name.
    last: IndexMap<&'a [u8], usize>,
}

impl<'a> Model for Under<'a> {
    ghost use Rattle.std.specs.Prelude.{List, ℕ, map};
    ghost use Rattle.kp_names_declared.specs.Chains.{AreChained, pairs_of};

    ghost Value = { List (List ℕ × List ℕ) };

    ghost view = { λ u. pairs_of u.links.items };

    ghost invariant = { λ u. AreChained u.links.items (map (λ e. (e.0.now, e.1)) u.last.entries) };
}

// Puts a name under a type.
fn add<'a>(
    links: &mut Vec<Link<'a>>,
    last: &mut IndexMap<&'a [u8], usize>,
    kind: &'a [u8],
    name: &'a [u8],
) -> Result<(), Memory>
    requires { AreChained links.old.items (map (λ e. (e.0.now, e.1)) last.old.entries) }
    ensures chained { OnOk result (AreChained links.new.items (map (λ e. (e.0.now, e.1)) last.new.entries)) }
    ensures pairs { OnOk result (pairs_of links.new.items ≡ (kind.now, name.now) ∷ pairs_of links.old.items) }
{
    let place = links.len() + 1;
    let before = last.insert(kind, place)?.unwrap_or(0);
    links.push(Link { kind, name, before })?;
    Ok(())
}

// Puts the name of a line under each of its types.
fn add_line<'a>(
    links: &mut Vec<Link<'a>>,
    last: &mut IndexMap<&'a [u8], usize>,
    line: &'a Typed,
) -> Result<(), Memory>
    requires { AreChained links.old.items (map (λ e. (e.0.now, e.1)) last.old.entries) }
    ensures chained { OnOk result (AreChained links.new.items (map (λ e. (e.0.now, e.1)) last.new.entries)) }
    ensures pairs { OnOk result (pairs_of links.new.items ≡ with_line_under (pairs_of links.old.items) (typed_view line.now)) }
{
    for kind in line.kinds.slice() {
        add(links, last, kind.text.slice(), line.word.text.slice())?;
    }
    Ok(())
}

// The same for all lines.
fn add_lines<'a>(
    links: &mut Vec<Link<'a>>,
    last: &mut IndexMap<&'a [u8], usize>,
    lines: &'a [Typed],
) -> Result<(), Memory>
    requires { AreChained links.old.items (map (λ e. (e.0.now, e.1)) last.old.entries) }
    ensures chained { OnOk result (AreChained links.new.items (map (λ e. (e.0.now, e.1)) last.new.entries)) }
    ensures pairs { OnOk result (pairs_of links.new.items ≡ fold with_line_under (pairs_of links.old.items) (map typed_view lines.now)) }
{
    for line in lines {
        add_line(links, last, line)?;
    }
    Ok(())
}

// Puts each type of a line over its name.
fn add_line_over<'a>(
    links: &mut Vec<Link<'a>>,
    last: &mut IndexMap<&'a [u8], usize>,
    line: &'a Typed,
) -> Result<(), Memory>
    requires { AreChained links.old.items (map (λ e. (e.0.now, e.1)) last.old.entries) }
    ensures chained { OnOk result (AreChained links.new.items (map (λ e. (e.0.now, e.1)) last.new.entries)) }
    ensures pairs { OnOk result (pairs_of links.new.items ≡ with_line_over (pairs_of links.old.items) (typed_view line.now)) }
{
    for kind in line.kinds.slice() {
        add(links, last, line.word.text.slice(), kind.text.slice())?;
    }
    Ok(())
}

// The same for all lines.
fn add_lines_over<'a>(
    links: &mut Vec<Link<'a>>,
    last: &mut IndexMap<&'a [u8], usize>,
    lines: &'a [Typed],
) -> Result<(), Memory>
    requires { AreChained links.old.items (map (λ e. (e.0.now, e.1)) last.old.entries) }
    ensures chained { OnOk result (AreChained links.new.items (map (λ e. (e.0.now, e.1)) last.new.entries)) }
    ensures pairs { OnOk result (pairs_of links.new.items ≡ fold with_line_over (pairs_of links.old.items) (map typed_view lines.now)) }
{
    for line in lines {
        add_line_over(links, last, line)?;
    }
    Ok(())
}

impl<'a> Under<'a> {
    // The names of two typed lists under the types behind them.
    fn of(alloc: Global, first: &'a [Typed], second: &'a [Typed]) -> Result<Under<'a>, Memory>
        ensures { IfOk result (λ u. u ≡ lines_under (map typed_view first.now ++ map typed_view second.now)) }
    {
        let mut links = Vec::new(alloc);
        let mut last = IndexMap::new(alloc);
        add_lines(&mut links, &mut last, first)?;
        add_lines(&mut links, &mut last, second)?;
        Ok(Under { links, last })
    }

    /// The other way round: the types of a typed list, each under the names before it.
    pub fn over(alloc: Global, lines: &'a [Typed]) -> Result<Under<'a>, Memory>
        ensures { IfOk result (λ u. u ≡ lines_over (map typed_view lines.now)) }
    {
        let mut links = Vec::new(alloc);
        let mut last = IndexMap::new(alloc);
        add_lines_over(&mut links, &mut last, lines)?;
        Ok(Under { links, last })
    }

    /// Adds the names under a type.
    pub fn add_to(&self, kind: &[u8], names: &mut NameSet<'a>) -> Result<(), Memory>
        ensures { OnOk result (names.new ≡ fold with_name names.old (under self.now kind.now)) }
    {
        let mut at = self.last.get(kind).copied().unwrap_or(0);
        let links = self.links.as_slice();
        'names: while at > 0 {
            let link = links[at - 1];
            names.insert(link.name)?;
            at = link.before;
        }
        Ok(())
    }
}

/// The types and the objects that two trees declare, under the types that stand behind them.
#[derive(Drop)]
pub struct Declarations<'a> {
    /// The types.
    pub types: Under<'a>,
    /// The objects.
    pub objects: Under<'a>,
}

impl<'a> Declarations<'a> {
    /// The declarations of two trees.
    pub fn of(
        alloc: Global,
        domain: &'a Domain,
        problem: &'a Problem,
    ) -> Result<Declarations<'a>, Memory>
        ensures types { IfOk result (λ u. u.types ≡ lines_under (domain_view domain.now).kinds) }
        ensures objects { IfOk result (λ u. u.objects ≡ lines_under (object_lines (domain_view domain.now) (problem_view problem.now))) }
    {
        let types = Under::of(alloc, domain.kinds.slice(), &[])?;
        let objects = Under::of(alloc, domain.constants.slice(), problem.objects.slice())?;
        Ok(Declarations { types, objects })
    }
}
