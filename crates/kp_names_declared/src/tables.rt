ghost use Rattle.std.specs.Prelude.{◌≡◌, ◌≤◌, [], length, map, fold, IfOk, OnOk};
ghost use Rattle.std.specs.List.{flat_map};
ghost use Rattle.kp_tree_grammar.specs.View.{domain_view, pred_view, problem_view, typed_view};
ghost use Rattle.kp_names_semantics.specs.Names.{is_among};
ghost use Rattle.kp_names_semantics.specs.Types.{declared, names, object_lines, objects, types};
ghost use Rattle.kp_names_declared.specs.Steps.{with_name, lines_under};
ghost use Rattle.kp_names_declared.specs.NameTables.{names_of_line, entries_from, declaration_of, with_entry};

use crate::name_set::NameSet;
use crate::predicates::{Declared, Predicates};
use crate::under::{Declarations, Under};
use kp_base::{Memory, Row, Text};
use kp_tree_grammar::{Domain, Problem, Typed, Word};
use std::alloc::Global;
use std::marker::Model;

/// The declared names of two trees, each with its number. Contracts see the trees.
#[derive(Drop)]
pub struct Names<'a> {
    domain: &'a Domain,
    problem: &'a Problem,
    type_names: NameSet<'a>,
    object_names: NameSet<'a>,
    predicate_names: Predicates<'a>,
    declarations: Declarations<'a>,
}

impl<'a> Model for Names<'a> {
    ghost use Rattle.kp_names_declared.specs.Collected.{Trees, trees_code};
    ghost use Rattle.kp_names_declared.specs.NameTables.{AreNamesOf};

    ghost Value = { Trees };

    ghost coded = { trees_code };

    ghost view = { λ n. record { domain = n.domain.now; problem = n.problem.now } };

    ghost invariant = { λ n. AreNamesOf (record { domain = n.domain.now; problem = n.problem.now }) n.type_names n.object_names n.predicate_names n.declarations.types n.declarations.objects };
}

/// Adds the names of words.
pub(crate) fn add_words<'a>(known: &mut NameSet<'a>, words: &'a [Word]) -> Result<(), Memory>
    ensures { OnOk result (known.new ≡ fold with_name known.old (names words.now)) }
{
    for word in words {
        known.insert(word.text.slice())?;
    }
    Ok(())
}

/// Adds the names that a typed list declares.
pub fn add_declared<'a>(known: &mut NameSet<'a>, lines: &'a [Typed]) -> Result<(), Memory>
    ensures { OnOk result (known.new ≡ fold with_name known.old (declared (map typed_view lines.now))) }
{
    for line in lines {
        known.insert(line.word.text.slice())?;
    }
    Ok(())
}

// Adds the types of the lines of `:types`, and those that stand there as parents.
fn add_types<'a>(known: &mut NameSet<'a>, lines: &'a [Typed]) -> Result<(), Memory>
    ensures { OnOk result (known.new ≡ fold with_name known.old (flat_map names_of_line (map typed_view lines.now))) }
{
    for line in lines {
        known.insert(line.word.text.slice())?;
        add_words(known, line.kinds.slice())?;
    }
    Ok(())
}

fn types_of<'a>(alloc: Global, domain: &'a Domain) -> Result<NameSet<'a>, Memory>
    ensures { IfOk result (λ names. names ≡ fold with_name [] (types (domain_view domain.now))) }
{
    let mut names = NameSet::new(alloc);
    names.insert(b"object")?;
    add_types(&mut names, domain.kinds.slice())?;
    Ok(names)
}

fn objects_of<'a>(
    alloc: Global,
    domain: &'a Domain,
    problem: &'a Problem,
) -> Result<NameSet<'a>, Memory>
    ensures { IfOk result (λ names. names ≡ objects (domain_view domain.now) (problem_view problem.now)) }
{
    let mut names = NameSet::new(alloc);
    add_declared(&mut names, domain.constants.slice())?;
    add_declared(&mut names, problem.objects.slice())?;
    Ok(names)
}

impl<'a> Names<'a> {
    ghost use Rattle.kp_names_declared.specs.Collected.{domain_of, problem_of};

    /// The names that two trees declare.
    #[tactic(auto, unfolding(crate::specs::Collected::domain_of, crate::specs::Collected::problem_of))]
    pub fn collect(
        alloc: Global,
        domain: &'a Domain,
        problem: &'a Problem,
    ) -> Result<Names<'a>, Memory>
        ensures domain { IfOk result (λ names. domain_of names ≡ domain_view domain.now) }
        ensures problem { IfOk result (λ names. problem_of names ≡ problem_view problem.now) }
    {
        let type_names = types_of(alloc, domain)?;
        let object_names = objects_of(alloc, domain, problem)?;
        Names::with_names(alloc, domain, problem, type_names, object_names)
    }

    // The same, given the names of types and objects.
    #[tactic(auto, unfolding(crate::specs::Collected::domain_of, crate::specs::Collected::problem_of))]
    fn with_names(
        alloc: Global,
        domain: &'a Domain,
        problem: &'a Problem,
        type_names: NameSet<'a>,
        object_names: NameSet<'a>,
    ) -> Result<Names<'a>, Memory>
        requires types { type_names ≡ fold with_name [] (types (domain_view domain.now)) }
        requires objects { object_names ≡ objects (domain_view domain.now) (problem_view problem.now) }
        ensures domain { IfOk result (λ names. domain_of names ≡ domain_view domain.now) }
        ensures problem { IfOk result (λ names. problem_of names ≡ problem_view problem.now) }
    {
        let predicate_names = Predicates::of(alloc, domain.predicates.slice())?;
        Names::with_predicates(
            alloc,
            domain,
            problem,
            type_names,
            object_names,
            predicate_names,
        )
    }

    // The same, given the predicates too.
    #[tactic(auto, unfolding(crate::specs::Collected::domain_of, crate::specs::Collected::problem_of))]
    fn with_predicates(
        alloc: Global,
        domain: &'a Domain,
        problem: &'a Problem,
        type_names: NameSet<'a>,
        object_names: NameSet<'a>,
        predicate_names: Predicates<'a>,
    ) -> Result<Names<'a>, Memory>
        requires types { type_names ≡ fold with_name [] (types (domain_view domain.now)) }
        requires objects { object_names ≡ objects (domain_view domain.now) (problem_view problem.now) }
        requires few { length domain.now.predicates ≤ 4294967295 }
        requires predicates { predicate_names ≡ fold with_entry [] (entries_from 0 (map pred_view domain.now.predicates)) }
        ensures domain { IfOk result (λ names. domain_of names ≡ domain_view domain.now) }
        ensures problem { IfOk result (λ names. problem_of names ≡ problem_view problem.now) }
    {
        let declarations = Declarations::of(alloc, domain, problem)?;
        Ok(Names {
            domain,
            problem,
            type_names,
            object_names,
            predicate_names,
            declarations,
        })
    }

    /// The domain.
    pub fn domain(&self) -> &'a Domain
        ensures { result.now ≡ self.now.domain }
    {
        self.domain
    }

    /// The problem.
    pub fn problem(&self) -> &'a Problem
        ensures { result.now ≡ self.now.problem }
    {
        self.problem
    }

    /// Whether it is the name of a type.
    #[tactic(auto, unfolding(crate::specs::Collected::domain_of))]
    pub fn is_type(&self, name: &Text) -> bool
        ensures { result ≡ is_among (types (domain_of self.now)) name.now }
    {
        self.type_names.has(name.slice())
    }

    /// Whether it is the name of an object.
    #[tactic(auto, using(crate::proofs::Gathering::among_objects), unfolding(crate::specs::Collected::domain_of, crate::specs::Collected::problem_of))]
    pub fn has_object(&self, name: &Text) -> bool
        ensures { result ≡ is_among (declared (object_lines (domain_of self.now) (problem_of self.now))) name.now }
    {
        self.object_names.has(name.slice())
    }

    /// The first declaration of a predicate.
    #[tactic(auto, unfolding(crate::specs::Collected::domain_of))]
    pub fn predicate(&self, name: &Text) -> Option<Declared>
        ensures { result ≡ declaration_of (domain_of self.now) name.now }
    {
        self.predicate_names.get(name.slice())
    }
}

// Names that are none have the number after the last, so that each name has one.
impl<'a> Names<'a> {
    ghost use Rattle.kp_names_semantics.specs.Numbering.{index_of, heads};

    /// The number of an object; how many there are, where the name is none.
    pub fn object_number(&self, name: &Text) -> u32
        ensures { result ≡ index_of (objects (domain_view self.now.domain) (problem_view self.now.problem)) name.now }
    {
        self.number_of(name.slice())
    }

    /// The same where the name isn't in a text of its own.
    pub(crate) fn number_of(&self, name: &[u8]) -> u32
        ensures { result ≡ index_of (objects (domain_view self.now.domain) (problem_view self.now.problem)) name.now }
    {
        match self.object_names.find(name) {
            Some(number) => number,
            None => self.object_names.len(),
        }
    }

    /// The objects.
    pub(crate) fn objects(&self) -> &NameSet<'a>
        ensures { result.now ≡ objects (domain_view self.now.domain) (problem_view self.now.problem) }
    {
        &self.object_names
    }

    /// The types under each type.
    pub(crate) fn types_under(&self) -> &Under<'a>
        ensures { result.now ≡ lines_under (domain_view self.now.domain).kinds }
    {
        &self.declarations.types
    }

    /// The objects under each type.
    pub(crate) fn objects_under(&self) -> &Under<'a>
        ensures { result.now ≡ lines_under (object_lines (domain_view self.now.domain) (problem_view self.now.problem)) }
    {
        &self.declarations.objects
    }

    /// The names of the objects, in order of number.
    pub fn object_texts(&self, alloc: Global) -> Result<Row<Text>, Memory>
        ensures { IfOk result (λ row. row ≡ objects (domain_view self.now.domain) (problem_view self.now.problem)) }
    {
        let texts = self.object_names.texts(alloc)?;
        Ok(texts)
    }

    /// The number of a predicate; how many declarations there are, where the name is none.
    pub fn predicate_number(&self, name: &Text) -> u32
        ensures { result ≡ index_of (heads (domain_view self.now.domain)) name.now }
    {
        match self.predicate_names.get(name.slice()) {
            Some(declared) => declared.number,
            None => self.domain.predicates.len() as u32,
        }
    }
}
