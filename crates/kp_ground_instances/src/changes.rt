ghost use Rattle.std.specs.Prelude.{◌≡◌, not, ℕ, Bool, Some, slice_get, IfOk};
ghost use Rattle.kp_names.specs.View.{lifted_view};
ghost use Rattle.kp_ground_semantics.specs.Static.{is_static};
ghost use Rattle.kp_ground_instances.specs.StaticTables.{has_number};

use crate::changed::changed_predicates;
use indexmap::IndexSet;
use kp_base::{Memory, Row};
use kp_names::Lifted;
use std::alloc::Global;

/// The predicates that aren't static, and for each of the first predicates whether it is none of them.
#[derive(Drop)]
pub struct Changes {
    /// Those that aren't static.
    pub changed: IndexSet<u32>,
    marks: Row<bool>,
    ghost marks_right: { (q : ℕ) (mark : Bool) → slice_get marks q ≡ Some mark → mark ≡ not (has_number changed.keys q) },
}

// Whether each of the first predicates is none of those that change.
fn static_marks(alloc: Global, count: u32, changed: &IndexSet<u32>) -> Result<Row<bool>, Memory>
    ensures { IfOk result (λ marks. (q : ℕ) (mark : Bool) → slice_get marks q ≡ Some mark → mark ≡ not (has_number changed.now.keys q)) }
{
    let mut marks = Row::new(alloc);
    for q in 0..count {
        marks.push(!changed.contains(&q))?;
    }
    Ok(marks)
}

impl Changes {
    /// Those of a problem.
    pub fn of(alloc: Global, lifted: &Lifted) -> Result<Changes, Memory>
        ensures { IfOk result (λ c. (q : ℕ) → has_number c.changed.keys q ≡ not (is_static (lifted_view lifted.now) q)) }
    {
        let changed = changed_predicates(alloc, lifted)?;
        let count = u32::try_from(lifted.predicates.len()).unwrap_or(u32::MAX);
        let marks = static_marks(alloc, count, &changed)?;
        Ok(Changes { changed, marks })
    }

    /// Whether a predicate isn't static.
    pub fn has(&self, pred: u32) -> bool
        ensures { result ≡ has_number self.now.changed.keys pred }
    {
        match self.marks.slice().get(pred as usize) {
            Some(mark) => !*mark,
            None => self.changed.contains(&pred),
        }
    }
}
