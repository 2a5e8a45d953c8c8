ghost use Rattle.std.specs.Prelude.{◌≤◌, length};
ghost use Rattle.kp_tree_grammar.specs.Grammar as grammar;
ghost use Rattle.kp_tree_grammar.specs.Texts.{ReadsAs};
ghost use Rattle.kp_tree_grammar.specs.View.{domain_view};

use kp_base::{Memory, Row, Stop, Texts};
use kp_names::{Lifted, resolve};
use kp_tree::{read_domain, read_problem};
use kp_tree_grammar::Domain;
use std::alloc::Global;

/// These numbers.
pub fn numbers(alloc: Global, items: &[u32]) -> Result<Row<u32>, Memory> {
    Ok(Row::from_vec(Vec::from_slice(alloc, items)?))
}

fn row_of(alloc: Global, text: &str) -> Result<Row<u8>, Memory> {
    Ok(Row::from_vec(text.as_bytes().to_vec(alloc)?))
}

fn texts_of(alloc: Global, domain: &str, problem: &str) -> Result<Texts, Memory> {
    let domain = row_of(alloc, domain)?;
    Ok(Texts {
        domain,
        problem: row_of(alloc, problem)?,
    })
}

// The problem by number of texts whose domain is read, where they have one.
fn resolved_with(alloc: Global, texts: &Texts, domain: &Domain) -> Result<Lifted, Stop>
    requires domain_short { length texts.now.domain ≤ 1000 }
    requires problem_short { length texts.now.problem ≤ 1000 }
    requires domain_reads { ReadsAs grammar.domain texts.now.domain (domain_view domain.now) }
{
    let problem = read_problem(alloc, texts.problem.slice())?;
    let resolved = resolve(alloc, texts, domain, &problem);
    drop(problem);
    resolved
}

// The problem by number of texts, where they have one.
fn resolved_of(alloc: Global, texts: &Texts) -> Result<Lifted, Stop> {
    if texts.domain.len() > 1_000 || texts.problem.len() > 1_000 {
        return Err(Stop::Memory);
    }
    let domain = read_domain(alloc, texts.domain.slice())?;
    let lifted = resolved_with(alloc, texts, &domain);
    drop(domain);
    lifted
}

/// The problem by number of two short texts, where they have one.
pub fn resolved(alloc: Global, domain: &str, problem: &str) -> Result<Lifted, Stop> {
    let texts = texts_of(alloc, domain, problem)?;
    let lifted = resolved_of(alloc, &texts);
    drop(texts);
    lifted
}
