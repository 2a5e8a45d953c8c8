ghost use Rattle.std.specs.Prelude.{◌≡◌, ◌∷◌, ℕ, List, [], Some, true};
ghost use Rattle.std.specs.List.{list_all};
ghost use Rattle.kp_base.specs.Files.{most_bytes};
ghost use Rattle.kp_outside.specs.Outside.{IsFront, IsWithin};
ghost use Rattle.kp_primes.specs.Held.{formula};
ghost use Rattle.kp_tags.specs.MergeTables.{has_tags_of_atoms};
ghost use Rattle.kp_words.specs.Asked.{Source, of_mode, of_file};
ghost use Rattle.kp_run_prepare.specs.Prepared.{IsPreparedOf};
ghost use Rattle.kp_run_inputs.specs.SourceTables.{IsOrigin, IsShort, AnswersTable, AnswersMerges};
ghost use Rattle.kp_run_inputs.specs.Tabled.{AnswersTabled};

use crate::origin::Origin;
use crate::related::Related;
use crate::tabled::Tabled;
use kp_base::{Limits, Mode, Part, Refused, Row, Stop, TagTable};
use kp_outside::Got;
use kp_run_prepare::{Early, Prepared, ended_by, ended_in, prepare};
use kp_tags::{accept_merges, make};
use kp_tags_files::{FileMerge, read_merges};
use std::alloc::Global;

// The table of a mode.
fn table_in(alloc: Global, related: &Related, mode: Mode) -> Result<TagTable, Early>
    ensures { AnswersTable related.now.prepared.ground (formula related.now.prepared.primes) (of_mode mode) [] result }
{
    let prepared = &related.prepared;
    match make(
        alloc,
        mode,
        &prepared.ground,
        &prepared.primes,
        &related.relevance,
        &Limits::usual(),
    ) {
        Ok(table) => Ok(table),
        Err(stop) => Err(ended_in(alloc, &prepared.ground, stop)),
    }
}

// The table of the merges of a file.
fn table_for(alloc: Global, prepared: &Prepared, merges: &Row<FileMerge>) -> Result<TagTable, Early>
    requires of_atoms { list_all (has_tags_of_atoms prepared.now.primes.atoms) merges.now ≡ true }
    ensures { AnswersMerges prepared.now.ground prepared.now.primes.atoms (formula prepared.now.primes) merges.now result }
{
    match accept_merges(alloc, &prepared.primes, merges, &Limits::usual()) {
        Ok(table) => Ok(table),
        Err(stop) => Err(ended_in(alloc, &prepared.ground, stop)),
    }
}

// The table of a file of merges, of which at most 16,777,216 bytes were read.
fn table_with(alloc: Global, prepared: &Prepared, merges: Got) -> Result<TagTable, Early>
    requires { IsWithin most_bytes merges }
    ensures { (name text : List ℕ) → IsFront (Some text) most_bytes merges → AnswersTable prepared.now.ground (formula prepared.now.primes) (of_file name) (text ∷ []) result }
{
    if merges.more {
        return Err(ended_by(alloc, Stop::Refused(Refused::TooLong(Part::Merges))));
    }
    match read_merges(alloc, merges.bytes.slice(), &prepared.ground) {
        Ok(merges) => table_for(alloc, prepared, &merges),
        Err(stop) => Err(ended_by(alloc, stop)),
    }
}

// The table of a mode or of a file of merges.
fn table_of(alloc: Global, related: &Related, origin: Origin) -> Result<TagTable, Early>
    requires { IsShort origin }
    ensures { (source : Source) (merges : List (List ℕ)) → IsOrigin source merges origin → AnswersTable related.now.prepared.ground (formula related.now.prepared.primes) source merges result }
{
    match origin {
        Origin::Mode(mode) => table_in(alloc, related, mode),
        Origin::Merges(merges) => table_with(alloc, &related.prepared, merges),
    }
}

// A prepared problem with its table.
fn with_table(alloc: Global, prepared: Prepared, origin: Origin) -> Result<Tabled, Early>
    requires { IsShort origin }
    ensures { (limit : ℕ) (d p : List ℕ) (source : Source) (merges : List (List ℕ)) → IsPreparedOf limit d p prepared → IsOrigin source merges origin → AnswersTabled limit d p source merges result }
{
    let related = Related::of(alloc, prepared)?;
    match table_of(alloc, &related, origin) {
        Ok(table) => Ok(Tabled { related, table }),
        Err(early) => Err(early),
    }
}

/// The problem of two files, with the table of a mode or of a file of merges, at most 16,777,216 bytes of each of which were
/// read; or the outcome with which a command ends that has none.
pub fn tabled_of(
    alloc: Global,
    implicates: u32,
    domain: Got,
    problem: Got,
    origin: Origin,
) -> Result<Tabled, Early>
    requires domain { IsWithin most_bytes domain }
    requires problem { IsWithin most_bytes problem }
    requires origin { IsShort origin }
    ensures { (d p : List ℕ) (source : Source) (merges : List (List ℕ)) → IsFront (Some d) most_bytes domain → IsFront (Some p) most_bytes problem → IsOrigin source merges origin → AnswersTabled implicates d p source merges result }
{
    match prepare(alloc, implicates, domain, problem) {
        Ok(prepared) => with_table(alloc, prepared, origin),
        Err(early) => Err(early),
    }
}
