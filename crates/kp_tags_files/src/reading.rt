ghost use Rattle.std.specs.Prelude.{◌<◌, ◌≤◌, length, IfOk, IfErr};
ghost use Rattle.std.specs.List.{AllZip};
ghost use Rattle.kp_base.specs.Files.{most_bytes};
ghost use Rattle.kp_lex.specs.Cutting.{Cut};
ghost use Rattle.kp_tree_grammar.specs.Symbols.{is_left as is_opening};
ghost use Rattle.kp_tree_grammar.specs.Forms.{many};
ghost use Rattle.kp_plans.specs.Names.{number_of};
ghost use Rattle.kp_tags_files.specs.Grammar.{tag, merge_body, merge};
ghost use Rattle.kp_tags_files.specs.Numbers.{IsTag, IsMerge};
ghost use Rattle.kp_tags_files.specs.MergesFiles.{AnswersMergesFile};
ghost use Rattle.kp_tags_files.specs.Parts.{ReadsAt, Adds, HaltsAt, HaltsBelow, AnswersTokens, AnswersCut, IsTold, numbers_of};

use crate::literals::{closed, literal_at, tag_at};
use crate::merge::FileMerge;
use kp_base::{Ground, LitSet, Part, Refused, Row, Stop};
use kp_lex::{Token, place, tokens};
use kp_plans::NameTable;
use kp_tree_cursor::{Halt, Lead, Tokens, byte_of, follow, is_left, lower_case, peek};
use std::alloc::Global;

// Puts the tag that stands at a place behind others, and tells the place behind it.
fn next_tag(
    alloc: Global,
    table: &NameTable,
    tokens: &Tokens,
    at: usize,
    tags: &mut Row<LitSet>,
) -> Result<usize, Halt>
    ensures found { IfOk result (λ n. Adds tag (IsTag (numbers_of table.now)) tokens.now at tags.old tags.new n) }
    ensures stopped { IfErr result (λ e. HaltsAt (numbers_of table.now) tag tokens.now at e) }
    ensures onward { IfOk result (λ n. (at < n) × (n ≤ length tokens.now)) }
{
    let (tag, behind) = tag_at(alloc, table, tokens, at)?;
    tags.push(tag)?;
    Ok(behind)
}

// The tags that stand at a place, and the place behind them.
fn tags_at(
    alloc: Global,
    table: &NameTable,
    tokens: &Tokens,
    start: usize,
) -> Result<(Row<LitSet>, usize), Halt>
    requires { start ≤ length tokens.now }
    ensures found { IfOk result (λ x. ReadsAt (many is_opening tag) (AllZip (IsTag (numbers_of table.now))) tokens.now start x.0 x.1) }
    ensures stopped { IfErr result (λ e. HaltsAt (numbers_of table.now) (many is_opening tag) tokens.now start e) }
    ensures onward { IfOk result (λ x. (start ≤ x.1) × (x.1 ≤ length tokens.now)) }
{
    let mut tags = Row::new(alloc);
    let mut at = start;
    'tags: while is_left(tokens, at) {
        let behind = next_tag(alloc, table, tokens, at, &mut tags)?;
        at = behind;
    }
    Ok((tags, at))
}

// The target and the tags of a merge, which stand at a place, and the place behind them.
fn body_at(
    alloc: Global,
    table: &NameTable,
    tokens: &Tokens,
    at: usize,
) -> Result<(FileMerge, usize), Halt>
    ensures found { IfOk result (λ x. ReadsAt merge_body (IsMerge (numbers_of table.now)) tokens.now at x.0 x.1) }
    ensures stopped { IfErr result (λ e. HaltsBelow (numbers_of table.now) 1 merge_body tokens.now at e) }
    ensures onward { IfOk result (λ x. (at < x.1) × (x.1 ≤ length tokens.now)) }
{
    let (target, at) = literal_at(alloc, table, tokens, at)?;
    let (tags, behind) = tags_at(alloc, table, tokens, at)?;
    Ok((FileMerge { target, tags }, behind))
}

// The merge that stands at a place, and the place behind it.
fn merge_at(
    alloc: Global,
    table: &NameTable,
    tokens: &Tokens,
    at: usize,
) -> Result<(FileMerge, usize), Halt>
    ensures found { IfOk result (λ x. ReadsAt merge (IsMerge (numbers_of table.now)) tokens.now at x.0 x.1) }
    ensures stopped { IfErr result (λ e. HaltsBelow (numbers_of table.now) 0 merge tokens.now at e) }
    ensures onward { IfOk result (λ x. (at < x.1) × (x.1 ≤ length tokens.now)) }
{
    if !is_left(tokens, at) {
        return Err(Halt::Syntax(at));
    }
    let at = follow(tokens, at + 1, Lead::Merge)?;
    let body = body_at(alloc, table, tokens, at)?;
    let (merge, behind) = closed(tokens, body)?;
    Ok((merge, behind))
}

// Puts the merge that stands at a place behind others, and tells the place behind it.
fn next_merge(
    alloc: Global,
    table: &NameTable,
    tokens: &Tokens,
    at: usize,
    merges: &mut Row<FileMerge>,
) -> Result<usize, Halt>
    ensures found { IfOk result (λ n. Adds merge (IsMerge (numbers_of table.now)) tokens.now at merges.old merges.new n) }
    ensures stopped { IfErr result (λ e. HaltsBelow (numbers_of table.now) 0 merge tokens.now at e) }
    ensures onward { IfOk result (λ n. (at < n) × (n ≤ length tokens.now)) }
{
    let (merge, behind) = merge_at(alloc, table, tokens, at)?;
    merges.push(merge)?;
    Ok(behind)
}

// The merges that all the tokens are.
fn merges(alloc: Global, table: &NameTable, tokens: &Tokens) -> Result<Row<FileMerge>, Halt>
    ensures { AnswersTokens (numbers_of table.now) tokens.now result }
{
    let mut merges = Row::new(alloc);
    let mut at = 0;
    'merges: while is_left(tokens, at) {
        let behind = next_merge(alloc, table, tokens, at, &mut merges)?;
        at = behind;
    }
    match peek(tokens, at) {
        None => Ok(merges),
        Some(_) => Err(Halt::Syntax(at)),
    }
}

// The merges of a text that is cut into the tokens.
fn read_tokens(
    alloc: Global,
    bytes: &[u8],
    tokens: &[Token],
    table: &NameTable,
) -> Result<Row<FileMerge>, Halt>
    requires { Cut 0 bytes.now tokens.now }
    ensures { AnswersCut (numbers_of table.now) bytes.now tokens.now result }
{
    let lower = lower_case(alloc, bytes)?;
    let merges = merges(alloc, table, &Tokens::new(&lower, tokens));
    drop(lower);
    merges
}

// The merges on the atoms of a ground problem.
fn read_on(
    alloc: Global,
    bytes: &[u8],
    tokens: &[Token],
    ground: &Ground,
) -> Result<Row<FileMerge>, Halt>
    requires few_atoms { length ground.now.atoms < 2147483648 }
    requires cut { Cut 0 bytes.now tokens.now }
    ensures { AnswersCut (number_of ground.now.atoms) bytes.now tokens.now result }
{
    let table = NameTable::of_atoms(alloc, ground.atoms.slice())?;
    let merges = read_tokens(alloc, bytes, tokens, &table);
    drop(table);
    merges
}

// What ends the call where no merges were read.
fn told(bytes: &[u8], tokens: &[Token], halt: Halt) -> Stop
    requires short { length bytes.now ≤ most_bytes }
    requires cut { Cut 0 bytes.now tokens.now }
    ensures { IsTold bytes.now tokens.now halt result }
{
    match halt {
        Halt::Memory => Stop::Memory,
        Halt::Syntax(number) | Halt::Unsupported(number) => {
            let byte = byte_of(bytes, tokens, number);
            Stop::Refused(Refused::MergeSyntax(place(Part::Merges, bytes, byte)))
        }
    }
}

// The merges of a text that is cut into the tokens, or its refusal.
fn read_cut(
    alloc: Global,
    bytes: &[u8],
    tokens: &[Token],
    ground: &Ground,
) -> Result<Row<FileMerge>, Stop>
    requires short { length bytes.now ≤ most_bytes }
    requires few_atoms { length ground.now.atoms < 2147483648 }
    requires cut { Cut 0 bytes.now tokens.now }
    ensures { AnswersMergesFile ground.now.atoms bytes.now result }
{
    match read_on(alloc, bytes, tokens, ground) {
        Ok(merges) => Ok(merges),
        Err(halt) => Err(told(bytes, tokens, halt)),
    }
}

/// The merges of a file, each atom by its number in the ground problem.
///
/// A file with a byte that begins no token is refused with `BadToken` there. Any other file is refused with `MergeSyntax`
/// at the first token that is wrong: where it is no list of merges, or at the head of an atom that is no ground atom.
/// Brackets may go as deep as they like.
pub fn read_merges(alloc: Global, bytes: &[u8], ground: &Ground) -> Result<Row<FileMerge>, Stop>
    requires short { length bytes.now ≤ most_bytes }
    requires few_atoms { length ground.now.atoms < 2147483648 }
    ensures { AnswersMergesFile ground.now.atoms bytes.now result }
{
    let tokens = tokens(alloc, Part::Merges, bytes)?;
    let merges = read_cut(alloc, bytes, tokens.slice(), ground);
    drop(tokens);
    merges
}
