ghost use Rattle.std.specs.Prelude.{◌≡◌, ◌↔◌, IsTrue, [], List, ℕ, Option, Some, map, length, IfOk, IfErr, option_map, is_some, true, false};
ghost use Rattle.std.specs.List.{list_all};
ghost use Rattle.clap.specs.Words.{app_of, first_value, found_of, is_simple, kind_of, matches_of, new_rule, rows_of, rule_of};
ghost use Rattle.clap.specs.Takes.{takes};
ghost use Rattle.clap.specs.declared.error.kind.ErrorKind.TheVariants.{OutOfMemory as NoMemory};
ghost use Rattle.kp_words_options.specs.Words.{Line};
ghost use Rattle.kp_words_options.specs.Texts.{texts, places_of as given_places, values_of as given_values};
ghost use Rattle.kp_words_options.specs.Clap.{Fits, app_of_form, app_with, option_rule, with_options, with_places};
ghost use Rattle.kp_words_options.specs.declared.stop.WordStop.TheVariants.{Usage};

use crate::given::Given;
use crate::scan::count_places;
use crate::stop::WordStop;
use clap::error::ErrorKind;
use clap::{Arg, ArgMatches, Command, Error};
use kp_base::Memory;
use std::alloc::Global;

// A positional argument.
fn place<'a>(alloc: Global, id: &'a str) -> Arg<'a>
    ensures rule { rule_of result ≡ new_rule id.entry.now }
    ensures own { result.global ≡ false }
{
    Arg::new(alloc, id)
}

// An option with a value.
fn option<'a>(alloc: Global, name: &'a str) -> Arg<'a>
    ensures rule { rule_of result ≡ option_rule name.entry.now }
    ensures own { result.global ≡ false }
{
    Arg::new(alloc, name).long(name)
}

// A command without arguments, for the words behind the program's name and the command.
fn bare<'a>(alloc: Global, name: &'a str) -> Command<'a>
    ensures { app_of result ≡ app_with name.entry.now [] }
{
    Command::new(alloc, name)
        .no_binary_name(true)
        .disable_help_flag(true)
}

// The command with these positional arguments too.
fn add_places<'a>(alloc: Global, start: Command<'a>, ids: &[&'a str]) -> Result<Command<'a>, Memory>
    ensures { IfOk result (λ c. app_of c ≡ with_places (app_of start.entry) (texts ids.now)) }
{
    let mut command = start;
    for id in ids {
        command = command.arg(place(alloc, *id))?;
    }
    Ok(command)
}

// The command with these options too.
fn add_options<'a>(
    alloc: Global,
    start: Command<'a>,
    options: &[&'a str],
) -> Result<Command<'a>, Memory>
    ensures { IfOk result (λ c. app_of c ≡ with_options (app_of start.entry) (texts options.now)) }
{
    let mut command = start;
    for name in options {
        command = command.arg(option(alloc, *name))?;
    }
    Ok(command)
}

// The command with these arguments.
fn made<'a>(
    alloc: Global,
    name: &'a str,
    ids: &[&'a str],
    options: &[&'a str],
) -> Result<Command<'a>, Memory>
    ensures { IfOk result (λ c. app_of c ≡ app_of_form name.entry.now (texts ids.now) (texts options.now)) }
{
    let placed = add_places(alloc, bare(alloc, name), ids)?;
    add_options(alloc, placed, options)
}

// Whether the cause is want of memory.
fn is_memory(error: &Error) -> bool
    ensures { IsTrue result ↔ (kind_of error.now ≡ NoMemory) }
{
    error.kind() == ErrorKind::OutOfMemory
}

// What `clap` finds in words that it takes, so that it may only want memory.
fn parsed<'a>(
    alloc: Global,
    name: &'a str,
    ids: &[&'a str],
    options: &[&'a str],
    words: &'a [&'a str],
) -> Result<ArgMatches<'a>, Memory>
    requires { takes (app_of_form name.now (texts ids.now) (texts options.now)) (texts words.now) ≡ true }
    ensures { IfOk result (λ m. is_simple (app_of_form name.entry.now (texts ids.now) (texts options.now)) ≡ true
        → rows_of (found_of m) ≡ matches_of (app_of_form name.entry.now (texts ids.now) (texts options.now)) (texts words.entry.now)) }
{
    let command = made(alloc, name, ids, options)?;
    match command.try_get_matches_from(words) {
        Ok(matches) => Ok(matches),
        Err(error) => {
            if is_memory(&error) {
                Err(Memory)
            } else {
                unreachable!()
            }
        }
    }
}

// The values of positional arguments, each of which has one.
fn places_of<'a>(
    alloc: Global,
    matches: &ArgMatches<'a>,
    ids: &[&str],
) -> Result<Vec<&'a str>, Memory>
    requires { list_all (λ id. is_some (first_value (found_of matches.now) id.now)) ids.now ≡ true }
    ensures { IfOk result (λ ps. map (λ p. Some p.now) ps.items ≡ map (λ id. first_value (found_of matches.now) id.now) ids.now) }
{
    let mut places = Vec::new(alloc);
    for id in ids {
        match matches.get_str(*id) {
            Some(word) => places.push(word)?,
            None => unreachable!(),
        }
    }
    Ok(places)
}

// The values of the options.
fn values_of<'a>(
    alloc: Global,
    matches: &ArgMatches<'a>,
    options: &[&str],
) -> Result<Vec<Option<&'a str>>, Memory>
    ensures { IfOk result (λ vs. map (option_map (λ s. s.now)) vs.items ≡ map (λ name. first_value (found_of matches.now) name.now) options.now) }
{
    let mut values = Vec::new(alloc);
    for name in options {
        values.push(matches.get_str(*name))?;
    }
    Ok(values)
}

// The values of all arguments.
fn given_by<'a>(
    alloc: Global,
    matches: &ArgMatches<'a>,
    ids: &[&str],
    options: &[&str],
) -> Result<Given<'a>, Memory>
    requires { list_all (λ id. is_some (first_value (found_of matches.now) id.now)) ids.now ≡ true }
    ensures places { IfOk result (λ g. map (λ p. Some p.now) g.places.items ≡ map (λ id. first_value (found_of matches.now) id.now) ids.now) }
    ensures values { IfOk result (λ g. map (option_map (λ s. s.now)) g.values.items ≡ map (λ name. first_value (found_of matches.now) name.now) options.now) }
{
    let places = places_of(alloc, matches, ids)?;
    let values = values_of(alloc, matches, options)?;
    Ok(Given { places, values })
}

/// What words say behind a command of this name, positional words of these names and these options.
pub fn line_of<'a>(
    alloc: Global,
    name: &'a str,
    ids: &[&'a str],
    options: &[&'a str],
    words: &'a [&'a str],
) -> Result<Given<'a>, WordStop>
    requires { Fits name.now (texts ids.now) (texts options.now) }
    ensures ok { IfOk result (λ g. Line (texts words.entry.now) (given_places g) (texts options.now) (given_values g)) }
    ensures places { IfOk result (λ g. length g.places.items ≡ length ids.now) }
    ensures err { IfErr result (λ e. e ≡ Usage → (places : List (List ℕ)) (values : List (Option (List ℕ))) → length places ≡ length ids.now → Line (texts words.entry.now) places (texts options.now) values → ⊥) }
{
    let Some(count) = count_places(alloc, options, words)? else {
        return Err(WordStop::Usage);
    };
    if count != ids.len() {
        return Err(WordStop::Usage);
    }
    let matches = parsed(alloc, name, ids, options, words)?;
    let given = given_by(alloc, &matches, ids, options)?;
    Ok(given)
}
