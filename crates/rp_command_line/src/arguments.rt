//! What the matches of a command give: its files, numbers and options.
ghost use Rattle.std.specs.Prelude.{◌≡◌, ◌≤◌, ◌&&◌, nat_le, if◌then◌else◌, Some, None, IfOk};
ghost use Rattle.std.specs.Prelude.{IfSome, map, option_map};
ghost use Rattle.clap.specs.Walk.{first_of};
ghost use Rattle.clap.specs.Words.{found_of, rows_of};
ghost use Rattle.rp_command_line.specs.CommandLine.{file, number};
ghost use Rattle.rp_command_line.specs.CommandForms.{units};
ghost use Rattle.rp_command_line.specs.Named.{named_form, named_arguments, named_number};
ghost use Rattle.rp_command_line.specs.Words.{all_in, arguments_in, json_of, number_of};

use crate::commands::{CommandForm, NumberArgument, UNITS};
use clap::ArgMatches;
use rp_num::NoMemory;
use std::alloc::Global;

/// What is given to a command: its files and its numbers in the order of the words, and its options.
#[derive(Drop)]
pub struct Arguments<'a> {
    pub files: Vec<&'a str>,
    pub numbers: Vec<u64>,
    /// How many units there are to be on each budget.
    pub per: Option<u32>,
    /// Whether the answer is to be JSON.
    pub json: bool,
}

impl<'a> Arguments<'a> {
    /// The k-th file, or an empty name.
    pub fn file(&self, k: usize) -> &'a str
        ensures { result.now ≡ file (named_arguments self.now) k }
    {
        match self.files.get(k) {
            Some(file) => file,
            None => "",
        }
    }

    /// The k-th number, or 0.
    pub fn number(&self, k: usize) -> u64
        ensures { result ≡ number (named_arguments self.now) k }
    {
        match self.numbers.get(k) {
            Some(number) => *number,
            None => 0,
        }
    }
}

/// What the matches give to a command of that form, or none where one of its files or numbers is missing.
pub(crate) fn arguments_in<'a>(
    alloc: Global,
    form: &CommandForm,
    matches: &ArgMatches<'a>,
) -> Result<Option<Arguments<'a>>, NoMemory>
    ensures { IfOk result (λ arguments. option_map named_arguments arguments
        ≡ arguments_in (named_form form.now) (rows_of (found_of matches.now))) }
{
    let Some(files) = files_in(alloc, form.files.names(), matches)? else {
        return Ok(None);
    };
    let Some(numbers) = numbers_in(alloc, form.numbers, matches)? else {
        return Ok(None);
    };
    let per = if form.per { per_of(matches) } else { None };
    let json = if form.json { asks_json(matches) } else { false };
    Ok(Some(Arguments {
        files,
        numbers,
        per,
        json,
    }))
}

/// The files that the matches name, or none where one is missing.
fn files_in<'a>(
    alloc: Global,
    ids: &[&'static str],
    matches: &ArgMatches<'a>,
) -> Result<Option<Vec<&'a str>>, NoMemory>
    ensures { IfOk result (λ files. option_map (λ all. map (λ file. file.now) all.items) files
        ≡ all_in first_of (map (λ id. id.now) ids.now) (rows_of (found_of matches.now))) }
{
    let mut files = Vec::new(alloc);
    for id in ids {
        match text_of(matches, id) {
            Some(file) => files.push(file)?,
            None => return Ok(None),
        }
    }
    Ok(Some(files))
}

/// The numbers that the matches name, or none where one is missing.
fn numbers_in(
    alloc: Global,
    numbers: &[NumberArgument],
    matches: &ArgMatches<'_>,
) -> Result<Option<Vec<u64>>, NoMemory>
    ensures { IfOk result (λ read. option_map (λ all. all.items) read
        ≡ all_in number_of (map named_number numbers.now) (rows_of (found_of matches.now))) }
{
    let mut all = Vec::new(alloc);
    for number in numbers {
        match number_of(matches, number) {
            Some(value) => all.push(value)?,
            None => return Ok(None),
        }
    }
    Ok(Some(all))
}

/// How many units are asked for on each budget.
fn per_of(matches: &ArgMatches<'_>) -> Option<u32>
    ensures { result ≡ number_of units (rows_of (found_of matches.now)) }
{
    match number_of(matches, &UNITS) {
        Some(units) => Some(units as u32),
        None => None,
    }
}

/// Whether the answer is to be JSON.
fn asks_json(matches: &ArgMatches<'_>) -> bool
    ensures { result ≡ json_of (rows_of (found_of matches.now)) }
{
    match text_of(matches, "json") {
        Some(text) => text == "true",
        None => false,
    }
}

/// The text of an argument.
fn text_of<'a>(matches: &ArgMatches<'a>, id: &str) -> Option<&'a str>
    ensures { option_map (λ s. s.now) result
        ≡ first_of id.now (rows_of (found_of matches.now)) }
{
    matches.get_str(id)
}

/// A number in its range.
fn number_of(matches: &ArgMatches<'_>, number: &NumberArgument) -> Option<u64>
    ensures exact { result ≡ number_of (named_number number.now) (rows_of (found_of matches.now)) }
    ensures within { IfSome result (λ n. (number.now.least ≤ n) × (n ≤ number.now.most)) }
{
    match matches.get_one::<u64>(number.name) {
        Some(value) => in_range(value, number.least, number.most),
        None => None,
    }
}

fn in_range(number: u64, least: u64, most: u64) -> Option<u64>
    ensures { result ≡ (if nat_le least number && nat_le number most then Some number else None) }
{
    if least <= number && number <= most {
        Some(number)
    } else {
        None
    }
}
