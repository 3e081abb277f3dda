// The words, and what they ask for.
ghost use Rattle.std.specs.Prelude.{◌≡◌, ℕ, Bool, IfErr, IfOk, Option, Some, List, codes, map, true, is_none, option_map};
ghost use Rattle.clap.specs.Words.{Text, found_of, kind_of, matches_of, one_text, first_value, rows_of};
ghost use Rattle.clap.specs.Values.{bool_text};
ghost use Rattle.command_line.specs.Options.{tempo_app};
ghost use Rattle.command_line.specs.Words.{AreWithin, Asked, HasCause, ShowsCommand, ShowsNumber};
ghost use Rattle.command_line.specs.Words.{Kept, ShowsKeeping, SpellsCommand, are_read, are_taken};
ghost use Rattle.command_line.specs.Words.{asked_by, go_together, is_run, is_said, kept_by, late_text};
ghost use Rattle.command_line.specs.Words.{mode_text, stands};
ghost use Rattle.admission.specs.declared.policy.Lateness.{Lateness as SomeLateness};

use crate::options::tempo_command;
use admission::{Lateness, Policy};
use clap::error::ErrorKind;
use clap::parser::ValueSource;
use clap::{ArgMatches, Error};
use std::alloc::{AllocError, Global};

/// What is done with the query.
#[derive(Clone, Copy, Debug, PartialEq, Eq)]
pub enum Mode {
    /// It is answered.
    Run,
    /// It is answered, and a checkpoint is written where the input ends.
    Freeze,
    /// A checkpoint is read, and the lines behind it are answered.
    Resume,
    /// It is explained.
    Explain,
    /// The columns are told by which its input may be cut.
    Cut,
    /// It is answered for generated events, and the lines of the answer are counted.
    Sample,
}

/// Where a run keeps its state, so that it goes on from there when it is started again.
#[derive(Clone, Copy, Debug, PartialEq, Eq)]
pub struct Keeping<'a> {
    /// The file of the last checkpoint.
    pub checkpoint: &'a str,
    /// How many units of time are between two checkpoints at least.
    pub every: u64,
    /// The file that lines come from, or `-` for standard input.
    pub input: &'a str,
    /// The file that the answer goes to, or `-` for standard output.
    pub output: &'a str,
}

/// What the words ask for. The query is a part of the words.
#[derive(Clone, Copy, Debug, PartialEq, Eq)]
pub struct CommandLine<'a> {
    pub query: &'a str,
    pub mode: Mode,
    /// How many rows a batch has at most.
    pub batch: usize,
    /// How many threads work on a step with a key.
    pub workers: usize,
    /// Whether the first line of the input is a header.
    pub header: bool,
    /// How late lines and punctuations are taken.
    pub policy: Policy,
    /// The seed of the generated events.
    pub number: u64,
    /// How many events are generated.
    pub events: u64,
    /// Where the state of the run is kept, which may be in the mode Run alone.
    pub keeping: Option<Keeping<'a>>,
}

/// Why words give no command line.
#[derive(Debug, Drop)]
pub enum WordsFault {
    /// The words are not those of the command. The text is for standard error: what is wrong with them, or the help that they
    /// ask for. There is none where there was no memory for it.
    Refused { text: Option<String> },
    /// Out of memory.
    Memory,
}

// The value of an option that is a text.
fn text_of<'a>(matches: &ArgMatches<'a>, name: &str) -> &'a str
    ensures { (t : Text) → first_value (found_of matches.now) name.now ≡ Some t → result.now ≡ t }
{
    matches.get_str(name).unwrap_or("")
}

// Whether --header is given.
fn header_of(matches: &ArgMatches<'_>) -> bool
    ensures { (b : Bool) → one_text (found_of matches.now) (codes "header") ≡ Some (bool_text b) →
        result ≡ b }
{
    matches.get_flag("header")
}

// The mode that --mode names.
fn mode_of(matches: &ArgMatches<'_>) -> Mode
    ensures { (m : Mode) → first_value (found_of matches.now) (codes "mode") ≡ Some (mode_text m) →
        result ≡ m }
{
    match matches.get_str("mode") {
        Some("freeze") => Mode::Freeze,
        Some("resume") => Mode::Resume,
        Some("explain") => Mode::Explain,
        Some("cut") => Mode::Cut,
        Some("sample") => Mode::Sample,
        _ => Mode::Run,
    }
}

// The value of an option that is a size.
fn size_of(matches: &ArgMatches<'_>, name: &str) -> usize
    ensures { (least most n : ℕ) → ShowsNumber (found_of matches.now) name.now least most n →
        result ≡ n }
{
    matches.get_one::<usize>(name).unwrap_or(0)
}

// What --late says of late lines.
fn late_of(matches: &ArgMatches<'_>) -> Lateness
    ensures { (l : SomeLateness) → first_value (found_of matches.now) (codes "late")
        ≡ Some (late_text l) → result ≡ l }
{
    match matches.get_str("late") {
        Some("drop") => Lateness::Drop,
        Some("adjust") => Lateness::Adjust,
        _ => Lateness::Refuse,
    }
}

// The value of an option that is a number of 64 bits.
fn number_of(matches: &ArgMatches<'_>, name: &str) -> u64
    ensures { (least most n : ℕ) → ShowsNumber (found_of matches.now) name.now least most n →
        result ≡ n }
{
    matches.get_one::<u64>(name).unwrap_or(0)
}

// How lines are admitted, by --lateness, --late and --punctuate.
fn policy_of(matches: &ArgMatches<'_>) -> Policy
    ensures { (a : Asked) → ShowsCommand (found_of matches.now) a → result ≡ a.policy }
{
    Policy {
        lateness: number_of(matches, "lateness"),
        late: late_of(matches),
        period: number_of(matches, "punctuate"),
    }
}

// Where the state of the run is kept, where --checkpoint is given.
fn keeping_of<'a>(matches: &ArgMatches<'a>) -> Option<Keeping<'a>>
    ensures { (k : Option Kept) → ShowsKeeping (found_of matches.now) k →
        option_map kept_by result ≡ k }
{
    let checkpoint = matches.get_str("checkpoint")?;
    Some(Keeping {
        checkpoint,
        every: number_of(matches, "every"),
        input: text_of(matches, "input"),
        output: text_of(matches, "output"),
    })
}

// What the matches of a parse show. Each option has a value there, but --checkpoint.
fn command_of<'a>(matches: &ArgMatches<'a>) -> CommandLine<'a>
    ensures { (a : Asked) → ShowsCommand (found_of matches.now) a → asked_by result ≡ a }
{
    CommandLine {
        query: text_of(matches, "query"),
        mode: mode_of(matches),
        batch: size_of(matches, "batch"),
        workers: size_of(matches, "workers"),
        header: header_of(matches),
        policy: policy_of(matches),
        number: number_of(matches, "number"),
        events: number_of(matches, "events"),
        keeping: keeping_of(matches),
    }
}

// The words as clap reads them by the options of the command.
fn match_words<'a>(alloc: Global, words: &'a [&'a str]) -> Result<ArgMatches<'a>, Error>
    ensures taken { IfOk result (λ _. are_read (map (λ w. w.now) words.now) ≡ true) }
    ensures matches { IfOk result (λ m. rows_of (found_of m)
        ≡ matches_of tempo_app (map (λ w. w.now) words.now)) }
    ensures refused { IfErr result (λ e. are_taken (map (λ w. w.now) words.now) ≡ true →
        kind_of e ≡ ErrorKind.OutOfMemory) }
{
    let command = tempo_command(alloc)?;
    command.try_get_matches_from(words)
}

// What is told of an error of clap.
fn fault_of(alloc: Global, error: &Error) -> WordsFault
    ensures { (words : List Text) → (are_taken words ≡ true →
        kind_of error.now ≡ ErrorKind.OutOfMemory) → HasCause words result }
{
    if error.kind() == ErrorKind::OutOfMemory {
        return WordsFault::Memory;
    }
    WordsFault::Refused {
        text: format!(in alloc; "{error}").ok(),
    }
}

// Whether the value of an option stands in the words, and is not its default.
fn is_said(source: Option<ValueSource>) -> bool
    ensures { result ≡ is_said source }
{
    match source {
        Some(ValueSource::CommandLine) => true,
        Some(ValueSource::DefaultValue) => false,
        None => false,
    }
}

// Whether the words give the option its value.
fn stands(matches: &ArgMatches<'_>, name: &str) -> bool
    ensures { result ≡ stands name.now (rows_of (found_of matches.now)) }
{
    is_said(matches.value_source(name))
}

// Whether the mode is run.
fn is_run(matches: &ArgMatches<'_>) -> bool
    ensures { result ≡ is_run (first_value (found_of matches.now) (codes "mode")) }
{
    match matches.get_str("mode") {
        Some(mode) => mode == "run",
        None => false,
    }
}

// What is told of options that do not go together.
fn clash(matches: &ArgMatches<'_>) -> Option<&'static str>
    ensures { is_none result ≡ go_together (rows_of (found_of matches.now)) }
{
    if matches.get_str("checkpoint").is_some() {
        if is_run(matches) {
            return None;
        }
        return Some("error: --checkpoint goes with the mode run\n");
    }
    if stands(matches, "every") || stands(matches, "input") || stands(matches, "output") {
        return Some("error: --every, --input and --output go with --checkpoint\n");
    }
    None
}

/// What the words, of which the first is the program's name, ask for.
pub fn read_words<'a>(alloc: Global, words: &'a [&'a str]) -> Result<CommandLine<'a>, WordsFault>
    ensures spelled { IfOk result (λ c. SpellsCommand (map (λ w. w.now) words.now) (asked_by c)) }
    ensures within { IfOk result (λ c. AreWithin (asked_by c)) }
    ensures refused { IfErr result (HasCause (map (λ w. w.now) words.now)) }
{
    match match_words(alloc, words) {
        Ok(matches) => match clash(&matches) {
            Some(text) => Err(WordsFault::Refused {
                text: String::from_str(alloc, text).ok(),
            }),
            None => Ok(command_of(&matches)),
        },
        Err(error) => Err(fault_of(alloc, &error)),
    }
}
