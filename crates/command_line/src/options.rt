// The options of the command line.
ghost use Rattle.std.specs.Prelude.{◌≡◌, ◌∷◌, [], IfOk, List, codes, false, map};
ghost use Rattle.std.specs.Borrow.{Bor};
ghost use Rattle.clap.specs.Words.{Text, app_of, new_app, rule_of};
ghost use Rattle.clap.specs.declared.builder.value_parser.ValueParser.TheVariants.{Names};
ghost use Rattle.command_line.specs.Options.{batch_rule, checkpoint_rule, events_rule, every_rule};
ghost use Rattle.command_line.specs.Options.{header_rule, input_rule, late_names, output_rule};
ghost use Rattle.command_line.specs.Options.{late_rule, lateness_rule, mode_names, mode_rule};
ghost use Rattle.command_line.specs.Options.{number_rule, punctuate_rule, query_rule, workers_rule};
ghost use Rattle.command_line.specs.Options.{tempo_app_with};

use clap::builder::ValueParser;
use clap::{Arg, ArgAction, Command};
use std::alloc::{AllocError, Global};

static MODES: [&str; 6] = ["run", "freeze", "resume", "explain", "cut", "sample"];

static WAYS: [&str; 3] = ["refuse", "drop", "adjust"];

// The greatest time of an event.
const LATEST: u64 = (1 << 60) - 1;

fn query_option<'a>(alloc: Global) -> Arg<'a>
    ensures rule { rule_of result ≡ query_rule }
    ensures local { result.global ≡ false }
{
    Arg::new(alloc, "query")
        .long("query")
        .action(ArgAction::Set)
        .required(true)
        .help("The query")
}

fn mode_option<'a>(alloc: Global) -> Arg<'a>
    ensures rule { (modes : Bor (List (Bor Text))) × (map (λ s. s.now) modes.now ≡ mode_names)
        × (rule_of result ≡ mode_rule (Names modes)) }
    ensures local { result.global ≡ false }
{
    Arg::new(alloc, "mode")
        .long("mode")
        .action(ArgAction::Set)
        .value_parser(MODES.as_slice())
        .default_value("run")
        .help(
            "What is done with the query: run answers it, freeze ends with a checkpoint, resume \
             begins with one, explain prints the plan, cut prints by which columns the input may \
             be cut, sample answers generated trades",
        )
}

fn batch_option<'a>(alloc: Global) -> Arg<'a>
    ensures rule { rule_of result ≡ batch_rule }
    ensures local { result.global ≡ false }
{
    Arg::new(alloc, "batch")
        .long("batch")
        .action(ArgAction::Set)
        .value_parser(ValueParser::unsigned(1, 8192))
        .default_value("1024")
        .help("How many rows a batch has at most, from 1 to 8192")
}

fn workers_option<'a>(alloc: Global) -> Arg<'a>
    ensures rule { rule_of result ≡ workers_rule }
    ensures local { result.global ≡ false }
{
    Arg::new(alloc, "workers")
        .long("workers")
        .action(ArgAction::Set)
        .value_parser(ValueParser::unsigned(1, 16))
        .default_value("1")
        .help("How many threads work on a step with a key, from 1 to 16")
}

fn header_option<'a>(alloc: Global) -> Arg<'a>
    ensures rule { rule_of result ≡ header_rule }
    ensures local { result.global ≡ false }
{
    Arg::new(alloc, "header")
        .long("header")
        .action(ArgAction::SetTrue)
        .help("Skips the first line of the input")
}

fn late_option<'a>(alloc: Global) -> Arg<'a>
    ensures rule { (ways : Bor (List (Bor Text))) × (map (λ s. s.now) ways.now ≡ late_names)
        × (rule_of result ≡ late_rule (Names ways)) }
    ensures local { result.global ≡ false }
{
    Arg::new(alloc, "late")
        .long("late")
        .action(ArgAction::Set)
        .value_parser(WAYS.as_slice())
        .default_value("refuse")
        .help("What becomes of a line that is late")
}

fn lateness_option<'a>(alloc: Global) -> Arg<'a>
    ensures rule { rule_of result ≡ lateness_rule }
    ensures local { result.global ≡ false }
{
    Arg::new(alloc, "lateness")
        .long("lateness")
        .action(ArgAction::Set)
        .value_parser(ValueParser::unsigned(0, LATEST))
        .default_value("0")
        .help("How much older than the newest line of its stream a line may be and not be late")
}

fn punctuate_option<'a>(alloc: Global) -> Arg<'a>
    ensures rule { rule_of result ≡ punctuate_rule }
    ensures local { result.global ≡ false }
{
    Arg::new(alloc, "punctuate")
        .long("punctuate")
        .action(ArgAction::Set)
        .value_parser(ValueParser::unsigned(0, LATEST))
        .default_value("0")
        .help(
            "A punctuation at each multiple of this number that all streams have passed, or 0 for \
             none",
        )
}

fn number_option<'a>(alloc: Global) -> Arg<'a>
    ensures rule { rule_of result ≡ number_rule }
    ensures local { result.global ≡ false }
{
    Arg::new(alloc, "number")
        .long("number")
        .action(ArgAction::Set)
        .value_parser(ValueParser::unsigned(0, 4294967295))
        .default_value("0")
        .help("The seed of the generated events")
}

fn events_option<'a>(alloc: Global) -> Arg<'a>
    ensures rule { rule_of result ≡ events_rule }
    ensures local { result.global ≡ false }
{
    Arg::new(alloc, "events")
        .long("events")
        .action(ArgAction::Set)
        .value_parser(ValueParser::unsigned(1, 1000000))
        .default_value("1000")
        .help("How many events are generated")
}

fn checkpoint_option<'a>(alloc: Global) -> Arg<'a>
    ensures rule { rule_of result ≡ checkpoint_rule }
    ensures local { result.global ≡ false }
{
    Arg::new(alloc, "checkpoint")
        .long("checkpoint")
        .action(ArgAction::Set)
        .value_parser(ValueParser::NonEmptyString)
        .help(
            "The file that keeps the state of the run, which goes on from it when it starts again",
        )
}

fn every_option<'a>(alloc: Global) -> Arg<'a>
    ensures rule { rule_of result ≡ every_rule }
    ensures local { result.global ≡ false }
{
    Arg::new(alloc, "every")
        .long("every")
        .action(ArgAction::Set)
        .value_parser(ValueParser::unsigned(1, LATEST))
        .default_value("1")
        .help("How many units of time are between two checkpoints at least")
}

fn input_option<'a>(alloc: Global) -> Arg<'a>
    ensures rule { rule_of result ≡ input_rule }
    ensures local { result.global ≡ false }
{
    Arg::new(alloc, "input")
        .long("input")
        .action(ArgAction::Set)
        .value_parser(ValueParser::NonEmptyString)
        .default_value("-")
        .help("With a checkpoint: the file that lines come from, or - for standard input")
}

fn output_option<'a>(alloc: Global) -> Arg<'a>
    ensures rule { rule_of result ≡ output_rule }
    ensures local { result.global ≡ false }
{
    Arg::new(alloc, "output")
        .long("output")
        .action(ArgAction::Set)
        .value_parser(ValueParser::NonEmptyString)
        .default_value("-")
        .help("With a checkpoint: the file that the answer goes to, or - for standard output")
}

fn bare_command<'a>(alloc: Global) -> Command<'a>
    ensures { app_of result ≡ new_app (codes "tempo") }
{
    Command::new(alloc, "tempo").about("Answers a query over streams of events")
}

/// The command `tempo` with its options.
pub(crate) fn tempo_command<'a>(alloc: Global) -> Result<Command<'a>, AllocError>
    ensures { IfOk result (λ c. (modes : Bor (List (Bor Text))) × (ways : Bor (List (Bor Text)))
        × (map (λ s. s.now) modes.now ≡ mode_names) × (map (λ s. s.now) ways.now ≡ late_names)
        × (app_of c ≡ tempo_app_with (Names modes) (Names ways))) }
{
    bare_command(alloc)
        .arg(query_option(alloc))?
        .arg(mode_option(alloc))?
        .arg(batch_option(alloc))?
        .arg(workers_option(alloc))?
        .arg(header_option(alloc))?
        .arg(late_option(alloc))?
        .arg(lateness_option(alloc))?
        .arg(punctuate_option(alloc))?
        .arg(number_option(alloc))?
        .arg(events_option(alloc))?
        .arg(checkpoint_option(alloc))?
        .arg(every_option(alloc))?
        .arg(input_option(alloc))?
        .arg(output_option(alloc))
}
