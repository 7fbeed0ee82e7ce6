//! The command line of `rr` that `clap` reads words by.

ghost use Rattle.std.specs.Prelude.{◌≡◌, IfOk, codes};
ghost use Rattle.clap.specs.Words.{App, app_of, new_app};
ghost use Rattle.rr_words.specs.Lines.{IsArg, IsLine, and_also, rr_line, schedule_lines, rr_settings, with_version, named_rule, told_line, sim_line, stats_line, check_line, show_line, migrate_line, replace_line, word_rule, number_rule, option_rule, optional_number_rule, flag_rule, tick_rule, without_rule, numbers_line, random_line, audit_line, run_line, lines_rule, asking_line, shell_line, sweep_line, draw_line, verify_line, export_line};

use crate::helps;
use clap::builder::ValueParser;
use clap::{Arg, ArgAction, Command};
use std::alloc::{AllocError, Global};

/// The greatest line that a word names.
pub const LAST_LINE: u64 = 4_294_967_295;

/// How many steps a random schedule has at most.
pub const MAX_STEPS: u64 = 999_930;

/// How many steps in a thousand of a lively schedule have a fault at most.
pub const MAX_FAULTS: u64 = 1_000;

/// The least milliseconds between two ticks of a node that a word names.
pub const LEAST_TICK: u64 = 10;

/// The most milliseconds between two ticks of a node that a word names.
pub const MOST_TICK: u64 = 10_000;

/// The greatest number of a client.
pub const LAST_CLIENT: u64 = 4_294_967_295;

// The command line of `rr`.
pub(crate) fn command_line<'a>(alloc: Global) -> Result<Command<'a>, AllocError>
    ensures { IfOk result (λ c. app_of c ≡ rr_line) }
{
    let line = with_line(schedule_lines(alloc)?, run_line(alloc))?;
    let line = with_line(line, shell_line(alloc))?;
    let line = with_line(line, audit_line(alloc))?;
    let line = with_line(line, show_line(alloc))?;
    let line = with_line(line, verify_line(alloc))?;
    let line = with_line(line, export_line(alloc))?;
    let line = with_line(line, migrate_line(alloc))?;
    with_line(line, replace_line(alloc))
}

// The command line with the subcommands on schedules.
fn schedule_lines<'a>(alloc: Global) -> Result<Command<'a>, AllocError>
    ensures { IfOk result (λ c. app_of c ≡ schedule_lines) }
{
    let line = with_line(top_line(alloc), sim_line(alloc))?;
    let line = with_line(line, stats_line(alloc))?;
    let line = with_line(line, check_line(alloc))?;
    let line = with_line(line, random_line(alloc))?;
    let line = with_line(line, sweep_line(alloc))?;
    with_line(line, draw_line(alloc))
}

// The command line with one more subcommand. Where it ends early, this function drops the line. A caller has nothing to
// drop then: the check of one with many such ends takes minutes.
fn with_line<'a>(
    line: Command<'a>,
    more: Result<Command<'a>, AllocError>,
) -> Result<Command<'a>, AllocError>
    ensures { (whole part : App) → app_of line.entry ≡ whole → IfOk more.entry (IsLine part) → IfOk result (λ c. app_of c ≡ and_also whole part) }
{
    match more {
        Ok(more) => line.subcommand(more),
        Err(error) => Err(error),
    }
}

// The command line without its subcommands.
fn top_line<'a>(alloc: Global) -> Command<'a>
    ensures { IsLine (rr_settings (new_app (codes "rr"))) result }
{
    versioned_line(alloc)
        .arg_required_else_help(true)
        .subcommand_required(true)
}

// The command with its version.
fn versioned_line<'a>(alloc: Global) -> Command<'a>
    ensures { IsLine (with_version (new_app (codes "rr"))) result }
{
    bare_line(
        alloc,
        "rr",
        "A replicated name registry that recovers from crashes",
        helps::program(),
    )
    .version("0.1.0")
}

// A command without its arguments: what it does, and what its long help ends with.
fn bare_line<'a>(alloc: Global, name: &'a str, about: &'a str, more: &'a str) -> Command<'a>
    ensures { IsLine (new_app name.entry.now) result }
{
    Command::new(alloc, name).about(about).after_long_help(more)
}

// A word, which has to be there or may be left out.
fn word_arg<'a>(alloc: Global, id: &'a str, help: &'a str, wanted: bool) -> Arg<'a>
    ensures { IsArg (word_rule id.entry.now wanted) result }
{
    Arg::new(alloc, id).help(help).required(wanted)
}

// An option, by its name and its help.
fn named_arg<'a>(alloc: Global, id: &'a str, long: &'a str, help: &'a str) -> Arg<'a>
    ensures { IsArg (named_rule id.entry.now long.entry.now) result }
{
    Arg::new(alloc, id).long(long).help(help)
}

// An option that has to be there, with a number in a range.
fn number_arg<'a>(
    alloc: Global,
    id: &'a str,
    long: &'a str,
    help: &'a str,
    least: u64,
    most: u64,
) -> Arg<'a>
    ensures { IsArg (number_rule id.entry.now long.entry.now least most) result }
{
    optional_number_arg(alloc, id, long, help, least, most).required(true)
}

// An option that may be left out, with a number in a range.
fn optional_number_arg<'a>(
    alloc: Global,
    id: &'a str,
    long: &'a str,
    help: &'a str,
    least: u64,
    most: u64,
) -> Arg<'a>
    ensures { IsArg (optional_number_rule id.entry.now long.entry.now least most) result }
{
    named_arg(alloc, id, long, help).value_parser(ValueParser::unsigned(least, most))
}

// An option with a text, which has to be there or may be left out.
fn option_arg<'a>(alloc: Global, id: &'a str, long: &'a str, help: &'a str, wanted: bool) -> Arg<'a>
    ensures { IsArg (option_rule id.entry.now long.entry.now wanted) result }
{
    named_arg(alloc, id, long, help).required(wanted)
}

// An option without a text, which may be left out.
fn flag_arg<'a>(alloc: Global, id: &'a str, long: &'a str, help: &'a str) -> Arg<'a>
    ensures { IsArg (flag_rule id.entry.now long.entry.now) result }
{
    named_arg(alloc, id, long, help).action(ArgAction::SetTrue)
}

// An option with a text, of one letter too, which may be left out or given more than once.
fn lines_arg<'a>(alloc: Global, id: &'a str, long: &'a str, help: &'a str, letter: char) -> Arg<'a>
    ensures { IsArg (lines_rule id.entry.now long.entry.now letter) result }
{
    named_arg(alloc, id, long, help)
        .short(letter)
        .action(ArgAction::Append)
}

// The option for how often nodes tick.
fn tick_arg<'a>(alloc: Global) -> Arg<'a>
    ensures { IsArg tick_rule result }
{
    optional_number_arg(
        alloc,
        "TICK",
        "tick",
        "Milliseconds between two ticks of a node, from 10 to 10000 [default: 50]",
        LEAST_TICK,
        MOST_TICK,
    )
}

// The option for nodes that are left down.
fn without_arg<'a>(alloc: Global) -> Arg<'a>
    ensures { IsArg without_rule result }
{
    option_arg(
        alloc,
        "WITHOUT",
        "without",
        "Leaves these nodes down, as 1 or 1,2: their folders aren't touched",
        false,
    )
}

// The command line of `rr sim` without what finishes a schedule.
fn told_line<'a>(alloc: Global) -> Result<Command<'a>, AllocError>
    ensures { IfOk result (IsLine told_line) }
{
    bare_line(
        alloc,
        "sim",
        "Runs a schedule and prints its report",
        helps::sim(),
    )
    .arg(word_arg(alloc, "FILE", helps::schedule(), false))?
    .arg(flag_arg(alloc, "EXPLAIN", "explain", helps::explain()))?
    .arg(flag_arg(
        alloc,
        "JSON",
        "json",
        "Prints an object of JSON for each line",
    ))
}

// The command line of `rr sim`.
fn sim_line<'a>(alloc: Global) -> Result<Command<'a>, AllocError>
    ensures { IfOk result (IsLine sim_line) }
{
    told_line(alloc)?
        .arg(flag_arg(alloc, "FINISH", "finish", helps::finish()))?
        .arg(flag_arg(
            alloc,
            "ALONE",
            "schedule-only",
            "Prints the events that --finish adds, alone; implies --finish",
        ))
}

// The command line of `rr stats`.
fn stats_line<'a>(alloc: Global) -> Result<Command<'a>, AllocError>
    ensures { IfOk result (IsLine stats_line) }
{
    bare_line(
        alloc,
        "stats",
        "Counts what happens in the run of a schedule, or on a tape",
        helps::stats(),
    )
    .arg(word_arg(alloc, "FILE", helps::recorded(), false))?
    .arg(flag_arg(alloc, "JSON", "json", "Prints an object of JSON"))?
    .arg(flag_arg(alloc, "TAPE", "tape", helps::as_tape()))
}

// The command line of `rr check`.
fn check_line<'a>(alloc: Global) -> Result<Command<'a>, AllocError>
    ensures { IfOk result (IsLine check_line) }
{
    bare_line(
        alloc,
        "check",
        "Runs a schedule and compares its report with a file",
        helps::check(),
    )
    .arg(word_arg(alloc, "FILE", "The schedule", true))?
    .arg(word_arg(alloc, "REPORT", "The report that it is to have", true))
}

// The command line of `rr show`.
fn show_line<'a>(alloc: Global) -> Result<Command<'a>, AllocError>
    ensures { IfOk result (IsLine show_line) }
{
    bare_line(
        alloc,
        "show",
        "Tells what the areas of a node's disk hold",
        helps::show(),
    )
    .arg(word_arg(alloc, "DIR", "The folder of the node", true))?
    .arg(flag_arg(
        alloc,
        "JSON",
        "json",
        "Prints an object of JSON for each area",
    ))
}

// The command line of `rr verify`.
fn verify_line<'a>(alloc: Global) -> Result<Command<'a>, AllocError>
    ensures { IfOk result (IsLine verify_line) }
{
    bare_line(
        alloc,
        "verify",
        "Tells what the folders of a cluster hold, and whether they agree",
        helps::verify(),
    )
    .arg(word_arg(alloc, "DIR", "The folder of the nodes' folders", true))?
    .arg(flag_arg(
        alloc,
        "JSON",
        "json",
        "Prints an object of JSON for each line",
    ))
}

// The command line of `rr export`.
fn export_line<'a>(alloc: Global) -> Result<Command<'a>, AllocError>
    ensures { IfOk result (IsLine export_line) }
{
    bare_line(
        alloc,
        "export",
        "Prints the registry of a cluster as a script of claims",
        helps::export(),
    )
    .arg(word_arg(alloc, "DIR", "The folder of the nodes' folders", true))?
    .arg(flag_arg(alloc, "LIST", "list", "Prints the decided list instead"))?
    .arg(flag_arg(
        alloc,
        "JSON",
        "json",
        "Prints an object of JSON for each name or command",
    ))
}

// The command line of `rr random`, with its seed, its steps and its nodes.
fn numbers_line<'a>(alloc: Global) -> Result<Command<'a>, AllocError>
    ensures { IfOk result (IsLine numbers_line) }
{
    bare_line(
        alloc,
        "random",
        "Draws a random schedule, prints it and the report of its run",
        helps::random(),
    )
    .arg(number_arg(alloc, "SEED", "seed", "The generator's seed", 0, u64::MAX))?
    .arg(number_arg(
        alloc,
        "STEPS",
        "steps",
        "How many steps follow the openings",
        0,
        MAX_STEPS,
    ))?
    .arg(number_arg(alloc, "NODES", "nodes", "How many nodes there are", 1, 7))
}

// The command line of `rr random`.
fn random_line<'a>(alloc: Global) -> Result<Command<'a>, AllocError>
    ensures { IfOk result (IsLine random_line) }
{
    numbers_line(alloc)?
        .arg(flag_arg(
            alloc,
            "LIVELY",
            "lively",
            "Draws among the events that do something",
        ))?
        .arg(optional_number_arg(
            alloc,
            "FAULTS",
            "faults",
            "With --lively, how many steps in a thousand have a fault [default: 10]",
            0,
            MAX_FAULTS,
        ))?
        .arg(flag_arg(alloc, "FINISH", "finish", helps::finish()))?
        .arg(flag_arg(
            alloc,
            "ALONE",
            "schedule-only",
            "Prints the schedule alone, without the report",
        ))?
        .arg(flag_arg(
            alloc,
            "JSON",
            "json",
            "Prints the report alone, an object of JSON for each line",
        ))
}

// The command line of `rr audit`.
fn audit_line<'a>(alloc: Global) -> Result<Command<'a>, AllocError>
    ensures { IfOk result (IsLine audit_line) }
{
    bare_line(
        alloc,
        "audit",
        "Says whether the events of a tape are what nodes do",
        helps::audit(),
    )
    .arg(word_arg(alloc, "FILE", "The tape [default: standard input]", false))?
    .arg(flag_arg(alloc, "EXPLAIN", "explain", helps::explain_tape()))?
    .arg(flag_arg(
        alloc,
        "JSON",
        "json",
        "Prints the verdict as an object of JSON, or an object for each line",
    ))
}

// The command line of `rr run`.
fn run_line<'a>(alloc: Global) -> Result<Command<'a>, AllocError>
    ensures { IfOk result (IsLine run_line) }
{
    bare_line(
        alloc,
        "run",
        "Runs nodes in threads over folders, and prints the answers to a script",
        helps::run(),
    )
    .arg(number_arg(alloc, "NODES", "nodes", "How many nodes there are", 1, 7))?
    .arg(option_arg(
        alloc,
        "DIR",
        "dir",
        "The folder of the nodes' folders",
        true,
    ))?
    .arg(option_arg(
        alloc,
        "SCRIPT",
        "script",
        "The script; - is standard input",
        true,
    ))?
    .arg(option_arg(alloc, "TAPE", "tape", "Where the tape is written", false))?
    .arg(tick_arg(alloc))?
    .arg(without_arg(alloc))?
    .arg(flag_arg(
        alloc,
        "JSON",
        "json",
        "Prints an object of JSON for each answer",
    ))
}

// The command line of `rr shell` without how it answers.
fn asking_line<'a>(alloc: Global) -> Result<Command<'a>, AllocError>
    ensures { IfOk result (IsLine asking_line) }
{
    bare_line(
        alloc,
        "shell",
        "Runs nodes in threads over folders, and answers commands line by line",
        helps::shell(),
    )
    .arg(optional_number_arg(
        alloc,
        "NODES",
        "nodes",
        "How many nodes there are [default: as many as DIR has, else 3]",
        1,
        7,
    ))?
    .arg(option_arg(
        alloc,
        "DIR",
        "dir",
        "The folder of the nodes' folders [default: rr-data]",
        false,
    ))?
    .arg(optional_number_arg(
        alloc,
        "CLIENT",
        "client",
        "The client that asks [default: 0]",
        0,
        LAST_CLIENT,
    ))?
    .arg(lines_arg(
        alloc,
        "LINE",
        "command",
        "Answers this line, and no standard input; may be given again",
        'c',
    ))
}

// The command line of `rr shell`.
fn shell_line<'a>(alloc: Global) -> Result<Command<'a>, AllocError>
    ensures { IfOk result (IsLine shell_line) }
{
    asking_line(alloc)?
        .arg(tick_arg(alloc))?
        .arg(without_arg(alloc))?
        .arg(flag_arg(
            alloc,
            "STRICT",
            "strict",
            "Ends at the first line that isn't answered as asked",
        ))?
        .arg(flag_arg(
            alloc,
            "JSON",
            "json",
            "Answers with an object of JSON for each line",
        ))
}

// The command line of `rr sweep`.
fn sweep_line<'a>(alloc: Global) -> Result<Command<'a>, AllocError>
    ensures { IfOk result (IsLine sweep_line) }
{
    bare_line(
        alloc,
        "sweep",
        "Crashes a node after each device call of a schedule, and tells what it restarts with",
        helps::sweep(),
    )
    .arg(word_arg(alloc, "FILE", helps::schedule(), false))?
    .arg(number_arg(
        alloc,
        "SEED",
        "seed",
        "The seed of the last ending's words",
        0,
        u64::MAX,
    ))
}

// The command line of `rr draw`.
fn draw_line<'a>(alloc: Global) -> Result<Command<'a>, AllocError>
    ensures { IfOk result (IsLine draw_line) }
{
    bare_line(
        alloc,
        "draw",
        "Draws the run of a schedule, or a tape, as an SVG picture",
        helps::draw(),
    )
    .arg(word_arg(alloc, "FILE", helps::recorded(), false))?
    .arg(optional_number_arg(
        alloc,
        "FROM",
        "from",
        "The first line [default: 1]",
        1,
        LAST_LINE,
    ))?
    .arg(optional_number_arg(
        alloc,
        "TO",
        "to",
        "The last line [default: the end]",
        1,
        LAST_LINE,
    ))?
    .arg(optional_number_arg(alloc, "NODE", "node", "The node [default: all nodes]", 0, 6))?
    .arg(optional_number_arg(
        alloc,
        "INSTANCE",
        "instance",
        "The instance of the messages [default: all events]",
        0,
        1_048_575,
    ))?
    .arg(flag_arg(alloc, "REQUESTS", "requests", "Folds no requests"))?
    .arg(flag_arg(alloc, "TAPE", "tape", helps::as_tape()))?
    .arg(flag_arg(
        alloc,
        "HTML",
        "html",
        "Prints a page for a browser, with the picture",
    ))
}

// The command line of `rr migrate`.
fn migrate_line<'a>(alloc: Global) -> Result<Command<'a>, AllocError>
    ensures { IfOk result (IsLine migrate_line) }
{
    bare_line(
        alloc,
        "migrate",
        "Opens a node's folder, brings it to version 2 if need be, and tells what its areas hold",
        helps::migrate(),
    )
    .arg(word_arg(alloc, "DIR", "The folder of the node", true))?
    .arg(number_arg(alloc, "NODE", "node", "Which node it is", 0, 6))?
    .arg(number_arg(alloc, "NODES", "nodes", "How many nodes there are", 1, 7))
}

// The command line of `rr replace`.
fn replace_line<'a>(alloc: Global) -> Result<Command<'a>, AllocError>
    ensures { IfOk result (IsLine replace_line) }
{
    bare_line(
        alloc,
        "replace",
        "Gives a node whose disk is lost a new folder, by what the others have decided",
        helps::replace(),
    )
    .arg(word_arg(alloc, "DIR", "The folder of the nodes' folders", true))?
    .arg(number_arg(alloc, "NODE", "node", "Which node's disk is lost", 0, 6))?
    .arg(without_arg(alloc))?
    .arg(tick_arg(alloc))?
    .arg(flag_arg(
        alloc,
        "DRY",
        "dry-run",
        "Tells what would be done, and does nothing",
    ))
}
