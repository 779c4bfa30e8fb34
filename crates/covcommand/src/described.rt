//! Describes the command line to clap.

ghost use Rattle.std.specs.Prelude.{◌≡◌, IfOk, codes};
ghost use Rattle.clap.specs.Walk.{Rule};
ghost use Rattle.clap.specs.Simple.{App, app_of, with_rule, with_subcommand};
ghost use Rattle.covcommand.specs.CommandLine as line;
ghost use Rattle.covcommand.specs.Built.{HasNoGlobals, IsRule};

use crate::combining::combine;
use crate::help;
use crate::html::html;
use clap::{Arg, ArgAction, Command, value_parser};
use std::alloc::{AllocError, Global};

/// Returns the description of the command line, with its subcommands.
pub(crate) fn described<'a>(alloc: Global) -> Result<Command<'a>, AllocError>
    ensures { IfOk result (λ c. app_of c ≡ line.covcollect) }
{
    let merging = with(Ok(program(alloc)), merge(alloc));
    let summing = with(merging, summary(alloc));
    let listing = with(summing, list(alloc));
    let extracting = with(listing, extract(alloc));
    let removing = with(extracting, remove(alloc));
    let converting = with(removing, gcov(alloc));
    let checking = with(converting, check(alloc));
    let combining = with(checking, combine(alloc));
    with(combining, html(alloc))
}

/// Adds a subcommand to `command`. It takes both as results, so that a description is a chain of moves without an early return: each
/// `?` would drop a command, which is dear to prove.
fn with<'a>(
    command: Result<Command<'a>, AllocError>,
    subcommand: Result<Command<'a>, AllocError>,
) -> Result<Command<'a>, AllocError>
    ensures { (before app : App) → IfOk command.entry (λ c. app_of c ≡ before) → IfOk subcommand.entry (HasNoGlobals app)
        → IfOk result (λ c. app_of c ≡ with_subcommand before app.top) }
{
    command?.subcommand(subcommand?)
}

/// Adds an argument to `command`, which it takes as a result, as `with` does.
pub(crate) fn taking<'a>(
    command: Result<Command<'a>, AllocError>,
    arg: Arg<'a>,
) -> Result<Command<'a>, AllocError>
    ensures { (app : App) (rule : Rule) → IfOk command.entry (HasNoGlobals app) → IsRule rule arg.entry
        → IfOk result (HasNoGlobals (with_rule app rule)) }
{
    command?.arg(arg)
}

/// Adds help texts to `command`: what it does, and how to call it.
pub(crate) fn explained<'a>(
    command: Result<Command<'a>, AllocError>,
    about: &'a str,
    end: &'a str,
) -> Result<Command<'a>, AllocError>
    ensures { (app : App) → IfOk command.entry (HasNoGlobals app) → IfOk result (HasNoGlobals app) }
{
    Ok(command?.about(about).after_help(end))
}

/// Returns the description of the program, without its subcommands.
fn program<'a>(alloc: Global) -> Command<'a>
    ensures { app_of result ≡ line.program }
{
    Command::new(alloc, "covcollect")
        .version(help::VERSION)
        .about(help::PROGRAM)
        .after_help(help::PROGRAM_END)
        .disable_help_subcommand(true)
}

fn merge<'a>(alloc: Global) -> Result<Command<'a>, AllocError>
    ensures { IfOk result (HasNoGlobals line.merge) }
{
    explained(merging(alloc, "merge"), help::MERGE, help::MERGE_END)
}

fn summary<'a>(alloc: Global) -> Result<Command<'a>, AllocError>
    ensures { IfOk result (HasNoGlobals line.summary) }
{
    let summary = explained(listing(alloc, "summary"), help::SUMMARY, help::SUMMARY_END);
    let lines = limit(alloc, "fail-under-lines", help::FAIL_UNDER_LINES);
    let functions = limit(alloc, "fail-under-functions", help::FAIL_UNDER_FUNCTIONS);
    let branches = limit(alloc, "fail-under-branches", help::FAIL_UNDER_BRANCHES);
    taking(taking(taking(summary, lines), functions), branches)
}

fn list<'a>(alloc: Global) -> Result<Command<'a>, AllocError>
    ensures { IfOk result (HasNoGlobals line.list) }
{
    explained(listing(alloc, "list"), help::LIST, help::LIST_END)
}

/// Returns the subcommand `name`, which prints totals: that of `merging` with the flag `--json`.
fn listing<'a>(alloc: Global, name: &'a str) -> Result<Command<'a>, AllocError>
    ensures { IfOk result (HasNoGlobals (line.listing name.entry.now)) }
{
    taking(merging(alloc, name), json(alloc))
}

/// Returns the subcommand `name` for tracefiles, with options for the number of jobs, the output file and the patterns of source
/// files, and with three flags.
fn merging<'a>(alloc: Global, name: &'a str) -> Result<Command<'a>, AllocError>
    ensures { IfOk result (HasNoGlobals (line.merging name.entry.now)) }
{
    let merging = taking(
        Ok(Command::new(alloc, name)),
        several(alloc, "FILE", help::TRACEFILES),
    );
    let merging = taking(merging, jobs(alloc));
    let merging = taking(merging, output(alloc));
    let merging = taking(merging, lcov2(alloc));
    let merging = taking(merging, strict(alloc, help::STRICT));
    let merging = taking(merging, large(alloc));
    let merging = taking(merging, patterns(alloc, "include", help::INCLUDE));
    taking(merging, patterns(alloc, "exclude", help::EXCLUDE))
}

fn extract<'a>(alloc: Global) -> Result<Command<'a>, AllocError>
    ensures { IfOk result (HasNoGlobals line.extract) }
{
    explained(filter(alloc, "extract"), help::EXTRACT, help::EXTRACT_END)
}

fn remove<'a>(alloc: Global) -> Result<Command<'a>, AllocError>
    ensures { IfOk result (HasNoGlobals line.remove) }
{
    explained(filter(alloc, "remove"), help::REMOVE, help::REMOVE_END)
}

/// Returns the subcommand `name` for one tracefile and patterns, with an option for the output file and three flags.
fn filter<'a>(alloc: Global, name: &'a str) -> Result<Command<'a>, AllocError>
    ensures { IfOk result (HasNoGlobals (line.filtering name.entry.now)) }
{
    let filter = taking(Ok(Command::new(alloc, name)), tracefile(alloc));
    let filter = taking(filter, several(alloc, "PATTERN", help::PATTERNS));
    let filter = taking(filter, output(alloc));
    let filter = taking(filter, lcov2(alloc));
    let filter = taking(filter, strict(alloc, help::STRICT));
    taking(filter, large(alloc))
}

fn gcov<'a>(alloc: Global) -> Result<Command<'a>, AllocError>
    ensures { IfOk result (HasNoGlobals line.gcov) }
{
    let gcov = explained(Ok(Command::new(alloc, "gcov")), help::GCOV, help::GCOV_END);
    let gcov = taking(gcov, several(alloc, "FILE", help::SOURCES));
    let gcov = taking(gcov, test(alloc));
    taking(gcov, output(alloc))
}

fn check<'a>(alloc: Global) -> Result<Command<'a>, AllocError>
    ensures { IfOk result (HasNoGlobals line.check) }
{
    let check = explained(
        Ok(Command::new(alloc, "check")),
        help::CHECK,
        help::CHECK_END,
    );
    let check = taking(check, several(alloc, "FILE", help::CHECKED));
    let check = taking(check, jobs(alloc));
    let check = taking(check, annotated(alloc));
    let check = taking(check, lcov2(alloc));
    let check = taking(check, strict(alloc, help::STRICT_CHECK));
    taking(check, large(alloc))
}

/// A required argument that may be repeated.
pub(crate) fn several<'a>(alloc: Global, id: &'a str, help: &'a str) -> Arg<'a>
    ensures { IsRule (line.several id.entry.now) result }
{
    Arg::new(alloc, id)
        .required(true)
        .num_args(1..)
        .action(ArgAction::Append)
        .help(help)
}

/// The argument for the tracefile that is filtered.
fn tracefile<'a>(alloc: Global) -> Arg<'a>
    ensures { IsRule (line.single (codes "TRACEFILE")) result }
{
    Arg::new(alloc, "TRACEFILE")
        .required(true)
        .action(ArgAction::Set)
        .help(help::TRACEFILE)
}

/// `--jobs N` or `-j N`, the number of jobs.
pub(crate) fn jobs<'a>(alloc: Global) -> Arg<'a>
    ensures { IsRule line.jobs result }
{
    Arg::new(alloc, "jobs")
        .short('j')
        .long("jobs")
        .value_name("N")
        .action(ArgAction::Set)
        .value_parser(value_parser!(u32).range(1..=64))
        .default_value("1")
        .help(help::JOBS)
}

/// `--output FILE` or `-o FILE`, the output file.
pub(crate) fn output<'a>(alloc: Global) -> Arg<'a>
    ensures { IsRule line.output result }
{
    Arg::new(alloc, "output")
        .short('o')
        .long("output")
        .value_name("FILE")
        .action(ArgAction::Set)
        .help(help::OUTPUT)
}

/// `--test NAME`, the name of a test.
fn test<'a>(alloc: Global) -> Arg<'a>
    ensures { IsRule line.test result }
{
    Arg::new(alloc, "test")
        .long("test")
        .value_name("NAME")
        .required(true)
        .action(ArgAction::Set)
        .help(help::TEST)
}

/// A repeatable option for a pattern.
pub(crate) fn patterns<'a>(alloc: Global, id: &'a str, help: &'a str) -> Arg<'a>
    ensures { IsRule (line.patterns id.entry.now) result }
{
    Arg::new(alloc, id)
        .long(id)
        .value_name("PATTERN")
        .action(ArgAction::Append)
        .help(help)
}

/// An option for a threshold, allowed at most once.
pub(crate) fn limit<'a>(alloc: Global, id: &'a str, help: &'a str) -> Arg<'a>
    ensures { IsRule (line.limit id.entry.now) result }
{
    Arg::new(alloc, id)
        .long(id)
        .value_name("N")
        .action(ArgAction::Set)
        .help(help)
}

/// The flag `--gcov`: the files are gcov's output.
fn annotated<'a>(alloc: Global) -> Arg<'a>
    ensures { IsRule line.annotated result }
{
    flag(alloc, "gcov", help::ANNOTATED)
}

/// The flag `--lcov2`: tracefiles of LCOV 2 are read too.
pub(crate) fn lcov2<'a>(alloc: Global) -> Arg<'a>
    ensures { IsRule line.lcov2 result }
{
    flag(alloc, "lcov2", help::LCOV2)
}

/// The flag `--strict`: files and patterns that look wrong are rejected.
pub(crate) fn strict<'a>(alloc: Global, help: &'a str) -> Arg<'a>
    ensures { IsRule line.strict result }
{
    flag(alloc, "strict", help)
}

/// The flag `--large`: tracefiles above the size limit are read in chunks.
pub(crate) fn large<'a>(alloc: Global) -> Arg<'a>
    ensures { IsRule line.large result }
{
    flag(alloc, "large", help::LARGE)
}

/// The flag `--json`: totals are printed as JSON.
pub(crate) fn json<'a>(alloc: Global) -> Arg<'a>
    ensures { IsRule line.json result }
{
    flag(alloc, "json", help::JSON)
}

/// A flag without a value.
pub(crate) fn flag<'a>(alloc: Global, id: &'a str, help: &'a str) -> Arg<'a>
    ensures { IsRule (line.flag id.entry.now) result }
{
    Arg::new(alloc, id)
        .long(id)
        .action(ArgAction::SetTrue)
        .help(help)
}
