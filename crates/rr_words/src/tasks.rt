//! What words ask for, by the subcommand that they name and its arguments.

ghost use Rattle.std.specs.Prelude.{◌≡◌, [], IfOk, map, option_map, unwrap_or};
ghost use Rattle.clap.specs.Words.{all_of, first_of, found_of, rows_of};
ghost use Rattle.rr_words.specs.Tasks.{file_of, is_set, form_of, cut_words_of, cut_words_in, finish_view, simulate_task, told_task, stats_task, audit_task, check_task, random_task, run_task, shell_task, sweep_task, draw_task, migrate_task, replace_words_of, replace_words_in, other_task_by, task_by, task_in, verify_task, export_of, export_task};

use clap::ArgMatches;
use std::alloc::{AllocError, Global};

/// The words of a cut: which part of a run a picture shows. The whole run is shown without any.
#[derive(Clone, Copy, Debug, PartialEq, Eq)]
pub struct CutWords<'a> {
    /// The first line of the schedule that is shown.
    pub from: Option<&'a str>,
    /// The last line that is shown.
    pub to: Option<&'a str>,
    /// The node whose events are shown.
    pub node: Option<&'a str>,
    /// The instance whose messages are shown.
    pub instance: Option<&'a str>,
    /// Whether requests are never folded.
    pub requests: bool,
    /// Whether the text is read as a tape, also where it could be a schedule.
    pub tape: bool,
    /// Whether the picture stands in a page for a browser.
    pub html: bool,
}

/// The words of a random schedule.
#[derive(Clone, Copy, Debug, PartialEq, Eq)]
pub struct RandomWords<'a> {
    /// The seed of the generator.
    pub seed: Option<&'a str>,
    /// How many steps follow the openings.
    pub steps: Option<&'a str>,
    /// How many nodes there are.
    pub nodes: Option<&'a str>,
    /// Whether each event is drawn among those that do something.
    pub lively: bool,
    /// How many steps in a thousand of a lively schedule have a fault.
    pub faults: Option<&'a str>,
    /// Whether it is finished, without faults, before it is printed.
    pub finish: bool,
    /// Whether the schedule is printed alone, without the report of its run.
    pub alone: bool,
    /// How the report is printed. As JSON it stands without the schedule.
    pub form: Form,
}

/// The words of a shell.
#[derive(Debug, Drop)]
pub struct ShellWords<'a> {
    /// How many nodes there are.
    pub nodes: Option<&'a str>,
    /// The folder of their folders.
    pub dir: Option<&'a str>,
    /// The client that asks.
    pub client: Option<&'a str>,
    /// How many milliseconds are between two ticks of a node.
    pub tick: Option<&'a str>,
    /// The nodes that are left down.
    pub without: Option<&'a str>,
    /// The lines to answer. Where there are none, standard input has them.
    pub lines: Vec<&'a str>,
    /// Whether it ends at the first line that isn't answered as asked.
    pub strict: bool,
    /// Whether it answers with JSON.
    pub json: bool,
}

/// The words of a replacement.
#[derive(Clone, Copy, Debug, PartialEq, Eq)]
pub struct ReplaceWords<'a> {
    /// The folder of the nodes' folders.
    pub dir: Option<&'a str>,
    /// The node that is replaced.
    pub node: Option<&'a str>,
    /// The nodes beside it that are left down.
    pub without: Option<&'a str>,
    /// How many milliseconds are between two ticks of a node.
    pub tick: Option<&'a str>,
    /// Whether it is only told what would be done.
    pub dry: bool,
}

/// How something is printed.
#[derive(Clone, Copy, Debug, PartialEq, Eq)]
pub enum Form {
    /// For people.
    Plain,
    /// As JSON.
    Json,
}

/// What is shown of the finish of a schedule: the events that go on from its end, without faults, until nothing is left to do.
#[derive(Clone, Copy, Debug, PartialEq, Eq)]
pub enum FinishView {
    /// The lines of the events that were added.
    Events,
    /// The report of the run of all events.
    Report,
    /// That report, an object a line.
    Objects,
    /// That report, with each event and what came of it.
    Explanation(Form),
}

/// What is shown of the run of a schedule, or of a tape. Where the file is `None`, standard input is meant.
#[derive(Clone, Copy, Debug, PartialEq, Eq)]
pub enum View<'a> {
    /// `rr sim --json [FILE]`: its report, an object a line.
    Report(Option<&'a str>),
    /// `rr sim --explain [--json] [FILE]`: its report, with each event and what came of it.
    Explanation(Form, Option<&'a str>),
    /// `rr sim --finish [--schedule-only] [--explain] [--json] [FILE]`: its finish.
    Finish(FinishView, Option<&'a str>),
    /// `rr stats [--json] [FILE]`: its statistics. The file may also have a tape.
    Statistics(Form, Option<&'a str>),
    /// `rr check FILE REPORT`: where its report differs first from the text in the second file.
    Comparison(Option<&'a str>, Option<&'a str>),
    /// `rr audit --explain [--json] [FILE]`: the report of a tape, with each event and what came of it.
    TapeExplanation(Form, Option<&'a str>),
    /// `rr stats --tape [--json] [FILE]`: the statistics of a tape.
    TapeStatistics(Form, Option<&'a str>),
}

/// What is exported of a cluster, and how.
#[derive(Clone, Copy, Debug, PartialEq, Eq)]
pub enum Exported {
    /// Its registry, as a script of claims.
    Claims,
    /// Its decided list.
    List,
    /// Its registry, an object of JSON for each name.
    Names,
    /// Its decided list, an object of JSON for each command.
    Commands,
}

/// What words ask for.
#[derive(Debug, Drop)]
pub enum Task<'a> {
    /// `rr sim [FILE]`: the report of the schedule in this file, or else in standard input, as by the word `-`.
    Simulate(Option<&'a str>),
    /// `rr sim` or `rr audit` with an option, `rr stats` or `rr check`: a view of the run of a schedule, or of a tape.
    View(View<'a>),
    /// `rr show DIR [--json]`: what the areas hold of the disk in this folder.
    Show(Option<&'a str>, Form),
    /// `rr random --seed SEED --steps STEPS --nodes NODES [--lively [--faults FAULTS]] [--finish] [--schedule-only] [--json]`: a
    /// random schedule, finished or as it is drawn, and the report of its run unless the schedule is printed alone.
    Random(RandomWords<'a>),
    /// `rr audit [FILE] [--json]`: whether the events are what nodes do of the tape in this file, or else in standard input.
    Audit(Option<&'a str>, Form),
    /// `rr run --nodes NODES --dir DIR --script SCRIPT [--tape TAPE] [--tick MILLISECONDS] [--without NODES] [--json]`: a run of
    /// nodes in threads by the script in this file, its tape into this file, how many milliseconds are between two ticks of a node, and
    /// the nodes that are left down.
    Run(
        Option<&'a str>,
        Option<&'a str>,
        Option<&'a str>,
        Option<&'a str>,
        Option<&'a str>,
        Option<&'a str>,
        Form,
    ),
    /// `rr shell [--nodes NODES] [--dir DIR] [--client CLIENT] [--tick MILLISECONDS] [--without NODES] [-c LINE].. [--strict] [--json]`: a
    /// run of nodes in threads, whom these lines or those of standard input ask as this client.
    Shell(ShellWords<'a>),
    /// `rr sweep [FILE] --seed SEED`: what a node restarts with after a crash behind each device call of the schedule in
    /// this file, or else in standard input; with the seed of the words of the last ending.
    Sweep(Option<&'a str>, Option<&'a str>),
    /// `rr draw [FILE] [--from FROM] [--to TO] [--node NODE] [--instance INSTANCE] [--requests] [--tape] [--html]`: the
    /// picture, or a page with it, of the schedule or tape in this file, or else in standard input, of the cut that these words write.
    Draw(Option<&'a str>, CutWords<'a>),
    /// `rr migrate DIR --node NODE --nodes NODES`: an opening of the disk in this folder, and what its areas hold then.
    /// The disk is that of node NODE of NODES nodes.
    Migrate(Option<&'a str>, Option<&'a str>, Option<&'a str>),
    /// `rr replace DIR --node NODE [--without NODES] [--tick MILLISECONDS] [--dry-run]`: a new folder for this node of the cluster in this
    /// folder, with the decisions of the others.
    Replace(ReplaceWords<'a>),
    /// `rr verify DIR [--json]`: whether the nodes' folders in this folder agree, and what each of them holds.
    Verify(Option<&'a str>, Form),
    /// `rr export DIR [--list] [--json]`: the registry that the nodes' folders in this folder have decided, as a script; or else the
    /// decided list; or one of them as JSON.
    Export(Option<&'a str>, Exported),
}

// The file that a word names. None means standard input: the word is a hyphen or isn't there.
fn file_of(word: Option<&str>) -> Option<&str>
    ensures { option_map (λ s. s.now) result ≡ file_of (option_map (λ s. s.now) word.entry) }
{
    match word {
        Some(path) => { if path == "-" { None } else { Some(path) } }
        None => None,
    }
}

// The word or the value of an option that was read under this name.
fn word_of<'a>(matches: &ArgMatches<'a>, id: &str) -> Option<&'a str>
    ensures { option_map (λ s. s.now) result ≡ first_of id.now (rows_of (found_of matches.now)) }
{
    matches.get_str(id)
}

// Whether an option without a text was read under this name.
fn is_set(matches: &ArgMatches<'_>, id: &str) -> bool
    ensures { result ≡ is_set id.now (rows_of (found_of matches.now)) }
{
    match word_of(matches, id) {
        Some(value) => value == "true",
        None => false,
    }
}

// The words of a cut among the arguments of `rr draw`.
fn cut_words<'a>(matches: &ArgMatches<'a>) -> CutWords<'a>
    ensures { cut_words_in result ≡ cut_words_of (rows_of (found_of matches.now)) }
{
    CutWords {
        from: word_of(matches, "FROM"),
        to: word_of(matches, "TO"),
        node: word_of(matches, "NODE"),
        instance: word_of(matches, "INSTANCE"),
        requests: is_set(matches, "REQUESTS"),
        tape: is_set(matches, "TAPE"),
        html: is_set(matches, "HTML"),
    }
}

// How something is printed, by the option for JSON.
fn form_of(matches: &ArgMatches<'_>) -> Form
    ensures { result ≡ form_of (rows_of (found_of matches.now)) }
{
    if is_set(matches, "JSON") {
        Form::Json
    } else {
        Form::Plain
    }
}

// What is shown of a finish.
fn finish_view(matches: &ArgMatches<'_>) -> FinishView
    ensures { result ≡ finish_view (rows_of (found_of matches.now)) }
{
    if is_set(matches, "ALONE") {
        return FinishView::Events;
    }
    let form = form_of(matches);
    if is_set(matches, "EXPLAIN") {
        return FinishView::Explanation(form);
    }
    match form {
        Form::Json => FinishView::Objects,
        Form::Plain => FinishView::Report,
    }
}

// What `rr sim` is asked for.
fn simulate_task<'a>(matches: &ArgMatches<'a>) -> Task<'a>
    ensures { task_in result ≡ simulate_task (rows_of (found_of matches.now)) }
{
    if is_set(matches, "FINISH") || is_set(matches, "ALONE") {
        let file = file_of(word_of(matches, "FILE"));
        return Task::View(View::Finish(finish_view(matches), file));
    }
    told_task(matches)
}

// What `rr sim` is asked for of a schedule as it is.
fn told_task<'a>(matches: &ArgMatches<'a>) -> Task<'a>
    ensures { task_in result ≡ told_task (rows_of (found_of matches.now)) }
{
    let file = file_of(word_of(matches, "FILE"));
    let form = form_of(matches);
    if is_set(matches, "EXPLAIN") {
        return Task::View(View::Explanation(form, file));
    }
    match form {
        Form::Json => Task::View(View::Report(file)),
        Form::Plain => Task::Simulate(file),
    }
}

// What `rr stats` is asked for.
fn stats_task<'a>(matches: &ArgMatches<'a>) -> Task<'a>
    ensures { task_in result ≡ stats_task (rows_of (found_of matches.now)) }
{
    let file = file_of(word_of(matches, "FILE"));
    let form = form_of(matches);
    if is_set(matches, "TAPE") {
        Task::View(View::TapeStatistics(form, file))
    } else {
        Task::View(View::Statistics(form, file))
    }
}

// What `rr audit` is asked for.
fn audit_task<'a>(matches: &ArgMatches<'a>) -> Task<'a>
    ensures { task_in result ≡ audit_task (rows_of (found_of matches.now)) }
{
    let file = file_of(word_of(matches, "FILE"));
    if is_set(matches, "EXPLAIN") {
        Task::View(View::TapeExplanation(form_of(matches), file))
    } else {
        Task::Audit(file, form_of(matches))
    }
}

// What `rr check` is asked for.
fn check_task<'a>(matches: &ArgMatches<'a>) -> Task<'a>
    ensures { task_in result ≡ check_task (rows_of (found_of matches.now)) }
{
    let file = file_of(word_of(matches, "FILE"));
    let report = file_of(word_of(matches, "REPORT"));
    Task::View(View::Comparison(file, report))
}

// What `rr random` is asked for.
fn random_task<'a>(matches: &ArgMatches<'a>) -> Task<'a>
    ensures { task_in result ≡ random_task (rows_of (found_of matches.now)) }
{
    Task::Random(RandomWords {
        seed: word_of(matches, "SEED"),
        steps: word_of(matches, "STEPS"),
        nodes: word_of(matches, "NODES"),
        lively: is_set(matches, "LIVELY"),
        faults: word_of(matches, "FAULTS"),
        finish: is_set(matches, "FINISH"),
        alone: is_set(matches, "ALONE"),
        form: form_of(matches),
    })
}

// What `rr run` is asked for.
fn run_task<'a>(matches: &ArgMatches<'a>) -> Task<'a>
    ensures { task_in result ≡ run_task (rows_of (found_of matches.now)) }
{
    Task::Run(
        word_of(matches, "NODES"),
        word_of(matches, "DIR"),
        word_of(matches, "SCRIPT"),
        word_of(matches, "TAPE"),
        word_of(matches, "TICK"),
        word_of(matches, "WITHOUT"),
        form_of(matches),
    )
}

// All texts of an option that were read under this name.
fn words_of<'a>(
    alloc: Global,
    matches: &ArgMatches<'a>,
    id: &str,
) -> Result<Vec<&'a str>, AllocError>
    ensures { IfOk result (λ v. map (λ s. s.now) v.items ≡ unwrap_or (all_of id.now (rows_of (found_of matches.now))) []) }
{
    match matches.get_strs(id) {
        None => Ok(Vec::new(alloc)),
        Some(given) => {
            let mut words = Vec::new(alloc);
            words.extend_from_slice(given)?;
            Ok(words)
        }
    }
}

// What `rr shell` is asked for.
fn shell_task<'a>(alloc: Global, matches: &ArgMatches<'a>) -> Result<Task<'a>, AllocError>
    ensures { IfOk result (λ t. task_in t ≡ shell_task (rows_of (found_of matches.now))) }
{
    Ok(Task::Shell(ShellWords {
        nodes: word_of(matches, "NODES"),
        dir: word_of(matches, "DIR"),
        client: word_of(matches, "CLIENT"),
        tick: word_of(matches, "TICK"),
        without: word_of(matches, "WITHOUT"),
        lines: words_of(alloc, matches, "LINE")?,
        strict: is_set(matches, "STRICT"),
        json: is_set(matches, "JSON"),
    }))
}

// What `rr sweep` is asked for.
fn sweep_task<'a>(matches: &ArgMatches<'a>) -> Task<'a>
    ensures { task_in result ≡ sweep_task (rows_of (found_of matches.now)) }
{
    Task::Sweep(file_of(word_of(matches, "FILE")), word_of(matches, "SEED"))
}

// What `rr draw` is asked for.
fn draw_task<'a>(matches: &ArgMatches<'a>) -> Task<'a>
    ensures { task_in result ≡ draw_task (rows_of (found_of matches.now)) }
{
    Task::Draw(file_of(word_of(matches, "FILE")), cut_words(matches))
}

// What `rr migrate` is asked for.
fn migrate_task<'a>(matches: &ArgMatches<'a>) -> Task<'a>
    ensures { task_in result ≡ migrate_task (rows_of (found_of matches.now)) }
{
    Task::Migrate(
        word_of(matches, "DIR"),
        word_of(matches, "NODE"),
        word_of(matches, "NODES"),
    )
}

// The words of a replacement among the arguments of `rr replace`.
fn replace_words<'a>(matches: &ArgMatches<'a>) -> ReplaceWords<'a>
    ensures { replace_words_in result ≡ replace_words_of (rows_of (found_of matches.now)) }
{
    let (dir, node) = (word_of(matches, "DIR"), word_of(matches, "NODE"));
    let (without, tick) = (word_of(matches, "WITHOUT"), word_of(matches, "TICK"));
    ReplaceWords {
        dir,
        node,
        without,
        tick,
        dry: is_set(matches, "DRY"),
    }
}

// What `rr verify` is asked for.
fn verify_task<'a>(matches: &ArgMatches<'a>) -> Task<'a>
    ensures { task_in result ≡ verify_task (rows_of (found_of matches.now)) }
{
    Task::Verify(word_of(matches, "DIR"), form_of(matches))
}

// What is exported.
fn export_of(matches: &ArgMatches<'_>) -> Exported
    ensures { result ≡ export_of (rows_of (found_of matches.now)) }
{
    match (is_set(matches, "LIST"), is_set(matches, "JSON")) {
        (false, false) => Exported::Claims,
        (true, false) => Exported::List,
        (false, true) => Exported::Names,
        (true, true) => Exported::Commands,
    }
}

// What `rr export` is asked for.
fn export_task<'a>(matches: &ArgMatches<'a>) -> Task<'a>
    ensures { task_in result ≡ export_task (rows_of (found_of matches.now)) }
{
    Task::Export(word_of(matches, "DIR"), export_of(matches))
}

// What a subcommand of this name, other than `shell`, is asked for.
fn other_task<'a>(name: &str, matches: &ArgMatches<'a>) -> Task<'a>
    ensures { task_in result ≡ other_task_by (name.now, rows_of (found_of matches.now)) }
{
    if name == "stats" {
        stats_task(matches)
    } else if name == "check" {
        check_task(matches)
    } else if name == "show" {
        Task::Show(word_of(matches, "DIR"), form_of(matches))
    } else if name == "random" {
        random_task(matches)
    } else if name == "audit" {
        audit_task(matches)
    } else if name == "run" {
        run_task(matches)
    } else if name == "sweep" {
        sweep_task(matches)
    } else if name == "draw" {
        draw_task(matches)
    } else if name == "migrate" {
        migrate_task(matches)
    } else if name == "replace" {
        Task::Replace(replace_words(matches))
    } else if name == "verify" {
        verify_task(matches)
    } else if name == "export" {
        export_task(matches)
    } else {
        simulate_task(matches)
    }
}

// What a subcommand of this name is asked for.
pub(crate) fn task_by<'a>(
    alloc: Global,
    name: &str,
    matches: &ArgMatches<'a>,
) -> Result<Task<'a>, AllocError>
    ensures { IfOk result (λ t. task_in t ≡ task_by (name.now, rows_of (found_of matches.now))) }
{
    if name == "shell" {
        shell_task(alloc, matches)
    } else {
        Ok(other_task(name, matches))
    }
}
