//! Random schedules, drawn by the numbers that words name, run and told as text.

ghost use Rattle.std.specs.Prelude.{◌≡◌, ◌≤◌, ℕ, List, Option, None, Some, true, false, IfOk, IfErr, IfSome, option_map};
ghost use Rattle.std.specs.Io.KnownBytes.{Keeps};
ghost use Rattle.rr_words.specs.Tasks.{random_words_in};
ghost use Rattle.rr_cli.specs.Randoms.{IsNumberIn, IsNumberOf, AreFaults, FitsForm, AreNumbers, IsDrawnText};
ghost use Rattle.rr_cli.specs.RandomObjects.{IsDrawnIn};
ghost use Rattle.rr_cli.specs.Ends.{EndsOnRandom, EndsOnWords};
ghost use Rattle.rr_cli.specs.Finishing.{IsFinishedDraw};

use crate::finishing::end_by_finish;
use crate::random_objects::drawn_objects;
use crate::refusals::end_by_refusal;
use crate::streams::end_by_text;
use rr_lively::{DEFAULT_FAULTS, Ending, Recipe, finish_run, lively_run, lively_schedule};
use rr_sim::{MAX_STEPS, random, random_run};
use rr_stream::Sink;
use rr_types::{Nodes, Refusal};
use rr_words::{Form, MAX_FAULTS, RandomWords};
use std::alloc::Global;
use std::io::Write;

// The words name as many steps as a schedule may have.
const _: () = prove!(rr_words::MAX_STEPS == MAX_STEPS as u64);

/// The numbers of a random schedule: how many nodes it has, the seed of its words, how many steps it has, and if it is
/// lively, how many steps in a thousand have a fault; whether it is finished; whether it is printed alone; and how the report is
/// printed.
#[derive(Clone, Copy, Debug)]
pub(crate) struct RandomNumbers {
    pub(crate) nodes: Nodes,
    pub(crate) seed: u64,
    pub(crate) steps: u32,
    pub(crate) faults: Option<u32>,
    pub(crate) finish: bool,
    pub(crate) alone: bool,
    pub(crate) form: Form,
}

/// The number that a text writes, where it lies in the range.
pub fn number_in(text: &str, least: u64, most: u64) -> Option<u64>
    ensures some { IfSome result (λ n. IsNumberIn least most text.now n) }
    ensures none { result ≡ None → (n : ℕ) → IsNumberIn least most text.now n → ⊥ }
{
    match text.parse::<u64>() {
        Ok(number) => {
            if least <= number && number <= most {
                Some(number)
            } else {
                None
            }
        }
        Err(_) => None,
    }
}

/// The number of nodes, from 1 to 7, that a word names.
pub fn nodes_of(word: &str) -> Option<Nodes>
    ensures some { IfSome result (λ n. IsNumberIn 1 7 word.now n) }
    ensures none { result ≡ None → (n : ℕ) → IsNumberIn 1 7 word.now n → ⊥ }
{
    let nodes = number_in(word, 1, 7)?;
    match Nodes::new(nodes as u8) {
        Ok(nodes) => Some(nodes),
        Err(_) => unreachable!(),
    }
}

/// The number in a range that a word names, where there is a word.
pub(crate) fn number_of(word: Option<&str>, least: u64, most: u64) -> Option<u64>
    ensures some { IfSome result (λ n. IsNumberOf least most (option_map (λ s. s.now) word.entry) n) }
    ensures none { result ≡ None → (n : ℕ) → IsNumberOf least most (option_map (λ s. s.now) word.entry) n → ⊥ }
{
    match word {
        Some(word) => number_in(word, least, most),
        None => None,
    }
}

// The faults of a lively schedule, by the word for them; none of one that isn't lively, which has no such word.
fn faults_of(lively: bool, word: Option<&str>) -> Option<Option<u32>>
    ensures some { IfSome result (λ f. AreFaults lively (option_map (λ s. s.now) word.entry) f) }
    ensures none { result ≡ None → (f : Option ℕ) → AreFaults lively (option_map (λ s. s.now) word.entry) f → ⊥ }
{
    if lively {
        match word {
            Some(word) => {
                let faults = number_in(word, 0, MAX_FAULTS)?;
                Some(Some(faults as u32))
            }
            None => Some(Some(DEFAULT_FAULTS)),
        }
    } else {
        match word {
            Some(_) => None,
            None => Some(None),
        }
    }
}

// Whether a form fits: where the schedule is printed itself there is no JSON.
fn fits_form(itself: bool, form: Form) -> bool
    ensures yes { result ≡ true → FitsForm itself form }
    ensures no { result ≡ false → FitsForm itself form → ⊥ }
{
    match form {
        Form::Plain => true,
        Form::Json => !itself,
    }
}

// The numbers that words name, where their form fits.
fn numbers_of(words: &RandomWords) -> Option<RandomNumbers>
    ensures some { IfSome result (λ d. AreNumbers (random_words_in words.now) d.seed d.steps d.nodes d.faults) }
    ensures few { IfSome result (λ d. d.steps ≤ 999930) }
    ensures finish { IfSome result (λ d. d.finish ≡ words.now.finish) }
    ensures alone { IfSome result (λ d. d.alone ≡ words.now.alone) }
    ensures form { IfSome result (λ d. d.form ≡ words.now.form) }
    ensures none { result ≡ None → (s k n : ℕ) (f : Option ℕ) → AreNumbers (random_words_in words.now) s k n f → ⊥ }
{
    let seed = number_of(words.seed, 0, u64::MAX)?;
    let steps = number_of(words.steps, 0, u64::from(MAX_STEPS))?;
    let nodes = nodes_of(words.nodes?)?;
    let faults = faults_of(words.lively, words.faults)?;
    if !fits_form(words.finish || words.alone, words.form) {
        return None;
    }
    Some(RandomNumbers {
        nodes,
        seed,
        steps: steps as u32,
        faults,
        finish: words.finish,
        alone: words.alone,
        form: words.form,
    })
}

// The text of a random schedule.
fn lone_schedule<O: Sink>(
    alloc: Global,
    numbers: RandomNumbers,
    out: &mut O,
) -> Result<Vec<u8>, Refusal>
    requires { numbers.steps ≤ 999930 }
    ensures ok { IfOk result (λ text. IsDrawnText true None numbers.nodes numbers.seed numbers.steps text.items) }
    ensures err { IfErr result (λ e. e ≡ Refusal.OutOfMemory) }
    ensures unprinted { O.printing out.new ≡ O.printing out.old }
{
    let schedule = random(alloc, numbers.nodes, numbers.seed, numbers.steps, out)?;
    let text = schedule.text(alloc)?;
    Ok(text)
}

// The text of a random schedule that isn't lively: alone, or with a line `report` and the report of its run.
fn random_text<O: Sink>(
    alloc: Global,
    numbers: RandomNumbers,
    out: &mut O,
) -> Result<Vec<u8>, Refusal>
    requires { numbers.steps ≤ 999930 }
    ensures ok { IfOk result (λ text. IsDrawnText numbers.alone None numbers.nodes numbers.seed numbers.steps text.items) }
    ensures err { IfErr result (λ e. e ≡ Refusal.OutOfMemory) }
    ensures unprinted { O.printing out.new ≡ O.printing out.old }
{
    if numbers.alone {
        lone_schedule(alloc, numbers, out)
    } else {
        Ok(random_run(alloc, numbers.nodes, numbers.seed, numbers.steps, out)?)
    }
}

// The text of a lively schedule: alone, or with a line `report` and the report of its run. `faults` steps in a thousand
// draw a fault.
fn lively_text<O: Sink>(
    alloc: Global,
    numbers: RandomNumbers,
    faults: u32,
    out: &mut O,
) -> Result<Vec<u8>, Refusal>
    requires { numbers.steps ≤ 999930 }
    ensures ok { IfOk result (λ text. IsDrawnText numbers.alone (Some faults) numbers.nodes numbers.seed numbers.steps text.items) }
    ensures err { IfErr result (λ e. e ≡ Refusal.OutOfMemory) }
    ensures unprinted { O.printing out.new ≡ O.printing out.old }
{
    let recipe = Recipe {
        nodes: numbers.nodes,
        seed: numbers.seed,
        steps: numbers.steps,
        faults,
    };
    if numbers.alone {
        Ok(lively_schedule(alloc, recipe, out)?)
    } else {
        Ok(lively_run(alloc, recipe, out)?)
    }
}

// The text of a random schedule: alone, or with a line `report` and the report of its run.
fn drawn_text<O: Sink>(
    alloc: Global,
    numbers: RandomNumbers,
    out: &mut O,
) -> Result<Vec<u8>, Refusal>
    requires { numbers.steps ≤ 999930 }
    ensures ok { IfOk result (λ text. IsDrawnText numbers.alone numbers.faults numbers.nodes numbers.seed numbers.steps text.items) }
    ensures err { IfErr result (λ e. e ≡ Refusal.OutOfMemory) }
    ensures unprinted { O.printing out.new ≡ O.printing out.old }
{
    match numbers.faults {
        None => random_text(alloc, numbers, out),
        Some(faults) => lively_text(alloc, numbers, faults, out),
    }
}

// The text of a random schedule and its finish: alone, or with a line `report` and the report of the run of both.
fn finished_text<O: Sink>(
    alloc: Global,
    numbers: RandomNumbers,
    out: &mut O,
) -> Result<(Vec<u8>, Ending), Refusal>
    requires { numbers.steps ≤ 999930 }
    ensures ok { IfOk result (λ told. IsFinishedDraw numbers.alone numbers.faults numbers.nodes numbers.seed numbers.steps told.0.items) }
    ensures err { IfErr result (λ e. e ≡ Refusal.OutOfMemory) }
    ensures unprinted { O.printing out.new ≡ O.printing out.old }
{
    let lone = RandomNumbers {
        alone: true,
        ..numbers
    };
    let mut text = drawn_text(alloc, lone, out)?;
    // The text is that of a schedule, so only memory may be wanting.
    let Ok(finish) = finish_run(alloc, text.as_slice(), out) else {
        return Err(Refusal::OutOfMemory);
    };
    text.extend_from_slice(finish.added.as_slice())?;
    if numbers.alone {
        return Ok((text, finish.ending));
    }
    text.extend_from_slice(b"report\n")?;
    text.extend_from_slice(finish.report.as_slice())?;
    Ok((text, finish.ending))
}

// Prints a random schedule and its finish, alone or with the report of its run.
fn print_finished<O: Sink, E: Write>(
    alloc: Global,
    numbers: RandomNumbers,
    out: &mut O,
    err: &mut E,
) -> u8
    requires few { numbers.steps ≤ 999930 }
    requires finish { numbers.finish ≡ true }
    ensures ends { EndsOnRandom numbers.form numbers.finish numbers.alone numbers.faults numbers.nodes numbers.seed numbers.steps result (O.printing out.old) (O.printing out.new) }
    ensures quiet { result ≡ 0 → Keeps (E.contents err.old) (E.contents err.new) }
{
    match finished_text(alloc, numbers, out) {
        Ok((text, ending)) => end_by_finish(out, err, text.as_slice(), ending),
        Err(refusal) => end_by_refusal(err, &refusal),
    }
}

// What is printed of a random schedule, in the form that is asked for.
fn text_in_form<O: Sink>(
    alloc: Global,
    numbers: RandomNumbers,
    out: &mut O,
) -> Result<Vec<u8>, Refusal>
    requires { numbers.steps ≤ 999930 }
    ensures ok { IfOk result (λ text. IsDrawnIn numbers.form numbers.alone numbers.faults numbers.nodes numbers.seed numbers.steps text.items) }
    ensures err { IfErr result (λ e. e ≡ Refusal.OutOfMemory) }
    ensures unprinted { O.printing out.new ≡ O.printing out.old }
{
    match numbers.form {
        Form::Plain => drawn_text(alloc, numbers, out),
        Form::Json => drawn_objects(alloc, numbers, out),
    }
}

// Prints a random schedule, alone or with the report of its run; or that report as JSON.
fn print_random<O: Sink, E: Write>(
    alloc: Global,
    numbers: RandomNumbers,
    out: &mut O,
    err: &mut E,
) -> u8
    requires { numbers.steps ≤ 999930 }
    ensures ends { EndsOnRandom numbers.form numbers.finish numbers.alone numbers.faults numbers.nodes numbers.seed numbers.steps result (O.printing out.old) (O.printing out.new) }
    ensures quiet { result ≡ 0 → Keeps (E.contents err.old) (E.contents err.new) }
{
    if numbers.finish {
        return print_finished(alloc, numbers, out, err);
    }
    match text_in_form(alloc, numbers, out) {
        Ok(text) => end_by_text(out, err, text.as_slice()),
        Err(refusal) => end_by_refusal(err, &refusal),
    }
}

// What is wrong with the words of a random schedule that name no numbers.
fn fault_of(words: &RandomWords) -> &'static str {
    if words.faults.is_some() && !words.lively {
        "--faults wants --lively"
    } else if !fits_form(words.finish || words.alone, words.form) {
        "--json prints the report alone, so it goes with neither --schedule-only nor --finish"
    } else {
        "a number is missing or out of its range"
    }
}

/// Prints the random schedule that words name by their numbers, alone or with the report of its run; or that report as JSON.
/// Words that are no such numbers, or ask for JSON of a schedule that is finished or printed alone, end with 2.
pub(crate) fn random_by_words<O: Sink, E: Write>(
    alloc: Global,
    words: &RandomWords,
    out: &mut O,
    err: &mut E,
) -> u8
    ensures ends { EndsOnWords (random_words_in words.now) result (O.printing out.old) (O.printing out.new) }
    ensures quiet { result ≡ 0 → Keeps (E.contents err.old) (E.contents err.new) }
{
    match numbers_of(words) {
        Some(numbers) => print_random(alloc, numbers, out, err),
        None => {
            let _ = writeln!(err, "rr: random: {}", fault_of(words));
            2
        }
    }
}
