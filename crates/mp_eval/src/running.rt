//! A whole run: the main file is asked for, cut into items, and read to its end.

ghost use Rattle.std.specs.Prelude.{◌≡◌, ◌≤◌, ◌+◌, ◌++◌, ◌⊎◌, [], codes, IfOk, OnOk};
ghost use Rattle.mp_acts.specs.Counts.{IsWithin};
ghost use Rattle.mp_acts.specs.State.{counts};
ghost use Rattle.mp_rules.specs.Meaning.{the};
ghost use Rattle.mp_rules.specs.Reach.{reach_of_expansion};
ghost use Rattle.mp_rules.specs.Starts.{whole};
ghost use Rattle.mp_eval.specs.Gives.{RunGives, starved_run};
ghost use Rattle.mp_eval.specs.Readings.{RanAs, IsPut, IsPreluded, asked_on, begun_on, only, unbegun_run, no_such_file as absent_end};
ghost use Rattle.mp_eval.specs.Run.{read_to_end};

use crate::job::job_of;
use crate::name::can_be_asked;
use crate::outcome::{Run, RunEnd};
use mp_acts::State;
use mp_expand::Expander;
use mp_files::{Contents, Fetched, Files, Kept, Sources};
use mp_report::{Place, SourceError};
use mp_rules::{Evaluator, Finished};
use mp_scaled::{Bytes, Listing, NoMemory, Shared};
use mp_values::Stop;
use std::alloc::Global;

const NO_PLACE: Place = Place { file: 0, line: 0 };

/// The most bytes of a text that is built.
pub const LONGEST_TEXT: usize = 65536;

/// Puts the items of a file in front of the text, and its names into the table.
fn put_file(
    alloc: Global,
    acts: &mut State,
    expander: &mut Expander,
    number: u32,
    bytes: &[u8],
) -> Result<(), NoMemory>
    requires { IsWithin (reach_of_expansion expander.old) (counts acts.old) }
    ensures put { OnOk result (IsPut number bytes.now acts.old expander.old.text acts.new expander.new.text) }
    ensures rest { OnOk result (expander.new ≡ record expander.old { text = expander.new.text }) }
    ensures within { OnOk result (IsWithin (reach_of_expansion expander.new) (counts acts.new)) }
{
    let tokens = acts.tokens_of_file(bytes)?;
    expander.start(number, Shared::new(alloc, tokens)?)?;
    Ok(())
}

/// The same of what is read before the main file; an empty prelude has no items at all.
fn put_prelude(
    alloc: Global,
    acts: &mut State,
    expander: &mut Expander,
    bytes: &[u8],
) -> Result<(), NoMemory>
    requires { IsWithin (reach_of_expansion expander.old) (counts acts.old) }
    ensures put { OnOk result (IsPreluded bytes.now acts.old expander.old.text acts.new expander.new.text) }
    ensures rest { OnOk result (expander.new ≡ record expander.old { text = expander.new.text }) }
    ensures within { OnOk result (IsWithin (reach_of_expansion expander.new) (counts acts.new)) }
{
    match bytes {
        [] => Ok(()),
        [_, ..] => put_file(alloc, acts, expander, 0, bytes),
    }
}

/// An evaluator at the start of the text of the one source, behind a prelude.
fn evaluator_of(
    alloc: Global,
    prelude: &[u8],
    name: &[u8],
    bytes: Bytes,
    budget: u64,
) -> Result<Evaluator, NoMemory>
    ensures { IfOk result (λ e. e ≡ begun_on (only name.now (Contents.Here bytes)) prelude.now name.now bytes budget) }
{
    let mut acts = State::new(alloc, job_of(name))?;
    let mut expander = Expander::new(alloc, budget);
    put_file(alloc, &mut acts, &mut expander, 1, bytes.as_slice())?;
    put_prelude(alloc, &mut acts, &mut expander, prelude)?;
    let sources = one_source(alloc, name, Contents::Here(bytes))?;
    Ok(Evaluator::new(alloc, sources, expander, acts))
}

/// Reads a text to its end.
fn run_begun(alloc: Global, begun: Evaluator) -> Result<Run, NoMemory>
    ensures ran { IfOk result (λ run. RanAs run (whole the begun) begun) }
    ensures within { IfOk result (λ run. run.steps ≤ begun.expander.budget) }
{
    let mut evaluator = begun;
    let end = match evaluator.run() {
        Ok(()) => RunEnd::Done,
        Err(Stop::Refused(error)) => RunEnd::Source(error, evaluator.place()),
        Err(Stop::OutOfSteps) => RunEnd::OutOfSteps,
        Err(Stop::Unread(_name)) => RunEnd::ReadFault,
        Err(Stop::NoMemory) => return Err(NoMemory),
    };
    let Finished {
        sources,
        steps,
        acts,
    } = evaluator.finish();
    let unknowns = acts.unknowns();
    let equations = acts.equations();
    Ok(Run {
        lines: acts.finish(),
        figures: Listing::new(alloc),
        sources,
        steps,
        unknowns,
        equations,
        end,
    })
}

fn one_source(alloc: Global, name: &[u8], contents: Contents) -> Result<Sources, NoMemory>
    ensures { IfOk result (λ s. s ≡ only name.now contents) }
{
    let mut sources = Listing::new(alloc);
    let name = Bytes::copy_of(alloc, name)?;
    sources.push(Kept { name, contents })?;
    Ok(sources)
}

/// A run that ended before its first step.
fn ended(alloc: Global, sources: Sources, end: RunEnd) -> Run
    ensures { result ≡ unbegun_run sources end }
{
    Run {
        lines: Bytes::new(alloc),
        figures: Listing::new(alloc),
        sources,
        steps: 0,
        unknowns: 0,
        equations: 0,
        end,
    }
}

/// A run that memory ran out in keeps nothing.
fn starved(alloc: Global) -> Run
    ensures { result ≡ starved_run }
{
    ended(alloc, Listing::new(alloc), RunEnd::NoMemory)
}

/// The run of a text that is not built, since it is too long.
fn run_long(alloc: Global, name: &[u8], bytes: Bytes) -> Result<Run, NoMemory>
    ensures { IfOk result (λ run. run ≡ unbegun_run (only name.now (Contents.Here bytes)) (RunEnd.Source (SourceError.NotBuilt (codes "long")) (record { file = 0; line = 0 }))) }
{
    let sources = one_source(alloc, name, Contents::Here(bytes))?;
    let what = Bytes::copy_of(alloc, b"long")?;
    Ok(ended(
        alloc,
        sources,
        RunEnd::Source(SourceError::NotBuilt(what), NO_PLACE),
    ))
}

#[tactic(auto, using(crate::proofs::Readings::long_ran))]
fn try_run_on(
    alloc: Global,
    prelude: &[u8],
    name: &[u8],
    bytes: Bytes,
    budget: u64,
) -> Result<Run, NoMemory>
    ensures ran { IfOk result (λ run. RanAs run (read_to_end prelude.now bytes (asked_on (only name.now (Contents.Here bytes)) name.now budget)) (asked_on (only name.now (Contents.Here bytes)) name.now budget)) }
    ensures within { IfOk result (λ run. run.steps ≤ budget) }
{
    if bytes.as_slice().len() > LONGEST_TEXT {
        return run_long(alloc, name, bytes);
    }
    run_begun(alloc, evaluator_of(alloc, prelude, name, bytes, budget)?)
}

/// The run over the bytes that were fetched.
fn run_on(alloc: Global, prelude: &[u8], name: &[u8], bytes: Bytes, budget: u64) -> Run
    ensures ran { (result ≡ starved_run) ⊎ RanAs result (read_to_end prelude.now bytes (asked_on (only name.now (Contents.Here bytes)) name.now budget)) (asked_on (only name.now (Contents.Here bytes)) name.now budget) }
    ensures within { result.steps ≤ budget }
{
    match try_run_on(alloc, prelude, name, bytes, budget) {
        Ok(run) => run,
        Err(NoMemory) => starved(alloc),
    }
}

fn no_such_file(alloc: Global, name: &[u8]) -> Result<RunEnd, NoMemory>
    ensures { IfOk result (λ end. end ≡ absent_end name.now) }
{
    let name = Bytes::copy_of(alloc, name)?;
    Ok(RunEnd::Source(SourceError::NoSuchFile(name), NO_PLACE))
}

/// The run of a source that cannot be read.
fn run_unread(alloc: Global) -> Run
    ensures { result ≡ unbegun_run [] RunEnd.ReadFault }
{
    ended(alloc, Listing::new(alloc), RunEnd::ReadFault)
}

/// The run of a name that is never asked for.
fn run_unasked(alloc: Global, name: &[u8]) -> Run
    ensures { (result ≡ starved_run) ⊎ (result ≡ unbegun_run [] (absent_end name.now)) }
{
    match no_such_file(alloc, name) {
        Ok(end) => ended(alloc, Listing::new(alloc), end),
        Err(NoMemory) => starved(alloc),
    }
}

/// The run of a name that no file has.
fn run_absent(alloc: Global, name: &[u8]) -> Run
    ensures { (result ≡ starved_run) ⊎ (result ≡ unbegun_run (only name.now Contents.Absent) (absent_end name.now)) }
{
    match (
        no_such_file(alloc, name),
        one_source(alloc, name, Contents::Absent),
    ) {
        (Ok(end), Ok(sources)) => ended(alloc, sources, end),
        _ => starved(alloc),
    }
}

/// Runs the main file of that name behind a prelude, with at most so many items taken.
///
/// The prelude is read as file 0, and its items stand before those of the main file; an empty one has none. The seed is
/// that of the random words, which nothing draws yet.
pub fn run<F: Files>(
    alloc: Global,
    prelude: &[u8],
    main: &[u8],
    budget: u64,
    seed: u32,
    files: &mut F,
) -> Run
    ensures course { RunGives prelude.now main.now budget result (F.seen files.old) (F.seen files.new) }
    ensures within { result.steps ≤ budget }
{
    let _ = seed;
    if !can_be_asked(main) {
        return run_unasked(alloc, main);
    }
    match files.fetch(alloc, main) {
        Fetched::Got(bytes) => run_on(alloc, prelude, main, bytes, budget),
        Fetched::Absent => run_absent(alloc, main),
        Fetched::Failed => run_unread(alloc),
        Fetched::NoMemory => starved(alloc),
    }
}
