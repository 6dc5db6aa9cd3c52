//! The top call: it reads the words, runs the main file, and writes what the run made.

ghost use Rattle.std.specs.Prelude.{◌≡◌, ◌≢◌, ◌≤◌, ◌<◌, ◌+◌, ◌++◌, ◌⊎◌, [], IfOk, map, min, length, take, decimal, codes};
ghost use Rattle.std.specs.Bool.{MatchBool};
ghost use Rattle.std.specs.String.{string_bytes};
ghost use Rattle.mp_files.specs.Counts.{Rose};
ghost use Rattle.mpost.specs.CommandWords.{words_of, command_line};
ghost use Rattle.mp_eval.specs.Gives.{AreGiven};
ghost use Rattle.mpost.specs.Headline as headline;
ghost use Rattle.mpost.specs.Headline.{Outside, ComesOf, ComesOfRun, NoneRose, IsOwnEnd, WritesCounted, IsReadFault, Says, line_of, name_of_source};

use crate::deliver::{Delivered, deliver, write};
use crate::words::{Command, Options, name_of_file, read_words};
use itoa::Buffer;
use mp_eval::{Run, RunEnd, run};
use mp_files::{Files, Kept, Shelf, Sink, Sources, Written};
use mp_report::{Place, SourceError, write_error};
use mp_scaled::{Bytes, Listing, NoMemory};
use std::alloc::Global;

/// How the program ends.
#[derive(Debug, Drop)]
pub enum End {
    /// The run came to its end: status 0.
    Done,
    /// The first error of the source, and its place: status 1.
    Source(SourceError, Place),
    /// An item was to be taken after the last budgeted step: status 3.
    OutOfSteps,
    /// The first word that is refused, counted from 1, or the one after the last where one is missing: status 2.
    Usage(u32),
    /// A source could not be read: status 4.
    ReadFault,
    /// The lines, a figure or the line of the end could not be written: status 5.
    WriteFault,
    /// Memory ran out: status 6.
    NoMemory,
}

/// What came of a call of [`mpost_main`].
#[derive(Debug, Drop)]
pub struct Report {
    pub status: u8,
    /// Each source that was read, or is absent, in the order in which it was asked for.
    pub sources: Sources,
    /// The number of the main source, or 0 where there is none.
    pub main: u32,
    /// The seed of the random words.
    pub seed: u32,
    /// How many items may be taken, and how many were.
    pub budget: u64,
    pub steps: u64,
    pub end: End,
}

const MEMORY_LINE: &[u8] = b"mpost: out of memory\n";

fn reported(end: RunEnd) -> End
    ensures { result ≡ headline.reported end }
{
    match end {
        RunEnd::Done => End::Done,
        RunEnd::Source(error, place) => End::Source(error, place),
        RunEnd::OutOfSteps => End::OutOfSteps,
        RunEnd::ReadFault => End::ReadFault,
        RunEnd::NoMemory => End::NoMemory,
    }
}

fn is_starved(end: &RunEnd) -> bool
    ensures { MatchBool result (end.now ≡ RunEnd.NoMemory) (end.now ≢ RunEnd.NoMemory) }
{
    match end {
        RunEnd::NoMemory => true,
        _ => false,
    }
}

fn end_after(at: Delivered, end: End) -> End
    ensures { result ≡ headline.end_after at end }
{
    match at {
        Delivered::All => end,
        _ => End::WriteFault,
    }
}

fn end_said(at: Written, end: End) -> End
    ensures { result ≡ headline.end_said at end }
{
    match at {
        Written::Written => end,
        Written::Failed => End::WriteFault,
    }
}

fn status_of(end: &End) -> u8
    ensures { result ≡ headline.status_of end.now }
{
    match end {
        End::Done => 0,
        End::Source(_, _) => 1,
        End::Usage(_) => 2,
        End::OutOfSteps => 3,
        End::ReadFault => 4,
        End::WriteFault => 5,
        End::NoMemory => 6,
    }
}

/// The name of a source by its number, which counts from 1; 0 is shown as the program's name.
fn source_name(sources: &[Kept], file: u32) -> &[u8]
    ensures { result.now ≡ name_of_source sources.now file }
{
    if file == 0 {
        return b"mpost";
    }
    match sources.get(file as usize - 1) {
        Some(kept) => kept.name.as_slice(),
        None => b"mpost",
    }
}

/// Puts a piece at a place of a line, and answers where it ends.
fn put(piece: &[u8], at: usize, line: &mut [u8; 32]) -> usize
    requires { at + length piece.now ≤ 32 }
    ensures text { take result line.new ≡ take at line.old ++ piece.now }
    ensures end { result ≡ at + length piece.now }
{
    let end = at + piece.len();
    line[at..end].copy_from_slice(piece);
    end
}

/// The line of a refused word. It takes no memory.
fn usage_line(word: u32, line: &mut [u8; 32]) -> usize
    ensures line { take result line.new ≡ line_of [] (End.Usage word) }
    ensures short { result ≤ 32 }
{
    let mut buffer = Buffer::new();
    let start = put(b"mpost: usage: word ", 0, line);
    let end = put(buffer.format(word).as_bytes(), start, line);
    put(b"\n", end, line)
}

/// The line of an end of a run over these sources.
fn end_line(alloc: Global, sources: &[Kept], end: &RunEnd) -> Result<Bytes, NoMemory>
    ensures { IfOk result (λ line. line ≡ line_of sources.now (headline.reported end.now)) }
{
    match end {
        RunEnd::Done => Ok(Bytes::new(alloc)),
        RunEnd::Source(error, place) => source_line(alloc, sources, error, place),
        RunEnd::OutOfSteps => Bytes::copy_of(alloc, b"mpost: out of steps\n"),
        RunEnd::ReadFault => Bytes::copy_of(alloc, b"mpost: read fault\n"),
        RunEnd::NoMemory => Bytes::copy_of(alloc, MEMORY_LINE),
    }
}

fn source_line(
    alloc: Global,
    sources: &[Kept],
    error: &SourceError,
    place: &Place,
) -> Result<Bytes, NoMemory>
    ensures { IfOk result (λ line. line ≡ line_of sources.now (End.Source error.now place.now)) }
{
    let mut line = Bytes::new(alloc);
    write_error(
        alloc,
        error,
        source_name(sources, place.file),
        place.line,
        &mut line,
    )?;
    Ok(line)
}

fn empty_report(alloc: Global, end: End) -> Report
    ensures { result ≡ record { status = headline.status_of end; sources = []; main = 0; seed = 0; budget = 0; steps = 0; end = end } }
{
    let status = status_of(&end);
    Report {
        status,
        sources: Listing::new(alloc),
        main: 0,
        seed: 0,
        budget: 0,
        steps: 0,
        end,
    }
}

fn report_of(options: Options, sources: Sources, steps: u64, end: End) -> Report
    ensures { let line = command_line options [] in
        result ≡ record { status = headline.status_of end; sources = sources; main = min 1 (length sources); seed = line.seed; budget = line.budget; steps = steps; end = end } }
{
    let status = status_of(&end);
    let main = if sources.as_slice().is_empty() { 0 } else { 1 };
    Report {
        status,
        sources,
        main,
        seed: options.seed(),
        budget: options.budget(),
        steps,
        end,
    }
}

/// Reads the words behind the program's name, runs the main file, and writes what the run made: first the
/// lines to `out`, then the figures to `shelf`, then the line of the end to `out`.
///
/// Where the words are refused it takes no memory, fetches nothing and writes the one line of the usage.
pub fn mpost_main<F: Files, S: Shelf, O: Sink>(
    alloc: Global,
    words: &[String],
    files: &mut F,
    shelf: &mut S,
    out: &mut O,
) -> Report
    // each source that the report keeps is what the files tell of its name
    ensures sources { AreGiven (F.seen files.old).told result.sources }
    // what comes of it, by the words and the meaning of these sources
    ensures headline { let before : Outside = record { files = F.seen files.old; shelf = S.seen shelf.old; out = O.seen out.old } in
        let now : Outside = record { files = F.seen files.new; shelf = S.seen shelf.new; out = O.seen out.new } in
        ComesOf (words_of (map string_bytes words.now)) result before now }
    ensures main { result.main ≡ min 1 (length result.sources) }
    ensures status { result.status ≡ headline.status_of result.end }
    ensures within { result.steps ≤ result.budget }

    // where the steps ran out, all that were budgeted were taken
    ensures spent { result.end ≡ End.OutOfSteps → result.steps ≡ result.budget }

    // where no count of faults rose, the end is the run's own, want of memory, or the refusal of a word
    ensures complete { let before : Outside = record { files = F.seen files.old; shelf = S.seen shelf.old; out = O.seen out.old } in
        let now : Outside = record { files = F.seen files.new; shelf = S.seen shelf.new; out = O.seen out.new } in
        NoneRose before now → IsOwnEnd (words_of (map string_bytes words.now)) result }

    // a fault is answered only where its count rose
    ensures read_fault { result.end ≡ End.ReadFault → Rose (F.seen files.old).faults (F.seen files.new).faults }
    ensures write_fault { result.end ≡ End.WriteFault
        → Rose (S.seen shelf.old).faults (S.seen shelf.new).faults ⊎ Rose (O.seen out.old).faults (O.seen out.new).faults }

    // and wherever a count is greater than before
    ensures reads_counted { (F.seen files.old).faults < (F.seen files.new).faults → IsReadFault result.end }
    ensures writes_counted { let before : Outside = record { files = F.seen files.old; shelf = S.seen shelf.old; out = O.seen out.old } in
        let now : Outside = record { files = F.seen files.new; shelf = S.seen shelf.new; out = O.seen out.new } in
        WritesCounted before now → result.end ≡ End.WriteFault }
{
    match read_words(words) {
        Command::Refused(word) => refuse(alloc, word, out),
        Command::Accepted(options, file) => {
            run_and_write(alloc, options, file, files, shelf, out)
        }
    }
}

/// Writes the one line of an end that has no sources.
fn say<O: Sink>(alloc: Global, line: &[u8], end: End, out: &mut O) -> Report
    requires { line.now ≡ line_of [] end }
    ensures { Says end result (O.seen out.old) (O.seen out.new) }
{
    let at = write(line, out);
    empty_report(alloc, end_said(at, end))
}

fn refuse<O: Sink>(alloc: Global, word: u32, out: &mut O) -> Report
    ensures { Says (End.Usage word) result (O.seen out.old) (O.seen out.new) }
{
    let mut line = [0; 32];
    let length = usage_line(word, &mut line);
    say(alloc, &line[..length], End::Usage(word), out)
}

fn run_and_write<F: Files, S: Shelf, O: Sink>(
    alloc: Global,
    options: Options,
    file: &[u8],
    files: &mut F,
    shelf: &mut S,
    out: &mut O,
) -> Report
    ensures sources { AreGiven (F.seen files.old).told result.sources }
    ensures main { result.main ≡ min 1 (length result.sources) }
    ensures status { result.status ≡ headline.status_of result.end }
    ensures within { result.steps ≤ result.budget }
    ensures spent { result.end ≡ End.OutOfSteps → result.steps ≡ result.budget }
    ensures headline { let before : Outside = record { files = F.seen files.old; shelf = S.seen shelf.old; out = O.seen out.old } in
        let now : Outside = record { files = F.seen files.new; shelf = S.seen shelf.new; out = O.seen out.new } in
        ComesOfRun (command_line options file.now) result before now }
{
    let Ok(name) = name_of_file(alloc, file) else {
        return say(alloc, MEMORY_LINE, End::NoMemory, out);
    };
    let Run {
        lines,
        figures,
        sources,
        steps,
        unknowns: _,
        equations: _,
        end,
    } = run(
        alloc,
        &[],
        name.as_slice(),
        options.budget(),
        options.seed(),
        files,
    );
    if is_starved(&end) {
        return say(alloc, MEMORY_LINE, End::NoMemory, out);
    }
    let Ok(line) = end_line(alloc, sources.as_slice(), &end) else {
        return say(alloc, MEMORY_LINE, End::NoMemory, out);
    };
    let own = reported(end);
    let at = deliver(
        lines.as_slice(),
        figures.as_slice(),
        line.as_slice(),
        shelf,
        out,
    );
    report_of(options, sources, steps, end_after(at, own))
}
