//! Files in memory.

ghost use Rattle.std.specs.Prelude.{◌≡◌, ◌≢◌, ◌++◌, ◌∷◌, [], IfOk, OnOk, OnErr, unwrap_or, take};
ghost use Rattle.std.specs.Result.{result_unwrap_or};
ghost use Rattle.std.specs.Option.{option_copied};
ghost use Rattle.mp_files.specs.Contents.{content_of, contents_in};
ghost use Rattle.mp_files.specs.Counts.{next_count};
ghost use Rattle.mp_files.specs.Outside.{FetchGives};
ghost use Rattle.mp_files.specs.declared.outside.TheConstants.{MOST_FETCHED};
ghost use Rattle.mp_files.specs.MemoryFiles.{new_files, files_seen, answer_of, fetch_answer, after_fetch};

use crate::room::is_listed;
use crate::{Contents, Fetched, Files, Kept, MOST_FETCHED, Sources};
use mp_scaled::{Bytes, Listing, NoMemory};
use std::alloc::Global;
use std::marker::Model;

/// Files in memory, which tell all that they hold and fail at the calls that they are told to.
///
/// Contracts see the contents, the names that were fetched, the count of calls, the calls that fail, and
/// the count of faults.
#[derive(Debug, Drop)]
pub struct MemoryFiles {
    contents: Sources,
    asked: Listing<Bytes>,
    calls: u64,
    failing: Vec<u32>,
    faults: u64,
}

impl Model for MemoryFiles {
    ghost use Rattle.mp_files.specs.MemoryFiles.{FilesState};

    ghost Value = { FilesState };

    ghost view = { λ f. record { contents = f.contents; asked = f.asked; calls = f.calls; failing = f.failing.items; faults = f.faults } };
}

impl MemoryFiles {
    /// Files with those contents. The calls whose numbers are listed fail; the first call has the number 1.
    pub fn new(alloc: Global, contents: Sources, failing: &[u32]) -> Result<MemoryFiles, NoMemory>
        ensures { IfOk result (λ files. files ≡ new_files contents failing.now) }
    {
        let failing = Vec::from_slice(alloc, failing)?;
        Ok(MemoryFiles {
            contents,
            asked: Listing::new(alloc),
            calls: 0,
            failing,
            faults: 0,
        })
    }

    /// The names that were fetched, in order.
    pub fn asked(&self) -> &[Bytes]
        ensures { result.now ≡ self.now.asked }
    {
        self.asked.as_slice()
    }

    fn try_fetch(&mut self, alloc: Global, name: &[u8]) -> Result<Fetched, NoMemory>
        ensures answer { IfOk result (λ answer. answer ≡ fetch_answer self.old name.now) }
        ensures gives { FetchGives (files_seen self.old) (files_seen self.new) name.now (result_unwrap_or result Fetched.NoMemory) }
        ensures leaves { self.new ≡ after_fetch self.old name.now (result_unwrap_or result Fetched.NoMemory) }
    {
        self.calls = self.calls.saturating_add(1);
        let noted = Bytes::copy_of(alloc, name)?;
        if is_listed(self.failing.as_slice(), self.calls) {
            self.asked.push(noted)?;
            self.faults = self.faults.saturating_add(1);
            return Ok(Fetched::Failed);
        }
        let answer = answer(alloc, find(self.contents.as_slice(), name))?;
        self.asked.push(noted)?;
        Ok(answer)
    }
}

impl Files for MemoryFiles {
    ghost seen = { files_seen };

    fn fetch(&mut self, alloc: Global, name: &[u8]) -> Fetched
        ensures gives { FetchGives (files_seen self.old) (files_seen self.new) name.now result }
        ensures exact { result ≢ Fetched.NoMemory → result ≡ fetch_answer self.old name.now }
        ensures leaves { self.new ≡ after_fetch self.old name.now result }
    {
        self.try_fetch(alloc, name).unwrap_or(Fetched::NoMemory)
    }
}

/// The first content that is kept under the name.
pub(crate) fn find<'a>(kept: &'a [Kept], name: &[u8]) -> Option<&'a Contents>
    ensures { option_copied result ≡ content_of kept.entry.now name.now }
{
    for k in kept {
        if k.name.as_slice() == name {
            return Some(&k.contents);
        }
    }
    None
}

/// The answer that gives a content.
pub(crate) fn answer(alloc: Global, contents: Option<&Contents>) -> Result<Fetched, NoMemory>
    ensures { IfOk result (λ answer. answer ≡ answer_of (unwrap_or (option_copied contents.entry) Contents.Absent)) }
{
    match contents {
        None | Some(Contents::Absent) => Ok(Fetched::Absent),
        Some(Contents::Here(bytes)) => Ok(Fetched::Got(start(alloc, bytes.as_slice())?)),
    }
}

#[tactic(auto, using(std::proofs::lemmas::List::take_min))]
fn start(alloc: Global, bytes: &[u8]) -> Result<Bytes, NoMemory>
    ensures { IfOk result (λ b. b ≡ take MOST_FETCHED bytes.now) }
{
    let taken = MOST_FETCHED.min(bytes.len());
    Bytes::copy_of(alloc, &bytes[..taken])
}
