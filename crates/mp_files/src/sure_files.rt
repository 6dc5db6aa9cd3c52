//! Files in memory which never fail.

ghost use Rattle.std.specs.Prelude.{◌≡◌, ◌≢◌, [], IfOk};
ghost use Rattle.std.specs.Result.{result_unwrap_or};
ghost use Rattle.mp_files.specs.Contents.{contents_in};
ghost use Rattle.mp_files.specs.Outside.{FetchGives};
ghost use Rattle.mp_files.specs.MemoryFiles.{sure_seen, answer_of, asked_after};

use crate::memory_files::{answer, find};
use crate::{Fetched, Files, Sources};
use mp_scaled::{Bytes, Listing, NoMemory};
use std::alloc::Global;
use std::marker::Model;

/// Files in memory, which tell all that they hold and never fail.
///
/// Contracts see the contents and the names that were fetched.
#[derive(Debug, Drop)]
pub struct SureFiles {
    contents: Sources,
    asked: Listing<Bytes>,
}

impl Model for SureFiles {
    ghost use Rattle.mp_files.specs.MemoryFiles.{SureState};

    ghost Value = { SureState };

    ghost view = { λ f. record { contents = f.contents; asked = f.asked } };
}

impl SureFiles {
    /// Files with those contents.
    pub fn new(contents: Sources) -> SureFiles
        ensures { result ≡ record { contents = contents; asked = [] } }
    {
        let contents = contents.into_vec();
        let alloc = *contents.allocator();
        SureFiles {
            contents: Listing::from_vec(contents),
            asked: Listing::new(alloc),
        }
    }

    /// The names that were fetched, in order.
    pub fn asked(&self) -> &[Bytes]
        ensures { result.now ≡ self.now.asked }
    {
        self.asked.as_slice()
    }

    fn try_fetch(&mut self, alloc: Global, name: &[u8]) -> Result<Fetched, NoMemory>
        ensures answer { IfOk result (λ answer. answer ≡ answer_of (contents_in self.old.contents name.now)) }
        ensures gives { FetchGives (sure_seen self.old) (sure_seen self.new) name.now (result_unwrap_or result Fetched.NoMemory) }
        ensures contents { self.new.contents ≡ self.old.contents }
        ensures asked { self.new.asked ≡ asked_after self.old.asked name.now (result_unwrap_or result Fetched.NoMemory) }
    {
        let noted = Bytes::copy_of(alloc, name)?;
        let answer = answer(alloc, find(self.contents.as_slice(), name))?;
        self.asked.push(noted)?;
        Ok(answer)
    }
}

impl Files for SureFiles {
    ghost seen = { sure_seen };

    fn fetch(&mut self, alloc: Global, name: &[u8]) -> Fetched
        ensures gives { FetchGives (sure_seen self.old) (sure_seen self.new) name.now result }
        ensures exact { result ≢ Fetched.NoMemory → result ≡ answer_of (contents_in self.old.contents name.now) }
        ensures contents { self.new.contents ≡ self.old.contents }
        ensures asked { self.new.asked ≡ asked_after self.old.asked name.now result }
    {
        self.try_fetch(alloc, name).unwrap_or(Fetched::NoMemory)
    }
}
