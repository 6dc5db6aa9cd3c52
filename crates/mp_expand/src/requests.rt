//! What waits for more of the text, the newest first.

ghost use Rattle.std.specs.Prelude.{◌≡◌, OnOk, OnErr};
ghost use Rattle.mp_expand.specs.Calls as calls;
ghost use Rattle.mp_expand.specs.Expansion as expansion;
ghost use Rattle.mp_expand.specs.Expansion.{IsRest, TakesOff};

use crate::expander::Expander;
use crate::request::{Asker, Need, Opener, Reader, Request};
use mp_scaled::NoMemory;

impl Expander {
    /// The newest request is taken off where it takes items as they stand.
    pub(crate) fn reading(&mut self) -> Option<Reader>
        ensures { TakesOff (expansion.reading self.old.requests) result self.old self.new }
    {
        let (Request::Call(_, Need::Text(_, _)) | Request::Skip(_, _)) = self.requests.last()?
        else {
            return None;
        };
        match self.requests.pop()? {
            Request::Call(call, need) => match need {
                Need::Text(until, depth) => Some(Reader::Text(call, until, depth)),
                _ => None,
            },
            Request::Skip(skip, depth) => Some(Reader::Skip(skip, depth)),
            _ => None,
        }
    }

    /// The newest request is taken off where it needs a front of one kind.
    pub(crate) fn opening(&mut self) -> Option<Opener>
        ensures { TakesOff (expansion.opening self.old.requests) result self.old self.new }
    {
        let (Request::Call(_, Need::Opening(_)) | Request::Colon) = self.requests.last()? else {
            return None;
        };
        match self.requests.pop()? {
            Request::Call(call, need) => match need {
                Need::Opening(kind) => Some(Opener::Argument(call, kind)),
                _ => None,
            },
            Request::Colon => Some(Opener::Branch),
            _ => None,
        }
    }

    /// The newest request is taken off where it waits for an answer.
    pub(crate) fn asking(&mut self) -> Option<Asker>
        ensures taken { TakesOff (expansion.asking self.old.requests) result self.old self.new }
        ensures rest { IsRest self.old.requests self.new.requests }
    {
        let (Request::Call(_, Need::Answer(_)) | Request::Truth(_)) = self.requests.last()? else {
            return None;
        };
        match self.requests.pop()? {
            Request::Call(call, need) => match need {
                Need::Answer(behind) => Some(Asker::Argument(call, behind)),
                _ => None,
            },
            Request::Truth(_) => Some(Asker::Branch),
            _ => None,
        }
    }

    /// It waits for more of the text, before what waited.
    pub(crate) fn wait(&mut self, request: Request) -> Result<(), NoMemory>
        ensures ok { OnOk result (self.new ≡ calls.with_request request self.old) }
        ensures err { OnErr result (self.new ≡ self.old) }
    {
        self.requests.push(request)?;
        Ok(())
    }
}
