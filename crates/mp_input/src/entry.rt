//! What was put in front of the text at once.

ghost use Rattle.std.specs.Prelude.{◌≡◌, ◌↔◌, [], IsTrue, option_map};
ghost use Rattle.mp_input.specs.Entries.{entry_items, IsPlain};
ghost use Rattle.mp_input.specs.Lines.{first_line};
ghost use Rattle.mp_input.specs.Loops.{leave_loop};
ghost use Rattle.mp_input.specs.Search.{EndsAfterLine};
ghost use Rattle.mp_input.specs.Taken.{TakenFrom, last_taken};

use crate::file::FileRest;
use crate::text::Text;
use mp_report::Place;
use mp_scaled::{NoMemory, Shared};
use mp_values::{Item, Pending, Turn};

/// What is left of what was put in front of the text at once.
#[derive(Drop)]
pub(crate) enum Entry {
    /// A body with its arguments.
    Text(Text),
    File(FileRest),
    /// One item, unless it was taken.
    One(Option<Item>),
    /// One turn, unless it was taken.
    Turn(Option<Shared<Turn>>),
}

impl Entry {
    /// The first of what is left. An end of a line, which stands in files alone, becomes the last one that was taken.
    #[tactic(auto, using(crate::proofs::PlainLemmas::no_line_is_last))]
    pub(crate) fn take(&mut self, last: &mut Place) -> Result<Option<Pending>, NoMemory>
        ensures taken { TakenFrom (entry_items self.old) result (entry_items self.new) }
        ensures last { IsPlain self.old → last.new ≡ last_taken result last.old }
        ensures plain { IsPlain self.old → IsPlain self.new }
    {
        match self {
            Entry::Text(text) => Ok(text.take()?.map(|i| Pending::Item(i))),
            Entry::File(file) => Ok(file.take(last)?.map(|i| Pending::Item(i))),
            Entry::One(item) => Ok(item.take().map(|i| Pending::Item(i))),
            Entry::Turn(turn) => Ok(turn.take().map(|t| Pending::Turn(t))),
        }
    }

    /// Whether nothing is left.
    #[tactic(auto, using(crate::proofs::StackLemmas::none_pending))]
    pub(crate) fn is_over(&mut self) -> bool
        ensures same { entry_items self.new ≡ entry_items self.old }
        ensures plain { IsPlain self.old → IsPlain self.new }
        ensures over { IsTrue result ↔ (entry_items self.old ≡ []) }
    {
        match self {
            Entry::Text(text) => text.is_over(),
            Entry::File(file) => file.is_over(),
            Entry::One(item) => item.is_none(),
            Entry::Turn(turn) => turn.is_none(),
        }
    }

    /// The first end of a line that is left.
    pub(crate) fn first_line(&self) -> Option<Place>
        ensures { IsPlain self.now → result ≡ first_line (entry_items self.now) }
    {
        match self {
            Entry::File(file) => file.first_line(),
            _ => None,
        }
    }

    /// Ends a file after its first end of a line.
    pub(crate) fn end_after_line(&mut self)
        ensures ends { IsPlain self.old → EndsAfterLine self.old self.new }
        ensures plain { IsPlain self.old → IsPlain self.new }
    {
        if let Entry::File(file) = self {
            file.end_after_line();
        }
    }

    /// The number of conditions that the turn keeps, where it is one.
    #[tactic(auto, using(crate::proofs::LineLemmas::items_leave_no_loop))]
    pub(crate) fn turn(&self) -> Option<u32>
        ensures { leave_loop (entry_items self.now) ≡ option_map (λ conditions. (conditions, [])) result }
    {
        match self {
            Entry::Turn(Some(turn)) => Some(turn.get().conditions),
            _ => None,
        }
    }
}
