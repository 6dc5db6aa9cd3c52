//! The stack.

ghost use Rattle.std.specs.Prelude.{◌≡◌, ◌↔◌, ◌≤◌, ◌+◌, [], ◌∷◌, ◌++◌, IsTrue, OnOk};
ghost use Rattle.std.specs.Vec.{vec_len, vec_capacity};
ghost use Rattle.mp_values.specs.Ends.{IsNoEnd};
ghost use Rattle.mp_values.specs.Items.{file_items};
ghost use Rattle.mp_values.specs.Substitution.{substitute};
ghost use Rattle.mp_values.specs.declared.turn.Pending.TheVariants.{Item as PendingItem, Turn as PendingTurn};
ghost use Rattle.mp_input.specs.Entries.{entry_items, left_of, IsPlain, AllPlain};
ghost use Rattle.mp_input.specs.Lines.{items_pending, place_in, end_file_after_line};
ghost use Rattle.mp_input.specs.Search.{LineEntry, TurnEntry};
ghost use Rattle.mp_input.specs.Taken.{TakenFrom, last_taken};
ghost use Rattle.mp_input.specs.Unread.{Takes, LeavesLoop};

use crate::entry::Entry;
use crate::file::FileRest;
use crate::text::Text;
use mp_report::Place;
use mp_scaled::{NoMemory, Shared};
use mp_tokens::Tokens;
use mp_values::{Arguments, Item, Items, Pending, Turn};
use std::alloc::Global;
use std::marker::Model;

/// There is no loop that could be left.
#[derive(Clone, Copy, Debug, PartialEq, Eq)]
pub struct NoLoop;

/// The text that is left. Contracts see it as one list, with the last end of a line that was taken and the number
/// of entries that may still be put in front.
#[derive(Drop)]
pub struct Input {
    // the last one is read first
    entries: Vec<Entry>,
    last: Place,
}

impl Model for Input {
    ghost use Rattle.std.specs.Prelude.{◌-◌};
    ghost use Rattle.std.specs.Vec.{vec_len, vec_capacity};
    ghost use Rattle.mp_input.specs.Entries.{left_of, AllPlain};
    ghost use Rattle.mp_input.specs.Unread.{Unread};

    ghost Value = { Unread };

    ghost view = { λ i. record {
      text = left_of i.entries.items;
      last = i.last;
      spare = vec_capacity i.entries - vec_len i.entries;
    } };

    ghost invariant = { λ i. AllPlain i.entries.items };
}

// Takes the first of what a stack of entries has left. Entries that are used up are taken off on the way.
#[tactic(auto, using(crate::proofs::StackLemmas::left_of_dropped, crate::proofs::StackLemmas::left_of_kept, crate::proofs::StackLemmas::left_of_goes, crate::proofs::StackLemmas::all_plain_set_top, crate::proofs::StackLemmas::all_plain_take))]
fn take_top(entries: &mut Vec<Entry>, last: &mut Place) -> Result<Option<Pending>, NoMemory>
    ensures taken { TakenFrom (left_of entries.old.items) result (left_of entries.new.items) }
    ensures last { AllPlain entries.old.items → last.new ≡ last_taken result last.old }
    ensures plain { AllPlain entries.old.items → AllPlain entries.new.items }
{
    'entries: while !entries.is_empty() {
        let top = entries.len() - 1;
        match entries[top].take(last)? {
            Some(taken) => return Ok(Some(taken)),
            None => {
                entries.truncate(top);
            }
        }
    }
    Ok(None)
}

// Takes the top entry off where it is used up, so that what comes next takes its place.
#[tactic(auto, using(crate::proofs::StackLemmas::left_of_dropped, crate::proofs::StackLemmas::left_of_kept, crate::proofs::StackLemmas::all_plain_set_top, crate::proofs::StackLemmas::all_plain_take))]
fn drop_over(entries: &mut Vec<Entry>)
    ensures same { left_of entries.new.items ≡ left_of entries.old.items }
    ensures plain { AllPlain entries.old.items → AllPlain entries.new.items }
    ensures len { vec_len entries.new ≤ vec_len entries.old }
    ensures capacity { vec_capacity entries.new ≡ vec_capacity entries.old }
{
    if entries.is_empty() {
        return;
    }
    let top = entries.len() - 1;
    if entries[top].is_over() {
        entries.truncate(top);
    }
}

// Whether a stack of entries has nothing left. Entries that are used up are taken off on the way.
#[tactic(auto, using(crate::proofs::StackLemmas::left_of_dropped, crate::proofs::StackLemmas::left_of_kept, crate::proofs::StackLemmas::left_of_some, crate::proofs::StackLemmas::all_plain_set_top, crate::proofs::StackLemmas::all_plain_take))]
fn is_all_over(entries: &mut Vec<Entry>) -> bool
    ensures over { IsTrue result ↔ (left_of entries.old.items ≡ []) }
    ensures same { left_of entries.new.items ≡ left_of entries.old.items }
    ensures plain { AllPlain entries.old.items → AllPlain entries.new.items }
{
    'entries: while !entries.is_empty() {
        let top = entries.len() - 1;
        if !entries[top].is_over() {
            return false;
        }
        entries.truncate(top);
    }
    true
}

// The entry that has the first end of a line, and that end.
#[tactic(auto, using(crate::proofs::SearchLemmas::line_down, crate::proofs::SearchLemmas::line_here, crate::proofs::StackLemmas::all_plain_at))]
fn line_entry(entries: &[Entry]) -> Option<(usize, Place)>
    requires { AllPlain entries.now }
    ensures { LineEntry entries.now result }
{
    let mut top = entries.len();
    'down: while top > 0 {
        top -= 1;
        match entries[top].first_line() {
            Some(place) => return Some((top, place)),
            None => (),
        }
    }
    None
}

// The entry that is the first turn, and the number of conditions that it keeps.
#[tactic(auto, using(crate::proofs::SearchLemmas::turn_down, crate::proofs::SearchLemmas::turn_here))]
fn turn_entry(entries: &[Entry]) -> Option<(usize, u32)>
    ensures { TurnEntry entries.now result }
{
    let mut top = entries.len();
    'down: while top > 0 {
        top -= 1;
        match entries[top].turn() {
            Some(conditions) => return Some((top, conditions)),
            None => (),
        }
    }
    None
}

impl Input {
    /// Nothing is left, and no end of a line was taken, which is place 0 of file 0.
    pub fn new(alloc: Global) -> Input
        ensures text { result.text ≡ [] }
        ensures last { result.last ≡ record { file = 0; line = 0 } }
    {
        Input {
            entries: Vec::new(alloc),
            last: Place { file: 0, line: 0 },
        }
    }

    /// The first of what is left; none where nothing is. Want of memory leaves all as it was.
    pub fn take(&mut self) -> Result<Option<Pending>, NoMemory>
        ensures { Takes self.old result self.new }
    {
        take_top(&mut self.entries, &mut self.last)
    }

    /// Whether nothing is left.
    pub fn is_over(&mut self) -> bool
        ensures over { IsTrue result ↔ (self.old.text ≡ []) }
        ensures text { self.new.text ≡ self.old.text }
        ensures last { self.new.last ≡ self.old.last }
    {
        is_all_over(&mut self.entries)
    }

    /// The place of an error: the first end of a line that is left, else the last that was taken.
    pub fn place(&self) -> Place
        ensures { result ≡ place_in self.now.text self.now.last }
    {
        match line_entry(self.entries.as_slice()) {
            Some((_, place)) => place,
            None => self.last,
        }
    }

    /// Room for that many pushes.
    pub fn reserve(&mut self, entries: usize) -> Result<(), NoMemory>
        ensures text { self.new.text ≡ self.old.text }
        ensures last { self.new.last ≡ self.old.last }
        ensures spare { OnOk result (entries ≤ self.new.spare) }
    {
        self.entries.reserve(entries)?;
        Ok(())
    }

    /// How many pushes there is room for.
    pub fn spare(&self) -> usize
        ensures { result ≡ self.now.spare }
    {
        self.entries.capacity() - self.entries.len()
    }

    // Puts an entry in front.
    #[tactic(auto, using(crate::proofs::StackLemmas::left_of_push, crate::proofs::StackLemmas::all_plain_push))]
    fn put(&mut self, entry: Entry)
        requires room { 1 ≤ self.old.spare }
        requires plain { IsPlain entry }
        ensures text { self.new.text ≡ entry_items entry ++ self.old.text }
        ensures last { self.new.last ≡ self.old.last }
        ensures spare { self.old.spare ≤ self.new.spare + 1 }
    {
        drop_over(&mut self.entries);
        self.entries.push_reserved(entry);
    }

    /// Puts a body in front, with the arguments in place of its parameters. It takes no memory.
    #[tactic(auto, using(crate::proofs::PlainLemmas::substitute_has_no_line))]
    pub fn push_text(&mut self, body: Shared<Items>, arguments: Arguments)
        requires { 1 ≤ self.old.spare }
        ensures text { self.new.text ≡ items_pending (substitute body arguments) ++ self.old.text }
        ensures last { self.new.last ≡ self.old.last }
        ensures spare { self.old.spare ≤ self.new.spare + 1 }
    {
        body.get().has_no_ends();
        arguments.have_no_ends();
        self.put(Entry::Text(Text::new(body, arguments)));
    }

    /// Puts the items of the file of that number in front, with its end. It takes no memory.
    pub fn push_file(&mut self, file: u32, tokens: Shared<Tokens>)
        requires { 1 ≤ self.old.spare }
        ensures text { self.new.text ≡ items_pending (file_items file tokens) ++ self.old.text }
        ensures last { self.new.last ≡ self.old.last }
        ensures spare { self.old.spare ≤ self.new.spare + 1 }
    {
        self.put(Entry::File(FileRest::new(file, tokens)));
    }

    /// Puts a turn of a loop in front. It takes no memory.
    pub fn push_turn(&mut self, turn: Shared<Turn>)
        requires { 1 ≤ self.old.spare }
        ensures text { self.new.text ≡ PendingTurn turn ∷ self.old.text }
        ensures last { self.new.last ≡ self.old.last }
        ensures spare { self.old.spare ≤ self.new.spare + 1 }
    {
        self.put(Entry::Turn(Some(turn)));
    }

    /// Puts an item in front, which is no end. It takes no memory.
    #[tactic(auto, using(crate::proofs::PlainLemmas::item_is_no_line))]
    pub fn push_item(&mut self, item: Item)
        requires room { 1 ≤ self.old.spare }
        requires no_end { IsNoEnd item }
        ensures text { self.new.text ≡ PendingItem item ∷ self.old.text }
        ensures last { self.new.last ≡ self.old.last }
        ensures spare { self.old.spare ≤ self.new.spare + 1 }
    {
        self.put(Entry::One(Some(item)));
    }

    /// Removes what lies between the first end of a line and the next end of a file, as `endinput` does.
    #[tactic(auto, using(crate::proofs::SearchLemmas::ends_here, crate::proofs::SearchLemmas::all_plain_change, crate::proofs::LineLemmas::end_after_line_none))]
    pub fn end_file_after_line(&mut self)
        ensures text { self.new.text ≡ end_file_after_line self.old.text }
        ensures last { self.new.last ≡ self.old.last }
    {
        match line_entry(self.entries.as_slice()) {
            Some((at, _)) => self.entries[at].end_after_line(),
            None => (),
        }
    }

    /// Removes the text through the first turn, as `exitif` does, and answers the number of conditions that the
    /// turn keeps. Where there is no turn nothing changes.
    #[tactic(auto, using(crate::proofs::StackLemmas::all_plain_take))]
    pub fn leave_loop(&mut self) -> Result<u32, NoLoop>
        ensures turn { LeavesLoop self.old result self.new }
        ensures last { self.new.last ≡ self.old.last }
    {
        match turn_entry(self.entries.as_slice()) {
            Some((at, conditions)) => {
                self.entries.truncate(at);
                Ok(conditions)
            }
            None => Err(NoLoop),
        }
    }
}
