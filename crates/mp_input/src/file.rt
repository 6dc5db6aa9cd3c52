//! What is left of a file.

ghost use Rattle.std.specs.Prelude.{◌≡◌, ◌≢◌, ◌↔◌, ◌++◌, [], IsTrue, List, None, position};
ghost use Rattle.mp_values.specs.Items.{file_items};
ghost use Rattle.mp_values.specs.declared.turn.Pending.{Pending};
ghost use Rattle.mp_input.specs.Files.{is_line, line_of};
ghost use Rattle.mp_input.specs.Lines.{items_pending, first_line, end_file_after_line};
ghost use Rattle.mp_input.specs.Taken.{TakenFrom, last_item};

use mp_report::Place;
use mp_scaled::{NoMemory, Shared};
use mp_tokens::{Token, Tokens};
use mp_values::Item;
use std::marker::Model;

/// A file's tokens from one of them on, and the end of the file behind them. Contracts see the items that are left.
#[derive(Drop)]
pub(crate) struct FileRest {
    tokens: Shared<Tokens>,
    file: u32,
    at: usize,
    // `endinput` moves the end down
    end: usize,
    // the end of the file was taken
    ended: bool,
    // `endinput` was met: the end of a line that is left is the last token that is left
    cut: bool,
}

impl Model for FileRest {
    ghost use Rattle.std.specs.Prelude.{List, length, ◌≡◌, ◌≤◌, ◌<◌, true};
    ghost use Rattle.mp_values.specs.declared.item.Item.{Item};
    ghost use Rattle.mp_input.specs.Files.{file_left, EndsAtLine};

    ghost Value = { List Item };

    ghost view = { λ f. file_left f.file f.tokens f.at f.end f.ended };

    ghost invariant = { λ f. (f.at ≤ f.end) × (f.end ≤ length f.tokens) × (f.cut ≡ true → f.at < f.end → EndsAtLine f.tokens f.at f.end) };
}

fn is_line(token: &Token) -> bool
    ensures { result ≡ is_line token.now }
{
    matches!(token, Token::LineEnd(_))
}

fn line_of(token: &Token) -> Option<u32>
    ensures { result ≡ line_of token.now }
{
    match token {
        Token::LineEnd(line) => Some(*line),
        _ => None,
    }
}

// The first end of a line of tokens of that file.
#[tactic(auto, using(crate::proofs::LineLemmas::line_is_found, crate::proofs::LineLemmas::line_is_passed, crate::proofs::LineLemmas::line_is_none))]
fn first_line_of(file: u32, tokens: &[Token]) -> Option<Place>
    ensures { result ≡ first_line (items_pending (file_items file tokens.now)) }
{
    'tokens: for token in tokens {
        match line_of(token) {
            Some(line) => return Some(Place { file, line }),
            None => (),
        }
    }
    None
}

// Where the first end of a line is.
fn line_at(tokens: &[Token]) -> Option<usize>
    ensures { result ≡ position is_line tokens.now }
{
    tokens.iter().position(|token| is_line(token))
}

impl FileRest {
    /// The whole file of that number.
    pub(crate) fn new(file: u32, tokens: Shared<Tokens>) -> FileRest
        ensures { result ≡ file_items file tokens }
    {
        let end = tokens.get().as_slice().len();
        FileRest {
            tokens,
            file,
            at: 0,
            end,
            ended: false,
            cut: false,
        }
    }

    /// The first item that is left. An end of a line becomes the last one that was taken.
    #[tactic(auto, using(crate::proofs::CutLemmas::cut_next))]
    pub(crate) fn take(&mut self, last: &mut Place) -> Result<Option<Item>, NoMemory>
        ensures taken { TakenFrom self.old result self.new }
        ensures last { last.new ≡ last_item result last.old }
    {
        if self.ended {
            Ok(None)
        } else if self.at < self.end {
            let item = Item::of(self.file, &self.tokens.get().as_slice()[self.at])?;
            self.at += 1;
            if let Item::LineEnd(place) = &item {
                *last = *place;
            }
            Ok(Some(item))
        } else {
            self.ended = true;
            Ok(Some(Item::FileEnd))
        }
    }

    /// Whether nothing is left.
    pub(crate) fn is_over(&self) -> bool
        ensures { IsTrue result ↔ (self.now ≡ []) }
    {
        self.ended
    }

    /// The first end of a line that is left.
    #[tactic(auto, using(crate::proofs::RestLemmas::rest_is, crate::proofs::CutLemmas::cut_line))]
    pub(crate) fn first_line(&self) -> Option<Place>
        ensures { result ≡ first_line (items_pending self.now) }
    {
        if self.ended {
            return None;
        }
        let tokens = self.tokens.get().as_slice();
        if self.cut && self.at < self.end {
            return first_line_of(self.file, &tokens[self.end - 1..self.end]);
        }
        first_line_of(self.file, &tokens[self.at..self.end])
    }

    /// Ends the file after its first end of a line, if it has one.
    #[tactic(auto, using(crate::proofs::RestLemmas::file_none, crate::proofs::RestLemmas::file_ends, crate::proofs::CutLemmas::cut_again, crate::proofs::CutLemmas::cut_made))]
    pub(crate) fn end_after_line(&mut self)
        ensures { first_line (items_pending self.old) ≢ None → (below : List Pending) → end_file_after_line (items_pending self.old ++ below) ≡ items_pending self.new ++ below }
    {
        if self.ended || (self.cut && self.at < self.end) {
            return;
        }
        match line_at(&self.tokens.get().as_slice()[self.at..self.end]) {
            Some(at) => {
                self.end = self.at + at + 1;
                self.cut = true;
            }
            None => (),
        }
    }
}
