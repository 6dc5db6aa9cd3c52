//! The writing of what a run made.

ghost use Rattle.std.specs.Prelude.{◌≡◌, []};
ghost use Rattle.std.specs.Bool.{MatchBool};
ghost use Rattle.mp_files.specs.Outside.{WriteGives};
ghost use Rattle.mpost.specs.Delivery.{Outlets, DeliverGives, Tried, PutsGive, PutsBreak};

use mp_eval::Figure;
use mp_files::{Shelf, Sink, Stored, Written};

/// How far the writing came.
#[derive(Clone, Copy, Debug, PartialEq, Eq)]
pub enum Delivered {
    All,
    /// The lines failed.
    LinesFailed,
    /// A figure failed.
    PutFailed,
    /// The line of the end failed.
    LineFailed,
}

const FAULT_LINE: &[u8] = b"mpost: write fault\n";

/// Writes a piece, unless it is empty.
pub fn write<O: Sink>(piece: &[u8], out: &mut O) -> Written
    ensures gives { WriteGives (O.seen out.old) (O.seen out.new) piece.now result }
    ensures empty { piece.now ≡ [] → result ≡ Written.Written }
{
    if piece.is_empty() {
        return Written::Written;
    }
    out.write_all(piece)
}

/// Tries to write a piece, whatever comes of it.
fn try_write<O: Sink>(piece: &[u8], out: &mut O)
    ensures { Tried [] piece.now (O.seen out.old) (O.seen out.new) }
{
    match write(piece, out) {
        Written::Written => {}
        Written::Failed => {}
    }
}

/// Puts figures in order, until one fails.
fn put_all<S: Shelf>(figures: &[Figure], shelf: &mut S) -> bool
    ensures { MatchBool result (PutsGive (S.seen shelf.old) (S.seen shelf.new) figures.now) (PutsBreak (S.seen shelf.old) (S.seen shelf.new) figures.now) }
{
    for figure in figures {
        match shelf.put(figure.name.as_slice(), figure.bytes.as_slice()) {
            Stored::Stored => {}
            Stored::Failed => return false,
        }
    }
    true
}

/// Writes the lines, then the figures, then the line of the end. After a figure that fails the line of the
/// fault is still tried.
pub fn deliver<S: Shelf, O: Sink>(
    lines: &[u8],
    figures: &[Figure],
    line: &[u8],
    shelf: &mut S,
    out: &mut O,
) -> Delivered
    ensures { let before : Outlets = record { shelf = S.seen shelf.old; out = O.seen out.old } in
        let now : Outlets = record { shelf = S.seen shelf.new; out = O.seen out.new } in
        DeliverGives lines.now figures.now line.now before now result }
{
    match write(lines, out) {
        Written::Failed => return Delivered::LinesFailed,
        Written::Written => {}
    }
    if !put_all(figures, shelf) {
        try_write(FAULT_LINE, out);
        return Delivered::PutFailed;
    }
    match write(line, out) {
        Written::Failed => Delivered::LineFailed,
        Written::Written => Delivered::All,
    }
}
