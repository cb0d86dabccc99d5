// The rest of a case's line: what the decoder and the exchange make of a file.
use crate::print::{Bytes, Exchanged};
use file::Refusal;
use input::{FILE_ROOM, filled};
use sheet_lines::{fitting, is_blank};
use std::io;
use std::io::Write;

// What every output holds before a call. A place that holds it afterwards counts as untouched.
const BLANK: u8 = 170;

pub fn answers<W: Write>(to: &mut W, file: &[u8]) -> io::Result<()> {
    match decoding::decode(file) {
        Ok(game) => accepted(to, file, game.states, game.moves)?,
        Err(refusal) => refused(to, file, refusal)?,
    }
    writeln!(to)
}

// A refused file: the exchange refuses it likewise, into an output with places to spare and into one with none.
fn refused<W: Write>(to: &mut W, file: &[u8], refusal: Refusal) -> io::Result<()> {
    write!(to, ": REFUSED {refusal}; exchange ")?;
    untouched(to, file, file.len() + 64)?;
    write!(to, "; into no room ")?;
    untouched(to, file, 0)
}

// An accepted file, and its exchange into an output just long enough, back from there, into one a place too short, and into one
// five places longer.
fn accepted<W: Write>(to: &mut W, file: &[u8], states: usize, moves: usize) -> io::Result<()> {
    write!(to, ": accepted, {states} states, {moves} moves; exchange ")?;
    let mut room = filled::<u8, FILE_ROOM>(BLANK);
    let size = fitting(file.len(), &room);
    let exchanged = &mut room[..size];
    let answer = Exchanged(exchange::exchange(file, exchanged));
    let bytes = Bytes(exchanged);
    write!(to, "{answer} {bytes}; again ")?;
    against(to, exchanged, file, 0)?;
    write!(to, "; one short ")?;
    untouched(to, file, file.len().saturating_sub(1))?;
    write!(to, "; longer ")?;
    against(to, file, exchanged, 5)
}

// Exchanges `file` into an output with `spare` places more than `expected`, and prints the answer, whether the output begins with
// `expected`, and whether the rest is untouched.
fn against<W: Write>(to: &mut W, file: &[u8], expected: &[u8], spare: u8) -> io::Result<()> {
    let mut room = filled::<u8, FILE_ROOM>(BLANK);
    let size = fitting(expected.len() + usize::from(spare), &room);
    let out = &mut room[..size];
    let answer = Exchanged(exchange::exchange(file, out));
    let kept = if out.starts_with(expected) {
        "same"
    } else {
        "DIFFERENT"
    };
    let rest = touch(out, expected.len());
    write!(to, "{answer}, {kept}, rest {rest}")
}

// Exchanges `file` into an output of this size, and prints the answer and whether the output is untouched.
fn untouched<W: Write>(to: &mut W, file: &[u8], size: usize) -> io::Result<()> {
    let mut room = filled::<u8, FILE_ROOM>(BLANK);
    let size = fitting(size, &room);
    let out = &mut room[..size];
    let answer = Exchanged(exchange::exchange(file, out));
    let all = touch(out, 0);
    write!(to, "{answer}, {all}")
}

// Says whether every place from `from` on is untouched.
fn touch(out: &[u8], from: usize) -> &'static str {
    if is_blank(out, from, &BLANK) {
        "untouched"
    } else {
        "TOUCHED"
    }
}
