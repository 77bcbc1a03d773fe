// Standard input in pieces that tell their own length, lines to standard output, and what is told where either cannot be
// had. A piece is a head, whose last two octets are the length of the body after it. Input is read in large
// blocks; what is left of a piece moves to the front before more is read after it.
#![tactic(auto)]

ghost use Rattle.std.specs.Prelude.{ℕ, ⊤, ◌+◌, ◌-◌, ◌≤◌, ◌<◌, ◌≡◌, length, drop, OnOk};
ghost use Rattle.std.specs.Io.KnownBytes.{Appends};
ghost use Rattle.meaning.specs.Octets.{part, splice};
ghost use Rattle.page.specs.Printing.{HasRoom, Prints};
ghost use Rattle.stdio.specs.Taking.{Program, Piece, TakesOne, Batches, Serves};
ghost use Rattle.stdio.specs.Pieces.{next_at, Reads, Brings, Continues, cut_line};

use page::Page;
use std::fmt;
use std::io::{Read, Write};

// ---- what is held

// Where the piece at a place of what was read ends, with a head of two or three octets; none where more of it is to be
// read.
pub fn next_piece(held: &[u8], from: usize, head: usize) -> Option<usize>
    requires { (from ≤ length held.now) × (2 ≤ head) × (head ≤ 3) }
    ensures { result ≡ next_at held.now from head }
{
    let left = held.len() - from;
    if left < head {
        return None;
    }
    let size = head + octets::get16(held, from + head - 2);
    if left < size {
        return None;
    }
    Some(from + size)
}

// Moves the octets between two places to the front; how many they are. The octets after them stay.
pub fn to_front(block: &mut [u8], from: usize, to: usize) -> usize
    requires { (from ≤ to) × (to ≤ length block.old) }
    ensures { (result ≡ to - from) × (block.new ≡ splice block.old 0 (part block.old from result)) }
{
    block.copy_within(from..to, 0);
    to - from
}

// The line of a piece that is not whole, or not one that can be taken.
pub fn write_cut(page: &mut Page<'_>)
    requires { HasRoom page.old 4 }
    ensures { Prints page.old cut_line page.new }
{
    page.print(b"cut\n");
}

// ---- what is written and read

// Why a program ends before its input does.
#[derive(Clone, Copy)]
pub enum Failure {
    Input,
    Output,
}

// What a program tells of it on standard error, behind its own name.
impl fmt::Display for Failure {
    ghost use Rattle.std.specs.Prelude.{Some};
    ghost use Rattle.stdio.specs.Failures.{told};

    ghost output = { λ failure. Some (told failure) };

    fn fmt<W: fmt::Write>(&self, f: &mut fmt::Formatter<W>) -> fmt::Result {
        match self {
            Failure::Input => f.write_str("standard input cannot be read"),
            Failure::Output => f.write_str("standard output cannot be written"),
        }
    }
}

// Lines written to standard output.
pub fn write_out<W: Write>(output: &mut W, lines: &[u8]) -> Result<(), Failure>
    ensures { OnOk result (Appends (W.contents output.old) (W.contents output.new) lines.now) }
{
    output.write_all(lines).map_err(|_| Failure::Output)
}

// Reads once, to a place and after it; the octets before it stay. How many it brought, none at the input's end.
pub fn read_on<R: Read>(
    input: &mut R,
    block: &mut [u8],
    at: usize,
) -> Result<Option<usize>, Failure>
    requires { at ≤ length block.old }
    ensures stays { Reads block.old at result block.new }
    ensures brings { Brings (R.remaining input.old) (R.remaining input.new) result (drop at block.new) }
{
    match input.read(&mut block[at..]) {
        Ok(0) => Ok(None),
        Ok(n) => Ok(Some(n)),
        Err(_) => Err(Failure::Input),
    }
}

// `cut` written out by itself.
fn write_out_cut(output: &mut impl Write) -> Result<(), Failure> {
    let mut room = [0u8; 4];
    let mut page = Page {
        room: &mut room,
        at: 0,
    };
    write_cut(&mut page);
    write_out(output, page.printed())
}

// Reads more behind what is left, the octets between two places, which first go to the front. They are fewer than the
// block has, or a read of no octets would look like the input's end. The place up to which octets are held then; none at
// the input's end, where `cut` has been written if a piece was begun.
pub fn read_more(
    input: &mut impl Read,
    output: &mut impl Write,
    block: &mut [u8],
    from: usize,
    to: usize,
) -> Result<Option<usize>, Failure>
    requires { (from ≤ to) × (to ≤ length block.old) × (to < from + length block.old) }
    ensures { Continues block.old from to result block.new }
{
    let left = to_front(block, from, to);
    if let Some(n) = read_on(input, block, left)? {
        return Ok(Some(left + n));
    }
    if left > 0 {
        write_out_cut(output)?;
    }
    Ok(None)
}

// ---- a program over its pieces

// Octets of input that are held: the longest piece and nearly as many again.
pub const INPUT: usize = 131072;
// Lines are written out when they fill this much.
pub const DUE: usize = 65536;

// A program that takes pieces.
pub trait TakePieces {
    // What it keeps from piece to piece: as a value of the definition, and how its own value stands for one.
    ghost State: { Type 0 };

    ghost state: { Self → Self.State };

    ghost program: { Program Self.State };

    // What is always true of its value.
    ghost fits: { Self → Type 0 } = { λ _. ⊤ };

    // Octets of the longest line.
    ghost longest: { ℕ };

    // Octets of a piece's head.
    fn head(&self) -> usize
        ensures { (result ≡ program.head) × (2 ≤ result) × (result ≤ 3) };

    // Takes one piece, and prints its line; none where the piece is faulty.
    fn take(&mut self, first: u8, body: &[u8], page: &mut Page<'_>) -> Option<()>
        requires fits { fits self.old }
        requires room { HasRoom page.old longest }
        ensures fits { fits self.new }
        ensures takes { TakesOne program (state self.old) (record { first = first; body = body.now }) longest page.old page.new result (state self.new) };
}

// Takes whole pieces from a place on, until none is left, one is faulty or lines are due. The place of the next piece, none
// where it is faulty.
fn take_batch<P: TakePieces>(
    port: &mut P,
    held: &[u8],
    from: usize,
    page: &mut Page<'_>,
) -> Option<usize>
    requires { P.fits port.old × (from ≤ length held.now) × (4 ≤ P.longest) × (page.old.at ≡ 0) × (65535 + P.longest ≤ length page.old.room.now) }
    ensures fits { P.fits port.new }
    ensures batched { Batches P.program held.now (record { state = P.state port.old; from = from }) (P.state port.new) result page.new }
{
    let head = port.head();
    let mut next = from;
    while page.at < DUE {
        let Some(end) = next_piece(held, next, head) else {
            return Some(next);
        };
        let body = &held[next + head..end];
        if port.take(held[next], body, page).is_none() {
            write_cut(page);
            return None;
        }
        next = end;
    }
    Some(next)
}

// Takes every whole piece that is held, up to a faulty one; the place from which more input is wanted, none where one is
// faulty. All lines are written out at the end, so that a peer which waits for them has them before the next read.
fn serve<W: Write, P: TakePieces>(
    output: &mut W,
    port: &mut P,
    held: &[u8],
    out: &mut [u8],
) -> Result<Option<usize>, Failure>
    requires { P.fits port.old × (4 ≤ P.longest) × (65535 + P.longest ≤ length out.old) }
    ensures fits { P.fits port.new }
    ensures serves { Serves P.program held.now (P.state port.old) result (P.state port.new) }
{
    let mut from = 0;
    loop {
        let mut page = Page { room: out, at: 0 };
        let batch = take_batch(port, held, from, &mut page);
        let at = page.at;
        write_out(output, page.printed())?;
        let Some(next) = batch else {
            return Ok(None);
        };
        from = next;
        if at < DUE {
            return Ok(Some(from));
        }
    }
}

// Reads and takes until the input ends or a piece is faulty. A proved loop has to end, and nothing says that input does: so
// the loop has a number of turns that no run uses up. What is printed of what is held, `serve` says; of a whole run only that what is
// always true of the program still is.
pub fn run<R: Read, W: Write, P: TakePieces>(
    input: &mut R,
    output: &mut W,
    port: &mut P,
    block: &mut [u8; INPUT],
    out: &mut [u8],
) -> Result<(), Failure>
    requires { P.fits port.old × (P.program.head ≤ 3) × (4 ≤ P.longest) × (65535 + P.longest ≤ length out.old) }
    ensures { P.fits port.new }
{
    let mut from = 0;
    let mut to = 0;
    for _ in 0..u64::MAX {
        let Some(end) = read_more(input, output, block, from, to)? else {
            return Ok(());
        };
        let Some(rest) = serve(output, port, &block[..end], out)? else {
            return Ok(());
        };
        from = rest;
        to = end;
    }
    Ok(())
}
