// The program `desk` (RULES 21): lines of text from standard input, to standard output what each of them stands for. Input is
// read in large blocks, and what is printed is written out in blocks. Of a line that goes on no octet of text is kept.
#![tactic(auto)]

ghost use Rattle.std.specs.Prelude.{◌≤◌, ◌≡◌, length};
ghost use Rattle.page.specs.Printing.{HasRoom, Prints};
ghost use Rattle.typed.specs.Forms.{typed_in, Keeps};
ghost use Rattle.desk.specs.Lines.{answer_of, Batched, Serves};

use page::Page;
use std::io::{Read, Write};
use stdio::Failure;
use typed::{Form, Line};
use words::Fixed;

// Octets of input that are held.
const INPUT: usize = 65536;
// Lines are written out when they fill this much.
const DUE: usize = 32768;

// How far the lines that are held are answered: the line that goes on, and the place of what is not yet taken.
#[derive(Clone, Copy)]
struct Batch {
    line: Line,
    from: usize,
}

// What a line prints that has ended.
fn answer(page: &mut Page<'_>, ended: Line, octets: &[u8])
    requires { Keeps octets.now ended × HasRoom page.old 98313 }
    ensures { Prints page.old (answer_of (typed_in octets.now ended)) page.new }
{
    match ended.form {
        Form::Blank => {}
        Form::Refused(n) => text::write_line(page, n, &[]),
        Form::Number(_) | Form::Numbered(_) | Form::Octets => {
            telling::tell(page, &octets[..ended.count])
        }
        _ => words::write_fixed(page, Fixed::NotAMessage),
    }
}

// Answers the lines that end in what is held, from a place on, until none is left or lines are due.
fn answer_lines(
    octets: &mut [u8],
    line: Line,
    held: &[u8],
    from: usize,
    page: &mut Page<'_>,
) -> Batch
    requires { Keeps octets.old line × (from ≤ length held.now) × (page.old.at ≡ 0) × (length page.old.room.now ≡ 131081) }
    ensures { Batched held.now (typed_in octets.old line) from (typed_in octets.new result.line) result.from page.new.at page.new.room.now × Keeps octets.new result.line }
{
    let mut read = line;
    let mut next = from;
    while page.at < DUE {
        let scanned = typed::scan(octets, read, held, next);
        let more = scanned.line;
        next = scanned.at;
        if !scanned.ended {
            return Batch {
                line: more,
                from: next,
            };
        }
        answer(page, more, octets);
        read = typed::start();
    }
    Batch {
        line: read,
        from: next,
    }
}

// Takes all that is held, and returns the line that goes on. What is printed is written out at the end, so that a peer which
// waits for it has it before the next read.
fn serve(
    output: &mut impl Write,
    octets: &mut [u8],
    line: Line,
    held: &[u8],
    out: &mut [u8],
) -> Result<Line, Failure>
    requires { Keeps octets.old line × (length out.old ≡ 131081) }
    ensures { Serves held.now (typed_in octets.old line) result octets.new }
{
    let mut read = line;
    let mut from = 0;
    loop {
        let mut page = Page { room: out, at: 0 };
        let batch = answer_lines(octets, read, held, from, &mut page);
        let at = page.at;
        stdio::write_out(output, page.printed())?;
        read = batch.line;
        from = batch.from;
        if at < DUE {
            return Ok(read);
        }
    }
}

// What the last line prints, which need not have an end.
fn finish(output: &mut impl Write, octets: &[u8], line: Line, out: &mut [u8]) -> Result<(), Failure>
    requires { Keeps octets.now line × (length out.old ≡ 131081) }
{
    let mut page = Page { room: out, at: 0 };
    answer(&mut page, line, octets);
    stdio::write_out(output, page.printed())
}

// Reads and answers until the input ends. A proved loop has to end, and nothing says that input does: so the loop has a
// number of turns that no run uses up.
fn run(
    input: &mut impl Read,
    output: &mut impl Write,
    octets: &mut [u8],
    block: &mut [u8],
    out: &mut [u8],
) -> Result<(), Failure>
    requires { (length octets.old ≡ 4097) × (length block.old ≡ 65536) × (length out.old ≡ 131081) }
{
    let mut line = typed::start();
    for _ in 0..u64::MAX {
        let Some(n) = stdio::read_on(input, block, 0)? else {
            return finish(output, octets, line, out);
        };
        line = serve(output, octets, line, &block[..n], out)?;
    }
    Ok(())
}

fn main(rt: HostRuntime) {
    let mut octets = [0u8; typed::KEPT_MOST];
    let mut block = [0u8; INPUT];
    let mut out = [0u8; DUE + telling::LINES];
    let ended = run(
        &mut rt.stdin(),
        &mut rt.stdout(),
        &mut octets,
        &mut block,
        &mut out,
    );
    if let Err(failure) = ended {
        // Where this cannot be written either, nobody is told.
        let _ = eprintln!(rt; "desk: {failure}");
    }
}
