// The line of a call's outcome, as `bridge` and `rig` print it.
#![tactic(auto)]

ghost use Rattle.std.specs.Prelude.{◌+◌, ◌≤◌, ◌<◌, length};
ghost use Rattle.page.specs.Printing.{HasRoom, Prints};
ghost use Rattle.endpoint.specs.Outcomes.{length_of, position_of};
ghost use Rattle.answers.specs.Answers.{answer_line, full_answer};

use page::Page;

// The line of an outcome: its number, and what its call wrote at the start of a room.
pub fn write_outcome(page: &mut Page<'_>, outcome: endpoint::Outcome, room: &[u8])
    requires { (length_of outcome ≤ length room.now) × HasRoom page.old (length room.now + length room.now + 5) }
    ensures { Prints page.old (answer_line outcome room.now) page.new }
{
    let n = endpoint::written(outcome);
    text::write_line(page, endpoint::number(outcome), &room[..n]);
}

// The line of an outcome told in full: its position stands between its number and what its call wrote. A function of its own: with
// a switch, callers of the short line would also have to show that the position has at most four digits.
pub fn write_in_full(page: &mut Page<'_>, outcome: endpoint::Outcome, room: &[u8])
    requires { (length_of outcome ≤ length room.now) × (position_of outcome < 10000) × HasRoom page.old (length room.now + length room.now + 12) }
    ensures { Prints page.old (full_answer outcome room.now) page.new }
{
    let n = endpoint::written(outcome);
    text::write_full_line(
        page,
        endpoint::number(outcome),
        endpoint::position(outcome),
        &room[..n],
    );
}
