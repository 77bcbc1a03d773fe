// The program `rig` (RULES 17): a script of instructions from standard input, each a call of the endpoint or something to
// show, one line an instruction to standard output.
#![tactic(auto)]

ghost use Rattle.std.specs.Prelude.{◌≡◌, length};
ghost use Rattle.meaning.specs.Octets.{splice};
ghost use Rattle.meaning.specs.Memory.{fresh};
ghost use Rattle.meaning.specs.Profile.{release18};
ghost use Rattle.meaning.specs.FormB.{ahead};

use page::Page;
use script::Lent;
use stdio::TakePieces;

// Octets that the line of a full room may take: two digits for each octet, two numbers with a space behind each, and the
// line's end.
const LINE: usize = 2 * script::MOST_ROOM + 12;

// What the calls are lent of, and how much.
#[derive(Drop)]
struct Rig {
    memory: [u8; script::MOST_LENT],
    room: [u8; script::MOST_ROOM],
    lent: Lent,
}

// Each instruction is taken over what is lent.
impl TakePieces for Rig {
    ghost use Rattle.std.specs.Prelude.{take};
    ghost use Rattle.answers.specs.Answers.{Port};
    ghost use Rattle.script.specs.Takes.{Lends};
    ghost use Rattle.rig.specs.Script.{instructions};

    ghost State = { Port };

    ghost state = { λ r. record { memory = take r.lent.memory r.memory; room = take r.lent.room r.room } };

    ghost program = { instructions };

    ghost fits = { λ r. Lends r.lent };

    ghost longest = { 16396 };

    fn head(&self) -> usize {
        3
    }

    fn take(&mut self, first: u8, body: &[u8], page: &mut Page<'_>) -> Option<()> {
        let lent = self.lent;
        self.lent = script::take_instruction(
            &mut self.memory,
            &mut self.room,
            lent,
            first,
            body,
            page,
        )?;
        Some(())
    }
}

// What is lent at first: fresh memory of Release 18, in form B.
fn start(memory: &mut [u8])
    requires { length memory.old ≡ 2200 }
    ensures { memory.new ≡ splice memory.old 0 (ahead release18 fresh) }
{
    let _ = endpoint::make_fresh(&mut memory[..endpoint::MEMORY_LENGTH], endpoint::RELEASE_18);
}

fn main(rt: HostRuntime) {
    let mut rig = Rig {
        memory: [0u8; script::MOST_LENT],
        room: [0u8; script::MOST_ROOM],
        lent: Lent {
            memory: endpoint::MEMORY_LENGTH,
            room: 0,
        },
    };
    start(&mut rig.memory);
    let mut block = [0u8; stdio::INPUT];
    let mut out = [0u8; stdio::DUE + LINE];
    let ended = stdio::run(
        &mut rt.stdin(),
        &mut rt.stdout(),
        &mut rig,
        &mut block,
        &mut out,
    );
    if let Err(failure) = ended {
        // Where this cannot be written either, nobody is told.
        let _ = eprintln!(rt; "rig: {failure}");
    }
}
