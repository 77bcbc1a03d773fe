// The program `bridge` (RULES 16): frames from standard input, one line a frame to standard output, over one memory.
#![tactic(auto)]

use page::Page;
use stdio::TakePieces;

// Octets that the line of the longest reply may take: two digits for each octet, the number before and the line's end.
const LINE: usize = 2 * endpoint::REPLY_MOST + 5;

// What is lent to each call, and kept from frame to frame.
#[derive(Drop)]
struct Bridge {
    memory: [u8; endpoint::MEMORY_LENGTH],
    room: [u8; endpoint::REPLY_MOST],
}

// Each frame holds a message, which is answered.
impl TakePieces for Bridge {
    ghost use Rattle.answers.specs.Answers.{Port};
    ghost use Rattle.bridge.specs.Frames.{frames};

    ghost State = { Port };

    ghost state = { λ b. record { memory = b.memory; room = b.room } };

    ghost program = { frames };

    ghost longest = { 8197 };

    fn head(&self) -> usize {
        2
    }

    fn take(&mut self, _first: u8, body: &[u8], page: &mut Page<'_>) -> Option<()> {
        let outcome = endpoint::message(&mut self.memory, body, &mut self.room);
        answers::write_outcome(page, outcome, &self.room);
        Some(())
    }
}

fn main(rt: HostRuntime) {
    let mut bridge = Bridge {
        memory: [0u8; endpoint::MEMORY_LENGTH],
        room: [0u8; endpoint::REPLY_MOST],
    };
    let _ = endpoint::make_fresh(&mut bridge.memory, endpoint::RELEASE_18);
    let mut block = [0u8; stdio::INPUT];
    let mut out = [0u8; stdio::DUE + LINE];
    let ended = stdio::run(
        &mut rt.stdin(),
        &mut rt.stdout(),
        &mut bridge,
        &mut block,
        &mut out,
    );
    if let Err(failure) = ended {
        // Where this cannot be written either, nobody is told.
        let _ = eprintln!(rt; "bridge: {failure}");
    }
}
