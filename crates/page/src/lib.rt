// A page: a room that octets are printed into one after another. Each method says by a definition what is printed.
#![tactic(auto)]

ghost use Rattle.std.specs.Prelude.{◌≤◌, ◌≡◌, ◌∷◌, [], length, take};
ghost use Rattle.page.specs.Printing.{HasRoom, Prints};

// A room that is printed into, from its front on, and the place at which it goes on.
#[derive(Drop)]
pub struct Page<'a> {
    pub room: &'a mut [u8],
    pub at: usize,
}

impl<'a> Page<'a> {
    // One octet more.
    pub fn push(&mut self, x: u8)
        requires { HasRoom self.old 1 }
        ensures { Prints self.old (x ∷ []) self.new }
    {
        self.room[self.at] = x;
        self.at += 1;
    }

    // Octets more.
    pub fn print(&mut self, src: &[u8])
        requires { HasRoom self.old (length src.now) }
        ensures { Prints self.old src.now self.new }
    {
        let end = self.at + src.len();
        self.room[self.at..end].copy_from_slice(src);
        self.at = end;
    }

    // All that is printed.
    pub fn printed(&self) -> &[u8]
        requires { self.now.at ≤ length self.now.room.now }
        ensures { result.now ≡ take self.now.at self.now.room.now }
    {
        &self.room[..self.at]
    }
}
