// Local values: which the port may set, and the entry that one leaves.
#![tactic(auto)]

ghost use Rattle.std.specs.Prelude.{◌≤◌, ◌<◌, ◌≡◌, length};
ghost use Rattle.meaning.specs.Table.{entry_count, row_at};
ghost use Rattle.meaning.specs.Calls.{local_permitted, local_memory};

use table::{Flag, Memory, Owner};

// Whether the port sets this name and may give it this value. An empty one makes it absent. A name with no place gets a row that nobody
// sets.
pub fn permitted(name: usize, value: &[u8]) -> bool
    ensures { result ≡ local_permitted name value.now }
{
    let k = table::place_of(name);
    table::row_at(k).owner == Owner::Port && (value.is_empty() || table::permits(k, value))
}

// The value stored in its room, or made absent (RULES 13.3, 13.4), and the marks that it leaves (RULES 13.5 to 13.11).
pub fn store(m: &mut Memory, k: usize, value: &[u8])
    requires { (k < entry_count) × (length value.now ≤ (row_at k).most) }
    ensures { m.new ≡ local_memory m.old k value.now }
{
    let s = memory::has(m, k, Flag::Subscribed);
    let differs = memory::body(m, k) != value;
    let f = memory::flags_with(m, k, !value.is_empty(), s & differs);
    memory::put(m, k, f, value);
}
