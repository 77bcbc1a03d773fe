// Lines of text, printed on a page. Each function says by a definition of `Lines` what it prints.
#![tactic(auto)]

ghost use Rattle.std.specs.Prelude.{◌+◌, ◌≤◌, ◌<◌, ◌≡◌, length};
ghost use Rattle.page.specs.Printing.{HasRoom, Prints};
ghost use Rattle.text.specs.Lines.{digit, hex, decimal, shown_octets, octets_line, line, long_decimal, lent_line, full_line, wide_decimal, wide_field, octet_field, open_line};

use page::Page;

// The character of a digit: 39 more for a letter, taken from all bits of an octet or from none. With a quotient by 10 or a
// test, LLVM puts branches into the loop over it.
fn digit(d: u8) -> u8
    requires { d < 16 }
    ensures { result ≡ digit d }
{
    d + 48 + ((d + 6) / 16 * 255 & 39)
}

// Octets as two digits each, over all of a room: through a page, each digit would be stored behind the last one's place.
fn fill_hex(room: &mut [u8], src: &[u8])
    requires { length room.old ≡ length src.now + length src.now }
    ensures { room.new ≡ hex src.now }
{
    for (i, x) in src.iter().enumerate() {
        room[2 * i] = digit(*x / 16);
        room[2 * i + 1] = digit(*x % 16);
    }
}

// Octets as two digits each.
pub fn write_hex(page: &mut Page<'_>, src: &[u8])
    requires { HasRoom page.old (length src.now + length src.now) }
    ensures { Prints page.old (hex src.now) page.new }
{
    let end = page.at + (src.len() + src.len());
    fill_hex(&mut page.room[page.at..end], src);
    page.at = end;
}

// Octets, or `-` for none.
fn write_shown(page: &mut Page<'_>, src: &[u8])
    requires { HasRoom page.old (length src.now + length src.now + 1) }
    ensures { Prints page.old (shown_octets src.now) page.new }
{
    if src.is_empty() {
        page.push(b'-');
        return;
    }
    write_hex(page, src);
}

// A line of octets alone.
pub fn write_octets(page: &mut Page<'_>, src: &[u8])
    requires { HasRoom page.old (length src.now + length src.now + 2) }
    ensures { Prints page.old (octets_line src.now) page.new }
{
    write_shown(page, src);
    page.push(b'\n');
}

// A number under 100.
fn write_decimal(page: &mut Page<'_>, number: u64)
    requires { (number < 100) × HasRoom page.old (length (decimal number)) }
    ensures { Prints page.old (decimal number) page.new }
{
    if number < 10 {
        page.push(digit(number as u8));
        return;
    }
    page.print(&[digit((number / 10) as u8), digit((number % 10) as u8)]);
}

// A number under 10,000.
fn write_long_decimal(page: &mut Page<'_>, number: u64)
    requires { (number < 10000) × HasRoom page.old (length (long_decimal number)) }
    ensures { Prints page.old (long_decimal number) page.new }
{
    if number < 100 {
        write_decimal(page, number);
        return;
    }
    write_decimal(page, number / 100);
    page.print(&[digit((number / 10 % 10) as u8), digit((number % 10) as u8)]);
}

// A number of 64 bits. The library zeroes a room for twenty digits and counts them, which for four takes longer than they do.
fn write_wide_decimal(page: &mut Page<'_>, number: u64)
    requires { HasRoom page.old (length (wide_decimal number)) }
    ensures { Prints page.old (wide_decimal number) page.new }
{
    if number < 10000 {
        write_long_decimal(page, number);
        return;
    }
    let mut digits = [0u8; 20];
    let n = io::decimal(number, &mut digits);
    page.print(&digits[..n]);
}

// A number of 64 bits, and the character behind it.
fn write_field(page: &mut Page<'_>, number: u64, after: u8)
    requires { HasRoom page.old (length (wide_field number after)) }
    ensures { Prints page.old (wide_field number after) page.new }
{
    write_wide_decimal(page, number);
    page.push(after);
}

// The line that tells how much was lent.
pub fn write_lent(page: &mut Page<'_>, lent: usize)
    requires { (lent < 10000) × HasRoom page.old 10 }
    ensures { Prints page.old (lent_line lent) page.new }
{
    page.print(b"lent ");
    write_long_decimal(page, lent as u64);
    page.push(b'\n');
}

// A line: a number under 100, a space, octets.
pub fn write_line(page: &mut Page<'_>, number: usize, reply: &[u8])
    requires { (number < 100) × HasRoom page.old (length reply.now + length reply.now + 5) }
    ensures { Prints page.old (line number reply.now) page.new }
{
    write_decimal(page, number as u64);
    page.push(b' ');
    write_octets(page, reply);
}

// A line told in full: a number, a position, octets.
pub fn write_full_line(page: &mut Page<'_>, number: usize, position: usize, reply: &[u8])
    requires { (number < 10000) × (position < 10000) × HasRoom page.old (length reply.now + length reply.now + 12) }
    ensures { Prints page.old (full_line number position reply.now) page.new }
{
    write_field(page, number as u64, b' ');
    write_field(page, position as u64, b' ');
    write_octets(page, reply);
}

// An octet as two digits, and a space.
fn write_octet_field(page: &mut Page<'_>, octet: u8)
    requires { HasRoom page.old 3 }
    ensures { Prints page.old (octet_field octet) page.new }
{
    page.print(&[digit(octet / 16), digit(octet % 16), b' ']);
}

// The line of open gates: their states, the entry's number, the nanoseconds to the next change.
pub fn write_open_line(page: &mut Page<'_>, states: u8, entry: usize, nanoseconds: u64)
    requires { HasRoom page.old 50 }
    ensures { Prints page.old (open_line states entry nanoseconds) page.new }
{
    write_field(page, 0, b' ');
    write_octet_field(page, states);
    write_field(page, entry as u64, b' ');
    write_field(page, nanoseconds, b'\n');
}
