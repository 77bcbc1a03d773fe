// Schedules: which value keeps which rule, the two sums over a block, its form and fit, a commit's conditions.
// A block is four values one behind another (RULES 8.1); every answer is that of a definition of `meaning`.
#![tactic(auto)]

ghost use Rattle.std.specs.Prelude.{◌≡◌, ◌≤◌, true, ◌&&◌, ◌++◌, length, ◌==◌};
ghost use Rattle.meaning.specs.Octets.{be16, same};
ghost use Rattle.meaning.specs.Table.{row_at, admin_control_list_length, admin_control_list, admin_cycle_time};
ghost use Rattle.meaning.specs.Block.{sums_from, sums_of, sums, joined_block, list_of, ratio_of, form_and_fit, keeps, permits};
ghost use Rattle.schedule.specs.Rules.{rule_of, asked, fit_together};

// The rules of the table's rows.
#[derive(Clone, Copy)]
pub enum Rule {
    Free,
    Within(u64, u64),
    Time,
    Entries,
    Ratio,
    Running,
}

// Octets of a block but for its list: the base time before it and its length, the cycle behind it.
const BASE_LENGTH: usize = 10;

const COUNT_END: usize = 14;

const RATIO_LENGTH: usize = 8;

const BLOCK_REST: usize = COUNT_END + RATIO_LENGTH;

// Octets of a commit's value.
pub const SUMS_LENGTH: usize = 4;

// The two sums over a block.
#[derive(Clone, Copy)]
pub struct Sums {
    pub first: u16,
    pub second: u16,
}

impl Sums {
    // The two sums over nothing.
    const NONE: Sums = Sums {
        first: 0,
        second: 0,
    };

    // The two sums, gone on with over a further part, each wrapping at 65,536. An octet adds to the second sum as often as octets
    // are left with it, so no turn waits for the one before.
    pub fn on(self, part: &[u8]) -> Sums
        ensures { (result.first ≡ (sums_from self.first self.second part.now).first) × (result.second ≡ (sums_from self.first self.second part.now).second) }
    {
        let mut left = (part.len() % 65536) as u16;
        let mut first = self.first;
        let mut second = self.second.wrapping_add(first.wrapping_mul(left));
        for x in part {
            let x = u16::from(*x);
            first = first.wrapping_add(x);
            second = second.wrapping_add(x.wrapping_mul(left));
            left = left.wrapping_sub(1);
        }
        Sums { first, second }
    }
}

// The two sums over a block.
pub fn sums_of(block: &[u8]) -> Sums
    ensures { (result.first ≡ (sums_of block.now).first) × (result.second ≡ (sums_of block.now).second) }
{
    Sums::NONE.on(block)
}

// The two sums over the block that four values make: each value is summed where it stands, from where the one before it left off.
pub fn sums_of_four(base: &[u8], count: &[u8], list: &[u8], ratio: &[u8]) -> Sums
    ensures { (result.first ≡ (sums_of (joined_block base.now count.now list.now ratio.now)).first) × (result.second ≡ (sums_of (joined_block base.now count.now list.now ratio.now)).second) }
{
    let a = Sums::NONE.on(base);
    let b = a.on(count);
    let c = b.on(list);
    c.on(ratio)
}

// Form and fit of the block that four values make.
fn values_fit(base: &[u8], count: &[u8], list: &[u8], ratio: &[u8]) -> bool
    requires { (length base.now ≡ 10) × (length count.now ≡ 4) × (length ratio.now ≡ 8) }
    ensures { result ≡ form_and_fit (joined_block base.now count.now list.now ratio.now) }
{
    let n = list.len() / values::ENTRY_LENGTH;
    if n < 1 {
        return false;
    }
    if values::ENTRIES_MOST < n {
        return false;
    }
    let ok = values::entries_ok(list);
    let sum = values::intervals(list);
    if !values::ratio_ok(ratio) {
        return false;
    }
    let held = values::as_number(count) == n as u64;
    let whole = list.len() % values::ENTRY_LENGTH == 0;
    values::time_ok(base) & (held & (whole & (ok & values::fits_cycle(sum, ratio))))
}

// The list of a block, and its cycle.
pub fn list_of(b: &[u8]) -> &[u8]
    requires { 22 ≤ length b.now }
    ensures { result.now ≡ list_of b.now }
{
    &b[COUNT_END..b.len() - RATIO_LENGTH]
}

pub fn ratio_of(b: &[u8]) -> &[u8]
    requires { 22 ≤ length b.now }
    ensures { (result.now ≡ ratio_of b.now) × (length result.now ≡ 8) }
{
    &b[b.len() - RATIO_LENGTH..]
}

// Form and fit of a block of any length.
pub fn form_and_fit(b: &[u8]) -> bool
    ensures { result ≡ form_and_fit b.now }
{
    if b.len() < BLOCK_REST {
        return false;
    }
    values_fit(
        &b[0..BASE_LENGTH],
        &b[BASE_LENGTH..COUNT_END],
        list_of(b),
        ratio_of(b),
    )
}

// How values fit one another, each permitted by its row (RULES 8.3 to 8.5). They keep their rules, so this is form and fit of
// the block that they make with any base time (law `fit_is`).
pub fn fit_together(count: &[u8], list: &[u8], ratio: &[u8]) -> bool
    requires { (permits (row_at admin_control_list_length) count.now ≡ true) × (permits (row_at admin_control_list) list.now ≡ true) × (permits (row_at admin_cycle_time) ratio.now ≡ true) }
    ensures { result ≡ fit_together count.now list.now ratio.now }
{
    let n = list.len() / values::ENTRY_LENGTH;
    if n < 1 {
        return false;
    }
    if values::as_number(count) != n as u64 {
        return false;
    }
    let sum = values::intervals(list);
    values::fits_cycle(sum, ratio)
}

// Whether a value of a length that its row permits keeps a rule.
pub fn keeps(rule: Rule, v: &[u8]) -> bool
    requires { asked (rule_of rule) (length v.now) ≡ true }
    ensures { result ≡ keeps (rule_of rule) v.now }
{
    match rule {
        Rule::Free => true,
        Rule::Within(least, most) => values::within(v, least, most),
        Rule::Time => values::time_ok(v),
        Rule::Entries => values::list_ok(v),
        Rule::Ratio => values::ratio_ok(v),
        Rule::Running => form_and_fit(v),
    }
}

// A commit's value: first sum, second sum.
pub fn write_sums(s: Sums, out: &mut [u8])
    requires { length out.old ≡ 4 }
    ensures { out.new ≡ be16 s.first ++ be16 s.second }
{
    octets::put16(out, 0, usize::from(s.first));
    octets::put16(out, 2, usize::from(s.second));
}

// Whether a value has 4 octets and they are the sums over the block that four values make.
pub fn sums_agree(base: &[u8], count: &[u8], list: &[u8], ratio: &[u8], value: &[u8]) -> bool
    ensures { result ≡ (length value.now == 4 && same value.now (sums (joined_block base.now count.now list.now ratio.now))) }
{
    if value.len() != SUMS_LENGTH {
        return false;
    }
    let s = sums_of_four(base, count, list, ratio);
    (octets::get16(value, 0) == usize::from(s.first))
        & (octets::get16(value, 2) == usize::from(s.second))
}
