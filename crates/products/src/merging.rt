// Two rule tables merged into one (document 02, S-6).
//     put_*   the parts of the merged table, each written at its place
//     merge   the call
// Tables are handed on by their runs: leaf states, inner states or marks.
ghost use Rattle.std.specs.Prelude.{◌≡◌, ◌+◌, ◌*◌, ◌<◌, length, get_or};
ghost use Rattle.list_laws.specs.Rows.{tabulate};
ghost use Rattle.formats.specs.Bytes.{le32_bytes};
ghost use Rattle.products.specs.merging.Merged.{rule_head, merged_bytes};
ghost use Rattle.products.specs.merging.Writes.{written, leaf_cell, row_cell, row_at, inner_cell, mark_cell, Room};
ghost use Rattle.products.specs.merging.Writes.{HeadArgs, LeavesArgs, RunArgs, RowArgs, NthRowArgs, InnerArgs, MarksArgs, TableArgs};
ghost use Rattle.products.specs.merging.Answer.{MergeDone};

use formats::bytes::read32;
use formats::layout::{LABEL_COUNT_AT, RULES_HEAD};
use formats::limits::STATE_LIMIT;
use formats::refusals::Refusal;
use formats::rules::{check_rule_bytes, inner_count};

// The 32-bit little-endian number n, from byte `at` on.
fn put32(out: &mut [u8], at: usize, n: usize)
    requires { Room at 4 out.old }
    ensures { out.new ≡ written at (le32_bytes n) out.old }
{
    out[at] = (n % 256) as u8;
    out[at + 1] = (n / 256 % 256) as u8;
    out[at + 2] = (n / 65536 % 256) as u8;
    out[at + 3] = (n / 16777216 % 256) as u8;
}

// The header of a table of s states and k labels.
fn put_head(s: usize, k: usize, out: &mut [u8])
    requires { HeadArgs s k out.old }
    ensures { out.new ≡ written 0 (rule_head s k) out.old }
{
    let marks = RULES_HEAD + k + inner_count(s, k);
    put32(out, 0, s);
    put32(out, LABEL_COUNT_AT, k);
    put32(out, 8, RULES_HEAD);
    put32(out, 12, RULES_HEAD + k);
    put32(out, 16, marks);
}

// The leaf states, from the two leaf runs.
fn put_leaves(first: &[u8], second: &[u8], s2: usize, out: &mut [u8], at: usize)
    requires { LeavesArgs first.now second.now s2 at out.old }
    ensures { out.new
        ≡ written at (tabulate (length first.now) (leaf_cell first.now second.now s2))
        out.old }
{
    for i in 0..first.len() {
        let x = first[i] as usize;
        let y = second[i] as usize;
        out[at + i] = (x * s2 + y) as u8;
    }
}

// A stretch of a row: x and each state of the second table's row.
fn put_run(second: &[u8], x: usize, out: &mut [u8], at: usize)
    requires { RunArgs second.now x at out.old }
    ensures { out.new
        ≡ written at (tabulate (length second.now) (λ q. x + get_or second.now q 0))
        out.old }
{
    for (i, y) in second.iter().enumerate() {
        out[at + i] = (x + *y as usize) as u8;
    }
}

// A row of the inner run, from a row of each table.
fn put_row(first: &[u8], second: &[u8], s2: usize, out: &mut [u8], at: usize)
    requires { RowArgs first.now second.now s2 at out.old }
    ensures { out.new
        ≡ written at (tabulate (length first.now * s2) (row_cell first.now second.now s2))
        out.old }
{
    for (p, x) in first.iter().enumerate() {
        put_run(second, *x as usize * s2, out, at + p * s2);
    }
}

// Row r of the inner run: left state r / k, label r % k.
fn put_nth_row(
    first: &[u8],
    second: &[u8],
    s1: usize,
    s2: usize,
    k: usize,
    r: usize,
    out: &mut [u8],
    at: usize,
)
    requires { NthRowArgs first.now second.now s1 s2 k r at out.old }
    ensures { out.new
        ≡ written at (tabulate (s1 * s2) (row_at first.now second.now s1 s2 k r))
        out.old }
{
    let p = r / k;
    let a = r % k;
    let i = (p / s2 * k + a) * s1;
    let j = (p % s2 * k + a) * s2;
    put_row(&first[i..i + s1], &second[j..j + s2], s2, out, at);
}

// The inner run, row by row.
fn put_inner(first: &[u8], second: &[u8], s1: usize, s2: usize, k: usize, out: &mut [u8], at: usize)
    requires { InnerArgs first.now second.now s1 s2 k at out.old }
    ensures { out.new
        ≡ written at (tabulate (s1 * s2 * k * (s1 * s2)) (inner_cell first.now second.now s1 s2 k)) out.old }
{
    let s = s1 * s2;
    for r in 0..s * k {
        put_nth_row(first, second, s1, s2, k, r, out, at + r * s);
    }
}

// The n marks: 1 where both are.
fn put_marks(first: &[u8], second: &[u8], s2: usize, n: usize, out: &mut [u8], at: usize)
    requires { MarksArgs first.now second.now s2 n at out.old }
    ensures { out.new
        ≡ written at (tabulate n (mark_cell first.now second.now s2))
        out.old }
{
    for c in 0..n {
        let x = first[c / s2];
        let y = second[c % s2];
        out[at + c] = x * y;
    }
}

// The merged table.
fn put_table(first: &[u8], second: &[u8], s1: usize, s2: usize, k: usize, out: &mut [u8])
    requires { TableArgs first.now second.now s1 s2 k out.old }
    ensures { out.new ≡ written 0 (merged_bytes first.now second.now) out.old }
{
    let s = s1 * s2;
    let i = RULES_HEAD + k;
    let m1 = i + inner_count(s1, k);
    let m2 = i + inner_count(s2, k);
    let m = i + inner_count(s, k);
    put_head(s, k, out);
    put_leaves(
        &first[RULES_HEAD..i],
        &second[RULES_HEAD..i],
        s2,
        out,
        RULES_HEAD,
    );
    put_inner(&first[i..m1], &second[i..m2], s1, s2, k, out, i);
    put_marks(&first[m1..], &second[m2..], s2, s, out, m);
}

// One table that clears exactly the plans that both clear: 6 to 9 for each table in turn, then 23, 24, 11.
pub fn merge(first: &[u8], second: &[u8], out: &mut [u8]) -> Result<(), Refusal>
    ensures { MergeDone first.now second.now out.old result out.new }
{
    check_rule_bytes(first)?;
    check_rule_bytes(second)?;
    let k = read32(first, LABEL_COUNT_AT);
    if read32(second, LABEL_COUNT_AT) != k {
        return Err(Refusal::LabelCounts);
    }
    let s1 = read32(first, 0);
    let s2 = read32(second, 0);
    let s = s1 * s2;
    if STATE_LIMIT < s {
        return Err(Refusal::StateProduct);
    }
    if out.len() < RULES_HEAD + k + inner_count(s, k) + s {
        return Err(Refusal::BufferShort);
    }
    put_table(first, second, s1, s2, k, out);
    Ok(())
}
