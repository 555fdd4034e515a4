// The states that all labels give over two states, as a set: worked out once, where every node may take every label.
ghost use Rattle.std.specs.Prelude.{◌≡◌, cond, ◌||◌, ℕ, ◌*◌, ◌+◌, ◌≤◌, ◌<◌, eqb, length, get_or};
ghost use Rattle.state_sets.specs.StateSets.{member};
ghost use Rattle.fewest.specs.Least.{no_way_out};
ghost use Rattle.fewest.specs.inner.Rows.{labels_cost, Relaxed, CostRow, RowArgs};
ghost use Rattle.fewest.specs.inner.Images.{Image, Images, ImagesArgs, ImageArgs};

use crate::rows::NO_WAY;
use formats::rules::rule;

// The set, and state j besides.
fn with_state(states: u16, j: usize) -> u16
    requires { j < 16 }
    ensures { (i : ℕ) → member result i ≡ (member states i || eqb j i) }
{
    states | (1u16 << j)
}

// The states that the labels give over states p and q.
fn image_of(inner: &[u8], s: usize, k: usize, p: usize, q: usize) -> u16
    requires { RowArgs inner.now s k p q 0 0 }
    ensures { Image inner.now s k p q result }
{
    let mut r: u16 = 0;
    for b in 0..k {
        let j = rule(inner, s, k, p, b, q) as usize;
        r = with_state(r, j);
    }
    r
}

// Writes the states that the labels give over states p and q at p s + q.
pub fn fill_images(images: &mut [u16], inner: &[u8], s: usize, k: usize)
    requires { ImagesArgs inner.now s k (length images.old) }
    ensures { Images inner.now s k images.new }
{
    for i in 0..s * s {
        images[i] = image_of(inner, s, k, i / s, i % s);
    }
}

// c where state j is in the set, else "no way". With a set of 64 bits, as labels have it, the loop that calls it takes 1.5
// times the instructions.
fn cost_in(states: u16, j: usize, c: u32) -> u32
    requires { j < 16 }
    ensures { result ≡ cond (member states j) c no_way_out }
{
    if (states >> j) & 1 == 1 {
        return c;
    }
    NO_WAY
}

// Lowers the cost of each state of the set to c.
fn lower_set(row: &mut [u32], s: usize, states: u16, c: u32)
    requires { (s ≤ 16) × CostRow s row.old }
    ensures { Relaxed s (λ j. cond (member states j) c no_way_out) row.old row.new }
{
    for j in 0..s {
        let x = cost_in(states, j, c);
        let y = row[j];
        row[j] = y.min(x);
    }
}

// Lowers the cost of the state that label a gives over states p and q to `base`.
fn lower_own(
    row: &mut [u32],
    inner: &[u8],
    s: usize,
    k: usize,
    p: usize,
    q: usize,
    a: usize,
    base: u32,
)
    requires { RowArgs inner.now s k p q a base × (a < k) × CostRow s row.old }
    ensures { Relaxed s (λ j. cond (eqb (get_or inner.now ((p * k + a) * s + q) 0) j) base no_way_out)
        row.old row.new }
{
    let to = rule(inner, s, k, p, a, q) as usize;
    let y = row[to];
    row[to] = y.min(base);
}

// Lowers the row by every label, over states p and q that cost `base` together, of a node of label a that may take
// every label. `image` has the states that the labels give.
pub fn relax_image(
    row: &mut [u32],
    inner: &[u8],
    s: usize,
    k: usize,
    p: usize,
    q: usize,
    a: usize,
    labels: u64,
    base: u32,
    image: u16,
)
    requires { ImageArgs inner.now s k p q a (member labels) base image × CostRow s row.old }
    ensures { Relaxed s (labels_cost inner.now s k p q a (member labels) base) row.old row.new }
{
    lower_own(row, inner, s, k, p, q, a, base);
    lower_set(row, s, image, base + 1);
}
