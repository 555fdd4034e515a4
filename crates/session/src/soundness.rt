// Start's 18: whether its inputs are sound for the record's N, S and K. The full check takes N, S and K from the
// headers, so the headers are compared first.
ghost use Rattle.std.specs.Prelude.{◌≡◌};
ghost use Rattle.formats.specs.Inputs.{inputs_of, sound};
ghost use Rattle.session.specs.inner.Shapes.{HeaderArgs, sizes_by};

use formats::bytes::read32;
use formats::layout::LABEL_COUNT_AT;
use table_checks::check::check_tables;

// Whether plan and rules pass 2 to 10 and name N, S and K, and the tables, excess aside, are what the build writes from them.
pub fn tables_sound(
    n: usize,
    s: usize,
    k: usize,
    plan: &[u8],
    rules: &[u8],
    node_table: &[u16],
    state_table: &[u8],
) -> bool
    requires { HeaderArgs plan.now rules.now }
    ensures { result ≡ sound (sizes_by n s k)
        (inputs_of plan.now rules.now node_table.now state_table.now) }
{
    if read32(plan, 0) != n {
        return false;
    }
    if read32(rules, 0) != s {
        return false;
    }
    if read32(rules, LABEL_COUNT_AT) != k {
        return false;
    }
    match check_tables(plan, rules, node_table, state_table) {
        Ok(yes) => yes,
        Err(_) => false,
    }
}
