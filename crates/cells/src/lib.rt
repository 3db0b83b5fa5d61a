// What the cells of triangles and of quads share: a sum by a row of weights, and the test that no value is negative.
#![tactic(auto)]

ghost use Rattle.std.specs.Prelude.{◌≡◌, pos};
ghost use Rattle.forms.specs.Cells.{dot, non_negatives, quarter};
ghost use Rattle.cells.specs.Room.{Room, TableRoom};

// The same number, signed.
fn signed(weight: u8) -> i64
    ensures { result ≡ pos weight }
{
    weight as i64
}

// The sum of the values, each times its weight in the row.
pub fn weighed(row: &[u8], c: &[i64]) -> i64
    requires { Room row.now c.now }
    ensures { result ≡ dot row.now c.now }
{
    let mut sum = 0;
    for k in 0..row.len() {
        sum += signed(row[k]) * c[k];
    }
    sum
}

// The sums of the values by the rows of a table, in their order.
pub fn by_rows<const N: usize>(rows: &[[u8; N]; N], c: &[i64; N]) -> [i64; N]
    requires { TableRoom rows.now c.now }
    ensures { result ≡ quarter rows.now c.now }
{
    let mut values = [0; N];
    for k in 0..N {
        values[k] = weighed(&rows[k], c);
    }
    values
}

// Whether no value is negative.
pub fn none_negative(c: &[i64]) -> bool
    ensures { result ≡ non_negatives c.now }
{
    let mut none = true;
    for x in c {
        none &= 0 <= *x;
    }
    none
}
