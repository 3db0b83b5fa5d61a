// The cells of triangles and quads in one form: sixteen numbers, of which a triangle's values are the first six.
ghost use Rattle.std.specs.Prelude.{◌≡◌, ◌<◌, take};
ghost use Rattle.algebra.specs.Within.{Each};
ghost use Rattle.forms.specs.Cuttings.{four_of};
ghost use Rattle.forms.specs.Shapes.{pass, cut_to};
ghost use Rattle.walks.specs.Room.{cap};
ghost use Rattle.sheet_cells.specs.Either.{shape_by, values_by, growth_by};

// The first six numbers.
fn six(c: [i64; 16]) -> [i64; 6]
    ensures { result ≡ take 6 c }
{
    [c[0], c[1], c[2], c[3], c[4], c[5]]
}

// Six numbers, and ten zeros behind them.
pub fn sixteen(c: [i64; 6]) -> [i64; 16]
    ensures { take 6 result ≡ c }
{
    [
        c[0], c[1], c[2], c[3], c[4], c[5], 0, 0, 0, 0, 0, 0, 0, 0, 0, 0,
    ]
}

// The sign test.
pub fn passes(triangle: bool, c: [i64; 16]) -> bool
    ensures { result ≡ pass (shape_by triangle) (values_by triangle c) }
{
    if triangle {
        return triangle_cuts::passes(six(c));
    }
    quad_cuts::passes(&c)
}

// Quarter i of a cell whose values have room for a cut.
pub fn quarter(triangle: bool, c: [i64; 16], i: u8) -> [i64; 16]
    requires { (i < 4) × Each (cap (growth_by triangle) 1) (values_by triangle c) }
    ensures { values_by triangle result ≡ cut_to (shape_by triangle) (four_of i) (values_by triangle c) }
{
    if triangle {
        return sixteen(triangle_cuts::quarter(six(c), i));
    }
    quad_cuts::quarter(c, i)
}
