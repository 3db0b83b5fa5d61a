// The quarters of a triangle cell by sums, as the walk cuts it: the same values as those of the table.
ghost use Rattle.std.specs.Prelude.{◌≡◌, ◌<◌};
ghost use Rattle.algebra.specs.Within.{Each};
ghost use Rattle.forms.specs.Cuttings.{four_of};
ghost use Rattle.forms.specs.Shapes.{cut_to};
ghost use Rattle.forms.specs.Triangles.{six};

// Quarter i of a cell, whose corners have the values a, b and d, and whose edges ab, bd and ad: "V0 E01 E02; E01 V1 E12; E02 E12 V2;
// E12 E02 E01", in doubled weights. Of values within 2^60 it has values within 2^62.
pub fn split(c: [i64; 6], i: u8) -> [i64; 6]
    requires { (i < 4) × Each 1152921504606846976 c }
    ensures { result ≡ cut_to six (four_of i) c }
{
    let a = c[0];
    let b = c[1];
    let d = c[2];
    let ab = c[3];
    let bd = c[4];
    let ad = c[5];
    let e01 = a + 2 * ab + b;
    let e12 = b + 2 * bd + d;
    let e02 = a + 2 * ad + d;
    let m = ab + bd + ad;
    if i == 0 {
        return [4 * a, e01, e02, 2 * (a + ab), a + m, 2 * (a + ad)];
    }
    if i == 1 {
        return [e01, 4 * b, e12, 2 * (ab + b), 2 * (b + bd), b + m];
    }
    if i == 2 {
        return [e02, e12, 4 * d, d + m, 2 * (bd + d), 2 * (ad + d)];
    }
    [e12, e02, e01, d + m, a + m, b + m]
}
