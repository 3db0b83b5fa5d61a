// The cells that a walk takes: of a triangle of any degree, here those of six nodes and of ten.
ghost use Rattle.std.specs.Prelude.{◌≡◌, List, ℕ, ℤ, ◌*◌, ◌^◌, ◌<◌, refl};
ghost use Rattle.std.proofs.Common.{rules};
ghost use Rattle.algebra.specs.Within.{Each};
ghost use Rattle.corners.specs.Triangles.{first_bad};
ghost use Rattle.forms.specs.Cells.{positives};
ghost use Rattle.forms.specs.Cuttings.{four_of};
ghost use Rattle.forms.specs.Rows.{Row};
ghost use Rattle.forms.specs.Shapes.{Lawful, tips, pass, cut_to};
ghost use Rattle.forms.specs.Triangles.{triangle, degrees6, place6, degrees10, place10};
ghost use Rattle.forms.proofs.Triangles.{six-lawful, ten-lawful};

use corners::First;

// The values of a cell of a triangle.
pub trait TriangleCell: Copy {
    // the degree, the degrees of each value in their order, and where the value with given indices stands
    ghost degree: { ℕ };

    ghost degrees: { List Row };

    ghost place: { List ℕ → ℕ };

    // the values, and how large they may be where the cell is cut
    ghost values: { Self → List ℤ };

    ghost most: { ℕ };

    // The sign test, without a branch on a value.
    fn passes(&self) -> bool
        ensures { result ≡ pass (triangle degree degrees place) (values self.now) };

    // Whether the corner values are all above zero, without a branch on a value.
    fn corners_positive(&self) -> bool
        ensures { result ≡ positives (tips (triangle degree degrees place)) (values self.now) };

    // The first bad corner of a cell of a level, with its corners at the columns xs and the rows ys.
    fn first_bad(&self, level: u32, xs: [u32; 3], ys: [u32; 3]) -> First
        ensures { result ≡ first_bad (tips (triangle degree degrees place)) (values self.now) level xs ys };

    // Quarter i of the cell.
    fn split(&self, i: u8) -> Self
        requires { (i < 4) × Each most (values self.now) }
        ensures { values result ≡ cut_to (triangle degree degrees place) (four_of i) (values self.now) };

    // The shape is one; a cut of values of that size leaves them within 2^62.
    ghost lawful: { Lawful (triangle degree degrees place) };

    ghost grows: { 0 < (triangle degree degrees place).growth };

    ghost fits: { (triangle degree degrees place).growth * most ≡ 2 ^ 62 };
}

impl TriangleCell for [i64; 6] {
    ghost degree = { 2 };

    ghost degrees = { degrees6 };

    ghost place = { place6 };

    ghost values = { λ c. c };

    ghost most = { 1152921504606846976 };

    fn passes(&self) -> bool {
        triangle_cuts::passes(*self)
    }

    fn corners_positive(&self) -> bool {
        triangle_cuts::corners_positive(*self)
    }

    fn first_bad(&self, level: u32, xs: [u32; 3], ys: [u32; 3]) -> First {
        triangle_cuts::first_bad(*self, level, xs, ys)
    }

    fn split(&self, i: u8) -> [i64; 6] {
        triangle_cuts::by_sums::split(*self, i)
    }

    ghost lawful = { six-lawful };

    ghost grows = { Prim.search rules };

    ghost fits = { refl };
}

impl TriangleCell for [i64; 15] {
    ghost degree = { 4 };

    ghost degrees = { degrees10 };

    ghost place = { place10 };

    ghost values = { λ c. c };

    ghost most = { 288230376151711744 };

    fn passes(&self) -> bool {
        cubic_cuts::passes(self)
    }

    fn corners_positive(&self) -> bool {
        cubic_cuts::corners_positive(self)
    }

    fn first_bad(&self, level: u32, xs: [u32; 3], ys: [u32; 3]) -> First {
        cubic_cuts::first_bad(self, level, xs, ys)
    }

    fn split(&self, i: u8) -> [i64; 15] {
        cubic_cuts::by_sums::split(self, i)
    }

    ghost lawful = { ten-lawful };

    ghost grows = { Prim.search rules };

    ghost fits = { refl };
}
