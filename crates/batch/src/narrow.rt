// Numbers of 64 bits as numbers of 32.
ghost use Rattle.std.specs.Prelude.{◌≡◌, true, false, ◌≤◌, length};
ghost use Rattle.element.specs.Origin.{Unheld};
ghost use Rattle.batch.specs.Stands.{Narrowed};

// Whether all of the numbers are i32, without a branch on a number.
fn all_held(xs: &[i64]) -> bool
    ensures yes { result ≡ true → ¬ Unheld xs.now }
    ensures no { result ≡ false → Unheld xs.now }
{
    let most = 2147483647;
    let least = 0 - 2147483648;
    let mut all = true;
    for x in xs {
        all = all & (*x <= most) & (least <= *x);
    }
    all
}

// Nineteen i32 in place of numbers up to as many: the same, and zeros behind them; where one of them is none, a list that is outside
// for every kind.
// stays (1): 1, 2 and 3 come before 4 (next_codes), so the list in place of numbers that are no i32 is tried as any other (specs/Stands, Narrowed)
pub fn narrowed(xs: &[i64]) -> [i32; 19]
    requires { length xs.now ≤ 19 }
    ensures { Narrowed xs.now result }
{
    let mut zs = [0i32; 19];
    if !all_held(xs) {
        zs[2] = 2147483647;
        return zs;
    }
    for (k, x) in xs.iter().enumerate() {
        zs[k] = *x as i32;
    }
    zs
}
