// The same work many times over, for the programs that ./bench times.
ghost use Rattle.std.specs.Prelude.{◌≡◌};

// Goes through so many records 64 times, and answers what one function makes of 0 and of each.
pub fn turns<F: Fn(u32, u32) -> u32>(records: u32, one: F) -> u32
    requires { F.IsAlwaysCallable one }
    ensures { records ≡ 0 → result ≡ 0 }
{
    let mut all = 0;
    for _turn in 0..64 {
        for k in 0..records {
            all = one(all, k);
        }
    }
    all
}
