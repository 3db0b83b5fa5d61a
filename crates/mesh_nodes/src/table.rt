// A table of node numbers, rising, that are found by halving. What stands in it is a help alone: nothing is asked of it but its length.
ghost use Rattle.std.specs.Prelude.{◌≤◌, ◌<◌, length, ◌≡◌};

// The place of the first number that is not below n.
pub fn lower(numbers: &[u64], n: u64) -> usize
    ensures { result ≤ length numbers.now }
{
    numbers.partition_point(|m| *m < n)
}

// Puts a number in its place among the first `have`, where it does not stand there and there is room; how many there are then.
// stays (6): no heap, so the table is lent, and as much of it is used as `have` says
pub fn insert(numbers: &mut [u64], have: usize, n: u64) -> usize
    requires { have ≤ length numbers.old }
    ensures { (result ≤ length numbers.old) × (length numbers.new ≡ length numbers.old) }
{
    let Err(at) = numbers[..have].binary_search(&n) else {
        return have;
    };
    if numbers.len() <= have {
        return have;
    }
    numbers[at..=have].rotate_right(1);
    numbers[at] = n;
    have + 1
}
