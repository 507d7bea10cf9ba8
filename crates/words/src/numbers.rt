// The lowest N bits of a number, and N ones, for N up to 60.
ghost use Rattle.std.specs.Prelude.{◌≡◌, ◌-◌, ◌%◌, ◌^◌, ◌<◌, ◌≤◌};

// The lowest N bits.
pub(crate) fn lowest<const N: u32>(x: u64) -> u64
    requires { N ≤ 60 }
    ensures value { result ≡ x % 2 ^ N }
    ensures small { result < 2 ^ N }
{
    x % (1 << N)
}

// N ones.
pub(crate) fn ones<const N: u32>() -> u64
    requires { N ≤ 60 }
    ensures { result ≡ 2 ^ N - 1 }
{
    (1 << N) - 1
}
