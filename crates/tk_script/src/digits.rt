ghost use Rattle.std.specs.Prelude.{◌≡◌, ◌<◌};
ghost use Rattle.tk_script.specs.Utc.{two_digits, nine_digits};

/// The two digits of each number below 100.
static PAIRS: [u8; 200] = *b"\
0001020304050607080910111213141516171819\
2021222324252627282930313233343536373839\
4041424344454647484950515253545556575859\
6061626364656667686970717273747576777879\
8081828384858687888990919293949596979899";

/// Returns a number below 100 in two digits.
#[inline(always)]
pub(crate) fn two_digits_of(n: u32) -> [u8; 2]
    requires { n < 100 }
    ensures { result ≡ two_digits n }
{
    let at = n as usize * 2;
    let (tens, ones) = (PAIRS[at], PAIRS[at + 1]);
    [tens, ones]
}

/// Returns a number below 10^9 in nine digits.
#[inline(always)]
pub(crate) fn nine_digits_of(n: u32) -> [u8; 9]
    requires { n < 1000000000 }
    ensures { result ≡ nine_digits n }
{
    let high = n / 10000 % 10000;
    let low = n % 10000;
    let (a, b) = (two_digits_of(high / 100), two_digits_of(high % 100));
    let (c, d) = (two_digits_of(low / 100), two_digits_of(low % 100));
    let first = b'0' + (n / 100_000_000) as u8;
    [first, a[0], a[1], b[0], b[1], c[0], c[1], d[0], d[1]]
}
