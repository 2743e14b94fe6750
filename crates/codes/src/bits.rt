ghost use Rattle.std.specs.Prelude.{◌≡◌, ◌^◌, nat_lt};
ghost use Rattle.codes.specs.Bits.{holds_bit, outside, superset};

/// Is the code below two to the width?
pub fn fits(code: u64, width: u32) -> bool
    ensures { result ≡ nat_lt code (2 ^ width) }
{
    width >= 64 || code < 1 << width
}

/// Does the code hold bit `j`?
pub fn holds(code: u64, j: u32) -> bool
    ensures { result ≡ holds_bit code j }
{
    j < 64 && (code >> j) % 2 == 1
}

/// Does `a` hold every bit that `b` holds?
pub fn covers(a: u64, b: u64) -> bool
    ensures { result ≡ superset a b }
{
    a & b == b
}

/// The bits of `b` outside `a`.
pub fn without(b: u64, a: u64) -> u64
    ensures { result ≡ outside b a }
{
    b & !a
}
