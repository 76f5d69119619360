// What functions of `lists` require of their caller, asked of an operand.
ghost use Rattle.std.specs.Prelude.{◌≡◌, true};
ghost use Rattle.lists.specs.Values.{Pair};
ghost use Rattle.lists.specs.Registers.{Holds};

// Whether a list can have these precisions.
pub(crate) fn fits(p: u32, s: u32) -> bool
    ensures { result ≡ true → Pair p s }
{
    (4..=24).contains(&p) && (p..=25).contains(&s)
}

// Whether these bytes hold the registers of a precision.
pub(crate) fn holds(p: u32, registers: &[u8]) -> bool
    ensures { result ≡ true → Holds p registers.now }
{
    p <= 24 && lists::registers::register_bytes(p) <= registers.len()
}
