// A mask of 32 flags in one word: test a flag, clear one, build a mask from its flags, count those that are set.
#![tactic(auto)]

ghost use Rattle.std.specs.Prelude.{◌≡◌, ◌+◌, ◌-◌, ◌*◌, ◌/◌, ◌%◌, ◌^◌, ◌≤◌, ◌<◌, eqb};
ghost use Rattle.std.specs.Int.Count.{ones};
ghost use Rattle.mask.specs.Mask.{bit_of};

// Whether a flag is set.
pub fn is_set(mask: u32, bit: u32) -> bool
    requires { bit < 32 }
    ensures { result ≡ eqb (mask / 2 ^ bit % 2) 1 }
{
    (mask >> bit) % 2 == 1
}

// The mask less the digit of one flag: the mask without that flag, where the flag was set.
pub fn cleared(mask: u32, bit: u32) -> u32
    requires bit_bound { bit < 32 }
    requires bit_in_mask { 2 ^ bit ≤ mask }
    ensures { result ≡ mask - 2 ^ bit }
{
    mask - (1u32 << bit)
}

// The mask with one flag more below its flags, which each move up one bit.
pub fn pushed(mask: u32, flag: bool) -> u32
    requires { mask < 2 ^ 31 }
    ensures { result ≡ 2 * mask + bit_of flag }
{
    2 * mask + u32::from(flag)
}

// How many flags are set.
pub fn count(mask: u32) -> u32
    ensures { result ≡ ones mask }
{
    mask.count_ones()
}
