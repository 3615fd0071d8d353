// A part of a byte buffer, copied to another.
#![tactic(auto)]

ghost use Rattle.std.specs.Prelude.{◌+◌, ◌-◌, ◌≤◌, length};
ghost use Rattle.parts.specs.Parts.{Copied};

// The bytes of src from `from` up to `to` go to dst from `at` on.
pub fn copy_part(src: &[u8], from: usize, to: usize, dst: &mut [u8], at: usize)
    requires { (from ≤ to) × ((to ≤ length src.now) × (at + (to - from) ≤ length dst.old)) }
    ensures { Copied src.now from to dst.old dst.new at }
{
    dst[at..at + (to - from)].copy_from_slice(&src[from..to]);
}
