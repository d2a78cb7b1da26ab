// The bound of one call of an object in memory.
ghost use Rattle.std.specs.Prelude.{◌≡◌, ◌≤◌};
ghost use Rattle.bridge_io.specs.Memory.{cut_len};

// As many of `len` bytes as a call gives or takes that is bound to `cut` (0: no bound).
pub fn within_cut(len: usize, cut: usize) -> usize
    ensures value { result ≡ cut_len cut len }
    ensures least { result ≤ len }
{
    if cut == 0 { len } else { len.min(cut) }
}
