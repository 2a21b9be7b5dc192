// The bits of a number, where each stands for one of its places.
ghost use Rattle.std.specs.Prelude.{◌≡◌, ◌<◌, MatchOption};
ghost use Rattle.common.specs.FirstAfter.{FirstAfter};

// The first bit after a place, round to the place itself: the lowest one above it, or else the lowest of all. None of zero.
pub fn first_after(bits: u32, place: u16) -> Option<u16>
    requires { place < 31 }
    ensures { MatchOption result (bits ≡ 0) (FirstAfter bits place) }
{
    // A count of zeros is at most 32, so the casts below lose nothing; a conversion that can fail would say less.
    let past = place + 1;
    let above = bits >> past;
    if above != 0 {
        return Some(u32::trailing_zeros(above) as u16 + past);
    }
    if bits != 0 {
        return Some(u32::trailing_zeros(bits) as u16);
    }
    None
}
