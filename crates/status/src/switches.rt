ghost use Rattle.std.specs.Prelude.{◌≡◌, ◌*◌, ◌/◌, ◌≤◌, length, if◌then◌else◌, nat_eq};
ghost use Rattle.packet.specs.Octets.{words};
ghost use Rattle.status.specs.Switches.{bit, put, switched, flagged, unwords};

/// A bit map of `8 * N` numbers, each enabled or disabled.
///
/// Number `k` has bit `k % 8` of octet `k / 8`.
#[derive(Clone, Copy)]
pub struct Switches<const N: usize> {
    octets: [u8; N],
    // a number with a bit has 15 bits, so that it can be flagged by the 16th
    ghost few: { N ≤ 4096 },
}

impl<const N: usize> Switches<N> {
    pub(crate) fn of(octets: [u8; N]) -> Switches<N>
        requires { N ≤ 4096 }
        ensures { result.octets ≡ octets.entry }
    {
        Switches { octets }
    }

    /// Whether this number is enabled; past the map's end none is.
    pub fn is_on(&self, number: u16) -> bool
        ensures { result ≡ bit self.now.octets number }
    {
        let i = usize::from(number / 8);
        i < N && (self.octets[i] >> (number % 8)) % 2 == 1
    }

    // Enables or disables one number; past the map's end there is none.
    fn put(&mut self, number: u16, on: bool)
        ensures { bit self.new.octets ≡ put (8 * N) number on (bit self.old.octets) }
    {
        let i = usize::from(number / 8);
        if i < N {
            let mask = 1u8 << (number % 8);
            let old = self.octets[i];
            self.octets[i] = if on { old | mask } else { old & !mask };
        }
    }

    /// Enables or disables each number named.
    ///
    /// `names` holds 16-bit numbers, the most significant octet first; a single octet that is
    /// left over is ignored, and so is a number past the map's end.
    pub fn switch(&mut self, names: &[u8], on: bool)
        ensures { bit self.new.octets ≡ switched (8 * N) (words names.now) on (bit self.old.octets) }
    {
        for name in names.as_chunks::<2>().0 {
            self.put(u16::from_be_bytes(*name), on);
        }
    }

    /// Copies the numbers named to `out`, each raised by 32768 where it is enabled.
    ///
    /// `names` is as for `switch`. Nothing is copied where `out` does not have just two octets
    /// for each number.
    pub fn flag(&self, names: &[u8], out: &mut [u8])
        ensures { out.new ≡ (if nat_eq (length names.now / 2 * 2) (length out.old) then unwords (flagged (bit self.now.octets) (words names.now)) else out.old) }
    {
        if out.len() != names.len() / 2 * 2 {
            return;
        }
        for (i, name) in names.as_chunks::<2>().0.iter().enumerate() {
            let number = u16::from_be_bytes(*name);
            let raised = if self.is_on(number) {
                number + 32768
            } else {
                number
            };
            // by index: `as_chunks_mut` says nothing of what the slice ends as
            out[2 * i..2 * i + 2].copy_from_slice(&raised.to_be_bytes());
        }
    }
}
