//! Octets kept in place: at most so many, with no heap.

#![tactic(auto)]

ghost use Rattle.std.specs.Prelude.{◌≡◌, ◌≤◌, ◌-◌, [], length, take, drop, replicate};

/// At most `N` octets.
#[derive(Clone, Copy)]
pub struct Octets<const N: usize> {
    len: usize,
    octets: [u8; N],
    ghost few: { len ≤ N },
    ghost whole: { length octets ≡ N },
    // what follows them is zero, so that equal octets are equal values
    ghost clean: { drop len octets ≡ replicate (N - len) 0 },
}

impl<const N: usize> Octets<N> {
    ghost use Rattle.octets.specs.Octets.{seen, kept};

    /// The first `N` of these octets, or all where they are fewer.
    pub fn new(octets: &[u8]) -> Octets<N>
        ensures value { result ≡ kept N octets.now }
        ensures octets { seen result ≡ take N octets.now }
    {
        let len = octets.len().min(N);
        let mut kept = [0; N];
        kept[..len].copy_from_slice(&octets[..len]);
        Octets { len, octets: kept }
    }

    /// The octets.
    pub fn as_slice(&self) -> &[u8]
        ensures value { result.now ≡ seen self.now }
        ensures few { length (seen self.now) ≤ N }
    {
        &self.octets[..self.len]
    }
}
