//! Numbers in bytes, the most significant first: read from bytes where they stand, and written there.

#![tactic(auto)]

ghost use Rattle.std.specs.Prelude.{◌≡◌, ◌≤◌, [], ◌∷◌, ℕ};
ghost use Rattle.std.proofs.lemmas.List.Edits.{sets};
ghost use Rattle.big_endian.specs.Numbers.{bytes, number};

/// A number of so many bytes.
pub trait BigEndian: Sized {
    ghost width: { ℕ };

    ghost value: { Self → ℕ };

    /// The number that the bytes from that index on say; past the end there are zeros.
    // Cut to its width: a length that is known leaves no test.
    fn read_at(bytes: &[u8], at: usize) -> Self
        ensures { value result ≡ number bytes.now at width };

    /// Writes the bytes of the number from that index on; past the end nothing is written.
    fn put_at(self, out: &mut [u8], at: usize)
        ensures { out.new ≡ sets out.old at (bytes width (value self)) };
}

impl BigEndian for u16 {
    ghost width = { 2 };

    ghost value = { λ n. n };

    fn read_at(bytes: &[u8], at: usize) -> u16 {
        if at.saturating_add(2) <= bytes.len() {
            u16::from_be_bytes(*bytes[at..at + 2].first_chunk().unwrap())
        } else {
            u16::from_be_bytes(*over_the_end(bytes, at).first_chunk().unwrap())
        }
    }

    fn put_at(self, out: &mut [u8], at: usize) {
        let bytes: [u8; 2] = self.to_be_bytes();
        if at.saturating_add(2) <= out.len() {
            out[at..at + 2].copy_from_slice(&bytes);
        } else {
            put_what_fits(out, at, &bytes);
        }
    }
}

impl BigEndian for u32 {
    ghost width = { 4 };

    ghost value = { λ n. n };

    fn read_at(bytes: &[u8], at: usize) -> u32 {
        if at.saturating_add(4) <= bytes.len() {
            u32::from_be_bytes(*bytes[at..at + 4].first_chunk().unwrap())
        } else {
            u32::from_be_bytes(*over_the_end(bytes, at).first_chunk().unwrap())
        }
    }

    fn put_at(self, out: &mut [u8], at: usize) {
        let bytes: [u8; 4] = self.to_be_bytes();
        if at.saturating_add(4) <= out.len() {
            out[at..at + 4].copy_from_slice(&bytes);
        } else {
            put_what_fits(out, at, &bytes);
        }
    }
}

impl BigEndian for u64 {
    ghost width = { 8 };

    ghost value = { λ n. n };

    fn read_at(bytes: &[u8], at: usize) -> u64 {
        if at.saturating_add(8) <= bytes.len() {
            u64::from_be_bytes(*bytes[at..at + 8].first_chunk().unwrap())
        } else {
            u64::from_be_bytes(*over_the_end(bytes, at).first_chunk().unwrap())
        }
    }

    fn put_at(self, out: &mut [u8], at: usize) {
        let bytes: [u8; 8] = self.to_be_bytes();
        if at.saturating_add(8) <= out.len() {
            out[at..at + 8].copy_from_slice(&bytes);
        } else {
            put_what_fits(out, at, &bytes);
        }
    }
}

// ---- where the end comes first

// Writes those of the bytes that there is room for.
#[cold]
fn put_what_fits(out: &mut [u8], at: usize, bytes: &[u8])
    ensures { out.new ≡ sets out.old at bytes.now }
{
    if at < out.len() {
        let fit = bytes.len().min(out.len() - at);
        out[at..at + fit].copy_from_slice(&bytes[..fit]);
    }
}

// The eight bytes from that index on, zeros past the end.
#[cold]
fn over_the_end(bytes: &[u8], at: usize) -> [u8; 8]
    ensures { (n : ℕ) → n ≤ 8 → number result 0 n ≡ number bytes.now at n }
{
    let mut there = [0; 8];
    put_what_fits(&mut there, 0, &bytes[at.min(bytes.len())..]);
    there
}

// ---- the same of bytes one by one: total, as they were promised

/// The number that two bytes say.
pub fn half(a: u8, b: u8) -> u16
    ensures { result ≡ number (a ∷ b ∷ []) 0 2 }
{
    a as u16 * 0x100 + b as u16
}

/// The number that four bytes say.
pub fn word(a: u8, b: u8, c: u8, d: u8) -> u32
    ensures { result ≡ number (a ∷ b ∷ c ∷ d ∷ []) 0 4 }
{
    half(a, b) as u32 * 0x1_0000 + half(c, d) as u32
}

/// The number that eight bytes say.
pub fn double(a: u8, b: u8, c: u8, d: u8, e: u8, f: u8, g: u8, h: u8) -> u64
    ensures { result ≡ number (a ∷ b ∷ c ∷ d ∷ e ∷ f ∷ g ∷ h ∷ []) 0 8 }
{
    word(a, b, c, d) as u64 * 0x1_0000_0000 + word(e, f, g, h) as u64
}

/// The two bytes of a number.
pub fn half_bytes(n: u16) -> [u8; 2]
    ensures { result ≡ bytes 2 n }
{
    [(n / 0x100) as u8, (n % 0x100) as u8]
}

/// The four bytes of a number.
pub fn word_bytes(n: u32) -> [u8; 4]
    ensures { result ≡ bytes 4 n }
{
    [
        (n / 0x100_0000) as u8,
        (n / 0x1_0000 % 0x100) as u8,
        (n / 0x100 % 0x100) as u8,
        (n % 0x100) as u8,
    ]
}
