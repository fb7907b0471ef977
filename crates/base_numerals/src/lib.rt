// Numbers and octets as text: decimal and hex both ways, and text laid into a lent buffer from a place on. Capitals only in hex.
// No call asks anything of its caller: text that does not fit is cut at the buffer's end.
// Kept: buffer and place are no struct: each caller has the place as its own value (the bench's `made`, the size that C is told).
// Kept: decimal and hex are laid here and not by `write!`: the clauses say each octet, and that what does not fit is cut at the buffer's end.
#![tactic(auto)]

ghost use Rattle.std.specs.Prelude.{[], ◌∷◌, ◌≡◌, ◌/◌};
ghost use Rattle.base_numerals.specs.Laid.{laid, written};
ghost use Rattle.base_numerals.specs.Decimal.{digits, decimal, number_in};
ghost use Rattle.base_numerals.specs.Hex.{glyph, half_of, is_hex, octet_from, hex_of, filled, octets_read, word_in};

// Text as it is, laid at a place; answers the place behind it, at most the buffer's end.
#[tactic(auto, using(crate::specs::Laid::laid_part))]
pub fn put_text(out: &mut [u8], at: usize, text: &[u8]) -> usize
    ensures { written result out.new ≡ laid at text.now out.old }
{
    let end = out.len();
    let from = at.min(end);
    base_octets::copy_front(text, &mut out[from..]);
    end.min(from + text.len())
}

// One character.
#[tactic(auto, using(crate::specs::Laid::laid_one, crate::specs::Laid::laid_out))]
pub fn put(out: &mut [u8], at: usize, c: u8) -> usize
    ensures { written result out.new ≡ laid at (c ∷ []) out.old }
{
    if at < out.len() {
        out[at] = c;
        return at + 1;
    }
    out.len()
}

// The last `left` digits at most, and `width` of them at least.
fn put_digits(out: &mut [u8], at: usize, n: u64, width: u8, left: u8) -> usize
    ensures { written result out.new ≡ laid at (digits left width n) out.old }
{
    if left == 0 {
        return at.min(out.len());
    }
    let last = b'0' + (n % 10) as u8;
    if 10 <= n || 1 < width {
        let p = put_digits(out, at, n / 10, width.saturating_sub(1), left - 1);
        return put(out, p, last);
    }
    put(out, at, last)
}

// A number in decimal, with zeros in front up to `width` digits.
#[tactic(auto, unfolding(crate::specs::Decimal::decimal))]
pub fn put_decimal(out: &mut [u8], at: usize, n: u64, width: u8) -> usize
    ensures { written result out.new ≡ laid at (decimal width n) out.old }
{
    put_digits(out, at, n, width, 20)
}

// The character of a half octet.
#[tactic(auto, unfolding(crate::specs::Hex::glyph))]
fn glyph(d: u8) -> u8
    ensures { result ≡ glyph d }
{
    match d % 16 {
        h @ 0..=9 => b'0' + h,
        h => b'A' - 10 + h,
    }
}

// Octets in hex.
pub fn put_hex(out: &mut [u8], at: usize, octets: &[u8]) -> usize
    ensures { written result out.new ≡ laid at (hex_of octets.now) out.old }
{
    let mut p = at.min(out.len());
    for x in octets {
        p = put(out, p, glyph(*x / 16));
        p = put(out, p, glyph(*x));
    }
    p
}

// The number of at most 255 that digits write: one digit or more, zeros in front allowed.
pub fn number_in(text: &[u8]) -> Option<u8>
    ensures { result ≡ number_in text.now }
{
    if text.is_empty() {
        return None;
    }
    let mut n: u8 = 0;
    for c in text {
        if !c.is_ascii_digit() {
            return None;
        }
        n = n.checked_mul(10)?.checked_add(*c - b'0')?;
    }
    Some(n)
}

// The half octet that a character writes.
#[tactic(auto, unfolding(crate::specs::Hex::half_of))]
fn half_of(c: u8) -> Option<u8>
    ensures { result ≡ half_of c }
{
    match c {
        b'0'..=b'9' => Some(c - b'0'),
        b'A'..=b'F' => Some(c - b'A' + 10),
        _ => None,
    }
}

#[tactic(auto, unfolding(crate::specs::Hex::is_hex))]
fn is_hex(c: u8) -> bool
    ensures { result ≡ is_hex c }
{
    half_of(c).is_some()
}

// The octet that two characters write; one that writes no half octet counts as 0.
#[tactic(auto, using(crate::specs::Hex::half_small), unfolding(crate::specs::Hex::octet_from))]
fn octet_from(a: u8, b: u8) -> u8
    ensures { result ≡ octet_from a b }
{
    half_of(a).unwrap_or(0) * 16 + half_of(b).unwrap_or(0)
}

// The octets that hex text writes, laid over the front of the buffer; where it is no hex text, or of more octets than the buffer
// has, the buffer stays as lent.
pub fn read_octets(text: &[u8], out: &mut [u8]) -> Option<usize>
    ensures { filled result out.new ≡ octets_read text.now out.old }
{
    let (pairs, odd) = text.as_chunks::<2>();
    if !odd.is_empty() || out.len() < pairs.len() || !text.iter().all(|c| is_hex(*c)) {
        return None;
    }
    // Kept: over `out.iter_mut().zip(pairs)` the goal `returns` stayed open, with no name in it for the buffer behind the loop.
    for (i, pair) in pairs.iter().enumerate() {
        out[i] = octet_from(pair[0], pair[1]);
    }
    Some(pairs.len())
}

// The number of 32 bits that eight hex digits write.
pub fn word_in(text: &[u8]) -> Option<u32>
    ensures { result ≡ word_in text.now }
{
    if text.len() != 8 {
        return None;
    }
    let mut octets = [0; 4];
    read_octets(text, &mut octets)?;
    Some(u32::from_be_bytes(octets))
}
