//! Padding a decimal to a width.
ghost use Rattle.std.specs.Prelude.{◌≡◌, ℕ, ◌+◌, ◌≤◌, ◌↔◌, List, ◌++◌, length, take, drop};
ghost use Rattle.std.specs.Prelude.{replicate, IfSome, IfNone, IsSome, false};
ghost use Rattle.font_decimal.specs.Padding.{shown_sign, unsigned_body, laid_out, padded_text};
ghost use Rattle.font_decimal.specs.Padding.{FillsFront};

/// The alignment of text that is shorter than the width.
///
/// ```
/// use font_types::{Align, Fixed, Pad};
/// let mut pad = Pad::new(6);
/// pad.align = Align::Center;
/// let mut out = [0; 6];
/// Fixed::ONE.write_padded(&mut out, &pad);
/// assert_eq!(&out, b"  1   ");
/// ```
#[derive(Clone, Copy)]
pub enum Align {
    /// Left-aligned, with the fill on the right.
    Left,
    /// Centered; an odd fill byte goes on the right.
    Center,
    /// Right-aligned, with the fill on the left.
    Right,
}

/// How to pad a decimal.
///
/// ```
/// use font_types::{Align, Fixed, Pad};
/// let mut pad = Pad::new(6);
/// pad.align = Align::Left;
/// pad.fill = b'.';
/// let mut out = [0; 6];
/// assert_eq!(Fixed::ONE.write_padded(&mut out, &pad), Some(6));
/// assert_eq!(&out, b"1.....");
/// ```
#[derive(Clone, Copy)]
pub struct Pad {
    /// The minimum width in bytes; 0 means none.
    pub width: usize,
    /// The fill byte. Padded text is ASCII if it is below 0x80.
    pub fill: u8,
    /// The alignment.
    pub align: Align,
    /// Writes a `+` unless the text starts with `-`.
    pub plus: bool,
    /// Pads with zeros after the sign, ignoring `fill` and `align`.
    pub zeros: bool,
}

impl Pad {
    /// Creates a padding of at least `width` bytes, right-aligned, filled with spaces.
    ///
    /// The fields are public: `Pad { plus: true, ..Pad::new(8) }` also writes a plus sign.
    pub const fn new(width: usize) -> Self
        ensures { result ≡ record {
          width = width;
          fill = 32;
          align = Align.Right;
          plus = false;
          zeros = false;
        } }
    {
        Self {
            width,
            fill: b' ',
            align: Align::Right,
            plus: false,
            zeros: false,
        }
    }
}

/// Writes a padded decimal to the start of `out` and returns its length, or returns `None` and
/// leaves `out` unchanged if it is too short.
///
/// The text need not be a decimal: its sign is a `-` at its start.
///
/// ```
/// use font_types::{Pad, write_padded};
/// let mut out = [b'.'; 8];
/// let pad = Pad { zeros: true, ..Pad::new(6) };
/// assert_eq!(write_padded("-1.5", &mut out, &pad), Some(6));
/// assert_eq!(&out, b"-001.5..");
/// ```
pub fn write_padded(text: &str, out: &mut [u8], pad: &Pad) -> Option<usize>
    ensures written { IfSome result
        (λ n. FillsFront (padded_text text.now pad.now) n out.old out.new) }
    ensures variant { IsSome result ↔ (length (padded_text text.now pad.now) ≤ length out.old) }
    ensures fills { length out.old ≤ pad.now.width
        → IfSome result (λ _. out.new ≡ padded_text text.now pad.now) }
    ensures untouched { IfNone result (out.new ≡ out.old) }
{
    let (sign, body) = shown_parts(text, pad.plus);
    let len = sign.len() + body.len();
    let shown_len = len.max(pad.width);
    if out.len() < shown_len {
        return None;
    }
    let (front, zeros, back) = spread(shown_len - len, pad);
    let at = put_fill(out, 0, pad.fill, front);
    let at = put(out, at, sign.as_bytes());
    let at = put_fill(out, at, b'0', zeros);
    let at = put(out, at, body.as_bytes());
    Some(put_fill(out, at, pad.fill, back))
}

// Returns the sign to write, and the text without its own sign.
fn shown_parts(text: &str, plus: bool) -> (&'static str, &str)
    ensures sign { result.0.now ≡ shown_sign plus text.now }
    ensures body { result.1.now ≡ unsigned_body text.now }
{
    match text.strip_prefix('-') {
        Some(body) => ("-", body),
        None if plus => ("+", text),
        None => ("", text),
    }
}

// Splits the padding into fill on the left, zeros after the sign, and fill on the right.
fn spread(spare: usize, pad: &Pad) -> (usize, usize, usize)
    ensures all { result.0 + result.1 + result.2 ≡ spare }
    ensures places { (sign body : List ℕ) → laid_out pad.now sign body spare
        ≡ replicate result.0 pad.now.fill
        ++ (sign ++ (replicate result.1 48 ++ (body ++ replicate result.2 pad.now.fill))) }
{
    if pad.zeros {
        return (0, spare, 0);
    }
    let front = match pad.align {
        Align::Left => 0,
        Align::Center => spare / 2,
        Align::Right => spare,
    };
    (front, 0, spare - front)
}

// Writes bytes at index `at`, and returns the index after them.
fn put(out: &mut [u8], at: usize, bytes: &[u8]) -> usize
    requires { at + length bytes.now ≤ length out.old }
    ensures end { result ≡ at + length bytes.now }
    ensures written { out.new ≡ take at out.old
        ++ (bytes.now ++ drop (at + length bytes.now) out.old) }
{
    let end = at + bytes.len();
    out[at..end].copy_from_slice(bytes);
    end
}

// Writes a byte `count` times at index `at`, and returns the index after them.
fn put_fill(out: &mut [u8], at: usize, byte: u8, count: usize) -> usize
    requires { at + count ≤ length out.old }
    ensures end { result ≡ at + count }
    ensures written { out.new ≡ take at out.old
        ++ (replicate count byte ++ drop (at + count) out.old) }
{
    let end = at + count;
    out[at..end].fill(byte);
    end
}
