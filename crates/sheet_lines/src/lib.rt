// Reading the lines of a sheet of cases, for the programs that run one.
#![tactic(auto)]

ghost use Rattle.std.specs.Prelude.{◌≡◌, ◌≢◌, ◌+◌, ◌≤◌, ◌<◌, IfErr, Err, All, Some, length, min, take, drop, slice_get};
ghost use Rattle.std.specs.List.{list_all};
ghost use Rattle.sheet_lines.specs.Digits.{digit_value, with_digit, number};

// The places of a buffer that holds a whole sheet.
pub const SHEET_ROOM: usize = 262144;

// The most places of a row that is lent to the solver: more than any game has states.
pub const ROW_ROOM: usize = 600;

// What every place of such a row holds before a call. A place that holds it afterwards counts as untouched.
pub const BLANK: u16 = 43690;

// The size itself, or the length of `room` where that is less. With what it ensures, `&room[..r]` is proved with no proof file.
pub fn fitting<T>(size: usize, room: &[T]) -> usize
    ensures least { result ≡ min size (length room.now) }
    ensures in_bounds { result ≤ length room.now }
    ensures taken { result ≡ length (take result room.now) }
{
    size.min(room.len())
}

// Whether every place from `from` on holds `blank`.
pub fn is_blank<T: PartialEq>(row: &[T], from: usize, blank: &T) -> bool
    ensures { result ≡ list_all (λ place. T.eq place blank.now) (drop from row.now) }
{
    row.iter().skip(from).all(|place| place == blank)
}

// Runs `run` over the lines of a sheet, each without its end, until one fails.
pub fn each_line<E, F: FnMut(&[u8]) -> Result<(), E>>(text: &[u8], mut run: F) -> Result<(), E>
    requires { F.IsAlwaysCallable run }
    ensures { IfErr result (λ e. (before : F) × (line : _) × (after : F) × F.step before line (Err e) after) }
{
    for line in text.split_inclusive(|byte| *byte == b'\n') {
        run(line.strip_suffix(b"\n").unwrap_or(line))?;
    }
    Ok(())
}

// The name of a line, which ends at the first colon or with the line, and what stands behind the colon and a space.
pub fn name_and_rest(line: &[u8]) -> (&[u8], &[u8])
    ensures name { result.0.now ≡ take (length result.0.now) line.now }
    ensures no_colon { All (λ byte. byte ≢ 58) result.0.now }
    ensures colon { length result.0.now < length line.now → slice_get line.now (length result.0.now) ≡ Some 58 }
    ensures rest { result.1.now ≡ drop (length result.0.now + 2) line.now }
{
    let colon = line
        .iter()
        .position(|byte| *byte == b':')
        .unwrap_or(line.len());
    (&line[..colon], line.get(colon + 2..).unwrap_or(&[]))
}

// The number that decimal digits spell, as a remainder by 65536.
pub fn number(digits: &[u8]) -> u16
    ensures { result ≡ number digits.now }
{
    digits
        .iter()
        .fold(0, |value, byte| with_digit(value, *byte))
}

fn with_digit(value: u16, byte: u8) -> u16
    ensures { result ≡ with_digit value byte }
{
    value.wrapping_mul(10).wrapping_add(u16::from(digit(byte)))
}

// Puts the bytes that hexadecimal digits spell at the start of `file`, and gives those. A last digit without a partner is left
// out, and so is what `file` has no place for.
pub fn read_digits<'a>(digits: &[u8], file: &'a mut [u8]) -> &'a [u8] {
    let (pairs, _) = digits.as_chunks::<2>();
    for (byte, pair) in file.iter_mut().zip(pairs) {
        *byte = digit(pair[0]) * 16 + digit(pair[1]);
    }
    let length = fitting(pairs.len(), file);
    &file[..length]
}

// The value of a digit, and 0 for a byte that is none.
fn digit(byte: u8) -> u8
    ensures bound { result < 16 }
    ensures value { result ≡ digit_value byte }
{
    match byte {
        b'0'..=b'9' => byte - b'0',
        b'a'..=b'f' => byte - b'a' + 10,
        _ => 0,
    }
}
