// Decimal numbers in a text.
ghost use Rattle.std.specs.Prelude.{◌≤◌, ◌<◌, length, IfOk, IfSome};

use super::findings::Fault;

// Splits the number that a text begins with from the rest. None where it begins with none, or with one of more than 32 bits.
fn split_number(text: &[u8]) -> Option<(u32, &[u8])>
    ensures { IfSome result (λ split. length split.1.now < length text.now) }
{
    let digits = text
        .iter()
        .position(|b| !b.is_ascii_digit())
        .unwrap_or(text.len());
    let (digits, rest) = text.split_at(digits);
    let number = str::from_utf8(digits).ok()?.parse::<u32>().ok()?;
    Some((number, rest))
}

// Reads a line, numbers with a space between two and a line end after the last, into `numbers`, and returns those that it has.
pub fn read_line<'a>(line: &[u8], numbers: &'a mut [u32]) -> Result<&'a [u32], Fault>
    ensures { IfOk result (λ read. (1 ≤ length read.now) × (length read.now ≤ length numbers.old)) }
{
    let mut rest = line;
    for (i, cell) in numbers.iter_mut().enumerate() {
        let (number, after) = split_number(rest).ok_or(Fault::Numeral)?;
        *cell = number;
        match after {
            [] => return Err(Fault::LineEnd),
            [b'\n', ..] => return Ok(&numbers[..=i]),
            [b' ', next @ ..] => rest = next,
            _ => return Err(Fault::Space),
        }
    }
    Err(Fault::Long)
}
