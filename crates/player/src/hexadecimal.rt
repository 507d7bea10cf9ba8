// Bytes as a case writes them: two hexadecimal digits each, and `-` where there are none.
ghost use Rattle.std.specs.Prelude.{◌<◌, IfSome};

use super::problem::Problem;
use std::alloc::Global;
use std::fmt;

// The value of a digit.
fn digit(byte: u8) -> Option<u8>
    ensures { IfSome result (λ value. value < 16) }
{
    match byte {
        b'0'..=b'9' => Some(byte - b'0'),
        b'a'..=b'f' => Some(byte - b'a' + 10),
        _ => None,
    }
}

// The bytes that a text is.
pub(crate) fn read_bytes(heap: Global, text: &str) -> Result<Vec<u8>, Problem> {
    let mut bytes = Vec::new(heap);
    if text == "-" {
        return Ok(bytes);
    }
    for digits in text.as_bytes().chunks(2) {
        let [upper, lower] = digits else {
            return Err(Problem::NoCase);
        };
        let upper = digit(*upper).ok_or(Problem::NoCase)?;
        let lower = digit(*lower).ok_or(Problem::NoCase)?;
        bytes.push(upper * 16 + lower)?;
    }
    Ok(bytes)
}

// Bytes to be written.
#[derive(Drop)]
pub(crate) struct WrittenBytes<'a>(pub(crate) &'a [u8]);

impl fmt::Display for WrittenBytes<'_> {
    fn fmt<W: fmt::Write>(&self, f: &mut fmt::Formatter<W>) -> fmt::Result {
        if self.0.is_empty() {
            return write!(f, "-");
        }
        for byte in self.0 {
            write!(f, "{byte:02x}")?;
        }
        Ok(())
    }
}
