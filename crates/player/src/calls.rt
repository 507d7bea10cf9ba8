// Calls as a history writes them.
use super::hexadecimal::read_bytes;
use super::problem::Problem;
use engine::{Call, Request, Terms};
use processor::RelativeAddress;
use std::alloc::Global;
use std::str::Split;
use store::CellAddress;

// The arguments of a call, one after another.
#[derive(Drop)]
struct Arguments<'a>(Split<'a, char>);

impl<'a> Arguments<'a> {
    fn text(&mut self) -> Result<&'a str, Problem> {
        self.0.next().ok_or(Problem::NoCase)
    }

    fn number(&mut self) -> Result<u32, Problem> {
        self.text()?.parse::<u32>().map_err(|_| Problem::NoCase)
    }

    fn cell(&mut self) -> Result<CellAddress, Problem> {
        Ok(CellAddress(self.number()?))
    }

    fn relative(&mut self) -> Result<RelativeAddress, Problem> {
        Ok(RelativeAddress(self.number()?))
    }

    fn bytes(&mut self, heap: Global) -> Result<Vec<u8>, Problem> {
        read_bytes(heap, self.text()?)
    }

    // What is asked of a worker by this name.
    fn request(&mut self, heap: Global, name: &str) -> Result<Request<Vec<u8>>, Problem> {
        Ok(match name.as_bytes() {
            b"load" => Request::Load {
                address: self.relative()?,
                word: self.number()?,
            },
            b"look" => Request::Look {
                address: self.relative()?,
            },
            b"run" => Request::Run {
                budget: self.number()?,
            },
            b"answer" => Request::Answer {
                a: self.number()?,
                q: self.number()?,
                p: self.number()?,
            },
            b"save" => Request::Save {
                buffer: self.bytes(heap)?,
            },
            b"restore" => Request::Restore {
                bytes: self.bytes(heap)?,
            },
            b"tell" => Request::Tell,
            _ => return Err(Problem::NoCase),
        })
    }

    // The call by this name.
    fn call(&mut self, heap: Global, name: &str) -> Result<Call<Vec<u8>>, Problem> {
        Ok(match name.as_bytes() {
            b"admit" => Call::Admit {
                place: self.number()?,
                lower: self.cell()?,
                terms: Terms {
                    length: self.number()?,
                    entry: self.relative()?,
                },
            },
            b"retire" => Call::Retire {
                place: self.number()?,
            },
            b"span" => Call::Span {
                place: self.number()?,
            },
            b"fixed" => Call::FixedAddress {
                cause: self.number()?,
                address: self.cell()?,
            },
            _ => Call::Ask {
                place: self.number()?,
                request: self.request(heap, name)?,
            },
        })
    }
}

// The call that a text is.
pub(crate) fn read_call(heap: Global, text: &str) -> Result<Call<Vec<u8>>, Problem> {
    let mut arguments = Arguments(text.split(' '));
    let name = arguments.text()?;
    let call = arguments.call(heap, name)?;
    if arguments.0.next().is_some() {
        return Err(Problem::NoCase);
    }
    Ok(call)
}
