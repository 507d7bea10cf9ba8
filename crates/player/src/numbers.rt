// Numbers as a case writes them.
ghost use Rattle.std.specs.Prelude.{◌<◌, IfSome};

// The decimal number that a text is, if it is less than a limit.
pub(crate) fn below(limit: u32, text: &str) -> Option<u32>
    ensures { IfSome result (λ number. number < limit) }
{
    let number = text.parse::<u32>().ok()?;
    (number < limit).then_some(number)
}
