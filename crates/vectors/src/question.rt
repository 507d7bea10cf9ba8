// Questions: a name and its arguments. A family of questions reads no arguments of a name that is not its own.
use super::answer::Answer;
use super::arguments::Arguments;
use words::packed;

fn of_sums(name: &str, arguments: &mut Arguments<'_>) -> Option<Answer> {
    Some(match name {
        "difference" => Answer::Word(arguments.word()?.difference(arguments.word()?)),
        "sum" => Answer::Word(arguments.word()?.sum(arguments.word()?)),
        "complement" => Answer::Word(arguments.word()?.complement()),
        "complement-half" => Answer::Half(arguments.half()?.complement()),
        "extended" => Answer::Word(arguments.half()?.extended()),
        _ => return None,
    })
}

fn of_shifts(name: &str, arguments: &mut Arguments<'_>) -> Option<Answer> {
    Some(match name {
        "shifted-right" => Answer::Word(arguments.word()?.shifted_right(arguments.count()?)),
        "shifted-right-with-sign" => {
            Answer::Word(
                arguments
                    .word()?
                    .shifted_right_with_sign(arguments.count()?),
            )
        }
        "turned-left" => Answer::Word(arguments.word()?.turned_left(arguments.count()?)),
        "double-shifted-right" => {
            Answer::Double(arguments.double()?.shifted_right(arguments.count()?))
        }
        "double-shifted-right-with-sign" => {
            Answer::Double(
                arguments
                    .double()?
                    .shifted_right_with_sign(arguments.count()?),
            )
        }
        "double-turned-left" => Answer::Double(arguments.double()?.turned_left(arguments.count()?)),
        "scaled" => Answer::Scaled(arguments.word()?.scaled()),
        _ => return None,
    })
}

fn of_logic(name: &str, arguments: &mut Arguments<'_>) -> Option<Answer> {
    Some(match name {
        "product" => Answer::Word(arguments.word()?.product(arguments.word()?)),
        "selective-set" => Answer::Word(arguments.word()?.selective_set(arguments.word()?)),
        "selective-complement" => {
            Answer::Word(arguments.word()?.selective_complement(arguments.word()?))
        }
        "selective-clear" => Answer::Word(arguments.word()?.selective_clear(arguments.word()?)),
        "selective-substitute" => Answer::Word(
            arguments
                .word()?
                .selective_substitute(arguments.word()?, arguments.word()?),
        ),
        "odd-ones" => Answer::Truth(arguments.word()?.has_odd_ones()),
        "packed" => Answer::Word(packed(arguments.words()?)),
        _ => return None,
    })
}

fn of_comparisons(name: &str, arguments: &mut Arguments<'_>) -> Option<Answer> {
    Some(Answer::Truth(match name {
        "double-equal" => arguments.double()?.equals(arguments.double()?),
        "double-less" => arguments.double()?.is_less(arguments.double()?),
        "equal-under" => {
            let mask = arguments.word()?;
            arguments.word()?.equals_under(mask, arguments.word()?)
        }
        "less-under" => {
            let mask = arguments.word()?;
            arguments.word()?.is_less_under(mask, arguments.word()?)
        }
        _ => return None,
    }))
}

// The answer to a line, if it is a question.
pub(crate) fn answer(line: &str) -> Option<Answer> {
    let mut parts = line.split_whitespace();
    let name = parts.next()?;
    let mut arguments = Arguments::new(parts);
    let answer = of_sums(name, &mut arguments)
        .or_else(|| of_shifts(name, &mut arguments))
        .or_else(|| of_logic(name, &mut arguments))
        .or_else(|| of_comparisons(name, &mut arguments))?;
    arguments.are_read().then_some(answer)
}
