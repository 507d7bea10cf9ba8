// What the library reads and answers, bad lines too.
use engine::{Call, Request, Terms};
use memories::{Kind, Layout, Part, Rule, Side};
use processor::RelativeAddress;
use script::{
    Answer, Failure, Problem, Reason, Session, Statement, play, read_number, read_statement,
    split_words,
};
use std::alloc::Global;
use std::process::Abort;
use std::test::Fail;
use store::{CellAddress, Half, Operation, Reply};

#[test]
fn numbers(rt: HostRuntime) {
    let numbers: [(&[u8], u32); 6] = [
        (b"0", 0),
        (b"007", 7),
        (b"4294967295", 0xffff_ffff),
        (b"0o777", 511),
        (b"0xFf", 255),
        (b"0x00000000010", 16),
    ];
    for (word, number) in numbers {
        assert_eq!(rt; read_number(word), Ok(number));
    }
}

#[test]
fn no_numbers(rt: HostRuntime) {
    let words: [&[u8]; 9] = [
        b"",
        b"-1",
        b"+1",
        b"1_0",
        b"0o8",
        b"0x",
        b"0X1",
        b"0xg",
        b"12345678901234z",
    ];
    for word in words {
        assert_eq!(rt; read_number(word), Err(Reason::NotANumber));
    }
    let words: [&[u8]; 3] = [b"4294967296", b"0o40000000000", b"0x100000000"];
    for word in words {
        assert_eq!(rt; read_number(word), Err(Reason::TooLarge));
    }
}

fn check_words(rt: &impl Abort, heap: Global, line: &[u8], words: &[&[u8]]) -> Result<(), Fail> {
    assert_eq!(rt; split_words(heap, line)?.as_slice(), words);
    Ok(())
}

#[test]
fn words(rt: HostRuntime) -> Result<(), Fail> {
    let heap = rt.alloc();
    check_words(&rt, heap, b"", &[])?;
    check_words(&rt, heap, b"# a b", &[])?;
    check_words(&rt, heap, b"a#b", &[b"a"])?;
    check_words(&rt, heap, b"  load  0x10 b  ", &[b"load", b"0x10", b"b"])
}

fn read(heap: Global, line: &[u8]) -> Result<Statement<Vec<u8>>, Failure<Reason>> {
    read_statement(heap, split_words(heap, line)?.as_slice())
}

#[test]
fn statements(rt: HostRuntime) {
    let heap = rt.alloc();
    assert_eq!(rt;
        read(heap, b"put-half 0o17 lower 9"),
        Ok(Statement::Operation(Operation::PutHalf {
            address: CellAddress(15),
            half: Half::Lower,
            value: 9,
        }))
    );
    assert_eq!(rt;
        read(heap, b"raw second 3 5"),
        Ok(Statement::Raw {
            side: Side::Second,
            index: 3,
            value: 5,
        })
    );
    assert_eq!(rt; read(heap, b""), Err(Failure::Wrong(Reason::WordCount)));
}

#[test]
fn layouts(rt: HostRuntime) {
    let parity = Part {
        kind: Kind::Parity,
        size: 7,
    };
    let word = Part {
        kind: Kind::Word,
        size: 8,
    };
    let pair = |rule| Layout::Pair {
        rule,
        first: parity,
        second: word,
    };
    let lines: [(&[u8], Layout); 4] = [
        (b"memory parity 7", Layout::Single(parity)),
        (b"memory word 0o10", Layout::Single(word)),
        (b"memory continuous parity 7 word 8", pair(Rule::Continuous)),
        (
            b"memory interleaved parity 7 word 8",
            pair(Rule::Interleaved),
        ),
    ];
    for (line, layout) in lines {
        assert_eq!(rt; read(rt.alloc(), line), Ok(Statement::Memory(layout)));
    }
}

#[test]
fn a_statement_before_the_memory(rt: HostRuntime) -> Result<(), Fail> {
    let mut session = Session::new();
    assert_eq!(rt;
        session.perform(rt.alloc(), Statement::Operation(Operation::Count)),
        Err(Failure::Wrong(Reason::NoMemory))
    );
    let words = Part {
        kind: Kind::Word,
        size: 262_144,
    };
    assert_eq!(rt;
        session.perform(rt.alloc(), Statement::Memory(Layout::Single(words))),
        Ok(Answer::Done)
    );
    assert_eq!(rt;
        session.perform(rt.alloc(), Statement::Operation(Operation::Count)),
        Ok(Answer::Reply(Reply::Counted(131_072)))
    );
    Ok(())
}

// What line 2 comes to after a first line.
fn second_line(
    heap: Global,
    first: &[u8],
    line: &[u8],
) -> Result<Option<Vec<u8>>, Failure<Problem>> {
    let mut session = Session::new();
    let _ = session.play_line(heap, 1, first)?;
    session.play_line(heap, 2, line)
}

#[test]
fn bad_lines(rt: HostRuntime) {
    let lines: [(&[u8], Reason); 31] = [
        (b"Install", Reason::UnknownWord),
        (b"Count", Reason::UnknownWord),
        (b"memory card 2", Reason::UnknownWord),
        (b"memory second", Reason::UnknownWord),
        (b"memory interleaved word 2 card 2", Reason::UnknownWord),
        (b"put-half 0 middle 1", Reason::UnknownWord),
        (b"count\t", Reason::UnknownWord),
        (b"memory", Reason::WordCount),
        (b"memory word", Reason::WordCount),
        (b"memory parity 2 word 2", Reason::WordCount),
        (b"memory continuous card 2", Reason::WordCount),
        (b"memory continuous word 2 word 2 3", Reason::WordCount),
        (b"count 1", Reason::WordCount),
        (b"fetch", Reason::WordCount),
        (b"raw 0", Reason::WordCount),
        (b"raw second 0", Reason::WordCount),
        (b"put 0 1 2", Reason::WordCount),
        (b"put-half 0 upper", Reason::WordCount),
        (b"fetch one", Reason::NotANumber),
        (b"put 0 0o9", Reason::NotANumber),
        (b"raw second second 0", Reason::NotANumber),
        (b"memory interleaved word two card 2", Reason::NotANumber),
        (b"fetch 4294967296", Reason::TooLarge),
        (b"memory word 1", Reason::SecondMemory),
        (b"memory parity 1", Reason::SecondMemory),
        (b"memory word 262145", Reason::OutOfRange),
        (b"memory parity 262145", Reason::OutOfRange),
        (b"memory continuous word 2 word 262145", Reason::OutOfRange),
        (b"raw 2 0", Reason::OutOfRange),
        (b"raw second 0 0", Reason::OutOfRange),
        (b"raw second 4294967296 x", Reason::TooLarge),
    ];
    for (line, reason) in lines {
        assert_eq!(rt;
            second_line(rt.alloc(), b"memory word 2", line),
            Err(Failure::Wrong(Problem { line: 2, reason }))
        );
    }
}

// What the last of some lines comes to.
fn last_line(
    heap: Global,
    lines: &[&[u8]],
    last: &[u8],
) -> Result<Option<Vec<u8>>, Failure<Problem>> {
    let mut session = Session::new();
    for line in lines {
        let _ = session.play_line(heap, 1, line)?;
    }
    session.play_line(heap, 2, last)
}

#[test]
fn bad_calls(rt: HostRuntime) {
    let lines: [(&[u8], Reason); 36] = [
        (b"Admit 0 0 1 0", Reason::UnknownWord),
        (b"loads 0 0 0", Reason::UnknownWord),
        (b"saved 0 29", Reason::UnknownWord),
        (b"retired 0", Reason::UnknownWord),
        (b"install 0", Reason::WordCount),
        (b"admit 0 0 1", Reason::WordCount),
        (b"load 0 0", Reason::WordCount),
        (b"look 0", Reason::WordCount),
        (b"run 0", Reason::WordCount),
        (b"run 0 1 2", Reason::WordCount),
        (b"answer 0 0 0", Reason::WordCount),
        (b"save 0", Reason::WordCount),
        (b"restore 0", Reason::WordCount),
        (b"restore 0 00 1b", Reason::WordCount),
        (b"tell", Reason::WordCount),
        (b"retire 0 0", Reason::WordCount),
        (b"span", Reason::WordCount),
        (b"fixed 1", Reason::WordCount),
        (b"admit zero 0 1 0", Reason::NotANumber),
        (b"load 0 0 0o8", Reason::NotANumber),
        (b"look 0 -1", Reason::NotANumber),
        (b"run 0 ten", Reason::NotANumber),
        (b"answer 0 0 0 P", Reason::NotANumber),
        (b"save 0 -", Reason::NotANumber),
        (b"restore zero -", Reason::NotANumber),
        (b"restore 0 0", Reason::NotANumber),
        (b"restore 0 001", Reason::NotANumber),
        (b"restore 0 0g", Reason::NotANumber),
        (b"restore 0 --", Reason::NotANumber),
        (b"restore 0 0x00", Reason::NotANumber),
        (b"restore x 0", Reason::NotANumber),
        (b"tell one", Reason::NotANumber),
        (b"retire 4294967296", Reason::TooLarge),
        (b"save x 4097", Reason::NotANumber),
        (b"save 0 4097", Reason::OutOfRange),
        (b"fixed 1 4294967296", Reason::TooLarge),
    ];
    for (line, reason) in lines {
        assert_eq!(rt;
            last_line(rt.alloc(), &[b"memory word 2", b"install"], line),
            Err(Failure::Wrong(Problem { line: 2, reason }))
        );
    }
}

// One of each call.
const CALLS: [&[u8]; 11] = [
    b"admit 0 0 1 0",
    b"load 0 0 0",
    b"look 0 0",
    b"run 0 1",
    b"answer 0 0 0 0",
    b"save 0 29",
    b"restore 0 -",
    b"tell 0",
    b"retire 0",
    b"span 0",
    b"fixed 1 0",
];

#[test]
fn calls_before_the_install(rt: HostRuntime) {
    for line in CALLS {
        let problem = Failure::Wrong(Problem {
            line: 2,
            reason: Reason::NoInstallation,
        });
        assert_eq!(rt; last_line(rt.alloc(), &[], line), Err(problem));
        assert_eq!(rt;
            last_line(rt.alloc(), &[b"memory word 2"], line),
            Err(problem)
        );
    }
}

#[test]
fn memory_statements_after_the_install(rt: HostRuntime) {
    let lines: [&[u8]; 9] = [
        b"memory word 2",
        b"memory interleaved word 2 parity 2",
        b"raw 0 0",
        b"raw second 0 0",
        b"count",
        b"fetch 0",
        b"put 0 1",
        b"put-half 0 upper 1",
        b"install",
    ];
    for line in lines {
        assert_eq!(rt;
            last_line(rt.alloc(), &[b"memory word 2", b"install"], line),
            Err(Failure::Wrong(Problem {
                line: 2,
                reason: Reason::Installed,
            }))
        );
    }
}

#[test]
fn an_install_before_the_memory(rt: HostRuntime) {
    assert_eq!(rt;
        last_line(rt.alloc(), &[], b"install"),
        Err(Failure::Wrong(Problem {
            line: 2,
            reason: Reason::NoMemory,
        }))
    );
}

#[test]
fn calls_are_read(rt: HostRuntime) -> Result<(), Fail> {
    let heap = rt.alloc();
    assert_eq!(rt;
        read(heap, b"admit 1 2 3 4"),
        Ok(Statement::Call(Call::Admit {
            place: 1,
            lower: CellAddress(2),
            terms: Terms {
                length: 3,
                entry: RelativeAddress(4),
            },
        }))
    );
    assert_eq!(rt;
        read(heap, b"answer 1 2 3 4"),
        Ok(Statement::Call(Call::Ask {
            place: 1,
            request: Request::Answer { a: 2, q: 3, p: 4 },
        }))
    );
    assert_eq!(rt;
        read(heap, b"restore 5 00fFaB"),
        Ok(Statement::Call(Call::Ask {
            place: 5,
            request: Request::Restore {
                bytes: [0x00, 0xff, 0xab].to_vec(heap)?,
            },
        }))
    );
    assert_eq!(rt;
        read(heap, b"save 5 4096"),
        Ok(Statement::Call(Call::Ask {
            place: 5,
            request: Request::Save {
                buffer: vec![in heap; 0; 4096]?,
            },
        }))
    );
    Ok(())
}

// A worker was admitted, and one line follows.
fn check_last(rt: &impl Abort, heap: Global, line: &[u8], text: &[u8]) -> Result<(), Fail> {
    let lines: [&[u8]; 3] = [b"memory word 8", b"install", b"admit 3 2 6 5"];
    assert_eq!(rt; last_line(heap, &lines, line), Ok(Some(text.to_vec(heap)?)));
    Ok(())
}

#[test]
fn calls_are_answered(rt: HostRuntime) -> Result<(), Fail> {
    let heap = rt.alloc();
    check_last(
        &rt,
        heap,
        b" span  3 # where",
        b"span 3 -> lower 2, length 6",
    )?;
    check_last(&rt, heap, b"look 3 0x5", b"look 3 0x5 -> 0000000000")?;
    check_last(&rt, heap, b"look 3 6", b"look 3 6 -> refused 8")?;
    check_last(&rt, heap, b"fixed 5 0", b"fixed 5 0 -> 30")?;
    check_last(
        &rt,
        heap,
        b"run 3 1",
        b"run 3 1 -> 1 steps, illegal instruction, address 5, reference none",
    )?;
    check_last(
        &rt,
        heap,
        b"save 3 29",
        b"save 3 29 -> 001b010000000000000000000000000000000000000000000000000005",
    )
}

#[test]
fn numbers_out_of_range_in_a_pair(rt: HostRuntime) {
    let lines: [&[u8]; 4] = [
        b"raw 2 0",
        b"raw second 3 0",
        b"raw second 0 65536",
        b"raw second 0xffffffff 0",
    ];
    for line in lines {
        assert_eq!(rt;
            second_line(rt.alloc(), b"memory continuous word 2 parity 3", line),
            Err(Failure::Wrong(Problem {
                line: 2,
                reason: Reason::OutOfRange,
            }))
        );
    }
}

#[test]
fn good_lines(rt: HostRuntime) -> Result<(), Fail> {
    let heap = rt.alloc();
    assert_eq!(rt;
        second_line(heap, b"memory word 2", b" # nothing"),
        Ok(None)
    );
    assert_eq!(rt;
        second_line(heap, b"memory word 2", b"raw  1 0 "),
        Ok(Some(b"raw 1 0 -> ok".to_vec(heap)?))
    );
    assert_eq!(rt;
        second_line(heap, b"memory word 2", b"raw 1 0xffffffff"),
        Ok(Some(b"raw 1 0xffffffff -> ok".to_vec(heap)?))
    );
    assert_eq!(rt;
        second_line(
            heap,
            b"memory continuous word 2 parity 3",
            b"raw second 2 65535"
        ),
        Ok(Some(b"raw second 2 65535 -> ok".to_vec(heap)?))
    );
    Ok(())
}

#[test]
fn a_script_stops_at_its_first_bad_line(rt: HostRuntime) -> Result<(), Fail> {
    let heap = rt.alloc();
    let script = b"memory word 2\n\n put  1 5 # five\nput 1\nfetch 1\nbad\n";
    let played = play(heap, script)?;
    assert_eq!(rt;
        played.transcript.as_slice(),
        b"memory word 2 -> ok\nput 1 5 -> ok\n".as_slice()
    );
    let problem = played.problem.ok_or("no problem")?;
    assert_eq!(rt;
        problem,
        Problem {
            line: 4,
            reason: Reason::WordCount,
        }
    );
    assert_eq!(rt;
        format!(in heap; "{problem}")?.as_str(),
        "line 4: wrong number of words"
    );
    Ok(())
}

#[test]
fn the_last_line_may_lack_its_line_feed(rt: HostRuntime) -> Result<(), Fail> {
    let played = play(rt.alloc(), b"memory word 1\ncount")?;
    assert_eq!(rt;
        played.transcript.as_slice(),
        b"memory word 1 -> ok\ncount -> 1\n".as_slice()
    );
    assert!(rt; played.problem.is_none());
    Ok(())
}
