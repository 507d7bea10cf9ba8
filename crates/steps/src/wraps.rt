// What wraps and what does not, in a worker of 32,768 words.
use super::bench::{AROUND, protection};
use processor::{Limits, ReferenceKind, Report, step};
use records::Registers;
use std::alloc::Global;
use std::process::Abort;
use std::test::Fail;
use store::CellAddress;
use stores::WordStore;
use words::word_bits;

// The cell of the first word, and the address of the last one.
const LOWER: usize = 3;

const LAST: usize = 32_767;

// Words at addresses, and A, Q and P. All other words are 0.
#[derive(Clone, Copy)]
struct Wide {
    words: [(usize, u32); 6],
    a: u32,
    q: u32,
    p: u32,
}

impl Wide {
    fn memory(&self, heap: Global) -> Result<Vec<u32>, Fail> {
        let mut memory = vec![in heap; 0; LOWER + LAST + 3]?;
        for at in [0, 1, 2, LOWER + LAST + 1, LOWER + LAST + 2] {
            if let Some(cell) = memory.get_mut(at) {
                *cell = AROUND;
            }
        }
        for (address, word) in self.words {
            if let Some(cell) = memory.get_mut(address.wrapping_add(LOWER)) {
                *cell = word;
            }
        }
        Ok(memory)
    }

    fn registers(&self) -> Registers {
        let mut registers = Registers::starting_at(self.p);
        registers.set_a(word_bits(self.a));
        registers.set_q(word_bits(self.q));
        registers
    }

    // After a step with this answer the worker is that one.
    fn steps<R: Abort + Alloc<A = Global>>(
        &self,
        rt: &R,
        answer: Result<(), Report>,
        after: Wide,
    ) -> Result<(), Fail> {
        let mut store = WordStore::new(self.memory(rt.alloc())?);
        let limits = Limits::new(CellAddress(LOWER as u32), 32_768).ok_or("no such limits")?;
        let mut registers = self.registers();
        let (_, instruction) = self.words[0];
        assert_eq!(rt;
            step(&mut store, limits, &mut registers),
            answer,
            "at {instruction:o}"
        );
        assert_eq!(rt; registers, after.registers(), "at {instruction:o}");
        let memory = after.memory(rt.alloc())?;
        assert!(rt;
            store.into_memory().as_slice() == memory.as_slice(),
            "at {instruction:o}"
        );
        Ok(())
    }
}

// An instruction, and words at 0, 1, 32,765, 32,766 and 32,767, of which the instruction may be one.
fn doing(at: u32, instruction: u32) -> Wide {
    Wide {
        words: [
            (at as usize, instruction),
            (0, 0o1111122222),
            (1, 0o3333344444),
            (LAST - 2, 0o0000000045),
            (LAST - 1, 0o0000000067),
            (LAST, 0o5555566666),
        ],
        a: 0o0000000003,
        q: 0o0000000004,
        p: at,
    }
}

#[test]
fn the_word_after_the_last_is_the_first(rt: HostRuntime) -> Result<(), Fail> {
    let before = doing(9, 0o77_21_0_77777);
    let after = Wide {
        a: 0o5555566666,
        q: 0o1111122222,
        p: 10,
        ..before
    };
    before.steps(&rt, Ok(()), after)?;
    let before = doing(9, 0o77_25_0_77777);
    let mut after = Wide { p: 10, ..before };
    after.words[5] = (LAST, 3);
    after.words[1] = (0, 4);
    before.steps(&rt, Ok(()), after)?;
    for (instruction, p) in [(0o77_23_0_77777, 11), (0o77_27_0_77777, 10)] {
        let before = Wide {
            a: 0o5555566666,
            q: 0o1111122222,
            ..doing(9, instruction)
        };
        before.steps(&rt, Ok(()), Wide { p, ..before })?;
    }
    // 45, 67, 66, 22 and 44
    let before = doing(9, 0o77_31_0_77775);
    let after = Wide {
        a: 0o4567662244,
        p: 10,
        ..before
    };
    before.steps(&rt, Ok(()), after)
}

// P goes on to 32,768 and 32,769, and the fetch there fails.
#[test]
fn p_does_not_wrap(rt: HostRuntime) -> Result<(), Fail> {
    for (instruction, p) in [(0o11_0_0_0_00003, 32_768), (0o11_1_0_0_00003, 32_769)] {
        let mut before = doing(LAST as u32, instruction);
        before.words[5] = (LAST, instruction);
        before.steps(&rt, Ok(()), Wide { p, ..before })?;
        let past = Wide { p, ..before };
        let report = protection(ReferenceKind::Fetch, p);
        past.steps(&rt, Err(report), past)?;
    }
    Ok(())
}

// The way back is P + 1, of 15 bits, and so is the target + 1.
#[test]
fn a_return_jump_wraps(rt: HostRuntime) -> Result<(), Fail> {
    let mut before = doing(LAST as u32, 0o64_1_0_0_00001);
    before.words[5] = before.words[0];
    let mut after = Wide { p: 2, ..before };
    after.words[2] = (1, 0o3333300000);
    before.steps(&rt, Ok(()), after)?;
    let before = doing(9, 0o64_1_0_0_77777);
    let mut after = Wide { p: 0, ..before };
    after.words[5] = (LAST, 0o5555500012);
    before.steps(&rt, Ok(()), after)
}
