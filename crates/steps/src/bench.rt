// What the tests share: a worker with eight words amid spoiled cells of others, and the step that it does.
use processor::{Limits, Reference, ReferenceKind, RelativeAddress, Report, step};
use records::Registers;
use std::alloc::Global;
use std::process::Abort;
use std::test::Fail;
use store::{CellAddress, Fault, Half};
use stores::WordStore;
use words::word_bits;

// The number in each cell that is none of the worker's: both halves are spoiled, so a read that strays there would show.
pub(crate) const AROUND: u32 = 0xc000_0000 + 0o1234567012;

// The marks of a cell's number.
pub(crate) const UPPER_SPOILED: u32 = 0x8000_0000;

pub(crate) const LOWER_SPOILED: u32 = 0x4000_0000;

// A worker by all that it has. A word is the number of its cell, with its marks; b[0] is 0.
#[derive(Clone, Copy, Debug, PartialEq, Eq)]
pub(crate) struct Worker {
    pub(crate) words: [u32; 8],
    pub(crate) a: u32,
    pub(crate) q: u32,
    pub(crate) b: [u32; 8],
    pub(crate) p: u32,
}

impl Worker {
    // A worker whose first instruction is this one, with a word at 5; all else is 0.
    pub(crate) fn doing(instruction: u32, word: u32) -> Worker {
        Worker {
            words: [instruction, 0, 0, 0, 0, word, 0, 0],
            a: 0,
            q: 0,
            b: [0; 8],
            p: 0,
        }
    }

    // The same with something in every register.
    pub(crate) fn busy(instruction: u32, word: u32) -> Worker {
        Worker {
            a: 0o1234567012,
            q: 0o7654321076,
            b: [0, 1, 2, 3, 4, 5, 6, 7],
            ..Worker::doing(instruction, word)
        }
    }

    fn registers(&self) -> Registers {
        let mut registers = Registers::starting_at(self.p);
        registers.set_a(word_bits(self.a));
        registers.set_q(word_bits(self.q));
        for j in 1..8 {
            registers.set_b(j, self.b[j as usize]);
        }
        registers
    }

    fn with(words: [u32; 8], registers: &Registers) -> Worker {
        let mut b = [0; 8];
        for j in 0..8 {
            b[j] = registers.b(j as u32);
        }
        Worker {
            words,
            a: registers.a().get(),
            q: registers.q().get(),
            b,
            p: registers.p(),
        }
    }

    // The worker after one step, and the answer of the step. Its words are the cells 3 to 10 of 13, and the others stay.
    pub(crate) fn stepped<R: Abort + Alloc<A = Global>>(
        &self,
        rt: &R,
    ) -> Result<(Worker, Result<(), Report>), Fail> {
        let [w0, w1, w2, w3, w4, w5, w6, w7] = self.words;
        let mut store = WordStore::new(vec![in rt.alloc();
            AROUND, AROUND, AROUND, w0, w1, w2, w3, w4, w5, w6, w7, AROUND, AROUND,
        ]?);
        let limits = Limits::new(CellAddress(3), 8).ok_or("no such limits")?;
        let mut registers = self.registers();
        let answer = step(&mut store, limits, &mut registers);
        let memory = store.into_memory();
        let [c0, c1, c2, w0, w1, w2, w3, w4, w5, w6, w7, c11, c12] = *memory.as_slice() else {
            panic!(rt; "the memory has another length");
        };
        assert_eq!(rt; [c0, c1, c2, c11, c12], [AROUND; 5]);
        Ok((
            Worker::with([w0, w1, w2, w3, w4, w5, w6, w7], &registers),
            answer,
        ))
    }

    // The step has this answer, and the worker after it is that one.
    fn ends<R: Abort + Alloc<A = Global>>(
        &self,
        rt: &R,
        answer: Result<(), Report>,
        after: Worker,
    ) -> Result<(), Fail> {
        let (found, found_answer) = self.stepped(rt)?;
        let [a, q] = [self.a, self.q];
        let instruction = self.words[0];
        assert_eq!(rt;
            found_answer,
            answer,
            "at {instruction:o} with A = {a:o} and Q = {q:o}"
        );
        assert_eq!(rt;
            found,
            after,
            "at {instruction:o} with A = {a:o} and Q = {q:o}"
        );
        Ok(())
    }

    // The step is done, and this is the worker after it.
    pub(crate) fn becomes<R: Abort + Alloc<A = Global>>(
        &self,
        rt: &R,
        after: Worker,
    ) -> Result<(), Fail> {
        self.ends(rt, Ok(()), after)
    }

    // The step interrupts with this report; after it all is as before but P.
    pub(crate) fn reports<R: Abort + Alloc<A = Global>>(
        &self,
        rt: &R,
        report: Report,
        p: u32,
    ) -> Result<(), Fail> {
        self.ends(rt, Err(report), Worker { p, ..*self })
    }
}

// A row of a table: an instruction at 0; the word at 5, A and Q before its step; the same after it; and P after it.
pub(crate) fn row<R: Abort + Alloc<A = Global>>(
    rt: &R,
    instruction: u32,
    before: [u32; 3],
    after: [u32; 3],
    p: u32,
) -> Result<(), Fail> {
    let [word, a, q] = before;
    let start = Worker {
        a,
        q,
        ..Worker::doing(instruction, word)
    };
    let [word, a, q] = after;
    let end = Worker {
        a,
        q,
        p,
        ..Worker::doing(instruction, word)
    };
    start.becomes(rt, end)
}

// The reports, of relative addresses.
pub(crate) fn illegal(address: u32) -> Report {
    Report::IllegalInstruction(RelativeAddress(address))
}

pub(crate) fn protection(kind: ReferenceKind, address: u32) -> Report {
    Report::Protection(Reference {
        kind,
        address: RelativeAddress(address),
    })
}

pub(crate) fn parity(kind: ReferenceKind, address: u32, half: Half) -> Report {
    Report::Parity(
        Reference {
            kind,
            address: RelativeAddress(address),
        },
        Fault::Spoiled(half),
    )
}
