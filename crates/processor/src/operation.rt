// What instructions do.

// The registers that a shift moves: A, Q, or both as one of 60 bits, A the upper one.
#[derive(Clone, Copy, Debug, PartialEq, Eq)]
pub enum Shifted {
    A,
    Q,
    Aq,
}

// The new A, of the old A, Q and the operand Y.
#[derive(Clone, Copy, Debug, PartialEq, Eq)]
pub enum Computation {
    // A + Y and A − Y
    Sum,
    Difference,
    // Y + 1 and Y − 1
    Increment,
    Decrement,
    // the logical product of Y and Q, alone, added to A and taken from A
    Product,
    SumWithProduct,
    DifferenceWithProduct,
    // A with the bits where Y has ones set, turned over and cleared
    SelectiveSet,
    SelectiveComplement,
    SelectiveClear,
    // A with the bits of Y where Q has ones
    SelectiveSubstitute,
}

// What an instruction does.
#[derive(Clone, Copy, Debug, PartialEq, Eq)]
pub enum Operation {
    ShiftRight(Shifted),
    ShiftLeft(Shifted),
    ShiftRightLogical(Shifted),
    ScaleFactor,
    EnterQ,
    EnterA,
    EnterB,
    EnterAq,
    StoreQ,
    StoreA,
    StoreB,
    StoreAq,
    StoreProduct,
    PackLower,
    Compute(Computation),
    Replace(Computation),
    CompareMasked,
    CompareAqEqual,
    CompareAqLess,
    MaskedEqual,
    MaskedLess,
    Jump,
    ReturnJump,
    SkipOnB,
    JumpOnB,
    ExecutiveReturn,
    TestAndSet,
}
