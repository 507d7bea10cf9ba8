// The statements of a script, and how words make one.
#![tactic(auto, using(crate::proofs::Texts::length_texts, crate::proofs::Texts::text_at))]

ghost use Rattle.std.specs.Prelude.{◌≡◌, ◌∷◌, IsOk, IsTrue};
ghost use Rattle.script.specs.Failure.{Gives, ran_out};
ghost use Rattle.script.specs.Line.{texts};
ghost use Rattle.script.specs.Statement.{statement_seen, read_statement, half_of, kind_of, size_of, part_of, single_statement, pair_statement, layout_statement, memory_statement, damage_statement, raw_statement, count_statement, fetch_statement, put_statement, put_half_statement, install_statement, plain_statement, named_statement, carries_bytes, statement_of};

use crate::call;
use crate::failure::Failure;
use crate::number::{read_number, read_number_up_to};
use crate::reason::Reason;
use engine::Call;
use memories::{Kind, Layout, Part, Rule, Side};
use std::alloc::Global;
use store::{CellAddress, Half, Operation};

// The most numbers that a script's memory may have.
const MOST_NUMBERS: u32 = 262_144;

// B is what bytes are given in.
#[derive(Clone, Debug, PartialEq, Eq, Drop)]
pub enum Statement<B> {
    // makes the memories
    Memory(Layout),
    // makes a number of a memory another
    Raw { side: Side, index: u32, value: u32 },
    // does a function of the store
    Operation(Operation),
    // makes an installation over the memories
    Install,
    // calls it
    Call(Call<B>),
}

// A function: a TryFrom would have to stand in `store`, and would need an error type of its own there.
fn read_half(word: &[u8]) -> Result<Half, Reason>
    ensures { result ≡ half_of word.now }
{
    match word {
        b"upper" => Ok(Half::Upper),
        b"lower" => Ok(Half::Lower),
        _ => Err(Reason::UnknownWord),
    }
}

// KIND
fn read_kind(word: &[u8]) -> Result<Kind, Reason>
    ensures { result ≡ kind_of word.now }
{
    match word {
        b"word" => Ok(Kind::Word),
        b"parity" => Ok(Kind::Parity),
        _ => Err(Reason::UnknownWord),
    }
}

// N
fn read_size(word: &[u8]) -> Result<u32, Reason>
    ensures { result ≡ size_of word.now }
{
    read_number_up_to(MOST_NUMBERS, word)
}

// KIND N
fn read_part(kind: &[u8], size: &[u8]) -> Result<Part, Reason>
    ensures { result ≡ part_of kind.now size.now }
{
    let kind = read_kind(kind)?;
    let size = read_size(size)?;
    Ok(Part { kind, size })
}

// memory KIND N
fn single(kind: &[u8], args: &[&[u8]]) -> Result<Statement<Vec<u8>>, Reason>
    ensures { read_statement result ≡ single_statement kind.now (texts args.now) }
{
    let kind = read_kind(kind)?;
    let [size] = args else {
        return Err(Reason::WordCount);
    };
    let size = read_size(size)?;
    Ok(Statement::Memory(Layout::Single(Part { kind, size })))
}

// memory continuous KIND N KIND M, memory interleaved KIND N KIND M
fn pair(rule: Rule, args: &[&[u8]]) -> Result<Statement<Vec<u8>>, Reason>
    ensures { read_statement result ≡ pair_statement rule (texts args.now) }
{
    let [first_kind, first_size, second_kind, second_size] = args else {
        return Err(Reason::WordCount);
    };
    let first = read_part(first_kind, first_size)?;
    let second = read_part(second_kind, second_size)?;
    Ok(Statement::Memory(Layout::Pair {
        rule,
        first,
        second,
    }))
}

// The word after `memory` says what follows.
fn layout(word: &[u8], args: &[&[u8]]) -> Result<Statement<Vec<u8>>, Reason>
    ensures { read_statement result ≡ layout_statement word.now (texts args.now) }
{
    // Not a match: with texts as long as these the last arm's goal stays open.
    if word == b"continuous".as_slice() {
        pair(Rule::Continuous, args)
    } else if word == b"interleaved".as_slice() {
        pair(Rule::Interleaved, args)
    } else {
        single(word, args)
    }
}

#[tactic(auto, using(crate::proofs::Texts::texts_short, crate::proofs::Texts::texts_first))]
fn memory(args: &[&[u8]]) -> Result<Statement<Vec<u8>>, Reason>
    ensures { read_statement result ≡ memory_statement (texts args.now) }
{
    let [word, args @ ..] = args else {
        return Err(Reason::WordCount);
    };
    layout(word, args)
}

// raw INDEX VALUE, raw second INDEX VALUE
fn damage(side: Side, args: &[&[u8]]) -> Result<Statement<Vec<u8>>, Reason>
    ensures { read_statement result ≡ damage_statement side (texts args.now) }
{
    let [index, value] = args else {
        return Err(Reason::WordCount);
    };
    let index = read_number(index)?;
    let value = read_number(value)?;
    Ok(Statement::Raw { side, index, value })
}

#[tactic(auto, using(crate::proofs::Texts::texts_short, crate::proofs::Texts::texts_first))]
fn raw(args: &[&[u8]]) -> Result<Statement<Vec<u8>>, Reason>
    ensures { read_statement result ≡ raw_statement (texts args.now) }
{
    match args {
        [word, args @ ..] if *word == b"second".as_slice() => damage(Side::Second, args),
        _ => damage(Side::First, args),
    }
}

// count
fn count(args: &[&[u8]]) -> Result<Statement<Vec<u8>>, Reason>
    ensures { read_statement result ≡ count_statement (texts args.now) }
{
    let [] = args else {
        return Err(Reason::WordCount);
    };
    Ok(Statement::Operation(Operation::Count))
}

// fetch CELL
fn fetch(args: &[&[u8]]) -> Result<Statement<Vec<u8>>, Reason>
    ensures { read_statement result ≡ fetch_statement (texts args.now) }
{
    let [cell] = args else {
        return Err(Reason::WordCount);
    };
    let address = CellAddress(read_number(cell)?);
    Ok(Statement::Operation(Operation::Fetch(address)))
}

// put CELL WORD
fn put(args: &[&[u8]]) -> Result<Statement<Vec<u8>>, Reason>
    ensures { read_statement result ≡ put_statement (texts args.now) }
{
    let [cell, word] = args else {
        return Err(Reason::WordCount);
    };
    let address = CellAddress(read_number(cell)?);
    let word = read_number(word)?;
    Ok(Statement::Operation(Operation::PutWhole { address, word }))
}

// put-half CELL upper|lower HALF
fn put_half(args: &[&[u8]]) -> Result<Statement<Vec<u8>>, Reason>
    ensures { read_statement result ≡ put_half_statement (texts args.now) }
{
    let [cell, half, value] = args else {
        return Err(Reason::WordCount);
    };
    let address = CellAddress(read_number(cell)?);
    let half = read_half(half)?;
    let value = read_number(value)?;
    Ok(Statement::Operation(Operation::PutHalf {
        address,
        half,
        value,
    }))
}

// install
fn install(args: &[&[u8]]) -> Result<Statement<Vec<u8>>, Reason>
    ensures { read_statement result ≡ install_statement (texts args.now) }
{
    let [] = args else {
        return Err(Reason::WordCount);
    };
    Ok(Statement::Install)
}

// The statement of a name that carries no bytes. Not a match: with so many texts the last arm's goal stays open.
fn read_plain(name: &[u8], args: &[&[u8]]) -> Result<Statement<Vec<u8>>, Reason>
    ensures { read_statement result ≡ plain_statement name.now (texts args.now) }
{
    if name == b"memory".as_slice() {
        memory(args)
    } else if name == b"raw".as_slice() {
        raw(args)
    } else if name == b"count".as_slice() {
        count(args)
    } else if name == b"fetch".as_slice() {
        fetch(args)
    } else if name == b"put".as_slice() {
        put(args)
    } else if name == b"put-half".as_slice() {
        put_half(args)
    } else if name == b"install".as_slice() {
        install(args)
    } else {
        Ok(Statement::Call(call::plain(name, args)?))
    }
}

// The statement of a name and the words after it.
fn read_named(
    heap: Global,
    name: &[u8],
    args: &[&[u8]],
) -> Result<Statement<Vec<u8>>, Failure<Reason>>
    ensures value { Gives statement_seen result (named_statement name.now (texts args.now)) }
    ensures out_of_memory { IsTrue (ran_out result) → IsOk (named_statement name.now (texts args.now)) }
    ensures bytes { IsTrue (ran_out result) → IsTrue (carries_bytes (name.now ∷ texts args.now)) }
{
    if name == b"save".as_slice() {
        Ok(Statement::Call(call::save(heap, args)?))
    } else if name == b"restore".as_slice() {
        Ok(Statement::Call(call::restore(heap, args)?))
    } else {
        Ok(read_plain(name, args)?)
    }
}

// The statement that the words of a line make.
#[tactic(auto, using(crate::proofs::Texts::texts_short, crate::proofs::Texts::texts_first), unfolding(crate::specs::Statement::statement_of))]
pub fn read_statement(heap: Global, words: &[&[u8]]) -> Result<Statement<Vec<u8>>, Failure<Reason>>
    ensures value { Gives statement_seen result (statement_of (texts words.now)) }
    ensures out_of_memory { IsTrue (ran_out result) → IsOk (statement_of (texts words.now)) }
    ensures bytes { IsTrue (ran_out result) → IsTrue (carries_bytes (texts words.now)) }
{
    let [name, args @ ..] = words else {
        return Err(Reason::WordCount.into());
    };
    read_named(heap, name, args)
}
