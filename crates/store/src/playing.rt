// Lists of a store's functions: on one store, and the same list on two.
ghost use Rattle.std.specs.Prelude.{◌≡◌, ◌+◌, ◌≤◌, ◌++◌, length, is_ok, IsOk, IfOk, OnOk, OnErr, if◌then◌else◌, vec_len, vec_capacity};
ghost use Rattle.store.specs.Operations.{replies, left_by, DoesAll, Alike};

use super::{Operation, Reply, Store, perform};
use std::alloc::{AllocError, Global};

// Does a list of them, and adds the answers.
fn play_into<S: Store>(answers: &mut Vec<Reply>, store: &mut S, operations: &[Operation])
    requires { vec_len answers.old + length operations.now ≤ vec_capacity answers.old }
    ensures answers { answers.new.items ≡ answers.old.items ++ replies (S.cells store.old) operations.now }
    ensures after { S.cells store.new ≡ left_by (S.cells store.old) operations.now }
    ensures does { DoesAll S.cells S.puts_whole S.puts_half operations.now store.old store.new }
{
    // A loop, and no `collect`: room for all the answers was made before the first function is done.
    for operation in operations {
        answers.push_reserved(perform(store, *operation));
    }
}

// Does a list of a store's functions. Where there is no memory for the answers, nothing is done.
pub fn play<S: Store>(
    heap: Global,
    store: &mut S,
    operations: &[Operation],
) -> Result<Vec<Reply>, AllocError>
    ensures answers { IfOk result (λ v. v.items ≡ replies (S.cells store.old) operations.now) }
    ensures after { S.cells store.new ≡ (if is_ok result then left_by (S.cells store.old) operations.now else S.cells store.old) }
    ensures does { OnOk result (DoesAll S.cells S.puts_whole S.puts_half operations.now store.old store.new) }
    ensures out_of_memory { OnErr result (store.new ≡ store.old) }
    ensures nothing_to_play { length operations.now ≡ 0 → IsOk result }
{
    let mut answers = Vec::with_capacity(heap, operations.len())?;
    play_into(&mut answers, store, operations);
    Ok(answers)
}

// Does the same list on two stores. If they mean equal rows before, they answer the same and mean equal rows after, whatever lies under them.
pub fn play_both<S: Store, T: Store>(
    heap: Global,
    first: &mut S,
    second: &mut T,
    operations: &[Operation],
) -> Result<(Vec<Reply>, Vec<Reply>), AllocError>
    ensures alike { IfOk result (λ p. Alike (S.cells first.old) (T.cells second.old) (S.cells first.new) (T.cells second.new) p.0.items p.1.items) }
    ensures answers { IfOk result (λ p. (p.0.items ≡ replies (S.cells first.old) operations.now) × (p.1.items ≡ replies (T.cells second.old) operations.now)) }
    ensures after_first { S.cells first.new ≡ (if is_ok result then left_by (S.cells first.old) operations.now else S.cells first.old) }
    ensures after_second { T.cells second.new ≡ (if is_ok result then left_by (T.cells second.old) operations.now else T.cells second.old) }
    ensures first_does { OnOk result (DoesAll S.cells S.puts_whole S.puts_half operations.now first.old first.new) }
    ensures second_does { OnOk result (DoesAll T.cells T.puts_whole T.puts_half operations.now second.old second.new) }
    ensures out_of_memory { OnErr result ((first.new ≡ first.old) × (second.new ≡ second.old)) }
    ensures nothing_to_play { length operations.now ≡ 0 → IsOk result }
{
    let mut first_answers = Vec::with_capacity(heap, operations.len())?;
    let mut second_answers = Vec::with_capacity(heap, operations.len())?;
    play_into(&mut first_answers, first, operations);
    play_into(&mut second_answers, second, operations);
    Ok((first_answers, second_answers))
}
