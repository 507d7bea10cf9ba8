use super::half::Half;

// Why a store's function did nothing: there is no such cell, or a half of it is spoiled.
#[derive(Clone, Copy, Debug, PartialEq, Eq)]
pub enum Fault {
    NoCell,
    Spoiled(Half),
}
