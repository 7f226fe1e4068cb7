//! What each node reads at its turn in a sample.
ghost use Rattle.std.specs.Prelude.{◌≡◌, ◌<◌, ◌≤◌, ◌∷◌, ◌++◌, ◌+◌, ◌-◌, ◌^◌, ℕ, List, length, slice_index_or, [], vec_len};
ghost use Rattle.std.specs.Prelude.{vec_capacity};
ghost use Rattle.std.specs.List.{All};
ghost use Rattle.ugen_sample.specs.Connection.{Connection};
ghost use Rattle.ugen_sample.specs.Order.{sources_of};
ghost use Rattle.ugen_graph.specs.Turns.{AreTurns, IsTurn, as_one, nodes_of};
ghost use Rattle.ugen_graph.specs.Walks.{AreWithin};
ghost use Rattle.ugen_graph.specs.Wires.{IsWired};

use crate::sources::Sources;

/// The turn of some nodes. Most have a source or none, and a sample finds it here.
#[derive(Clone, Copy, PartialEq, Eq)]
pub(crate) enum Turn {
    /// Those from the first up to the one before the end, one after another. None has a source.
    Alone { first: usize, end: usize },
    /// One that has just one source.
    Fed { node: usize, source: usize },
    /// One that has several, or is `dac`.
    Joined(usize),
}

impl Turn {
    /// That of a node with these sources.
    fn new(n: usize, sources: &[usize]) -> Turn
        requires node { n < 2 ^ 64 - 1 }
        ensures nodes { nodes_of result ≡ n ∷ [] }
        ensures turn { (size : ℕ) (connections : List Connection) → n < size →
            All (λ m. m < size) sources.now → sources_of connections n ≡ sources.now →
            IsTurn size connections result }
    {
        if n == 0 {
            return Turn::Joined(n);
        }
        match sources.split_first() {
            None => Turn::Alone {
                first: n,
                end: n + 1,
            },
            Some((&source, rest)) => {
                if rest.is_empty() {
                    Turn::Fed { node: n, source }
                } else {
                    Turn::Joined(n)
                }
            }
        }
    }

    /// This one and the next as one, where both are of nodes without sources, side by side.
    fn with(self, next: Turn) -> Option<Turn>
        ensures { result ≡ as_one self next }
    {
        match (self, next) {
            (
                Turn::Alone { first, end },
                Turn::Alone {
                    first: m,
                    end: after,
                },
            ) if end == m => { Some(Turn::Alone { first, end: after }) }
            _ => None,
        }
    }
}

/// The turns of the nodes in this order.
pub(crate) fn find_turns(order: &[usize], sources: &[Sources], turns: &mut Vec<Turn>)
    requires within { All (λ n. n < length sources.now) order.now }
    requires sources { AreWithin (length sources.now) sources.now }
    requires room { length order.now ≤ vec_capacity turns.old }
    ensures found { (connections : List Connection) → IsWired connections sources.now →
        AreTurns (length sources.now) connections order.now turns.new.items }
    ensures capacity { vec_capacity turns.new ≡ vec_capacity turns.old }
{
    turns.clear();
    for &n in order {
        add(turns, Turn::new(n, sources[n].nodes()));
    }
}

/// Adds a turn at the end: as one with the last, where that may be.
fn add(turns: &mut Vec<Turn>, turn: Turn)
    requires room { vec_len turns.old < vec_capacity turns.old }
    ensures added { (size : ℕ) (connections : List Connection) (nodes : List ℕ) →
        AreTurns size connections nodes turns.old.items → IsTurn size connections turn →
        AreTurns size connections (nodes ++ nodes_of turn) turns.new.items }
    ensures count { vec_len turns.new ≤ vec_len turns.old + 1 }
    ensures capacity { vec_capacity turns.new ≡ vec_capacity turns.old }
{
    let Some(last) = turns.pop() else {
        turns.push_reserved(turn);
        return;
    };
    match last.with(turn) {
        Some(both) => turns.push_reserved(both),
        None => {
            turns.push_reserved(last);
            turns.push_reserved(turn);
        }
    }
}
