//! Pairs as what is grouped or ranked: the first of a pair is its key or its rank, the second what becomes of it.
ghost use Rattle.std.specs.Prelude.{◌≡◌};

use plinq_groups::{FieldOf, KeyOf, RankOf};
use std::hash::Hash;
use std::marker::PhantomData;

/// The first of each pair, as a key or a rank.
#[derive(Drop)]
pub(crate) struct FirstOf<K, V> {
    pair: PhantomData<(K, V)>,
}

/// The second of each pair, as a field.
#[derive(Drop)]
pub(crate) struct SecondOf<K, V> {
    pair: PhantomData<(K, V)>,
}

impl<K, V> FirstOf<K, V> {
    pub(crate) fn new() -> FirstOf<K, V> {
        FirstOf { pair: PhantomData }
    }
}

impl<K, V> SecondOf<K, V> {
    pub(crate) fn new() -> SecondOf<K, V> {
        SecondOf { pair: PhantomData }
    }
}

impl<K: Eq + Hash + Copy + Send + Sync, V: Copy + Sync> KeyOf for FirstOf<K, V> {
    type Item = (K, V);

    type Key = K;

    ghost keys = { λ _ p. p.0 };

    fn key_of(&self, x: (K, V)) -> K {
        x.0
    }
}

impl<K: Copy + Sync, V: Copy + Sync> FieldOf for SecondOf<K, V> {
    type Item = (K, V);

    type Field = V;

    ghost fields = { λ _ p. p.1 };

    fn field_of(&self, x: (K, V)) -> V {
        x.1
    }
}

impl<K: Ord + Copy + Send + Sync, V: Copy + Send + Sync> RankOf for FirstOf<K, V> {
    type Item = (K, V);

    type Rank = K;

    ghost ranks = { λ _ p. p.0 };

    fn rank_of(&self, x: (K, V)) -> K {
        x.0
    }
}
