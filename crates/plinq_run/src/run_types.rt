use plinq_crew::Gate;
use plinq_lambda::SharedLambda;
use plinq_source::Source;

/// The types of what a run is asked.
pub(crate) trait RunTypes {
    type Item: Copy + Send;

    type Lambda: SharedLambda<Item = Self::Item>;

    type Source: Source<Item = Self::Item>;

    type Gate: Gate;
}

/// Those of a lambda, a source and a gate.
impl<L: SharedLambda, S: Source<Item = L::Item>, G: Gate> RunTypes for (L, S, G) {
    type Item = L::Item;

    type Lambda = L;

    type Source = S;

    type Gate = G;
}
