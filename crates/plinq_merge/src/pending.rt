use plinq_source::Ending;
use std::marker::Model;

/// What a result gives, once the turn of its keys has come.
#[derive(Drop)]
pub struct Pending<T> {
    pub items: Vec<T>,
    /// How the run ends after the items, if it does.
    pub ending: Option<Ending>,
}

impl<T> Model for Pending<T> {
    ghost use Rattle.plinq_source.specs.Trace.{Trace};

    ghost Value = { Trace T };

    ghost view = { λ p. record { items = p.items.items; ending = p.ending } };
}
