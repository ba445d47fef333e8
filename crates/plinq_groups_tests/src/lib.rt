//! The tests of groups and of aggregates made of others: beside a plain loop, by one thread and by several, for keys that are
//! one, few, all different, or collide; a great number of groups; what the workers make of items, and what is reported to a
//! sink of that while nothing comes; items in the order of their ranks; what a token stops; and with each allocation refused in turn.
#![tactic(auto)]

#[cfg(test)]
mod grouped;
#[cfg(test)]
mod hostile;
#[cfg(test)]
mod idle_sinks;
#[cfg(test)]
mod keys;
#[cfg(test)]
mod made_by_workers;
#[cfg(test)]
mod ordered;
#[cfg(test)]
mod others;
#[cfg(test)]
mod refused_room;
#[cfg(test)]
mod stopped;
