//! Grouping in parallel, and aggregates made of others.
//!
//! [`GroupBy`] folds the items of each key apart. It is a `GrowingAggregator`, so `aggregate` of `plinq_run` groups a query's
//! answer by threads. The groups stand in the order of their first items (`laws`): an ordered query's groups are those of its
//! sequential answer, and each folds its items in their order. [`Collect`], [`First`], [`Last`], [`Single`], [`LeastBy`],
//! [`GreatestBy`], [`Top`], [`By`] and [`Both`] are aggregators of a group, or of a whole answer; their laws come from those of what
//! they are made of.
//!
//! A step to another type is a [`MakeOf`], and two of them are one by [`Then`]. [`MapEach`] lists what is made of each item, and
//! [`FoldEach`] aggregates it.
#![tactic(auto)]

mod both;
mod by;
mod collect;
mod field_of;
mod first;
mod fold_each;
mod greatest_by;
mod group_by;
mod groups;
mod items;
mod key_of;
mod last;
pub mod laws;
mod least_by;
mod make_of;
mod map_each;
mod map_fault;
mod mapped;
mod only;
mod rank_of;
mod single;
mod then;
mod top;

pub use both::Both;
pub use by::By;
pub use collect::Collect;
pub use field_of::FieldOf;
pub use first::First;
pub use fold_each::FoldEach;
pub use greatest_by::GreatestBy;
pub use group_by::GroupBy;
pub use groups::Groups;
pub use items::Items;
pub use key_of::KeyOf;
pub use last::Last;
pub use least_by::LeastBy;
pub use make_of::MakeOf;
pub use map_each::MapEach;
pub use map_fault::MapFault;
pub use mapped::Mapped;
pub use only::Only;
pub use rank_of::RankOf;
pub use single::Single;
pub use then::Then;
pub use top::Top;
