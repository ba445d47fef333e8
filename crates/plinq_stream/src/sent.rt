/// An item as it goes through a stream, under the number of the one that sent it.
#[derive(Drop)]
pub struct Sent<T> {
    pub number: u64,
    pub item: T,
}
