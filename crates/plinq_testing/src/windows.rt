/// How many items a chunk has, if workers may be so far ahead as [`most_ahead`] says.
pub const CHUNK: u64 = 512;

/// How many keys workers may be ahead of what is merged, for each of them, in chunks of 512: 240 such chunks, of which each takes
/// 512 times 8 bytes and 256 more, fill 1,048,576 bytes.
const AHEAD: u64 = 122_880;

/// How many keys so many workers may be ahead, each of which may take a chunk more.
pub fn most_ahead(workers: u64) -> u64 {
    workers.saturating_mul(AHEAD.saturating_add(CHUNK))
}
