ghost use Rattle.std.specs.Prelude.{⊤};

use plinq_merge::Sink;

/// A sink that counts and adds up the numbers which it takes, without any memory. From one batch on it refuses all with 9.
///
/// It wants so many copies of a first number, then as many of the next, and so on, and notes whether others came.
#[derive(Drop)]
pub struct Counted {
    /// How many batches it has taken.
    pub batches: u64,
    /// How many numbers the shortest of them had; the greatest number before the first one.
    pub fewest: usize,
    /// How many numbers the longest had.
    pub most: usize,
    /// How many numbers it has taken.
    pub count: i64,
    /// What these are added up.
    pub sum: i64,
    /// Whether all that came were those which it wants, in their order.
    pub is_in_order: bool,
    /// How many batches it takes.
    refused: u64,
    /// The number that it wants next, how many copies it wants of each, and how many more of that one.
    wanted: i64,
    copies: u64,
    left: u64,
}

impl Counted {
    /// It wants the numbers from this one on, each once, and refuses no batch.
    pub fn numbers_from(first: i64) -> Counted {
        Counted::new(first, 1, u64::MAX)
    }

    /// It wants so many copies of each number from 0 on, and refuses no batch.
    pub fn copies(copies: u64) -> Counted {
        Counted::new(0, copies, u64::MAX)
    }

    /// It takes so many batches of any numbers, and refuses all after them.
    pub fn refusing(batches: u64) -> Counted {
        Counted::new(0, 1, batches)
    }

    fn new(first: i64, copies: u64, refused: u64) -> Counted {
        Counted {
            batches: 0,
            fewest: usize::MAX,
            most: 0,
            count: 0,
            sum: 0,
            is_in_order: true,
            refused,
            wanted: first,
            copies,
            left: copies,
        }
    }

    fn take_in(&mut self, item: i64) {
        self.count = self.count.wrapping_add(1);
        self.sum = self.sum.wrapping_add(item);
        self.is_in_order = self.is_in_order && item == self.wanted;
        self.left = self.left.wrapping_sub(1);
        if self.left == 0 {
            self.wanted = self.wanted.wrapping_add(1);
            self.left = self.copies;
        }
    }
}

impl Sink for Counted {
    type Item = i64;

    ghost accepts = { λ _ _ _. ⊤ };

    ghost refuses = { λ _ _ _ _. ⊤ };

    fn batch(&mut self, items: &[i64]) -> Result<(), u32> {
        if self.batches == self.refused {
            return Err(9);
        }
        self.batches = self.batches.wrapping_add(1);
        self.fewest = self.fewest.min(items.len());
        self.most = self.most.max(items.len());
        for item in items {
            self.take_in(*item);
        }
        Ok(())
    }
}
