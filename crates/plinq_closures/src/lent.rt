use crate::steps::Steps;
use plinq_ops::Op;

/// The steps of a chain that is lent, so that one step more can be put on them.
#[derive(Drop)]
pub(crate) struct Lent<'a, S> {
    pub(crate) steps: &'a S,
}

impl<'a, S: Steps> Steps for Lent<'a, S> {
    type Item = S::Item;

    ghost is_called = { λ s. S.is_called s.steps.now };

    ghost in_one_way = { λ s. S.in_one_way s.steps.now };

    ghost gives = { λ s. S.gives s.steps.now };

    ghost gives_one = { λ s. S.gives_one s.steps.now };

    ghost does = { λ s ops. S.does s.steps.now ops };

    ghost kinds = { λ s. S.kinds s.steps.now };

    ghost maps = { λ s at x r. S.maps s.steps.now at x r };

    ghost tests = { λ s at x r. S.tests s.steps.now at x r };

    fn count(&self) -> Option<u64> {
        self.steps.count()
    }

    fn kind(&self, at: u64) -> Op<()> {
        self.steps.kind(at)
    }

    fn map(&self, at: u64, x: S::Item) -> Result<S::Item, u32> {
        self.steps.map(at, x)
    }

    fn test(&self, at: u64, x: S::Item) -> Result<bool, u32> {
        self.steps.test(at, x)
    }

    fn map_block(&self, at: u64, block: &mut [S::Item]) -> (usize, Option<u32>) {
        self.steps.map_block(at, block)
    }

    fn filter_block(&self, at: u64, block: &mut [S::Item]) -> (usize, Option<u32>) {
        self.steps.filter_block(at, block)
    }

    fn count_passing(&self, at: u64, block: &[S::Item]) -> (usize, Option<u32>) {
        self.steps.count_passing(at, block)
    }

    ghost one_call = { λ s way. S.one_call s.steps.now way };

    ghost map_gives = { λ s some. S.map_gives s.steps.now some };

    ghost test_gives = { λ s some. S.test_gives s.steps.now some };

    ghost map_gives_one = { λ s one. S.map_gives_one s.steps.now one };

    ghost test_gives_one = { λ s one. S.test_gives_one s.steps.now one };

    ghost comes_to = { λ s one. S.comes_to s.steps.now one };
}
