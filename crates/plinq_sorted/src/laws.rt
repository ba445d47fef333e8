//! What an order is, each law the contract of a function with nothing to do.
ghost use Rattle.std.specs.Prelude.{◌≡◌, List};
ghost use Rattle.plinq_sorted.specs.Orders.{IsOrderOf};

/// Two lists of the same items in ascending order, in which those of equal ranks stand as they came, are the same.
pub fn there_is_one_order<T, K: Ord>()
    ensures { (rank : T → K) (xs ys zs : List T) → IsOrderOf rank K.cmp xs ys → IsOrderOf rank K.cmp xs zs → ys ≡ zs }
{}
