/// Which items go through a stream. Each user picks it; it is for the proofs alone.
pub trait Admits<T> {
    ghost admits: { T → Type 0 };
}
