ghost use Rattle.std.specs.Prelude.{◌≡◌, ℕ, List};
ghost use Rattle.plinq_words.specs.Named.{first_named};

/// What has a name, by which documents, plans and command lines call it.
pub trait Named: Copy {
    ghost its_name: { Self → List ℕ };

    /// Its name.
    fn name(&self) -> &'static str
        ensures { result.now ≡ its_name self.now };
}

/// The first of these that has this name. Takes no memory.
///
/// ```text
/// first_named(&[Unit::Metre, Unit::Mile], "mile")    // Some(Unit::Mile)
/// first_named(&[Unit::Metre, Unit::Mile], "miles")   // None
/// ```
pub fn first_named<T: Named>(all: &[T], name: &str) -> Option<T>
    ensures { result ≡ first_named T.its_name all.now name.now }
{
    let mut rest = all;
    while let Some((first, further)) = rest.split_first() {
        if name == first.name() {
            return Some(*first);
        }
        rest = further;
    }
    None
}
