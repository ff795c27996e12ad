ghost use Rattle.std.specs.Prelude.{◌≡◌, ℕ, List};
ghost use Rattle.std.specs.List.{slice_get};

// A column of numbers that a sheet reads.
pub trait Column {
    ghost numbers: { Self → List ℕ };

    // The number at a place, none beyond the column's end.
    fn number(&self, place: usize) -> Option<u32>
        ensures { result ≡ slice_get (numbers self.now) place };
}

// A column that its owner lends.
impl<'a> Column for &'a [u32] {
    ghost numbers = { λ x. x.now };

    fn number(&self, place: usize) -> Option<u32> {
        self.get(place).copied()
    }
}
