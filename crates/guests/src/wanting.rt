// Who wants to run in a slice, one bit for each guest.
ghost use Rattle.std.specs.Prelude.{◌≡◌, count_ones};

#[derive(Clone, Copy, PartialEq, Eq, Debug)]
pub struct Runnable {
    pub bits: u64,
}

impl Runnable {
    // How many want to run.
    pub fn count(self) -> u32
        ensures { result ≡ count_ones self.bits }
    {
        self.bits.count_ones()
    }
}
