//! Sources of units that count their reads.

ghost use Rattle.std.specs.Prelude.{List, length, slice_index_or, ℕ, ◌+◌, ◌<◌, ◌^◌, ◌≡◌};

/// A list of units that are read one at a time, and the number of reads so far.
pub trait Source<U> {
    ghost units: { Self → List U };

    ghost reads: { Self → ℕ };

    /// Unit i. The number of reads is raised by one.
    fn read(&mut self, i: usize) -> U
        requires there { i < length (units self.old) }
        requires few { reads self.old < 2 ^ 63 }
        ensures unit { result ≡ slice_index_or (units self.old) i result }
        ensures units { units self.new ≡ units self.old }
        ensures reads { reads self.new ≡ reads self.old + 1 };

    /// The number of reads so far.
    fn reads(&self) -> u64
        ensures { result ≡ reads self.now };
}
